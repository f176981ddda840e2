// Whether what is told has colors.
ghost use Rattle.std.specs.Prelude.{◌≡◌, ◌↔◌, [], true, IfSome};

/// Is a fault told in color? Where a terminal shows it, unless `NO_COLOR` is in the environment and not empty (no-color.org).
pub fn is_colored(is_terminal: bool, no_color: Option<&str>) -> bool
    ensures { (result ≡ true)
        ↔ ((is_terminal ≡ true) × IfSome no_color.entry (λ text. text.now ≡ [])) }
{
    match no_color {
        Some(text) => is_terminal && text.is_empty(),
        None => is_terminal,
    }
}
