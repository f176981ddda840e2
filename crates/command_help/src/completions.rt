// The scripts by which shells complete the words.
ghost use Rattle.std.specs.Prelude.{◌≡◌, ◌↔◌, codes, Some, None};
ghost use Rattle.command_help.specs.declared.completions.Shell.TheVariants.{Bash, Zsh, Fish};

use crate::terms::known_terms;
use command_words::{Operand, Switch, Verb, WHY, WordKind, verbs};
use std::fmt::{self, Display};
use std::io::{self, Write};

/// A shell.
#[derive(Clone, Copy, Debug, PartialEq, Eq)]
pub enum Shell {
    Bash,
    Zsh,
    Fish,
}

impl Shell {
    /// The shell of this name.
    pub fn named(name: &str) -> Option<Shell>
        ensures bash { (result ≡ Some Bash) ↔ (name.now ≡ codes "bash") }
        ensures zsh { (result ≡ Some Zsh) ↔ (name.now ≡ codes "zsh") }
        ensures fish { (result ≡ Some Fish) ↔ (name.now ≡ codes "fish") }
    {
        match name {
            "bash" => Some(Shell::Bash),
            "zsh" => Some(Shell::Zsh),
            "fish" => Some(Shell::Fish),
            _ => None,
        }
    }
}

/// Writes the script by which a shell completes the words of the program: its verbs, and behind each verb its options, the words
/// that its operands may be, and files where one may be a file.
pub fn write_completions<W: Write>(shell: Shell, writer: &mut W) -> io::Result<()> {
    match shell {
        Shell::Bash => write_bash(writer),
        Shell::Zsh => write_zsh(writer),
        Shell::Fish => write_fish(writer),
    }
}

// A text within the single quotes of a shell.
#[derive(Clone, Copy, Drop)]
struct Quoted<'t> {
    shell: Shell,
    text: &'t str,
}

impl Display for Quoted<'_> {
    fn fmt<W: fmt::Write>(&self, f: &mut fmt::Formatter<W>) -> fmt::Result {
        for letter in self.text.chars() {
            match (self.shell, letter) {
                (Shell::Fish, '\'') => f.write_str("\\'")?,
                (_, '\'') => f.write_str("'\\''")?,
                (Shell::Zsh, '[' | ']' | ':') => write!(f, "\\{letter}")?,
                _ => write!(f, "{letter}")?,
            }
        }
        Ok(())
    }
}

fn zsh(text: &str) -> Quoted<'_> {
    Quoted {
        shell: Shell::Zsh,
        text,
    }
}

fn fish(text: &str) -> Quoted<'_> {
    Quoted {
        shell: Shell::Fish,
        text,
    }
}

// The words that an operand may be, each with a space in front.
#[derive(Clone, Copy, Drop)]
struct Words {
    kind: WordKind,
}

impl Display for Words {
    fn fmt<W: fmt::Write>(&self, f: &mut fmt::Formatter<W>) -> fmt::Result {
        match self.kind {
            WordKind::Profile => f.write_str(" tiny tiny2"),
            WordKind::Shell => f.write_str(" bash zsh fish"),
            WordKind::Form => f.write_str(" ramulator2 dramsim3 plain"),
            WordKind::Term => write_terms(f),
            WordKind::File | WordKind::Number | WordKind::Columns => Ok(()),
        }
    }
}

fn write_terms<W: fmt::Write>(f: &mut fmt::Formatter<W>) -> fmt::Result {
    for term in known_terms() {
        write!(f, " {}", term.word)?;
    }
    Ok(())
}

// May an operand be a file?
fn may_be_file(kind: WordKind) -> bool {
    matches!(kind, WordKind::Profile | WordKind::File)
}

fn write_bash<W: Write>(writer: &mut W) -> io::Result<()> {
    writer.write_all(b"_nvctl() {\n    local word=${COMP_WORDS[COMP_CWORD]}\n")?;
    writer.write_all(
        b"    if [ \"$COMP_CWORD\" = 1 ]; then\n        mapfile -t COMPREPLY < <(compgen -W '--help --version --why",
    )?;
    for verb in verbs() {
        write!(writer, " {}", verb.name)?;
    }
    writer.write_all(b"' -- \"$word\")\n        return\n    fi\n    case ${COMP_WORDS[1]} in\n")?;
    for verb in verbs() {
        write_bash_verb(verb, writer)?;
    }
    writer.write_all(b"    esac\n}\ncomplete -o filenames -F _nvctl nvctl\n")
}

fn write_bash_verb<W: Write>(verb: &Verb, writer: &mut W) -> io::Result<()> {
    let takes_file = verb.operands.iter().any(|it| may_be_file(it.kind));
    let files = if takes_file { " -f" } else { "" };
    write!(
        writer,
        "    {}) mapfile -t COMPREPLY < <(compgen{files} -W '--help --why",
        verb.name
    )?;
    for switch in verb.switches {
        write!(writer, " --{}", switch.name)?;
    }
    for operand in verb.operands {
        write!(writer, "{}", Words { kind: operand.kind })?;
    }
    writer.write_all(b"' -- \"$word\") ;;\n")
}

fn write_zsh<W: Write>(writer: &mut W) -> io::Result<()> {
    writer.write_all(b"#compdef nvctl\n_nvctl() {\n    local -a verbs=(\n")?;
    for verb in verbs() {
        writeln!(writer, "        '{}:{}'", verb.name, zsh(verb.about))?;
    }
    writer.write_all(b"    )\n    if (( CURRENT == 2 )); then\n        _describe verb verbs\n")?;
    writer.write_all(
        b"        return\n    fi\n    local verb=$words[2]\n    shift words\n    (( CURRENT-- ))\n    case $verb in\n",
    )?;
    for verb in verbs() {
        write_zsh_verb(verb, writer)?;
    }
    writer.write_all(
        b"    esac\n}\nif [ \"$funcstack[1]\" = _nvctl ]; then _nvctl \"$@\"; else compdef _nvctl nvctl; fi\n",
    )
}

fn write_zsh_verb<W: Write>(verb: &Verb, writer: &mut W) -> io::Result<()> {
    write!(writer, "    {}) _arguments", verb.name)?;
    write_zsh_switch(&WHY, writer)?;
    for switch in verb.switches {
        write_zsh_switch(switch, writer)?;
    }
    for operand in verb.operands {
        write_zsh_operand(operand, writer)?;
    }
    writer.write_all(b" ;;\n")
}

fn write_zsh_switch<W: Write>(switch: &Switch, writer: &mut W) -> io::Result<()> {
    write!(writer, " '--{}[{}]", switch.name, zsh(switch.help))?;
    if let Some(value) = switch.value {
        write!(writer, ":{}:", value.name)?;
        write_zsh_action(value.kind, writer)?;
    }
    writer.write_all(b"'")
}

fn write_zsh_operand<W: Write>(operand: &Operand, writer: &mut W) -> io::Result<()> {
    let mark = if operand.is_required { ":" } else { "::" };
    write!(writer, " '{mark}{}:", operand.name)?;
    write_zsh_action(operand.kind, writer)?;
    writer.write_all(b"'")
}

// What zsh completes where a word of this kind stands.
fn write_zsh_action<W: Write>(kind: WordKind, writer: &mut W) -> io::Result<()> {
    match kind {
        WordKind::Profile => writer.write_all(b"{ compadd tiny tiny2; _files }"),
        WordKind::File => writer.write_all(b"_files"),
        WordKind::Number | WordKind::Columns => writer.write_all(b" "),
        WordKind::Term | WordKind::Shell | WordKind::Form => write!(writer, "({})", Words { kind }),
    }
}

fn write_fish<W: Write>(writer: &mut W) -> io::Result<()> {
    writeln!(
        writer,
        "complete -c nvctl -f\ncomplete -c nvctl -l {} -d '{}'",
        WHY.name,
        fish(WHY.help)
    )?;
    for verb in verbs() {
        writeln!(
            writer,
            "complete -c nvctl -n __fish_use_subcommand -a {} -d '{}'",
            verb.name,
            fish(verb.about)
        )?;
        write_fish_verb(verb, writer)?;
    }
    Ok(())
}

fn write_fish_verb<W: Write>(verb: &Verb, writer: &mut W) -> io::Result<()> {
    for operand in verb.operands {
        let files = if may_be_file(operand.kind) { " -F" } else { "" };
        writeln!(
            writer,
            "complete -c nvctl -n '__fish_seen_subcommand_from {}'{files} -a '{}'",
            verb.name,
            Words { kind: operand.kind }
        )?;
    }
    write_fish_switches(verb, writer)
}

fn write_fish_switches<W: Write>(verb: &Verb, writer: &mut W) -> io::Result<()> {
    for switch in verb.switches {
        let value = match switch.value {
            Some(value) if may_be_file(value.kind) => " -r -F",
            Some(_) => " -x",
            None => "",
        };
        writeln!(
            writer,
            "complete -c nvctl -n '__fish_seen_subcommand_from {}' -l {}{value} -d '{}'",
            verb.name,
            switch.name,
            fish(switch.help)
        )?;
    }
    Ok(())
}
