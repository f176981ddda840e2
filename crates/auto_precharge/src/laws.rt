// What the definitions say in other words. The function has no code.
ghost use Rattle.std.specs.Prelude.{◌≡◌, ◌↔◌, List, All, false};
ghost use Rattle.ddr4_timing.specs.Lawful.{IsLawfulBy};
ghost use Rattle.ddr4_timing.specs.declared.timing.CommandRules.{CommandRules};
ghost use Rattle.auto_precharge.specs.Unfolding.{IsLawfulTrace, plain_commands};
ghost use Rattle.auto_precharge.specs.declared.issued.Issued.{Issued};

/// Where no command of a channel closes its bank by itself, they are lawful exactly where they are as a list of commands.
pub fn plain_traces()
    ensures { (r : CommandRules) (found : List Issued) → All (λ x. x.closes ≡ false) found
        → (IsLawfulTrace r found ↔ IsLawfulBy r (plain_commands found)) }
{}
