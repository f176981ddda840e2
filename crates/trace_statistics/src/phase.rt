// How a bank stands.
ghost use Rattle.std.specs.Prelude.{◌≡◌, ◌∷◌, List};
ghost use Rattle.auto_precharge.specs.declared.issued.Issued.{Issued};
ghost use Rattle.trace_statistics.specs.Standing.{phase_of};

use auto_precharge::Issued;
use ddr4_timing::command::Command;

/// How a bank stands, by the last commands that touched it.
#[derive(Clone, Copy, Debug, PartialEq, Eq)]
pub enum Phase {
    /// Closed by nothing yet, by a read or write itself, or by a command to the whole rank.
    Closed,
    /// Closed by a PRE of it alone.
    Precharged,
    /// Open behind an ACT that found it closed.
    Opened,
    /// Open behind an ACT right behind a PRE of it alone.
    Reopened,
    /// Open, and its row was read or written.
    Used,
}

impl Phase {
    /// Behind a command that touches the bank.
    pub(crate) fn after(self, next: &Issued) -> Phase
        ensures { (before : List Issued) → self ≡ phase_of before
            → result ≡ phase_of (next.now ∷ before) }
    {
        match next.command.cmd {
            Command::Act { .. } if self == Phase::Precharged => Phase::Reopened,
            Command::Act { .. } => Phase::Opened,
            Command::Rd { .. } | Command::Wr { .. } if next.closes => Phase::Closed,
            Command::Rd { .. } | Command::Wr { .. } => Phase::Used,
            Command::Pre { .. } => Phase::Precharged,
            Command::PreAll { .. } | Command::Ref { .. } | Command::Sre { .. } => Phase::Closed,
        }
    }
}
