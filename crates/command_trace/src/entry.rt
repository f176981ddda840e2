// A command of a trace.
ghost use Rattle.std.specs.Prelude.{◌≡◌};
ghost use Rattle.command_trace.specs.Following.{issued_of};

use auto_precharge::Issued;
use ddr4_timing::command::Stamped;

/// A command of a trace, and the number of the channel that it goes to.
#[derive(Clone, Copy, Debug, PartialEq, Eq)]
pub struct ChannelCommand {
    pub channel: u64,
    pub command: Stamped,
}

/// A command of a trace, and the line on which it stands; lines count from 1. Where `closes` is true, it is a read or a write with
/// auto-precharge: its bank closes itself behind it.
#[derive(Clone, Copy, Debug, PartialEq, Eq)]
pub struct Located {
    pub line: u64,
    pub entry: ChannelCommand,
    pub closes: bool,
}

impl Located {
    /// It as a command of its channel.
    #[inline(always)]
    pub fn issued(&self) -> Issued
        ensures { result ≡ issued_of self.now }
    {
        Issued {
            line: self.line,
            command: self.entry.command,
            closes: self.closes,
        }
    }
}
