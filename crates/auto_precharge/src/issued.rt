// A command of a channel.
use ddr4_timing::command::Stamped;

/// A command of a channel, the line on which it stands, and whether it is with auto-precharge. Where `closes` is true of a read or a
/// write, its bank closes itself behind it; of the other commands it says nothing.
#[derive(Clone, Copy, Debug, PartialEq, Eq)]
pub struct Issued {
    pub line: u64,
    pub command: Stamped,
    pub closes: bool,
}
