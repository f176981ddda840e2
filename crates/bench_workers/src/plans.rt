// What the hosts of a board do.
use line_memory::Write;
use std::time::Duration;

/// When the history of a board is cut.
#[derive(Clone, Copy, PartialEq, Eq)]
pub(crate) enum Cuts {
    Never,
    /// By each host, where it holds many receipts or the board has no room.
    Along,
    /// Once, when the hosts are done.
    Last,
}

/// What each of so many hosts does: it rests, and then come its writes and its reads, over the first lines. A saver goes on beside
/// them, where one is wanted. Mains are lost at the write of a number, where one is given; the module is armed then.
#[derive(Clone, Copy)]
pub(crate) struct Plan {
    pub hosts: usize,
    pub rest: Duration,
    pub writes: u64,
    pub reads: u64,
    pub lines: u64,
    pub saves: bool,
    pub lost_at: Option<u64>,
    pub cuts: Cuts,
}

impl Plan {
    /// The line of a host's next call.
    pub(crate) fn line(&self, count: u64) -> u64 {
        let mixed = count.wrapping_mul(0x9E37_79B9_7F4A_7C15) >> 32;
        mixed.checked_rem(self.lines).unwrap_or(0)
    }

    /// A host's next write.
    pub(crate) fn write(&self, count: u64, turn: u64) -> Write {
        Write {
            line: self.line(count),
            data: [(turn % 256) as u8; 64],
        }
    }
}
