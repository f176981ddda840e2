// A write that waits.

/// A write that isn't in an array yet: its number, which is its place among the accepted writes, and the channel of its line.
#[derive(Clone, Copy, Debug, PartialEq, Eq)]
pub struct Waiting {
    pub number: u64,
    pub channel: u64,
}
