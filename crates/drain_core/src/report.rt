// What a drain says of itself.

/// What a drain took.
#[derive(Clone, Copy, Debug, PartialEq, Eq)]
pub struct DrainReport {
    /// Clocks, from its start to one past its last command.
    pub clocks: u64,
    /// Energy, in whole units.
    pub spent: u64,
}
