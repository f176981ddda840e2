// The answer to a loss of mains.

/// What became of a loss of mains.
#[derive(Clone, Copy, Debug, PartialEq, Eq)]
pub enum Loss {
    /// All accepted writes were saved on backup.
    Saved { generation: u64, count: u64 },
    /// The module was disarmed, so that nothing was written.
    Unsaved,
    /// The energy didn't suffice: a payment was refused.
    Dark,
    /// The device failed.
    Fault,
    /// Mains were lost before, or no life runs.
    Closed,
}
