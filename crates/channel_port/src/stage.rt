// Where a channel stands.

/// A channel takes writes and reads on mains; then it is drained once, on backup.
#[derive(Clone, Copy, Debug, PartialEq, Eq)]
pub enum Stage {
    /// It takes writes and reads, and issues commands for them.
    OnMains,
    /// Mains were lost, and its drain is to come.
    OnBackup,
    /// Its drain was begun.
    Drained,
}
