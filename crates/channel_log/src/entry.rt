// What becomes of a channel while both locks are held.
use line_memory::Numbered;

/// An entry of a channel's log. Each has with it what waits on the channel from then on, which exists in contracts alone.
#[derive(Clone, Copy, Debug, PartialEq, Eq)]
pub enum LogEntry {
    /// The channel was given a write, and a credit with it.
    Wrote(Numbered),
    /// Nothing became of it but what waits.
    Looked,
    /// The writes from a number on are held back from the array.
    HeldFrom(u64),
    /// No write is held back any more.
    Released,
    /// The life has ended.
    Ended,
}
