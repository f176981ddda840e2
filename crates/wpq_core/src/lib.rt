//! The write pending queue (WPQ): accepted writes that wait for their WR command, in the order of their numbers.
//!
//! Contracts see a queue as its depth and the list of its writes (`specs/Queue.antt`). What the waiting writes mean to a
//! memory is in `specs/PendingMemory.antt`, with the laws in `src/laws.rt`.
#![tactic(auto)]

mod laws;
mod queue;

pub use laws::pending_writes;
pub use queue::{PendingWrite, QueueFull, Wpq};
