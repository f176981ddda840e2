//! One channel: it takes writes and reads, reorders them by first-ready, first-come-first-served scheduling (FR-FCFS),
//! obeys every timing rule and its refreshes, and still answers each read with the memory after all writes accepted before it.
//!
//! The definitions are in `specs`: what contracts see of a channel (`State.antt`), what each call does to it (`Calls.antt`)
//! and what is true of every channel (`Always.antt`); a line and its place (`Mapped.antt`) and the open reads
//! (`Reads.antt`). The rest of `specs` is for the crate's own functions.
#![tactic(auto)]

mod channel;
mod channel_memory;
mod copying;
mod laws;
mod phase;
mod reads;
mod requests;
mod singles;

pub use channel::{Channel, RECENT};
pub use laws::{commands_keep, memory_below_a_number};
pub use phase::Phase;
pub use reads::ReadsFull;
