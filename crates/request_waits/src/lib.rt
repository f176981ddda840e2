//! How long requests waited, in clocks of their channel: of a write until its WR went, and of a list of waits the least, the median,
//! the 99th percentile and the most.
#![tactic(auto)]

mod summary;
mod writes;

pub use summary::Waits;
pub use writes::{AcceptedWrite, clock_after, write_waits};
