//! What the commands of channels and the requests of a run's lives come to, as lines and as objects of JSON.
#![tactic(auto)]

mod objects;
mod telling;
mod waits;
mod written;

pub use telling::write_statistics;
pub use waits::{KindWaits, write_life, write_waits};
pub use written::write_of_trace;
