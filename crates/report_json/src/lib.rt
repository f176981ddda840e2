//! What `check`, `profile` and `crash` tell, as lines and as objects of JSON.
#![tactic(auto)]

mod commands;
mod crashes;
mod meanings;
mod verdicts;
mod written;

pub use crashes::{write_counts, write_stop, write_table};
pub use meanings::{write_command_meaning, write_meaning};
pub use verdicts::{write_fault, write_lawful, write_tallies, write_tally, write_verdicts};
