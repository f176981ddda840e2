//! The requests that wait on a channel, a key of each, and what is noted of their banks for the choice of a command.
#![tactic(auto)]

pub mod bank_set;
pub mod key;
pub mod notebook;
pub mod notes;
pub mod pending;
