//! What a journal in a module promises: a stop at any moment leaves a first part of its calls, and each record that was told stored.
#![tactic(auto)]

mod survival;

pub use survival::journals_survive_any_stop;
