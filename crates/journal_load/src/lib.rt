//! What a bench, trials and an example of a journal share: a life of a module with its device, its gauge and its journal.
#![tactic(auto)]

mod life;
mod opening;

pub use life::{JournalLife, Stall};
pub use opening::{begin, capacity_of, formatted};
