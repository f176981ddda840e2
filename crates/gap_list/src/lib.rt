//! A list whose room is reserved once. An element that is taken out moves the fewer of the others: those before it, which leaves a
//! gap in front of them, or those behind it.
//!
//! Contracts see a list as how many elements it may hold and those that it holds (`specs/Bounded.antt`).
#![tactic(auto)]

mod list;
mod moves;

pub use list::GapList;
