//! A table on a journal: its changes as records, and what a stop leaves of it. The layout of a record stands in `specs/Changes.antt`.
#![tactic(auto)]

mod alike;
mod survival;

pub use alike::records_are_of_one_table;
pub use survival::tables_survive_any_stop;
