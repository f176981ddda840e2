//! A journal in a memory of lines: which writes an append or a truncation makes, and what the memory holds after a first part of
//! the writes. The layout stands in `specs/Lines.antt` and `specs/Log.antt`.
#![tactic(auto)]

mod alike;
mod prefixes;

pub use alike::memories_hold_one_journal;
pub use prefixes::prefixes_are_whole_calls;
