//! A journal in a module. An append writes the lines of its record and the head last, a truncation the head alone; what a stop leaves
//! of them is said in `journals_live`. All writes of the module are to be the journal's.
#![tactic(auto)]

mod journal;
mod laws;
mod writing;

pub use journal::{AppendRefusal, Appended, Journal, TruncateRefusal};
pub use laws::{calls_are_allowed, journals_live, stored_records_are_told};
