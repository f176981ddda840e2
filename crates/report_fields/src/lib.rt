//! What a report tells, part by part: the line and the object of JSON that are made of one list of parts.
#![tactic(auto)]

mod line;
mod object;
mod part;
mod telling;
mod told;

pub use part::Part;
pub use telling::tell;
pub use told::Told;
