//! What an answer tells, part by part, and the line and the object of JSON that are written of these parts.
#![tactic(auto)]

mod answers;
mod commands;
mod line;
mod refusals;
mod told;
mod written;

pub use answers::told_of;
pub use commands::{told_of_command, told_of_numbered};
pub use told::{Part, Told};
pub use written::{write_answer, write_line, write_object};
