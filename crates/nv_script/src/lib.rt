//! The language of scripts: the lines that the program reads, and the lines that it answers.
//!
//! A script has up to 4,096 lines of up to 256 bytes of UTF-8, each with a newline behind it, which the last may lack. Words
//! are separated by spaces. `read_script` gives its lines as values, an `Answer` is shown as the line that it is answered by.
#![tactic(auto)]

mod answer;
mod line;
mod numbering;
mod reading;
mod word;

pub use answer::Answer;
pub use line::ScriptLine;
pub use numbering::line_numbers;
pub use reading::{MOST_LINE_BYTES, MOST_SCRIPT_LINES, SCRIPT_BYTES, ScriptFault, read_script};
