//! The lines of a journal: their bytes, which journal a memory holds, and where its records lie.
#![tactic(auto)]

mod calls;
mod index;
mod lines;
mod record;
mod scanning;

pub use index::{Index, OpenRefusal};
pub use lines::{
    HeadNumbers, MOST_IN_LINE, head_bytes, head_numbers, line_bytes, record_line, record_size,
};
pub use scanning::held;
