//! What the program tells of itself: its manual page, the scripts by which shells complete its words, what a word of its answers
//! means, of which commit it was built, and whether it tells of faults in color.
#![tactic(auto)]

mod build;
mod color;
mod completions;
mod page;
mod terms;

pub use build::build_words;
pub use color::is_colored;
pub use completions::{Shell, write_completions};
pub use page::write_page;
pub use terms::{Term, explained, known_terms, term_words, write_terms};
