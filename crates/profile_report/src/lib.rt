//! Profiles in words: what the numbers of one come to, and why a text is refused.
#![tactic(auto)]

mod command_meaning;
mod limits;
mod meaning;
mod refusal;

pub use command_meaning::CommandMeaning;
pub use meaning::Meaning;
pub use refusal::reasons;
