//! Scripts in words: which lines of one are bad, and why.
#![tactic(auto)]

mod lint;
mod reason;
mod verbs;

pub use lint::{BadLine, bad_lines, tell_bad_lines};
pub use reason::{Reason, why_bad};
