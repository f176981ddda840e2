//! Why a command fails, with its exit status and the reason behind it; and the profiles and files that its words name.
#![tactic(auto)]

mod failure;
mod fault;
mod files;

pub use failure::{Failure, Reason};
pub use fault::ProgramFault;
pub use files::{FileHost, asked_numbers, flush, is_file, is_one_file, profile_of, rules_of};
