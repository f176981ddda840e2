//! Every fault of a list of DDR4 commands: each rule that a command breaks, where all commands before it count as issued.
#![tactic(auto)]

mod faults;
mod gaps;
mod left;

pub use faults::{all_faults, count_of_rule, first_of_rule};
