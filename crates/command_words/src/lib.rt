//! The words of the command line: its verbs, each with its operands and its options, and the parser of these.
#![tactic(auto)]

mod parsing;
mod table;
mod verb;

pub use parsing::parser;
pub use table::{WHY, verbs};
pub use verb::{Operand, Switch, Value, Verb, WordKind};
