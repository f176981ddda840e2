//! The command line: its words, and what each verb does: scripts that are run, stores shown as lines, traces that are checked,
//! profiles and words that are explained, bad lines of scripts, what a crash may leave of a script, schedules that are drawn, and
//! completions.
#![tactic(auto)]

mod asked;
mod check;
mod command;
mod crash;
mod draw;
mod forms;
mod help;
mod lint;
mod live;
mod outlet;
mod profile;
mod script;
mod store;
mod whole;

pub use check::verdict;
pub use command::{run, words_of};
pub use help::{write_explained, write_version};
pub use lint::write_bad_lines;
pub use outlet::{Outgoing, Outlet};
pub use store::{STORE_BYTES, answer_store, show_store};
