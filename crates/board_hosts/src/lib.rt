//! The hosts of a board: the marks that they load, what their board begins with, what they are told, and what its life comes to.
//!
//! The marks (watermarks) are two words of a `MarkBoard` that threads share with no lock, how many writes were accepted and how many
//! of them are persistent. The board's seat moves the words, and only upwards. Each host has a seat that loads them. Contracts see a
//! seat as the board that it is of and the two marks that it has seen (`specs/SeenMarks.antt`); the rule that each step keeps is in
//! `specs/MarkRule.antt`. No call of these waits.
//!
//! A board begins with an `Opening` and a host for each seat. A `Host` loads the marks, and has the notices below them called.
//! `turn_at` says what a saver is to do. A cut and the end of a life `check` what hosts were told. A `Held` is a board that was put
//! together, with its module, device, gauge and record (`specs/Kept.antt`): it is there to be ended. What lies behind the locks
//! meanwhile stands above this crate.
#![tactic(auto)]

mod board_name;
mod checking;
mod ending;
mod held;
mod host;
mod laws;
mod mark_rule;
mod mark_seats;
mod mark_words;
mod opening;
mod recorded_module;
mod saver;
mod starting;
mod tally;
mod telling;

pub use board_name::BoardName;
pub use checking::{Cut, Stranger, check};
pub use ending::{Closed, end_host};
pub use held::{Held, publish};
pub use host::{Behind, GotAt, Host, Receipt};
pub use laws::{boards_keep_lives, boards_survive, records_tell_lives};
pub use mark_seats::{BoardSeat, HostSeat};
pub use mark_words::MarkBoard;
pub use opening::Opening;
pub use recorded_module::RecordedModule;
pub use saver::{SaverTurn, Saving, turn_at, working_of};
pub use starting::{NotStarted, seated};
pub use tally::AcceptedCount;
pub use worker_turns::{Always, Ended, Gate, Seen, Turn, Working};
