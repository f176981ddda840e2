//! The log of a channel: what two locks know of it, where one lock is the board's and the other the channel's own.
//!
//! Of what a lock lends its type's facts alone are known, and no fact spans two locks. So under each lock lies a seat: a
//! `FrontSeat` under the board's, which knows the log of each channel, and a `ChannelSeat` under a channel's, which knows the
//! log of that one. An entry is noted where both are lent, with what waits on the channel then (`Standing`). So what one seat
//! knows of a channel the other one knows too, whoever held either lock since: the writes that the channel was given, what waited on
//! it as both locks were last held, the hold, and the life's end (`specs/Log.antt`). What it did meanwhile under its own lock alone
//! is in no log (`specs/Between.antt`). Logs exist in contracts alone. A seat takes no bytes, the table has one word, and no call
//! waits.
#![tactic(auto)]

mod entry;
mod rule;
mod seats;
mod standing;
mod table;

pub use entry::LogEntry;
pub use seats::{ChannelSeat, FrontSeat};
pub use standing::Standing;
pub use table::ChannelLogs;
