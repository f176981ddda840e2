//! A module that threads share, with a lock for each channel.
//!
//! A `Board` has nine locks: the board's, behind which lies a `Desk`, and one for each channel. Who takes several takes the
//! board's first, and then the channels' in rising order. A worker, and a read that waits, take their channel's lock alone; a
//! host that writes or reads takes the board's and its line's channel's; all other calls take all.
#![tactic(auto)]

mod awaiting;
mod board;
mod calling;
mod claim;
mod cutting;
mod dealing;
mod ending;
mod first_logs;
mod persisting;
mod reading;
mod saving;
mod starting;
mod tables;
mod telling;
mod working;
mod writing;

pub use board::Board;
pub use claim::{Asked, Claim};
pub use ending::{NotClosed, close};
pub use persisting::MainsLost;
pub use saving::saver_worker;
pub use starting::{Started, start};
pub use tables::BoardTables;
pub use working::channel_worker;
