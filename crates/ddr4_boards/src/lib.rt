//! Boards over DDR4 channels: a module on the image of a device, with the record of its life and the tables of its board, ready
//! to be put behind its locks with hosts, workers and notices.
#![tactic(auto)]

mod opening;
mod ready;

pub use opening::{NotOpened, formatted, open, restore_device};
pub use ready::Ready;
