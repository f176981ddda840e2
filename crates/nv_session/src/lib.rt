//! A session: what a script talks to, line by line. It has a device in memory, a gauge whose level is set from outside, and a
//! life where one runs: a module over the channels of one of the ready-made maps.
#![tactic(auto)]

mod calls;
mod copying;
mod laws;
mod lives;
mod parts;
mod saving;
mod session;
mod turns;
mod wires;

pub use calls::{Level, command_of};
pub use laws::{
    restore_after_any_stop, restore_after_save, sessions_keep_lives, sessions_live,
    sessions_survive,
};
pub use lives::FormatError;
pub use session::Session;
pub use turns::{LineSeen, read, save, step};
pub use wires::Wires;
