//! A module in pieces: its front, what becomes of it with the part of one channel, and what the channels' logs tell of its machine.
//!
//! Who holds the board's lock alone knows a machine in which what waits on a channel is what waited there when that channel's lock
//! was last held too: its log tells it (`specs/Telling.antt`). Meanwhile the channel has done more, under its own lock alone. Who
//! holds both sees what waits by now, and each step by which it came there is an event of the machine (`specs/OwnEvents.antt`). So
//! the machine goes on to where the channel is, write by write and read by read, and a life so far goes on with it.
//!
//! The front lies behind the board's lock, and each part behind its channel's. Who holds the board's lock and one channel's takes
//! the channel's returned credits back, and then writes or reads (`src/lending.rt`). Each is one step of whichever machine the front
//! stands for by the logs of the channels (`specs/Lending.antt`); and no other channel's part is asked. Who holds all locks puts the
//! module together from the front and the ports, and takes it apart again (`src/gathering.rt`): the front and the ports stand for
//! the machine for which the module stands, and the module for theirs (`specs/Gathering.antt`).
#![tactic(auto)]

mod front;
mod gathering;
mod lending;
mod own;
mod reads;
mod telling;

pub use front::SplitFront;
pub use gathering::SplitModule;
pub use lending::{read_on, take_back, write_on};
pub use own::own_steps_are_events;
pub use reads::reads_have_their_lines;
pub use telling::{a_read_is_told, a_write_is_told, logs_tell_the_history, logs_tell_what_waits};
