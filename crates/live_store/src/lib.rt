//! A program that lives on a device: a module is opened with what the device restores to, or on a device that is formatted first;
//! each line that is heard is answered before the next one is heard; and nothing is done at the end, which is what darkness does.
//! Over a file of the system that is what `nvctl live` does.
#![tactic(auto)]

mod answering;
mod console;
mod fault;
mod file;
mod laws;
mod life;
mod living;
mod opening;
mod talk;
mod unused;

pub use answering::converse;
pub use console::Console;
pub use fault::LiveFault;
pub use file::{Host, live};
pub use laws::{file_stops_survived, sector_stops_survived, turns_survive};
pub use life::Life;
pub use living::live_on;
pub use opening::{Opened, open};
pub use talk::{LineRefusal, Said, Talk, TalkFault, Turn};
