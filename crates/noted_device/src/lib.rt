//! A device in memory whose changes are noted, for one who makes them on a store elsewhere that the program can't reach by itself, as
//! a file of the caller's: each change in its order, so that a stop in between leaves of that store what a stop leaves of a device.
#![tactic(auto)]

mod device;
mod notes;

pub use device::NotedDevice;
pub use notes::{Handed, Note};
