//! A write that waits until it is persistent, over a module that one thread has alone.
#![tactic(auto)]

mod writing;

pub use writing::{NotPersistent, write_persistent};
