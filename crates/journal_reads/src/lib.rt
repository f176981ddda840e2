//! Records of a journal that are read from its module while the life goes on, by reads of the module, which see each accepted write.
#![tactic(auto)]

mod laws;
mod reading;

pub use laws::journals_are_read;
pub use reading::{NotRead, get};
