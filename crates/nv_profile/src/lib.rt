//! Profiles: the numbers that a module is made of, read from TOML.
//!
//! A profile is a TOML table with the tables `timing`, `geometry`, `costs` and `module`, each with exactly its keys
//! (`specs/Profile.antt`). `read_profile` accepts a text exactly where it is one.
#![tactic(auto)]

mod costs;
mod profile;
mod reading;
mod ready;
mod sizes;
mod table;
mod timing;

pub use profile::Profile;
pub use reading::{MOST_BYTES, Numbers, ProfileFault, read_numbers, read_profile, read_rules};
pub use ready::{TINY, TINY2, ready_profile};
pub use sizes::ModuleSizes;
