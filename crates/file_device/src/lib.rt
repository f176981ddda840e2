//! A device whose bytes stand in a file, so that what was saved outlives the process. It keeps a copy of them in memory, from
//! which it reads, and hands each write and each sync on to the file.
//!
//! No contract can know what a file keeps. So a file is a trait, and a type that implements it may say. The proofs hold for
//! each file that is as the trait says, and a file in memory is one; that a real file is one is assumed.
#![tactic(auto)]

mod device;
mod file;
mod host;
mod laws;
mod model;
mod places;

pub use device::FileDevice;
pub use file::DiskFile;
pub use host::{HostFile, OpenFault};
pub use laws::stops_leave_what_devices_may;
pub use model::ModelFile;
pub use places::Places;
