//! A device in a file on a disk that loses whole sectors: a stop within a write leaves anything in each sector that the write
//! touches. What was saved outlives that too, since a sector of which a part is written goes to a spare place first.
//!
//! As in `file_device`, a file is a trait, and a type that implements it may say what it keeps. The proofs hold for each file that
//! is as the trait says, and a file in memory is one; that a real file is one is assumed.
#![tactic(auto)]

mod device;
mod file;
mod host;
mod laws;
mod model;
mod opening;
mod writing;

pub use device::SectorDevice;
pub use file::SectorFile;
pub use laws::stops_find_what_devices_may;
pub use model::ModelSectorFile;
pub use opening::{SPARE_PLACE, found_bytes};
