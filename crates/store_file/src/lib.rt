//! A store: the bytes of a device, read whole and replaced whole, so that a kill or a loss of power leaves the old ones or the new
//! ones. It has the bytes of the device alone, or a spare place behind them, as the file of a device on a disk that loses whole sectors.
//!
//! A store is a trait, and a type that implements it may say what it has. The proofs hold for each store that is as the trait says,
//! and one in memory is; that a file with another one renamed over it is one is assumed.
#![tactic(auto)]

mod form;
mod host;
mod model;
mod store;

pub use form::{Form, device_bytes, store_bytes};
pub use host::{HostStore, leave_file};
pub use model::ModelStore;
pub use sector_device::SPARE_PLACE;
pub use store::{Store, StoreHost};
