//! A device of bytes that a loss of power may stop at any moment: the trait, which says what a read gives and what a
//! stop may leave, a device in memory, and two that fail on purpose around another one.
#![tactic(auto)]

mod calls;
mod device;
mod fuse;
mod memory;
mod one_fault;

pub use calls::{Call, CallKind, CallLog};
pub use device::{DeviceFault, SaveDevice};
pub use fuse::Fuse;
pub use memory::{MemoryDevice, Pick};
pub use one_fault::OneFault;
