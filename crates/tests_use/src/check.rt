// How the tests compare, and what they begin with.
use ddr4_boards::formatted;
use nv_profile::{Profile, TINY, read_profile};
use save_device::MemoryDevice;
use std::alloc::Global;
use std::fmt::Debug;
use std::process::Abort;

/// More energy than any save takes, in units.
pub(crate) const AMPLE: u64 = 1 << 62;

/// How often a wait is tried.
pub(crate) const TIMES: u64 = 200;

/// Fails where a value isn't the wanted one.
pub(crate) fn same<R: Abort, T: PartialEq + Debug + Drop>(rt: &R, got: T, wanted: T) {
    assert_eq!(*rt; got, wanted);
}

/// The small profile.
pub(crate) fn tiny<R: Abort>(rt: &R, alloc: Global) -> Profile {
    match read_profile(alloc, TINY.as_bytes()) {
        Ok(profile) => profile,
        Err(_) => panic!(*rt; "no profile"),
    }
}

/// A formatted device of it.
pub(crate) fn fresh<R: Abort>(rt: &R, alloc: Global, profile: &Profile) -> MemoryDevice {
    match formatted(alloc, profile) {
        Ok(device) => device,
        Err(_) => panic!(*rt; "no device"),
    }
}
