// How the tests compare, and what they begin with.
ghost use Rattle.std.specs.Prelude.{◌≡◌};

use board_hosts::Receipt;
use ddr4_boards::{Ready, formatted, open};
use ddr4_port::Ddr4Port;
use energy_budget::Meter;
use interleave_map::ReadyMap;
use line_memory::Write;
use nv_profile::{Profile, TINY, read_profile};
use save_device::MemoryDevice;
use std::alloc::Global;
use std::fmt::Debug;
use std::process::Abort;
use std::thread::Threads;

/// The channels of the small profile.
pub(crate) const CHANNELS: u64 = 2;

/// The lines of the small profile.
pub(crate) const LINES: u64 = 128;

/// More energy than any save takes, in units.
pub(crate) const AMPLE: u64 = 1 << 62;

/// Fails where a value isn't the wanted one.
pub(crate) fn same<R: Abort, T: PartialEq + Debug + Drop>(rt: &R, got: T, wanted: T) {
    assert_eq!(*rt; got, wanted);
}

/// A write of a line whose bytes are all this one.
pub(crate) fn write_of(line: u64, byte: u8) -> Write {
    Write {
        line,
        data: [byte; 64],
    }
}

/// The write of a line with byte 11 that was the first one.
pub(crate) fn first_receipt(line: u64) -> Receipt {
    Receipt {
        number: 0,
        line,
        data: [11; 64],
    }
}

/// The small profile.
pub(crate) fn tiny<R: Abort>(rt: &R, alloc: Global) -> Profile {
    match read_profile(alloc, TINY.as_bytes()) {
        Ok(profile) => profile,
        Err(_) => panic!(*rt; "a profile"),
    }
}

/// A module of two channels on a formatted device of a profile, and the tables of its board for so many hosts. Its gauge shows a
/// unit less than this level at the first reading, and one less at each further one.
pub(crate) fn opened<'m, R: Abort + Threads>(
    rt: &R,
    alloc: Global,
    map: &'m ReadyMap,
    profile: &Profile,
    level: u64,
    hosts: usize,
) -> Ready<Ddr4Port<'m, ReadyMap>, MemoryDevice, Meter>
    requires { map.now.checked.geometry ≡ profile.now.checked.geometry }
    ensures channels { result.channels ≡ CHANNELS }
    ensures hosts { result.tables.opening.parts ≡ hosts }
{
    let Ok(device) = formatted(alloc, profile) else {
        panic!(*rt; "a device");
    };
    let Ok(ready) = open(
        rt,
        alloc,
        map,
        profile,
        device,
        Meter::with(level, 1),
        hosts,
    ) else {
        panic!(*rt; "a module");
    };
    if ready.channels != CHANNELS {
        panic!(*rt; "two channels");
    }
    ready
}
