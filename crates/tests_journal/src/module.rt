// A journal in a module, over a loss of mains.
ghost use Rattle.std.specs.Prelude.{◌≡◌};

use board_hosts::RecordedModule;
use channel_port::ChannelPort;
use ddr4_boards::{Ready, formatted, open};
use ddr4_port::Ddr4Port;
use energy_budget::Meter;
use interleave_map::{Interleaving, ReadyMap};
use line_memory::zero_memory;
use module_journal::{AppendRefusal, Journal, TruncateRefusal};
use nv_profile::{Profile, TINY, read_profile};
use save_device::MemoryDevice;
use slot_store::restore;
use std::alloc::Global;
use std::process::Abort;
use std::thread::Threads;

/// The lines of the small profile.
pub(crate) const LINES: usize = 128;

/// More energy than any save takes, in units.
const AMPLE: u64 = 1 << 62;

// Three records, the first of which is cut; the mains are lost behind a record that was told stored.
fn journal_a_life<K: ChannelPort + Drop, R: Abort>(
    rt: &R,
    alloc: Global,
    ready: Ready<K, MemoryDevice, Meter>,
) -> MemoryDevice {
    let Ready { recorded, .. } = ready;
    let RecordedModule {
        mut running,
        mut device,
        mut energy,
        ..
    } = recorded;
    let memory = zero_memory(alloc, LINES).expect(rt, "memory");
    let mut journal = Journal::open(alloc, &memory).expect(rt, "a journal");
    let Ok(first) = journal.append(&mut running, b"first") else {
        panic!(*rt; "a refusal");
    };
    assert!(rt; first.record == 0 && first.head.number == 1);
    assert!(rt; !first.is_stored(running.mark()));
    assert!(rt; running.arm(&mut device, &mut energy).is_ok());
    let Ok(second) = journal.append(&mut running, &[2; 100]) else {
        panic!(*rt; "a refusal");
    };
    assert!(rt; second.record == 1 && second.head.number == 4);
    assert!(rt; first.is_stored(running.mark()) && second.is_stored(second.head.mark));
    assert!(rt; journal.truncate(&mut running, 1).is_ok());
    assert!(rt; journal.truncate(&mut running, 3).is_err());
    assert!(rt; journal.append(&mut running, &[]).is_ok());
    assert!(rt; journal.append(&mut running, &[3; 62 * 128]) == Err(AppendRefusal::NoSpace));
    assert!(rt; (journal.first(), journal.end()) == (1, 3));
    // what the loss answers is seen by what is restored
    let _lost = running.power_loss(&mut device, &mut energy);
    assert!(rt; journal.append(&mut running, b"late").is_err());
    device
}

// What a restore finds: the second record and the third, and the first one truncated.
fn find_records<R: Abort>(rt: &R, alloc: Global, device: &mut MemoryDevice) {
    let Ok(restored) = restore(alloc, device, LINES) else {
        panic!(*rt; "an image");
    };
    let memory = &restored.lines;
    let journal = Journal::open(alloc, memory).expect(rt, "a journal");
    assert!(rt; (journal.first(), journal.end()) == (1, 3));
    assert!(rt;
        journal
            .record(alloc, memory, 0)
            .expect(rt, "memory")
            .is_none()
    );
    let second = journal.record(alloc, memory, 1).expect(rt, "memory");
    assert!(rt; second.expect(rt, "a record").as_slice() == [2; 100].as_slice());
    let third = journal.record(alloc, memory, 2).expect(rt, "memory");
    assert!(rt; third.expect(rt, "a record").is_empty());
    assert!(rt;
        journal
            .record(alloc, memory, 3)
            .expect(rt, "memory")
            .is_none()
    );
}

// Which records marks tell stored: those before the first one that a mark doesn't tell.
fn tell_stored<K: ChannelPort + Drop, R: Abort>(
    rt: &R,
    alloc: Global,
    ready: Ready<K, MemoryDevice, Meter>,
) {
    let Ready { recorded, .. } = ready;
    let RecordedModule { mut running, .. } = recorded;
    let memory = zero_memory(alloc, LINES).expect(rt, "memory");
    let mut journal = Journal::open(alloc, &memory).expect(rt, "a journal");
    assert!(rt; journal.is_empty() && journal.stored(u64::MAX) == 0);
    assert!(rt; journal.append(&mut running, &[9; 1]).is_ok());
    assert!(rt; journal.append(&mut running, &[9; 100]).is_ok());
    assert!(rt; journal.append(&mut running, &[9; 62]).is_ok());
    assert!(rt; journal.len() == 3 && journal.numbers() == (0..3));
    // the heads are the writes 1, 4 and 6
    assert!(rt; journal.stored(1) == 0);
    assert!(rt; journal.stored(2) == 1);
    assert!(rt; journal.stored(5) == 2);
    assert!(rt; journal.stored(6) == 2);
    assert!(rt; journal.truncate(&mut running, 2).is_ok());
    assert!(rt; journal.stored(0) == 2);
    assert!(rt; journal.stored(7) == 3);
    assert!(rt; journal.len() == 1 && journal.numbers() == (2..3));
}

// Records of no bytes, of all lines but the head, and of one byte more; and truncations that there are none of.
fn try_sizes<K: ChannelPort + Drop, R: Abort>(
    rt: &R,
    alloc: Global,
    ready: Ready<K, MemoryDevice, Meter>,
) {
    let Ready { recorded, .. } = ready;
    let RecordedModule { mut running, .. } = recorded;
    let memory = zero_memory(alloc, LINES).expect(rt, "memory");
    let mut journal = Journal::open(alloc, &memory).expect(rt, "a journal");
    assert!(rt; journal.truncate(&mut running, 1) == Err(TruncateRefusal::NoSuchRecord));
    assert!(rt; journal.truncate(&mut running, 0) == Ok(None));
    assert!(rt; journal.append(&mut running, &[4; 62 * 127 + 1]) == Err(AppendRefusal::NoSpace));
    assert!(rt; running.accepted() == 0);
    assert!(rt; journal.append(&mut running, &[4; 62 * 127]).is_ok());
    assert!(rt; journal.append(&mut running, &[]) == Err(AppendRefusal::NoSpace));
    assert!(rt; running.accepted() == 128);
    assert!(rt; journal.truncate(&mut running, 1).is_ok());
    assert!(rt; journal.truncate(&mut running, 0) == Err(TruncateRefusal::NoSuchRecord));
    assert!(rt; journal.truncate(&mut running, 2) == Err(TruncateRefusal::NoSuchRecord));
    assert!(rt; journal.append(&mut running, &[]).is_ok());
    assert!(rt; journal.numbers() == (1..2));
}

// The small profile.
pub(crate) fn small<R: Abort>(rt: &R, alloc: Global) -> Profile {
    let Ok(profile) = read_profile(alloc, TINY.as_bytes()) else {
        panic!(*rt; "a profile");
    };
    profile
}

// A life of zero lines on its channels.
pub(crate) fn opened<'m, R: Abort + Threads>(
    rt: &R,
    alloc: Global,
    map: &'m ReadyMap,
    profile: &Profile,
) -> Ready<Ddr4Port<'m, ReadyMap>, MemoryDevice, Meter>
    requires { map.now.checked ≡ profile.now.checked }
{
    let Ok(device) = formatted(alloc, profile) else {
        panic!(*rt; "a device");
    };
    let Ok(ready) = open(rt, alloc, map, profile, device, Meter::with(AMPLE, 1), 1) else {
        panic!(*rt; "a module");
    };
    ready
}

// A map of its lines.
pub(crate) fn map_of(profile: &Profile) -> ReadyMap
    ensures { result.checked ≡ profile.now.checked }
{
    ReadyMap {
        interleaving: Interleaving::Lines,
        checked: profile.checked,
    }
}

#[test]
fn a_journal_outlives_a_loss_of_mains(rt: HostRuntime) {
    let profile = small(&rt, rt.alloc());
    let map = map_of(&profile);
    let ready = opened(&rt, rt.alloc(), &map, &profile);
    let mut device = journal_a_life(&rt, rt.alloc(), ready);
    find_records(&rt, rt.alloc(), &mut device);
}

#[test]
fn marks_tell_records_stored(rt: HostRuntime) {
    let profile = small(&rt, rt.alloc());
    let map = map_of(&profile);
    let ready = opened(&rt, rt.alloc(), &map, &profile);
    tell_stored(&rt, rt.alloc(), ready);
}

#[test]
fn records_of_all_lines_and_truncations_of_none(rt: HostRuntime) {
    let profile = small(&rt, rt.alloc());
    let map = map_of(&profile);
    let ready = opened(&rt, rt.alloc(), &map, &profile);
    try_sizes(&rt, rt.alloc(), ready);
}
