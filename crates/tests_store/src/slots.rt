// What no clause says: that calls succeed, the texts and numbers, and what a stop leaves at each call, by hand.
use crate::check::same;
use line_memory::Line;
use save_device::{Fuse, MemoryDevice, OneFault, Pick, SaveDevice};
use slot_store::{
    Newest, RestoreError, SaveFault, Slot, Verdict, device_size, format, mark_armed, restore, save,
};
use std::alloc::Global;
use std::process::Abort;

pub(crate) const LINES: usize = 128;

pub(crate) const SIZE: usize = 24_576;

pub(crate) const CLOSED_FIRST: Newest = Newest {
    slot: Slot::First,
    generation: 1,
};

const PICKS: [Pick; 4] = [Pick::Old, Pick::New, Pick::Torn(0xa5), Pick::Torn(0)];

pub(crate) fn formatted<R: Abort + AllocGlobal>(rt: &R) -> MemoryDevice {
    let zeros = Vec::from_elem(rt.alloc(), 0, SIZE).expect(rt, "memory");
    let mut device = MemoryDevice::new(rt.alloc(), zeros).expect(rt, "memory");
    assert!(*rt; device.len() == SIZE);
    format(&mut device, LINES).expect(rt, "a store");
    device
}

// A memory whose first line has this byte.
pub(crate) fn memory(byte: u8) -> [Line; LINES] {
    let mut lines = [[0; 64]; LINES];
    lines[0] = [byte; 64];
    lines
}

// A save of such a memory over this image, of which only so many calls of the device are made: the image that is the newest
// then, and whether the gate of the slot that the next save goes to counts as closed.
fn save_in_part(
    device: &mut Fuse<MemoryDevice>,
    calls: u64,
    newest: Newest,
    closed: bool,
    byte: u8,
) -> (Newest, bool) {
    device.left = calls;
    if device.len() != SIZE || newest.generation > 9 {
        return (newest, closed);
    }
    match save(device, newest, closed, 1, byte > 0x7f, &memory(byte)) {
        Ok(next) => (next, false),
        Err(fault) => (newest, fault.closed),
    }
}

// Power is lost: the generation that is restored then, and the first byte; generation 0 where nothing is.
pub(crate) fn after_a_stop(alloc: Global, fuse: Fuse<MemoryDevice>, pick: Pick) -> (u64, u8) {
    let mut device = fuse.device;
    device.stop(pick);
    match restore(alloc, &mut device, LINES) {
        Ok(restored) => {
            let byte = restored.lines.first().map_or(0, |line| line[0]);
            (restored.head.newest.generation, byte)
        }
        Err(_) => (0, 0),
    }
}

#[test]
fn a_stop_leaves_the_old_image_or_the_new_one(rt: HostRuntime) {
    for byte in [0x11, 0x91] {
        for pick in PICKS {
            for calls in 0..9 {
                let mut fuse = Fuse::new(formatted(&rt), 0);
                save_in_part(&mut fuse, calls, CLOSED_FIRST, true, byte);
                let is_new = calls == 8
                    || calls == 7 && (pick == Pick::New || pick == Pick::Torn(0xa5));
                let expected = if is_new { (2, byte) } else { (1, 0) };
                let found = after_a_stop(rt.alloc(), fuse, pick);
                same(&rt, (calls, found), (calls, expected));
            }
        }
    }
}

#[test]
fn a_stop_over_a_gate_that_is_not_known_closed(rt: HostRuntime) {
    for byte in [0x22, 0xa2] {
        for pick in PICKS {
            for calls in 0..9 {
                let mut fuse = Fuse::new(formatted(&rt), 0);
                let (newest, closed) = save_in_part(&mut fuse, 8, CLOSED_FIRST, true, 0x11);
                assert!(rt; !closed);
                save_in_part(&mut fuse, calls, newest, closed, byte);
                let is_new = calls == 8
                    || calls == 7 && (pick == Pick::New || pick == Pick::Torn(0xa5));
                let expected = if is_new { (3, byte) } else { (2, 0x11) };
                let found = after_a_stop(rt.alloc(), fuse, pick);
                same(&rt, (calls, found), (calls, expected));
            }
        }
    }
}

// An armed save tells of writes that may come after it, and a clear one of none.
#[test]
fn verdicts_of_saves(rt: HostRuntime) {
    for (byte, verdict) in [
        (0x11, Verdict::Complete),
        (0x91, Verdict::PossibleLoss { after: 1 }),
    ] {
        for pick in PICKS {
            let mut fuse = Fuse::new(formatted(&rt), 0);
            save_in_part(&mut fuse, 8, CLOSED_FIRST, true, byte);
            fuse.device.stop(pick);
            same(&rt, told(rt.alloc(), &mut fuse.device), Ok((2, verdict)));
        }
    }
}

// What a stop may leave in the second save, an armed one, after one that failed: the old image or the second new one, and
// until its gate is settled closed the first new one too, where its opening was tried.
#[test]
fn a_stop_after_a_failed_save(rt: HostRuntime) {
    for pick in PICKS {
        for first in 0..8 {
            for second in 0..9 {
                let mut fuse = Fuse::new(formatted(&rt), 0);
                let (newest, closed) = save_in_part(&mut fuse, first, CLOSED_FIRST, true, 0x11);
                same(&rt, newest, CLOSED_FIRST);
                same(&rt, closed, first < 6);
                save_in_part(&mut fuse, second, newest, closed, 0xa2);
                let found = after_a_stop(rt.alloc(), fuse, pick);
                let is_old = found == (1, 0) && second < 8;
                let is_first = found == (2, 0x11) && first > 5 && second < 2;
                let is_second = found == (2, 0xa2) && second > 6;
                assert!(rt;
                    is_old || is_first || is_second,
                    "after {first} and {second} calls"
                );
            }
        }
    }
}

#[test]
fn a_write_that_fails_may_reach_the_device(rt: HostRuntime) {
    for before in 0..8 {
        let mut device = OneFault::new(formatted(&rt), before);
        assert!(rt; device.len() == SIZE);
        let refused = save(&mut device, CLOSED_FIRST, true, 1, false, &memory(0x11));
        same(&rt, refused, Err(SaveFault { closed: before < 6 }));
        let found = after_a_stop(rt.alloc(), Fuse::new(device.device, 0), Pick::New);
        same(&rt, found.0, if before < 6 { 1 } else { 2 });
    }
}

#[test]
fn an_arm_that_is_stopped(rt: HostRuntime) {
    let clear = Ok((1, Verdict::Complete));
    let armed = Ok((1, Verdict::PossibleLoss { after: 0 }));
    for (calls, pick, expected) in [
        (0, Pick::New, clear),
        (1, Pick::Old, clear),
        (1, Pick::Torn(0), clear),
        (1, Pick::New, armed),
        (1, Pick::Torn(0xa5), armed),
        (2, Pick::Old, armed),
    ] {
        let mut fuse = Fuse::new(formatted(&rt), calls);
        assert!(rt; fuse.len() == SIZE);
        same(&rt, mark_armed(&mut fuse, Slot::First).is_ok(), calls == 2);
        let mut device = fuse.device;
        device.stop(pick);
        same(&rt, told(rt.alloc(), &mut device), expected);
    }
}

#[test]
fn the_second_slot_is_armed(rt: HostRuntime) {
    let mut fuse = Fuse::new(formatted(&rt), 0);
    let (newest, _closed) = save_in_part(&mut fuse, 8, CLOSED_FIRST, true, 0x11);
    fuse.left = 2;
    assert!(rt; fuse.len() == SIZE);
    mark_armed(&mut fuse, newest.slot).expect(&rt, "a mark");
    let armed = Ok((2, Verdict::PossibleLoss { after: 1 }));
    same(&rt, told(rt.alloc(), &mut fuse.device), armed);
}

// What a device restores to.
pub(crate) fn told(
    alloc: Global,
    device: &mut MemoryDevice,
) -> Result<(u64, Verdict), RestoreError> {
    restore(alloc, device, LINES).map(|restored| (
        restored.head.newest.generation,
        restored.head.verdict,
    ))
}

// Sets bytes of a device.
pub(crate) fn set<R: Abort>(rt: &R, device: &mut MemoryDevice, changes: &[(usize, u8)]) {
    for (at, byte) in changes {
        if *at < device.len() {
            device.write_at(*at, &[*byte]).expect(rt, "a write");
        }
    }
}

// Fails where a formatted store with these bytes set restores to something else.
fn restores<R: Abort + AllocGlobal>(
    rt: &R,
    changes: &[(usize, u8)],
    wanted: Result<(u64, Verdict), RestoreError>,
) {
    let mut device = formatted(rt);
    set(rt, &mut device, changes);
    same(rt, told(rt.alloc(), &mut device), wanted);
}

#[test]
fn what_a_store_restores_to(rt: HostRuntime) {
    let first = RestoreError::Damaged { slot: Slot::First };
    let second = RestoreError::Damaged { slot: Slot::Second };
    restores(&rt, &[], Ok((1, Verdict::Complete)));
    restores(&rt, &[(1, 1)], Ok((1, Verdict::PossibleLoss { after: 0 })));
    restores(&rt, &[(0, 0xa4)], Err(RestoreError::NoImage));
    restores(&rt, &[(32, 127)], Err(first));
    restores(&rt, &[(40, 1)], Err(first));
    restores(&rt, &[(72, 1)], Err(first));
    restores(&rt, &[(SIZE / 2, 0xa5)], Err(second));
}

#[test]
fn a_device_of_another_size(rt: HostRuntime) {
    let zeros = Vec::from_elem(rt.alloc(), 0, SIZE - 1).expect(&rt, "memory");
    let mut device = MemoryDevice::new(rt.alloc(), zeros).expect(&rt, "memory");
    let refused = restore(rt.alloc(), &mut device, LINES).err();
    same(&rt, refused, Some(RestoreError::WrongSize));
}

#[test]
fn a_restore_on_a_device_that_fails(rt: HostRuntime) {
    for calls in 0..6 {
        let mut fuse = Fuse::new(formatted(&rt), calls);
        let answer = restore(rt.alloc(), &mut fuse, LINES).map(|restored| restored.head.count);
        let expected = if calls < 5 {
            Err(RestoreError::Device)
        } else {
            Ok(0)
        };
        same(&rt, answer, expected);
    }
}

#[test]
fn refusals_and_verdicts_as_texts(rt: HostRuntime) {
    for (error, text) in [
        (RestoreError::NoImage, "1 NoImage"),
        (RestoreError::Damaged { slot: Slot::First }, "2 Damaged 0"),
        (RestoreError::Damaged { slot: Slot::Second }, "2 Damaged 1"),
        (RestoreError::WrongSize, "3 WrongSize"),
        (RestoreError::Device, "4 Device"),
        (RestoreError::Memory, "5 Memory"),
    ] {
        let shown = error.to_string(rt.alloc()).expect(&rt, "memory");
        same(&rt, shown.as_str(), text);
    }
    for (verdict, text) in [
        (Verdict::Complete, "Complete"),
        (Verdict::PossibleLoss { after: 3 }, "PossibleLoss"),
    ] {
        let shown = verdict.to_string(rt.alloc()).expect(&rt, "memory");
        same(&rt, shown.as_str(), text);
    }
    let fault = SaveFault { closed: true };
    let shown = fault.to_string(rt.alloc()).expect(&rt, "memory");
    same(&rt, shown.as_str(), "the device failed");
}

// A store of the largest memory: it is formatted, a memory is saved, and restored again.
#[test]
fn the_largest_memory(rt: HostRuntime) {
    let alloc = rt.alloc();
    let size = device_size(65_536);
    let zeros = Vec::from_elem(alloc, 0, size).expect(&rt, "memory");
    let mut device = MemoryDevice::new(alloc, zeros).expect(&rt, "memory");
    assert!(rt; device.len() == size);
    format(&mut device, 65_536).expect(&rt, "a store");
    let mut lines = Vec::from_elem(alloc, [0; 64], 65_536).expect(&rt, "memory");
    assert!(rt; lines.len() == 65_536);
    lines[65_535] = [0x33; 64];
    let newest = save(&mut device, CLOSED_FIRST, true, 9, false, &lines).expect(&rt, "a save");
    device.stop(Pick::Old);
    let restored = restore(alloc, &mut device, 65_536).expect(&rt, "an image");
    same(&rt, restored.head.newest, newest);
    same(&rt, restored.head.count, 9);
    same(&rt, restored.lines.last(), Some(&[0x33; 64]));
}
