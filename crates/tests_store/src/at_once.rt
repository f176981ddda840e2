// A restore that digests both slots at once: that it answers what a restore in turn answers, whatever stands in the slots, and
// makes as many calls, whichever of them fails.
use crate::check::same;
use crate::slots::{LINES, SIZE, formatted, set};
use crate::versions::{FIRST_DAMAGED, HALF, SECOND_DAMAGED, old_store, put_image, saved};
use save_device::{Fuse, MemoryDevice};
use save_image::Version;
use slot_store::{Head, RestoreError, Restored, Slot, restore, restore_at_once};
use std::process::Abort;
use std::thread::Threads;

// What a device is restored to, but for the lines.
fn told(restored: &Restored) -> (Head, Version) {
    (restored.head, restored.version)
}

// Fails where the two restores of a device, of which only so many calls go well, aren't alike. Answers what they tell.
fn alike<R: Abort + AllocGlobal + Threads>(
    rt: &R,
    device: MemoryDevice,
    calls: u64,
) -> Result<(Head, Version), RestoreError> {
    let mut fuse = Fuse::new(device, calls);
    let in_turn = restore(rt.alloc(), &mut fuse, LINES);
    let left = fuse.left;
    fuse.left = calls;
    let at_once = restore_at_once(rt, rt.alloc(), &mut fuse, LINES);
    same(rt, fuse.left, left);
    match (&in_turn, &at_once) {
        (Ok(one), Ok(other)) => {
            same(rt, told(one), told(other));
            same(rt, one.lines.as_slice(), other.lines.as_slice());
        }
        (Err(one), Err(other)) => same(rt, *one, *other),
        _ => assert!(*rt; false),
    }
    at_once.map(|restored| told(&restored))
}

// A store of two images of these versions, the newest in this slot.
fn two_images<R: Abort + AllocGlobal>(
    rt: &R,
    first: Version,
    second: Version,
    newest: Slot,
) -> MemoryDevice {
    let (one, two) = match newest {
        Slot::First => (5, 4),
        Slot::Second => (4, 5),
    };
    let mut device = formatted(rt);
    put_image(rt, &mut device, Slot::First, first, one);
    put_image(rt, &mut device, Slot::Second, second, two);
    device
}

// The slot whose digest is wrong is the one that is named, whichever has the newest image.
#[test]
fn each_slot_has_its_own_digest(rt: HostRuntime) {
    for newest in [Slot::First, Slot::Second] {
        for (at, refused) in [
            (71, FIRST_DAMAGED),
            (4096, FIRST_DAMAGED),
            (HALF + 40, SECOND_DAMAGED),
            (SIZE - 1, SECOND_DAMAGED),
        ] {
            let mut device = two_images(&rt, Version::Two, Version::Two, newest);
            set(&rt, &mut device, &[(at, 0x11)]);
            same(&rt, (at, alike(&rt, device, 9)), (at, Err(refused)));
        }
    }
}

// A line of a slot, and then one of the other too: the first slot is named where both are damaged.
#[test]
fn lines_of_both_slots(rt: HostRuntime) {
    for newest in [Slot::First, Slot::Second] {
        let mut device = two_images(&rt, Version::Two, Version::Two, newest);
        set(&rt, &mut device, &[(4160, 1), (HALF + 4160, 1)]);
        same(&rt, alike(&rt, device, 9), Err(FIRST_DAMAGED));
    }
}

// Each call of a restore fails: the sync, both headers, the pages of the newest image, and those of the older one where it has
// a digest.
#[test]
fn at_once_on_a_device_that_fails(rt: HostRuntime) {
    for (older, whole) in [(Version::One, 5), (Version::Two, 7)] {
        for calls in 0..9 {
            let device = two_images(&rt, Version::Two, older, Slot::First);
            let answer = alike(&rt, device, calls).map(|(head, _)| head.newest.slot);
            let expected = if calls < whole {
                Err(RestoreError::Device)
            } else {
                Ok(Slot::First)
            };
            same(&rt, (calls, answer), (calls, expected));
        }
    }
}

// Stores that hold one image, none, or what is none.
#[test]
fn at_once_of_any_store(rt: HostRuntime) {
    for change in [(0, 0xa4), (1, 1), (15, 0x31), (40, 1), (72, 1), (HALF, 0)] {
        for mut device in [formatted(&rt), old_store(&rt), saved(&rt)] {
            set(&rt, &mut device, &[change]);
            let _ = alike(&rt, device, 9);
        }
    }
}

#[test]
fn at_once_of_another_size(rt: HostRuntime) {
    let zeros = Vec::from_elem(rt.alloc(), 0, SIZE - 1).expect(&rt, "memory");
    let device = MemoryDevice::new(rt.alloc(), zeros).expect(&rt, "memory");
    same(&rt, alike(&rt, device, 9), Err(RestoreError::WrongSize));
}
