// Images of both versions: which one a save writes, and what each restores to, whole and changed. The digests were made by
// another program.
use crate::check::same;
use crate::slots::{CLOSED_FIRST, LINES, SIZE, formatted, memory, set, told};
use save_device::{Fuse, MemoryDevice, SaveDevice};
use save_image::{Version, header_bytes, header_bytes_2};
use slot_store::{Newest, RestoreError, Slot, Verdict, mark_armed, restore, save};
use std::process::Abort;

pub(crate) const HALF: usize = SIZE / 2;

pub(crate) const FIRST_DAMAGED: RestoreError = RestoreError::Damaged { slot: Slot::First };

pub(crate) const SECOND_DAMAGED: RestoreError = RestoreError::Damaged { slot: Slot::Second };

// The SHA-256 of the 8,192 zero bytes of so many zero lines.
const DIGEST_OF_ZEROS: [u8; 32] = [
    0x9f, 0x1d, 0xcb, 0xc3, 0x5c, 0x35, 0x0d, 0x60, 0x27, 0xf9, 0x8b, 0xe0, 0xf5, 0xc8, 0xb4, 0x3b,
    0x42, 0xca, 0x52, 0xb7, 0x60, 0x44, 0x59, 0xc0, 0xc4, 0x2b, 0xe3, 0xaa, 0x88, 0x91, 0x3d, 0x47,
];

// And of a line of 64 bytes 0x11 with 127 zero lines behind it.
const DIGEST_OF_11: [u8; 32] = [
    0xb7, 0xd1, 0x0e, 0x33, 0x2e, 0xe2, 0xf8, 0xcd, 0x70, 0x77, 0xfa, 0xc1, 0x2c, 0xcd, 0xbe, 0x6c,
    0x75, 0x93, 0x4f, 0x6a, 0x5c, 0xf4, 0x1c, 0x8b, 0x1d, 0xd5, 0xe1, 0x3d, 0x69, 0x6a, 0x28, 0x31,
];

// The headers of a store as it was written before images had digests: a format, and a save behind a write of line 0.
const OLD_FORMAT: [u8; 40] = [
    0xa5, 0x00, 0x00, 0x00, 0x00, 0x00, 0x00, 0x00, // an open gate, clear
    0x4e, 0x56, 0x53, 0x41, 0x56, 0x45, 0x30, 0x31, // NVSAVE01
    0x01, 0x00, 0x00, 0x00, 0x00, 0x00, 0x00, 0x00, // generation
    0x00, 0x00, 0x00, 0x00, 0x00, 0x00, 0x00, 0x00, // count
    0x80, 0x00, 0x00, 0x00, 0x00, 0x00, 0x00, 0x00, // lines
];

const OLD_SAVE: [u8; 40] = [
    0xa5, 0x00, 0x00, 0x00, 0x00, 0x00, 0x00, 0x00, // an open gate, clear
    0x4e, 0x56, 0x53, 0x41, 0x56, 0x45, 0x30, 0x31, // NVSAVE01
    0x02, 0x00, 0x00, 0x00, 0x00, 0x00, 0x00, 0x00, // generation
    0x01, 0x00, 0x00, 0x00, 0x00, 0x00, 0x00, 0x00, // count
    0x80, 0x00, 0x00, 0x00, 0x00, 0x00, 0x00, 0x00, // lines
];

// Writes bytes over those of a store.
fn put(store: &mut Vec<u8>, at: usize, bytes: &[u8]) {
    for (place, byte) in store.iter_mut().skip(at).zip(bytes) {
        *place = *byte;
    }
}

// That store, of which all other bytes are zero.
pub(crate) fn old_store<R: Abort + AllocGlobal>(rt: &R) -> MemoryDevice {
    let mut bytes = Vec::from_elem(rt.alloc(), 0, SIZE).expect(rt, "memory");
    put(&mut bytes, 0, &OLD_FORMAT);
    put(&mut bytes, HALF, &OLD_SAVE);
    put(&mut bytes, HALF + 4096, &[0x11; 64]);
    MemoryDevice::new(rt.alloc(), bytes).expect(rt, "memory")
}

const OLD_NEWEST: Newest = Newest {
    slot: Slot::Second,
    generation: 2,
};

#[test]
fn an_old_store_is_restored(rt: HostRuntime) {
    let mut device = old_store(&rt);
    let restored = restore(rt.alloc(), &mut device, LINES).expect(&rt, "an image");
    same(&rt, restored.head.newest, OLD_NEWEST);
    same(&rt, restored.head.count, 1);
    same(&rt, restored.head.verdict, Verdict::Complete);
    same(&rt, restored.version, Version::One);
    same(&rt, restored.lines.as_slice(), memory(0x11).as_slice());
}

// No digest tells of a changed line.
#[test]
fn an_old_store_with_a_changed_line(rt: HostRuntime) {
    let mut device = old_store(&rt);
    set(&rt, &mut device, &[(HALF + 4096, 0x12)]);
    let restored = restore(rt.alloc(), &mut device, LINES).expect(&rt, "an image");
    let line = restored.lines.first().map(|line| (line[0], line[1]));
    same(&rt, line, Some((0x12, 0x11)));
}

// It is armed, and the next save over it writes version 2 into its other slot. Without that one the old image is restored.
#[test]
fn an_old_store_that_goes_on(rt: HostRuntime) {
    let mut device = old_store(&rt);
    assert!(rt; device.len() == SIZE);
    mark_armed(&mut device, OLD_NEWEST.slot).expect(&rt, "a mark");
    let armed = Ok((2, Verdict::PossibleLoss { after: 1 }));
    same(&rt, told(rt.alloc(), &mut device), armed);
    assert!(rt; device.len() == SIZE);
    let saved = save(&mut device, OLD_NEWEST, false, 3, false, &memory(0x33));
    same(&rt, saved, Ok(OLD_NEWEST.next()));
    let restored = restore(rt.alloc(), &mut device, LINES).expect(&rt, "an image");
    same(&rt, restored.head.newest, OLD_NEWEST.next());
    same(&rt, restored.version, Version::Two);
    same(&rt, restored.lines.as_slice(), memory(0x33).as_slice());
    set(&rt, &mut device, &[(0, 0)]);
    same(&rt, told(rt.alloc(), &mut device), armed);
}

// A formatted store with a save of one line behind it.
pub(crate) fn saved<R: Abort + AllocGlobal>(rt: &R) -> MemoryDevice {
    let mut device = formatted(rt);
    assert!(*rt; device.len() == SIZE);
    save(&mut device, CLOSED_FIRST, true, 1, false, &memory(0x11)).expect(rt, "a save");
    device
}

// Fails where the header in a slot isn't this one with an open gate.
fn has_header<R: Abort>(rt: &R, device: &mut MemoryDevice, slot: Slot, mut header: [u8; 4096]) {
    header[0] = 0xa5;
    let at = slot.start(LINES);
    let mut page = [0; 4096];
    assert!(*rt; at <= SIZE - 4096);
    assert!(*rt; device.len() == SIZE);
    device.read(at, &mut page).expect(rt, "a header");
    same(rt, page.as_slice(), header.as_slice());
}

#[test]
fn a_format_and_a_save_write_version_2(rt: HostRuntime) {
    let mut device = saved(&rt);
    let first = header_bytes_2(1, 0, 128, false, &DIGEST_OF_ZEROS);
    has_header(&rt, &mut device, Slot::First, first);
    let second = header_bytes_2(2, 1, 128, false, &DIGEST_OF_11);
    has_header(&rt, &mut device, Slot::Second, second);
}

// Fails where that store with one bit changed at a place isn't damaged.
fn is_damaged<R: Abort + AllocGlobal>(rt: &R, at: usize, byte: u8, refused: RestoreError) {
    let mut device = saved(rt);
    set(rt, &mut device, &[(at, byte)]);
    let answer = told(rt.alloc(), &mut device);
    same(rt, (at, answer), (at, Err(refused)));
}

// One bit is changed of each byte of both digests, and of bytes of the bodies.
#[test]
fn a_bit_of_a_digest_or_of_a_line(rt: HostRuntime) {
    for at in 0..32 {
        is_damaged(&rt, 40 + at, DIGEST_OF_ZEROS[at] ^ 0x80, FIRST_DAMAGED);
        is_damaged(&rt, HALF + 40 + at, DIGEST_OF_11[at] ^ 1, SECOND_DAMAGED);
    }
    for at in [4096, 4160, 8191, 8192, HALF - 1] {
        is_damaged(&rt, at, 4, FIRST_DAMAGED);
    }
    for (at, byte) in [
        (4096, 0x10),
        (4159, 0x91),
        (4160, 1),
        (8191, 2),
        (HALF - 1, 0x40),
    ] {
        is_damaged(&rt, HALF + at, byte, SECOND_DAMAGED);
    }
    // the text of version 1 over a digest
    is_damaged(&rt, 15, 0x31, FIRST_DAMAGED);
    is_damaged(&rt, HALF + 15, 0x31, SECOND_DAMAGED);
}

// Makes a slot of a store of zero lines an image of this version, after five writes, clear and with an open gate.
pub(crate) fn put_image<R: Abort>(
    rt: &R,
    device: &mut MemoryDevice,
    slot: Slot,
    version: Version,
    generation: u64,
) {
    let lines = LINES as u64;
    let mut page = match version {
        Version::One => header_bytes(generation, 5, lines, false),
        Version::Two => header_bytes_2(generation, 5, lines, false, &DIGEST_OF_ZEROS),
    };
    page[0] = 0xa5;
    let at = slot.start(LINES);
    assert!(*rt; at <= SIZE - 4096);
    assert!(*rt; device.len() == SIZE);
    device.write_at(at, &page).expect(rt, "a write");
}

// Fails where a formatted store with an image of version 2 in its second slot and these bytes set restores to something else.
fn restores_2<R: Abort + AllocGlobal>(
    rt: &R,
    generation: u64,
    changes: &[(usize, u8)],
    wanted: Result<(u64, Verdict), RestoreError>,
) {
    let mut device = formatted(rt);
    put_image(rt, &mut device, Slot::Second, Version::Two, generation);
    set(rt, &mut device, changes);
    same(rt, told(rt.alloc(), &mut device), wanted);
}

#[test]
fn what_a_store_of_version_2_restores_to(rt: HostRuntime) {
    restores_2(&rt, 2, &[], Ok((2, Verdict::Complete)));
    let armed = Verdict::PossibleLoss { after: 5 };
    restores_2(&rt, 2, &[(HALF + 1, 1)], Ok((2, armed)));
    restores_2(&rt, 2, &[(HALF, 0)], Ok((1, Verdict::Complete)));
    restores_2(
        &rt,
        2,
        &[(HALF, 0), (HALF + 40, 0)],
        Ok((1, Verdict::Complete)),
    );
    restores_2(&rt, 2, &[(HALF + 72, 1)], Err(SECOND_DAMAGED));
    restores_2(&rt, 2, &[(HALF + 15, 0x31)], Err(SECOND_DAMAGED));
    restores_2(&rt, 1, &[], Err(SECOND_DAMAGED));
    restores_2(&rt, 2, &[(40, 1)], Err(FIRST_DAMAGED));
    restores_2(&rt, 2, &[(HALF + 40, 0), (40, 1)], Err(FIRST_DAMAGED));
}

// One bit of each byte of the digest is changed, and of the first and the last byte of some lines.
#[test]
fn a_digest_that_is_not_that_of_the_lines(rt: HostRuntime) {
    for at in 0..32 {
        let byte = DIGEST_OF_ZEROS[at] ^ 1;
        restores_2(&rt, 2, &[(HALF + 40 + at, byte)], Err(SECOND_DAMAGED));
    }
    for at in [16_384, 16_447, 16_448, 20_479, 20_480, 24_575] {
        restores_2(&rt, 2, &[(at, 0x80)], Err(SECOND_DAMAGED));
    }
}

// The older image is damaged where its digest is wrong, whichever version the newest one is of.
#[test]
fn a_digest_of_the_older_image(rt: HostRuntime) {
    for version in [Version::One, Version::Two] {
        for at in [40, 71, 4096, HALF - 1] {
            let mut device = formatted(&rt);
            put_image(&rt, &mut device, Slot::First, Version::Two, 2);
            put_image(&rt, &mut device, Slot::Second, version, 3);
            same(
                &rt,
                told(rt.alloc(), &mut device),
                Ok((3, Verdict::Complete)),
            );
            set(&rt, &mut device, &[(at, 0x11)]);
            same(&rt, told(rt.alloc(), &mut device), Err(FIRST_DAMAGED));
        }
    }
}

// The version is told, and generations are compared whatever the versions are.
#[test]
fn images_of_both_versions(rt: HostRuntime) {
    for first in [Version::One, Version::Two] {
        for second in [Version::One, Version::Two] {
            for (older, newer, newest) in [(4, 5, second), (5, 4, first)] {
                let mut device = formatted(&rt);
                put_image(&rt, &mut device, Slot::First, first, older);
                put_image(&rt, &mut device, Slot::Second, second, newer);
                let restored = restore(rt.alloc(), &mut device, LINES).expect(&rt, "an image");
                same(&rt, restored.head.newest.generation, 5);
                same(&rt, restored.version, newest);
                same(&rt, restored.lines.as_slice(), memory(0).as_slice());
            }
        }
    }
}

// Two images of one generation are none, whatever their versions.
#[test]
fn one_generation_in_both_slots(rt: HostRuntime) {
    for first in [Version::One, Version::Two] {
        for second in [Version::One, Version::Two] {
            let mut device = formatted(&rt);
            put_image(&rt, &mut device, Slot::First, first, 4);
            put_image(&rt, &mut device, Slot::Second, second, 4);
            same(&rt, told(rt.alloc(), &mut device), Err(SECOND_DAMAGED));
        }
    }
}

// The sync, both headers, the pages of the newest image, and those of the older one where it has a digest: each once.
#[test]
fn a_restore_of_two_images_on_a_device_that_fails(rt: HostRuntime) {
    for (older, whole) in [(Version::One, 5), (Version::Two, 7)] {
        for newest in [Version::One, Version::Two] {
            for calls in 0..9 {
                let mut device = formatted(&rt);
                put_image(&rt, &mut device, Slot::First, older, 2);
                put_image(&rt, &mut device, Slot::Second, newest, 3);
                let mut fuse = Fuse::new(device, calls);
                let answer = restore(rt.alloc(), &mut fuse, LINES).map(|restored| restored
                    .head
                    .count);
                let expected = if calls < whole {
                    Err(RestoreError::Device)
                } else {
                    Ok(5)
                };
                same(&rt, (calls, answer), (calls, expected));
                same(&rt, fuse.left, calls.saturating_sub(whole));
            }
        }
    }
}
