// Stores that are shown, whole and broken.
use crate::check::same;
use command_line::{STORE_BYTES, show_store};
use save_device::{MemoryDevice, SaveDevice};
use slot_store::{device_size, format};
use std::process::Abort;

const LINES: usize = 128;

const SLOT: usize = 12_288;

// The bytes of a store as a format leaves it.
fn formatted<R: Abort + AllocGlobal>(rt: &R) -> Vec<u8> {
    let size = device_size(LINES);
    let mut bytes = Vec::from_elem(rt.alloc(), 0, size).expect(rt, "memory");
    let zeros = Vec::from_elem(rt.alloc(), 0, size).expect(rt, "memory");
    let mut device = MemoryDevice::new(rt.alloc(), zeros).expect(rt, "memory");
    if device.len() == size {
        format(&mut device, LINES).expect(rt, "a store");
    }
    if device.len() == bytes.len() {
        device.read(0, &mut bytes).expect(rt, "its bytes");
    }
    bytes
}

// Writes bytes over those of a store.
fn put(store: &mut Vec<u8>, at: usize, bytes: &[u8]) {
    for (place, byte) in store.iter_mut().skip(at).zip(bytes) {
        *place = *byte;
    }
}

// Makes the image in a slot one of version 1, which has no digest.
fn drop_digest(store: &mut Vec<u8>, slot: usize) {
    put(store, slot.saturating_add(8), b"NVSAVE01");
    put(store, slot.saturating_add(40), &[0; 32]);
}

// Copies the first slot into the second one.
fn copy(store: &mut Vec<u8>) {
    for at in 0..SLOT {
        if SLOT + at < store.len() {
            store[SLOT + at] = store[at];
        }
    }
}

// Fails where a store isn't shown so, with an image restored or not. A case is named by its number.
fn is_shown<R>(rt: &R, case: usize, store: Vec<u8>, found: bool, text: &str)
where
    R: Abort + AllocGlobal,
{
    let mut shown = Vec::new(rt.alloc());
    let answer = show_store(rt.alloc(), store, false, &mut shown);
    same(
        rt,
        (case, answer, shown.as_slice()),
        (case, Ok(found), text.as_bytes()),
    );
}

// Fails where a store with these bytes in place of some isn't shown so.
fn is_shown_with<R>(rt: &R, at: usize, bytes: &[u8], found: bool, text: &str)
where
    R: Abort + AllocGlobal,
{
    let mut store = formatted(rt);
    put(&mut store, at, bytes);
    is_shown(rt, at, store, found, text);
}

// Fails where a store of so many zeros isn't refused so.
fn zeros_are_refused<R: Abort + AllocGlobal>(rt: &R, size: usize, text: &str) {
    let zeros = Vec::from_elem(rt.alloc(), 0, size).expect(rt, "memory");
    is_shown(rt, size, zeros, false, text);
}

#[test]
fn gates_and_arm_bytes(rt: HostRuntime) {
    is_shown(&rt, 0, formatted(&rt), true, "restored 1 0 Complete\n");
    for gate in [0xa4, 0, 0x5a, 0xff] {
        is_shown_with(&rt, 0, &[gate], false, "refused restore 1 NoImage\n");
    }
    for arm in [0x01, 0x5a, 0xff] {
        is_shown_with(&rt, 1, &[arm], true, "restored 1 0 PossibleLoss\n");
    }
}

#[test]
fn headers_that_are_none(rt: HostRuntime) {
    let changes: [(usize, &[u8]); 12] = [
        (2, &[1]),
        (15, &[0x30]),
        (15, &[0x31]),
        (40, &[1]),
        (72, &[1]),
        (4095, &[1]),
        (16, &[0]),
        (16, &[0, 0, 0, 0, 0, 0, 0, 0x80]),
        (24, &[1, 0, 0, 0, 0, 0, 0, 0x40]),
        (24, &[0, 0, 0, 0, 0, 0, 0, 0x80]),
        (32, &[127]),
        (39, &[1]),
    ];
    for (at, bytes) in changes {
        let text = "refused restore 2 Damaged 0\n";
        is_shown_with(&rt, at, bytes, false, text);
        let mut beside = formatted(&rt);
        copy(&mut beside);
        put(&mut beside, SLOT + 16, &[2]);
        put(&mut beside, at, bytes);
        is_shown(&rt, at, beside, false, text);
    }
    let mut greatest = formatted(&rt);
    put(
        &mut greatest,
        16,
        &[0xff, 0xff, 0xff, 0xff, 0xff, 0xff, 0xff, 0x7f],
    );
    put(&mut greatest, 24, &[0, 0, 0, 0, 0, 0, 0, 0x40]);
    let text = "restored 9223372036854775807 4611686018427387904 Complete\n";
    is_shown(&rt, 16, greatest, true, text);
}

#[test]
fn two_slots(rt: HostRuntime) {
    let mut same = formatted(&rt);
    put(&mut same, 16, &[4]);
    copy(&mut same);
    is_shown(&rt, 0, same, false, "refused restore 2 Damaged 1\n");
}

// The SHA-256 of 128 lines, by another program: line 1 has 64 bytes 0x11, the last byte of line 127 is 0xa5, and all others are 0.
const DIGEST: [u8; 32] = [
    0xd4, 0x31, 0x8e, 0xcb, 0x4d, 0x79, 0x26, 0xe1, 0xe3, 0x5e, 0x70, 0x9b, 0xd1, 0x5c, 0xb8, 0xe0,
    0x60, 0x5f, 0xcb, 0x21, 0x14, 0x7c, 0xb3, 0xd3, 0x8c, 0x3d, 0x8e, 0x48, 0xa4, 0xe6, 0x48, 0xe8,
];

// A store with those lines in its second slot, by generation 2 after three writes, and a digest of zeros.
fn with_lines<R: Abort + AllocGlobal>(rt: &R) -> Vec<u8> {
    let mut store = formatted(rt);
    copy(&mut store);
    put(&mut store, SLOT + 16, &[2]);
    put(&mut store, SLOT + 24, &[3]);
    put(&mut store, SLOT + 4096 + 64, &[0x11; 64]);
    put(&mut store, SLOT + 4096 + 127 * 64 + 63, &[0xa5]);
    store
}

// Lines are shown where the image has no digest, or its own.
#[test]
fn lines_that_are_shown(rt: HostRuntime) {
    let zeros = "00000000000000000000000000000000000000000000000000000000000000";
    let text = format!(in rt.alloc();
        "restored 2 3 Complete\nline 1 = 11\nline 127 = {zeros}{zeros}00a5\n"
    );
    let text = text.expect(&rt, "memory");
    let damaged = "refused restore 2 Damaged 1\n";
    is_shown(&rt, 0, with_lines(&rt), false, damaged);
    let mut digested = with_lines(&rt);
    put(&mut digested, SLOT + 40, &DIGEST);
    is_shown(&rt, 1, digested, true, text.as_str());
    let mut changed = with_lines(&rt);
    put(&mut changed, SLOT + 40, &DIGEST);
    put(&mut changed, SLOT + 4096 + 63, &[1]);
    is_shown(&rt, 2, changed, false, damaged);
    let mut old = with_lines(&rt);
    drop_digest(&mut old, SLOT);
    is_shown(&rt, 3, old, true, text.as_str());
    // both slots of version 1
    let mut older = with_lines(&rt);
    drop_digest(&mut older, 0);
    drop_digest(&mut older, SLOT);
    is_shown(&rt, 4, older, true, text.as_str());
}

#[test]
fn sizes(rt: HostRuntime) {
    let text = "refused restore 3 WrongSize\n";
    for size in [
        0, 1, 4096, 8192, 12_288, 16_383, 16_385, 24_575, 24_577, 24_704,
    ] {
        let mut store = formatted(&rt);
        store.resize(size, 0).expect(&rt, "memory");
        is_shown(&rt, size, store, false, text);
    }
    // a page of lines fewer, where the lines in the header don't fit
    let mut small = formatted(&rt);
    small.truncate(16_384);
    is_shown(&rt, 16_384, small, false, "refused restore 2 Damaged 0\n");
    zeros_are_refused(&rt, STORE_BYTES as usize, "refused restore 1 NoImage\n");
    zeros_are_refused(&rt, STORE_BYTES as usize + 8192, text);
}
