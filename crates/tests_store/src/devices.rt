// What no clause says: that a device can be made, that its calls succeed, and the bytes that a stop leaves, by hand.
use crate::check::same;
use save_device::{DeviceFault, Fuse, MemoryDevice, OneFault, Pick, SaveDevice};
use std::process::Abort;

const ROW: [u8; 4] = [0xA5, 0, 7, 8];

fn row<R: Abort + AllocGlobal>(rt: &R) -> MemoryDevice {
    let bytes = ROW.to_vec(rt.alloc()).expect(rt, "memory");
    MemoryDevice::new(rt.alloc(), bytes).expect(rt, "memory")
}

// What a device reads, all zero where it hasn't four bytes or fails.
fn content<D: SaveDevice>(device: &mut D) -> [u8; 4] {
    let mut bytes = [0; 4];
    if device.len() == 4 && device.read(0, &mut bytes).is_ok() {
        bytes
    } else {
        [0; 4]
    }
}

// Whether bytes are written at a place where there is room for them.
fn writes<D: SaveDevice>(device: &mut D, at: usize, byte: u8) -> bool {
    at < device.len() && device.write_at(at, &[byte]).is_ok()
}

// The device after bytes 0x11 and 0x22 were written behind its first one, and what was picked at a stop.
fn after_a_stop<R: Abort + AllocGlobal>(rt: &R, is_synced: bool, pick: Pick) -> [u8; 4] {
    let mut device = row(rt);
    assert!(*rt; device.len() == 4);
    device.write_at(1, &[0x11, 0x22]).expect(rt, "a write");
    if is_synced {
        device.sync().expect(rt, "a sync");
    }
    device.stop(pick);
    content(&mut device)
}

#[test]
fn a_stop_gives_unsettled_bytes_as_picked(rt: HostRuntime) {
    let new = [0xA5, 0x11, 0x22, 8];
    let torn = [0xA5, 9, 9, 8];
    same(&rt, after_a_stop(&rt, false, Pick::Old), ROW);
    same(&rt, after_a_stop(&rt, false, Pick::New), new);
    same(&rt, after_a_stop(&rt, false, Pick::Torn(9)), torn);
    for pick in [Pick::Old, Pick::New, Pick::Torn(9)] {
        same(&rt, after_a_stop(&rt, true, pick), new);
    }
}

#[test]
fn a_stopped_device_is_settled(rt: HostRuntime) {
    let mut device = row(&rt);
    same(&rt, writes(&mut device, 0, 1), true);
    same(&rt, writes(&mut device, 3, 2), true);
    device.stop(Pick::New);
    device.stop(Pick::Torn(9));
    same(&rt, content(&mut device), [1, 0, 7, 2]);
    same(&rt, device.faults(), 0);
}

// What the calls of a device answer, one write of a byte after another, with a sync at each third call.
fn answers<D: SaveDevice>(device: &mut D) -> [bool; 6] {
    let mut good = [false; 6];
    for (i, answer) in good.iter_mut().enumerate() {
        if device.len() == 4 {
            *answer = if i % 3 == 2 {
                device.sync().is_ok()
            } else {
                device.write_at(i % 4, &[9]).is_ok()
            };
        }
    }
    good
}

#[test]
fn a_fuse_fails_from_one_call_on(rt: HostRuntime) {
    let device = row(&rt);
    let mut fuse = Fuse::new(device, 3);
    same(
        &rt,
        answers(&mut fuse),
        [true, true, true, false, false, false],
    );
    same(&rt, fuse.faults(), 3);
    same(&rt, fuse.device.faults(), 0);
    same(&rt, content(&mut fuse.device), [9, 9, 7, 8]);
    fuse.left = 6;
    same(&rt, answers(&mut fuse), [true; 6]);
    same(&rt, content(&mut fuse.device), [9, 9, 7, 9]);
}

#[test]
fn one_call_alone_fails(rt: HostRuntime) {
    for before in 0..6 {
        let device = row(&rt);
        let mut one = OneFault::new(Fuse::new(device, 100), before);
        let mut expected = [true; 6];
        if let Some(answer) = expected.get_mut(before as usize) {
            *answer = false;
        }
        same(&rt, answers(&mut one), expected);
        same(&rt, one.faults(), 1);
        // A write is handed on all the same, a sync isn't.
        let handed = if before % 3 == 2 { 5 } else { 6 };
        same(&rt, one.device.left, 100 - handed);
        same(&rt, content(&mut one.device.device), [9, 9, 7, 9]);
    }
}

#[test]
fn faults_of_two_devices_around_one(rt: HostRuntime) {
    let device = row(&rt);
    let mut one = OneFault::new(Fuse::new(device, 0), 0);
    same(&rt, answers(&mut one), [false; 6]);
    same(&rt, one.faults(), 6);
    same(&rt, one.device.faults(), 6);
    let mut bytes = [0; 4];
    assert!(rt; one.len() == 4);
    same(&rt, one.read(0, &mut bytes), Err(DeviceFault));
    let text = DeviceFault.to_string(rt.alloc()).expect(&rt, "memory");
    same(&rt, text.as_str(), "the device failed");
}

// Of two slots for images of the largest memory.
#[test]
fn a_device_of_the_largest_size(rt: HostRuntime) {
    let size = 8_396_800;
    let zeros = Vec::from_elem(rt.alloc(), 0, size).expect(&rt, "memory");
    let mut device = MemoryDevice::new(rt.alloc(), zeros).expect(&rt, "memory");
    same(&rt, device.len(), size);
    same(&rt, writes(&mut device, size - 1, 1), true);
    device.stop(Pick::Torn(9));
    let mut byte = [0];
    assert!(rt; device.len() == size);
    device.read(size - 1, &mut byte).expect(&rt, "a read");
    same(&rt, byte, [9]);
}

fn goes_to_threads<T: Send + Sync>(_device: &T) {}

#[test]
fn a_device_goes_to_threads(rt: HostRuntime) {
    let device = row(&rt);
    goes_to_threads(&OneFault::new(Fuse::new(device, 1), 1));
}
