// A device over a file in memory whose calls fail as they are told.
use file_device::{FileDevice, ModelFile};
use save_device::{DeviceFault, SaveDevice};
use std::process::Abort;

// A device of four zeros over a file on which these calls fail.
fn device<R: Abort + AllocGlobal>(rt: &R, faults: u64) -> FileDevice<ModelFile> {
    let alloc = rt.alloc();
    let bytes = Vec::from_elem(alloc, 0, 4).expect(rt, "memory");
    let file = ModelFile::new(alloc, bytes, faults).expect(rt, "memory");
    FileDevice::over(alloc, file).expect(rt, "memory")
}

// Whether a byte is written at a place where there is room for it.
fn writes<D: SaveDevice>(device: &mut D, at: usize, byte: u8) -> Result<(), DeviceFault> {
    if at < device.len() {
        device.write_at(at, &[byte])
    } else {
        Err(DeviceFault)
    }
}

// What a device over this file reads once its machine has stopped, where it has four bytes.
fn after_a_stop<R: Abort + AllocGlobal>(rt: &R, mut file: ModelFile) -> [u8; 4] {
    file.stop(0xee);
    let mut device = FileDevice::over(rt.alloc(), file).expect(rt, "memory");
    let mut bytes = [0; 4];
    if device.len() == 4 {
        let _done = device.read(0, &mut bytes);
    }
    bytes
}

#[test]
fn a_stop_leaves_what_was_synced(rt: HostRuntime) {
    let mut device = device(&rt, 0);
    assert_eq!(rt; writes(&mut device, 0, 1), Ok(()));
    assert_eq!(rt; device.sync(), Ok(()));
    assert_eq!(rt; writes(&mut device, 2, 3), Ok(()));
    assert_eq!(rt; device.faults(), 0);
    assert_eq!(rt; after_a_stop(&rt, device.into_file()), [1, 0, 0xee, 0]);
}

#[test]
fn a_sync_behind_a_failed_write(rt: HostRuntime) {
    let mut device = device(&rt, 0b10);
    assert_eq!(rt; writes(&mut device, 0, 1), Ok(()));
    assert_eq!(rt; writes(&mut device, 2, 3), Err(DeviceFault));
    assert_eq!(rt; writes(&mut device, 3, 4), Ok(()));
    assert_eq!(rt; device.sync(), Ok(()));
    assert_eq!(rt; device.faults(), 1);
    assert_eq!(rt; after_a_stop(&rt, device.into_file()), [1, 0, 3, 4]);
}

#[test]
fn a_sync_behind_failed_syncs(rt: HostRuntime) {
    let mut device = device(&rt, 0b10_0100);
    assert_eq!(rt; writes(&mut device, 0, 1), Ok(()));
    assert_eq!(rt; writes(&mut device, 3, 4), Ok(()));
    assert_eq!(rt; device.sync(), Err(DeviceFault));
    assert_eq!(rt; device.sync(), Err(DeviceFault));
    assert_eq!(rt; device.sync(), Ok(()));
    assert_eq!(rt; device.faults(), 2);
    assert_eq!(rt; after_a_stop(&rt, device.into_file()), [1, 0, 0, 4]);
}

#[test]
fn each_call_fails(rt: HostRuntime) {
    let mut device = device(&rt, u64::MAX);
    assert_eq!(rt; writes(&mut device, 0, 1), Err(DeviceFault));
    assert_eq!(rt; device.sync(), Err(DeviceFault));
    assert_eq!(rt; device.sync(), Err(DeviceFault));
    assert_eq!(rt; device.faults(), 3);
    assert_eq!(rt; after_a_stop(&rt, device.into_file()), [0xee, 0, 0, 0]);
}
