// A device over a file of sectors in memory, of which a stop leaves nothing in what was touched.
use save_device::{DeviceFault, SaveDevice};
use sector_device::{ModelSectorFile, SectorDevice};
use std::process::Abort;

/// The calls of a sync that writes a part of one sector: four writes, each with its flush, and a flush.
const CALLS: u64 = 9;

// A device of two sectors over a file of which these calls fail.
fn device<R: Abort + AllocGlobal>(rt: &R, faults: u64) -> SectorDevice<ModelSectorFile> {
    let alloc = rt.alloc();
    let file = ModelSectorFile::new(alloc, 5, faults).expect(rt, "memory");
    SectorDevice::over(alloc, file).expect(rt, "memory")
}

// Writes where there is room, and syncs.
fn saves<D: SaveDevice>(device: &mut D, at: usize, bytes: &[u8]) -> Result<(), DeviceFault> {
    if at < device.len() && bytes.len() <= device.len() - at {
        device.write_at(at, bytes)?;
        device.sync()
    } else {
        Err(DeviceFault)
    }
}

// What an opening reads once the machine has stopped, with no further call of the file that fails.
fn after_a_stop<R: Abort + AllocGlobal>(
    rt: &R,
    device: SectorDevice<ModelSectorFile>,
) -> [u8; 1024] {
    let mut file = device.into_file();
    file.stop(0xee);
    file.fail(0);
    let mut device = SectorDevice::over(rt.alloc(), file).expect(rt, "memory");
    let mut bytes = [0xff; 1024];
    if device.len() == 1024 {
        let _done = device.read(0, &mut bytes);
    }
    bytes
}

#[test]
fn a_part_of_a_sector_leaves_its_other_bytes(rt: HostRuntime) {
    let mut device = device(&rt, 0);
    let mut wanted = [0; 1024];
    wanted[7] = 1;
    assert_eq!(rt; saves(&mut device, 7, &[1]), Ok(()));
    wanted[600..1024].fill(2);
    assert_eq!(rt; saves(&mut device, 600, &[2; 424]), Ok(()));
    assert_eq!(rt; device.faults(), 0);
    assert_eq!(rt; after_a_stop(&rt, device), wanted);
}

#[test]
fn a_stop_within_any_call_leaves_the_other_bytes(rt: HostRuntime) {
    for call in 0..CALLS {
        let mut device = device(&rt, 1 << call);
        assert_eq!(rt; saves(&mut device, 7, &[1]), Err(DeviceFault));
        let mut found = after_a_stop(&rt, device);
        assert!(rt; found[7] <= 1);
        found[7] = 0;
        assert_eq!(rt; found, [0; 1024]);
    }
}

#[test]
fn a_sync_behind_failed_calls(rt: HostRuntime) {
    // each set of the first calls fails: one at least, and so at most as many syncs as there are calls
    for faults in 1..1 << CALLS {
        let mut device = device(&rt, faults);
        assert_eq!(rt; saves(&mut device, 7, &[1]), Err(DeviceFault));
        for _sync in 0..CALLS {
            if saves(&mut device, 8, &[2]).is_ok() {
                break;
            }
        }
        let mut wanted = [0; 1024];
        wanted[7] = 1;
        wanted[8] = 2;
        assert_eq!(rt; after_a_stop(&rt, device), wanted);
    }
}

#[test]
fn a_stop_behind_failed_calls_leaves_the_other_bytes(rt: HostRuntime) {
    for faults in 1..1 << CALLS {
        let mut device = device(&rt, faults);
        assert_eq!(rt; saves(&mut device, 7, &[1]), Err(DeviceFault));
        let _done = saves(&mut device, 600, &[1]);
        let mut found = after_a_stop(&rt, device);
        found[7] = 0;
        found[600] = 0;
        assert_eq!(rt; found, [0; 1024]);
    }
}

#[test]
fn whole_sectors_go_to_their_place(rt: HostRuntime) {
    let mut device = device(&rt, 0b1100);
    assert_eq!(rt; saves(&mut device, 0, &[3; 1024]), Ok(()));
    assert_eq!(rt; saves(&mut device, 0, &[4; 1024]), Err(DeviceFault));
    assert_eq!(rt; device.sync(), Err(DeviceFault));
    assert_eq!(rt; device.sync(), Ok(()));
    assert_eq!(rt; device.faults(), 2);
    assert_eq!(rt; after_a_stop(&rt, device), [4; 1024]);
}

#[test]
fn whole_sectors_that_were_not_flushed_are_lost(rt: HostRuntime) {
    let mut device = device(&rt, 0b1000);
    assert_eq!(rt; saves(&mut device, 0, &[3; 1024]), Ok(()));
    assert_eq!(rt; saves(&mut device, 0, &[4; 1024]), Err(DeviceFault));
    assert_eq!(rt; after_a_stop(&rt, device), [0xee; 1024]);
}
