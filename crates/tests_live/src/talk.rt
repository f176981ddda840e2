// Lives on devices in memory, talked with by texts.
use file_device::{DiskFile, FileDevice, ModelFile};
use interleave_map::{Interleaving, ReadyMap};
use live_store::{Console, LiveFault, live_on};
use nv_profile::{TINY, read_profile};
use save_device::{MemoryDevice, SaveDevice};
use script_runner::Wiring;
use sector_device::{ModelSectorFile, SPARE_PLACE, SectorDevice};
use slot_store::device_size;
use std::process::Abort;

/// A life that ended: what it wrote, and its device, or why there was none.
#[derive(Drop)]
pub(crate) struct Ended<D: SaveDevice> {
    pub text: Vec<u8>,
    pub device: Result<D, LiveFault>,
}

/// Lives on a device of the profile `tiny`, and hears these lines.
pub(crate) fn live<R: Abort + AllocGlobal, D: SaveDevice + Drop>(
    rt: &R,
    device: D,
    lines: &str,
) -> Ended<D> {
    let alloc = rt.alloc();
    let profile = read_profile(alloc, TINY.as_bytes()).expect(rt, "a profile");
    let mut console = Console::new(lines.as_bytes(), Vec::new(alloc), false);
    let lines_map = ReadyMap {
        interleaving: Interleaving::Lines,
        checked: profile.checked,
    };
    let xor_map = ReadyMap {
        interleaving: Interleaving::Xor,
        checked: profile.checked,
    };
    let wiring = Wiring::new(&lines_map, &xor_map, &profile);
    let device = live_on(alloc, &profile, &wiring, device, &mut console);
    Ended {
        text: console.into_writer(),
        device,
    }
}

/// So many zeros.
pub(crate) fn zeros<R: Abort + AllocGlobal>(rt: &R, n: usize) -> Vec<u8> {
    Vec::from_elem(rt.alloc(), 0, n).expect(rt, "memory")
}

/// A device in memory with zeros.
pub(crate) fn blank<R: Abort + AllocGlobal>(rt: &R) -> MemoryDevice {
    MemoryDevice::new(rt.alloc(), zeros(rt, device_size(128))).expect(rt, "memory")
}

/// A device over a file in memory with zeros, of which these calls fail.
pub(crate) fn on_file<R: Abort + AllocGlobal>(rt: &R, faults: u64) -> FileDevice<ModelFile> {
    let file = ModelFile::new(rt.alloc(), zeros(rt, device_size(128)), faults).expect(rt, "memory");
    FileDevice::over(rt.alloc(), file).expect(rt, "memory")
}

/// The device over the same file once its machine has stopped and come back.
pub(crate) fn after_a_stop<R: Abort + AllocGlobal>(
    rt: &R,
    device: FileDevice<ModelFile>,
) -> FileDevice<ModelFile> {
    let mut file = device.into_file();
    file.stop(0xee);
    FileDevice::over(rt.alloc(), file).expect(rt, "memory")
}

/// A device over a file of sectors in memory with zeros.
pub(crate) fn on_sectors<R: Abort + AllocGlobal>(rt: &R) -> SectorDevice<ModelSectorFile> {
    let sectors = (device_size(128) + SPARE_PLACE) / 512;
    let file = ModelSectorFile::new(rt.alloc(), sectors, 0).expect(rt, "memory");
    SectorDevice::over(rt.alloc(), file).expect(rt, "memory")
}

/// The device over the same file once its machine has stopped, in a write or a sync if the file was told so, and come back. Of the
/// calls of its file these fail.
pub(crate) fn sectors_after_a_stop<R: Abort + AllocGlobal>(
    rt: &R,
    device: SectorDevice<ModelSectorFile>,
    faults: u64,
) -> SectorDevice<ModelSectorFile> {
    let mut file = device.into_file();
    file.stop(0xee);
    file.fail(faults);
    SectorDevice::over(rt.alloc(), file).expect(rt, "memory")
}
