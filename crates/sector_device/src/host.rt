// A file of the operating system, on a disk that loses whole sectors.
ghost use Rattle.std.specs.Prelude.{◌≡◌, None, IfOk, length};
ghost use Rattle.save_device.specs.Device.{IsSettled};
ghost use Rattle.save_device.specs.Memory.{state_of};

use crate::opening::SPARE_PLACE;
use crate::{SectorDevice, SectorFile};
use file_device::{DiskFile, HostFile, OpenFault};
use save_device::SaveDevice;
use std::alloc::Global;
use std::io;

/// The second of the five points on which a device over it rests is weaker here: a write that a stop breaks off, or that wasn't synced,
/// may leave anything in each sector of 512 bytes that it touches.
impl SectorFile for HostFile {
    ghost kept = { λ _. None };

    fn load(&mut self, alloc: Global) -> io::Result<Vec<u8>> {
        DiskFile::load(self, alloc)
    }

    fn put(&mut self, at: usize, bytes: &[u8]) -> io::Result<()> {
        DiskFile::put(self, at, bytes)
    }

    fn flush(&mut self) -> io::Result<()> {
        DiskFile::flush(self)
    }
}

impl SectorDevice<HostFile> {
    /// A device of so many bytes, whole sectors, over the file at the path, which is made of zeros where there is none. The file has
    /// 1,536 bytes more.
    pub fn open(
        rt: &HostRuntime,
        path: &str,
        len: usize,
    ) -> Result<SectorDevice<HostFile>, OpenFault>
        ensures settled { IfOk result (λ device. IsSettled (state_of device.mirror)) }
        ensures size { IfOk result (λ device. length (state_of device.mirror).bytes ≡ len) }
    {
        let wanted = (len as u64).saturating_add(SPARE_PLACE as u64);
        let device = SectorDevice::over(rt.alloc(), HostFile::open(rt, path, wanted)?)?;
        if device.len() != len {
            let found = (device.len() as u64).saturating_add(SPARE_PLACE as u64);
            return Err(OpenFault::WrongLength { found, wanted });
        }
        Ok(device)
    }
}
