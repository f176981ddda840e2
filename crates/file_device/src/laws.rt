// What a stop leaves of a device's file.
ghost use Rattle.std.specs.Prelude.{◌≡◌, List, ℕ, Some};
ghost use Rattle.save_device.specs.Device.{IsSettled, MayLeave, present};
ghost use Rattle.file_device.specs.declared.device.FileDevice.{FileDevice};
ghost use Rattle.file_device.specs.Kept.{FileMayLeave, Kept};

use crate::{DiskFile, FileDevice};
use save_device::SaveDevice;

/// Between any two calls a stop leaves of the file only what one may leave of the device. Of a settled device that is what a
/// read gives.
pub fn stops_leave_what_devices_may<F: DiskFile>()
    ensures left { (device : FileDevice F F.DiskFile) (kept : Kept) (image : List ℕ)
        → F.DiskFile.kept device.file ≡ Some kept → FileMayLeave kept image
        → MayLeave (present (⟦<FileDevice<F> as SaveDevice>⟧.state device)) image }
    ensures settled { (device : FileDevice F F.DiskFile) (kept : Kept) (image : List ℕ)
        → F.DiskFile.kept device.file ≡ Some kept → FileMayLeave kept image
        → IsSettled (⟦<FileDevice<F> as SaveDevice>⟧.state device)
        → image ≡ (⟦<FileDevice<F> as SaveDevice>⟧.state device).bytes }
{}
