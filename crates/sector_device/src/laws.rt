// What an opening finds behind a stop of a device over a file of sectors.
ghost use Rattle.std.specs.Prelude.{◌≡◌, List, ℕ, Some, length};
ghost use Rattle.save_device.specs.Device.{IsSettled, MayLeave, present};
ghost use Rattle.file_device.specs.Kept.{FileMayLeave, Kept};
ghost use Rattle.sector_device.specs.Spare.{found_in};
ghost use Rattle.sector_device.specs.declared.device.SectorDevice.{SectorDevice};

use crate::{SectorDevice, SectorFile};
use save_device::SaveDevice;

/// Between any two calls a stop leaves a file in which an opening finds only what one may leave of the device. Of a settled device
/// that is what a read gives.
pub fn stops_find_what_devices_may<F: SectorFile>()
    ensures left { (device : SectorDevice F F.SectorFile) (kept : Kept) (image : List ℕ)
        → F.SectorFile.kept device.file ≡ Some kept → FileMayLeave kept image
        → MayLeave (present (⟦<SectorDevice<F> as SaveDevice>⟧.state device))
        (found_in (length (⟦<SectorDevice<F> as SaveDevice>⟧.state device).bytes) image) }
    ensures settled { (device : SectorDevice F F.SectorFile) (kept : Kept) (image : List ℕ)
        → F.SectorFile.kept device.file ≡ Some kept → FileMayLeave kept image
        → IsSettled (⟦<SectorDevice<F> as SaveDevice>⟧.state device)
        → found_in (length (⟦<SectorDevice<F> as SaveDevice>⟧.state device).bytes) image
        ≡ (⟦<SectorDevice<F> as SaveDevice>⟧.state device).bytes }
{}
