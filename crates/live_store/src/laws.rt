// What the definitions say of the turns of a life, and of a life on a file.
ghost use Rattle.std.specs.Prelude.{◌≡◌, ℕ, List, Some, length};
ghost use Rattle.energy_budget.specs.Gauge.{Gauge};
ghost use Rattle.save_image.specs.Image.{Image};
ghost use Rattle.slot_store.specs.declared.head.Head.{Head};
ghost use Rattle.module_core.specs.declared.module.Module.{Module};
ghost use Rattle.module_core.specs.Opening.{opened_with};
ghost use Rattle.module_core.specs.Stands.{Assembly, ModuleStands, assembly};
ghost use Rattle.file_device.specs.Kept.{FileMayLeave, Kept};
ghost use Rattle.file_device.specs.declared.device.FileDevice.{FileDevice};
ghost use Rattle.sector_device.specs.Spare.{found_in};
ghost use Rattle.sector_device.specs.declared.device.SectorDevice.{SectorDevice};
ghost use Rattle.live_store.specs.declared.talk.Turn.{Turn};
ghost use Rattle.live_store.specs.Lives.{LivesBy, TakesTurns, SurvivesTurns};

use channel_port::ChannelPort;
use file_device::{DiskFile, FileDevice, stops_leave_what_devices_may};
use save_device::SaveDevice;
use sector_device::{SectorDevice, SectorFile, stops_find_what_devices_may};

/// **The answers of a life that runs are those of one life's events, and a stop at any moment of it leaves what the theorem
/// `survives_any_stop` says.** Each answer tells of the events of its line's verb. Whatever a stop leaves since the life began, within
/// a call or a device write too, a restore finds the memory after a prefix of the accepted writes: told Complete one that holds each
/// write that was acknowledged persistent, and after an honest life one that holds them whatever is told.
pub fn turns_survive<K: ChannelPort>()
    ensures { (found : Head) (image : Image) (turns : List Turn)
        (first now : Assembly K.ChannelPort)
        → ModuleStands K.ChannelPort first.it first.device (opened_with found image)
        → TakesTurns K.ChannelPort turns first now
        → LivesBy K.ChannelPort found image turns first now }
{}

/// The same of a life on a file that keeps what `DiskFile` says: what a stop leaves of the file between two calls is such bytes.
pub fn file_stops_survived<K: ChannelPort, F: DiskFile>()
    ensures { (found : Head) (image : Image) (turns : List Turn) (first : Assembly K.ChannelPort)
        (it : Module K K.ChannelPort) (device : FileDevice F F.DiskFile) (gauge : Gauge)
        (kept : Kept) (bytes : List ℕ)
        → ModuleStands K.ChannelPort first.it first.device (opened_with found image)
        → TakesTurns K.ChannelPort turns first
        (assembly it (⟦<FileDevice<F> as SaveDevice>⟧.state device) gauge)
        → F.DiskFile.kept device.file ≡ Some kept → FileMayLeave kept bytes
        → SurvivesTurns K.ChannelPort found image turns first
        (assembly it (⟦<FileDevice<F> as SaveDevice>⟧.state device) gauge) bytes }
{
    stops_leave_what_devices_may::<F>();
}

/// And of a life on a file that keeps what `SectorFile` says, where a stop within a write loses whole sectors: what an opening finds
/// there is such bytes.
pub fn sector_stops_survived<K: ChannelPort, F: SectorFile>()
    ensures { (found : Head) (image : Image) (turns : List Turn) (first : Assembly K.ChannelPort)
        (it : Module K K.ChannelPort) (device : SectorDevice F F.SectorFile) (gauge : Gauge)
        (kept : Kept) (bytes : List ℕ)
        → ModuleStands K.ChannelPort first.it first.device (opened_with found image)
        → TakesTurns K.ChannelPort turns first
        (assembly it (⟦<SectorDevice<F> as SaveDevice>⟧.state device) gauge)
        → F.SectorFile.kept device.file ≡ Some kept → FileMayLeave kept bytes
        → SurvivesTurns K.ChannelPort found image turns first
        (assembly it (⟦<SectorDevice<F> as SaveDevice>⟧.state device) gauge)
        (found_in (length (⟦<SectorDevice<F> as SaveDevice>⟧.state device).bytes) bytes) }
{
    stops_find_what_devices_may::<F>();
}
