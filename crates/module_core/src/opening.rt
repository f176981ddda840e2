// The beginning of a life.
ghost use Rattle.std.specs.Prelude.{◌≡◌};
ghost use Rattle.save_device.specs.Device.{DeviceState};
ghost use Rattle.save_image.specs.Header.{Fits};
ghost use Rattle.save_image.specs.Image.{Image};

use crate::{Front, Module};
use arm_state::Mode;
use channel_port::ChannelPort;
use channel_set::ChannelSet;
use module_saves::Saves;
use slot_store::Head;

/// What no event of a life changes.
#[derive(Clone, Copy, Debug, PartialEq, Eq)]
pub struct LifeTerms {
    /// The number of its first write.
    pub start: u64,
    /// How many writes may be stored.
    pub trail: u64,
    /// The number of the first write that is stored. A cut alone moves it.
    pub cut: u64,
}

impl<K: ChannelPort> Module<K> {
    ghost use Rattle.module_core.specs.Opening.{opened_with, setup_with, AreUnasked, BeginsOn};
    ghost use Rattle.module_core.specs.Stands.{ModuleStands, setup_of};

    /// Begins a life, disarmed, over channels that hold the memory which a restore found. `trail` writes may be
    /// stored at once.
    pub fn open(channels: ChannelSet<K>, found: Head, trail: u64) -> Module<K>
        requires unasked { AreUnasked K.ChannelPort channels }
        requires numbers { Fits found.newest.generation found.count }
        ensures begins { (image : Image) (device : DeviceState)
            → BeginsOn K.ChannelPort channels found image device
            → ModuleStands K.ChannelPort result device (opened_with found image) }
        ensures setup { setup_of K.ChannelPort result ≡ setup_with K.ChannelPort channels trail }
        ensures channels { result.channels ≡ channels }
    {
        Module {
            front: Front {
                terms: LifeTerms {
                    start: found.count,
                    trail,
                    cut: found.count,
                },
                accepted: found.count,
                persisted: found.count,
                saved: found.count,
                mode: Mode::Disarmed,
                reading: 0,
                saves: Saves {
                    newest: found.newest,
                    closed: found.closed,
                    unsettled: false,
                    saving: None,
                },
            },
            channels,
        }
    }
}
