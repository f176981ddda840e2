// What makes the modules of a session.
ghost use Rattle.std.specs.Prelude.{◌≡◌, ℕ, IfErr, IfOk};
ghost use Rattle.line_memory.specs.Memory.{IsMemory};
ghost use Rattle.ddr4_timing.specs.declared.timing.Checked.{Checked};
ghost use Rattle.channel_port.specs.Shape.{Shape};
ghost use Rattle.channel_set.specs.Issuing.{HaveIssuedNone};
ghost use Rattle.interleave_map.specs.declared.ready.Interleaving.{Interleaving};
ghost use Rattle.save_device.specs.Device.{DeviceState};
ghost use Rattle.save_image.specs.Header.{Fits};
ghost use Rattle.slot_store.specs.Rest.{IsAtRestOn};
ghost use Rattle.slot_store.specs.Told.{image_of_restored};
ghost use Rattle.module_core.specs.Opening.{opened_with};
ghost use Rattle.module_core.specs.Stands.{ModuleStands, setup_of};

use channel_port::ChannelPort;
use interleave_map::Interleaving;
use module_core::Module;
use slot_store::Restored;
use std::alloc::{AllocError, Global};

/// Makes the modules of a session, each over one of two maps of one geometry.
pub trait Wires<K: ChannelPort> {
    /// What doesn't change of the channels over a map.
    ghost shape: { Self → Interleaving → Shape };

    /// The profile of the channels.
    ghost checked: { Self → Checked };

    /// A module over a map that begins a life with what was restored, and may accept `trail` writes. None of its channels has issued
    /// a command. It refuses only where there is no memory for them, and then hands back what was restored.
    fn open(
        &self,
        alloc: Global,
        map: Interleaving,
        restored: Restored,
        trail: u64,
    ) -> Result<Module<K>, (Restored, AllocError)>
        requires memory { IsMemory (shape self.now map).lines restored.lines.items }
        requires numbers { Fits restored.head.newest.generation restored.head.count }
        ensures begins { IfOk result (λ it. (arm : ℕ) (device : DeviceState)
            → IsAtRestOn restored.head.newest.slot (image_of_restored restored arm)
            (shape self.now map).lines restored.head.closed device
            → ModuleStands K.ChannelPort it device
            (opened_with restored.head (image_of_restored restored arm))) }
        ensures setup { IfOk result (λ it. setup_of K.ChannelPort it
            ≡ record { shape = shape self.now map; trail = trail }) }
        ensures checked { IfOk result (λ it. it.channels.terms.checked ≡ checked self.now) }
        ensures issued { IfOk result (λ it. HaveIssuedNone K.ChannelPort it.channels) }
        ensures back { IfErr result (λ back. back.0 ≡ restored) };
}
