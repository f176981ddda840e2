// The opening of a life.
ghost use Rattle.std.specs.Prelude.{◌≡◌, ◌≤◌, ℕ, IfErr, IfOk, length};
ghost use Rattle.ddr4_timing.specs.Limits.{lines_of};
ghost use Rattle.energy_budget.specs.Costs.{AreReckonedFor};
ghost use Rattle.save_device.specs.Device.{DeviceState};
ghost use Rattle.save_image.specs.Header.{Fits};
ghost use Rattle.slot_store.specs.Rest.{IsAtRestOn};
ghost use Rattle.slot_store.specs.Told.{image_of_restored};
ghost use Rattle.channel_set.specs.Issuing.{HaveIssuedNone};
ghost use Rattle.ddr4_port.specs.Memory.{shape_over};
ghost use Rattle.module_core.specs.Opening.{opened_with};
ghost use Rattle.module_core.specs.Stands.{ModuleStands, setup_of};

use channel_port::ChannelPort;
use ddr4_port::{Ddr4Port, channels_with_memory};
use ddr4_timing::timing::Checked;
use energy_budget::Costs;
use interleave_map::line_map::LineMap;
use module_core::Module;
use slot_store::Restored;
use std::alloc::{AllocError, Global};

/// How much room a module has.
#[derive(Clone, Copy, Debug, PartialEq, Eq)]
pub struct Sizes {
    /// How many writes may wait in a channel; 1 to 64.
    pub depth: u64,
    /// How many reads of a channel may be pending or not collected; at most 64.
    pub reads: u64,
    /// How many writes the life may accept.
    pub trail: u64,
    /// Whether each channel keeps the commands that it issues. Where one does, a command takes memory.
    pub keeps_commands: bool,
}

/// Begins a life, disarmed, with what a device restored to, over a lawful map of the profile's geometry: over a device at rest on
/// the image, whatever its arm byte, the module stands for a new life, and none of its channels has issued a command. It refuses
/// only where there is no memory for the channels, and then hands back what was restored.
pub fn open<'m, M: LineMap>(
    alloc: Global,
    restored: Restored,
    map: &'m M,
    checked: &Checked,
    costs: Costs,
    sizes: Sizes,
) -> Result<Module<Ddr4Port<'m, M>>, (Restored, AllocError)>
    requires lawful { M.is_lawful map.now }
    requires geometry { M.geometry_of map.now ≡ checked.now.geometry }
    requires lines { length restored.lines.items ≡ lines_of checked.now.geometry }
    requires numbers { Fits restored.head.newest.generation restored.head.count }
    requires costs { AreReckonedFor checked.now costs }
    requires depth { (1 ≤ sizes.depth) × (sizes.depth ≤ 64) }
    requires reads { sizes.reads ≤ 64 }
    ensures begins { IfOk result (λ it. (arm : ℕ) (device : DeviceState)
        → IsAtRestOn restored.head.newest.slot (image_of_restored restored arm)
        (lines_of checked.now.geometry) restored.head.closed device
        → ModuleStands ⟦<Ddr4Port<'m, M> as ChannelPort>⟧ it device
        (opened_with restored.head (image_of_restored restored arm))) }
    ensures setup { IfOk result (λ it. setup_of ⟦<Ddr4Port<'m, M> as ChannelPort>⟧ it
        ≡ record {
          shape = shape_over (M.place_of map.now) checked.now sizes.depth sizes.reads costs;
          trail = sizes.trail;
        }) }
    ensures checked { IfOk result (λ it. it.channels.terms.checked ≡ checked.now) }
    ensures issued { IfOk result
        (λ it. HaveIssuedNone ⟦<Ddr4Port<'m, M> as ChannelPort>⟧ it.channels) }
    ensures back { IfErr result (λ back. back.0 ≡ restored) }
{
    let Sizes {
        depth,
        reads,
        trail,
        keeps_commands,
    } = sizes;
    let (depth, reads) = (depth as usize, reads as usize);
    let memory = &restored.lines;
    match channels_with_memory(
        alloc,
        map,
        checked,
        memory,
        depth,
        reads,
        keeps_commands,
        costs,
    ) {
        Ok(channels) => Ok(Module::open(channels, restored.head, trail)),
        Err(error) => Err((restored, error)),
    }
}
