// A module on the image of a device.
ghost use Rattle.std.specs.Prelude.{◌≡◌, IfOk};
ghost use Rattle.slot_store.specs.Slots.{IsCapacity};
ghost use Rattle.ddr4_timing.specs.Limits.{lines_of};

use crate::load::Load;
use crate::measured::Stall;
use ddr4_module::Sizes;
use ddr4_port::Ddr4Port;
use ddr4_timing::timing::Checked;
use energy_budget::{Costs, TINY_COSTS};
use interleave_map::ReadyMap;
use interleave_map::cells::line_count;
use save_device::SaveDevice;
use save_image::PAGE_LINES;
use slot_store::{device_size, restore};
use std::alloc::Global;

/// How many writes may wait in a channel, and how many of its reads may be open.
pub const DEPTH: u64 = 64;

/// The room of a module: for more writes than are ever made.
const SIZES: Sizes = Sizes {
    depth: DEPTH,
    reads: DEPTH,
    trail: 1 << 40,
    keeps_commands: false,
};

/// How many lines a profile has, where they make whole pages.
pub(crate) fn capacity_of(checked: &Checked) -> Result<usize, Stall>
    ensures is { IfOk result (λ lines. lines ≡ lines_of checked.now.geometry) }
    ensures capacity { IfOk result IsCapacity }
{
    let lines = line_count(checked) as usize;
    if lines % PAGE_LINES == 0 {
        Ok(lines)
    } else {
        Err(Stall::Device)
    }
}

/// A module over channels with the memory that a device restores to.
pub(crate) fn open<'m, D: SaveDevice + Drop>(
    alloc: Global,
    map: &'m ReadyMap,
    mut device: D,
) -> anyhow::Result<Load<Ddr4Port<'m, ReadyMap>, D>> {
    if !TINY_COSTS.is_in_limits() {
        return Err(Stall::Costs.into());
    }
    let checked = &map.checked;
    let costs = Costs::of(checked, &TINY_COSTS);
    let lines = capacity_of(checked)?;
    if device.len() != device_size(lines) {
        return Err(Stall::Device.into());
    }
    let restored = restore(alloc, &mut device, lines)?;
    match ddr4_module::open(alloc, restored, map, checked, costs, SIZES) {
        Ok(module) => Ok(Load::new(module, device, checked.geometry.channels)),
        Err((_, error)) => Err(error.into()),
    }
}
