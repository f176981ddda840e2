// A life on what a device holds.
ghost use Rattle.std.specs.Prelude.{◌≡◌, ℕ, true, IfOk};
ghost use Rattle.ddr4_timing.specs.Limits.{lines_of};
ghost use Rattle.journal_lines.specs.Indexed.{IsIndexOf};
ghost use Rattle.journal_log.specs.Log.{Holds, Log};
ghost use Rattle.line_memory.specs.Memory.{IsMemory};
ghost use Rattle.save_image.specs.Header.{Fits};
ghost use Rattle.module_core.specs.Opening.{opened_with};
ghost use Rattle.module_core.specs.Stands.{ModuleStands};
ghost use Rattle.save_device.specs.Device.{DeviceState};
ghost use Rattle.save_device.specs.Memory.{state_of};
ghost use Rattle.slot_store.specs.declared.slots.Slot.TheVariants.{First};
ghost use Rattle.slot_store.specs.Outcomes.{first_image};
ghost use Rattle.slot_store.specs.Rest.{IsAtRestOn};
ghost use Rattle.slot_store.specs.Slots.{IsCapacity};
ghost use Rattle.slot_store.specs.Told.{image_of_restored};

use crate::life::{JournalLife, Stall};
use channel_port::ChannelPort;
use ddr4_module::Sizes;
use ddr4_port::Ddr4Port;
use ddr4_timing::timing::Checked;
use energy_budget::{Costs, TINY_COSTS};
use interleave_map::ReadyMap;
use interleave_map::cells::line_count;
use module_journal::Journal;
use save_device::{MemoryDevice, SaveDevice};
use save_image::PAGE_LINES;
use slot_store::{Restored, device_size, format};
use std::alloc::Global;

/// The room of a module: for more writes than are ever made.
const SIZES: Sizes = Sizes {
    depth: 64,
    reads: 64,
    trail: 1 << 40,
    keeps_commands: false,
};

/// How many lines a profile has, where they make whole pages.
pub fn capacity_of(checked: &Checked) -> Result<usize, Stall>
    ensures is { IfOk result (λ lines. lines ≡ lines_of checked.now.geometry) }
    ensures capacity { IfOk result IsCapacity }
{
    let lines = line_count(checked) as usize;
    if lines % PAGE_LINES == 0 {
        Ok(lines)
    } else {
        Err(Stall::Device)
    }
}

/// A device in memory, whose newest image has zero lines.
pub fn formatted(alloc: Global, checked: &Checked) -> anyhow::Result<MemoryDevice>
    ensures { IfOk result (λ device. IsAtRestOn First
        (first_image (lines_of checked.now.geometry)) (lines_of checked.now.geometry) true
        (state_of device)) }
{
    let lines = capacity_of(checked)?;
    let bytes = Vec::from_elem(alloc, 0, device_size(lines))?;
    let mut device = MemoryDevice::new(alloc, bytes)?;
    format(&mut device, lines)?;
    Ok(device)
}

/// A life over channels with the memory that a device restored to, and the journal that it holds.
pub fn begin<'m, D: SaveDevice + Drop>(
    alloc: Global,
    map: &'m ReadyMap,
    restored: Restored,
    device: D,
) -> anyhow::Result<JournalLife<Ddr4Port<'m, ReadyMap>, D>>
    requires memory { IsMemory (lines_of map.now.checked.geometry) restored.lines.items }
    requires numbers { Fits restored.head.newest.generation restored.head.count }
    ensures begins { IfOk result (λ life. (arm : ℕ) (state : DeviceState)
        → IsAtRestOn restored.head.newest.slot (image_of_restored restored arm)
        (lines_of map.now.checked.geometry) restored.head.closed state
        → ModuleStands ⟦<Ddr4Port<'m, ReadyMap> as ChannelPort>⟧ life.running state
        (opened_with restored.head (image_of_restored restored arm))) }
    ensures journal { IfOk result (λ life. (log : Log) × Holds restored.lines.items log
        × IsIndexOf life.journal.index log) }
    ensures device { IfOk result (λ life. life.device ≡ device) }
{
    if !TINY_COSTS.is_in_limits() {
        return Err(Stall::Costs.into());
    }
    let checked = &map.checked;
    let costs = Costs::of(checked, &TINY_COSTS);
    if device.len() != device_size(capacity_of(checked)?) {
        return Err(Stall::Device.into());
    }
    let journal = Journal::open(alloc, &restored.lines)?;
    match ddr4_module::open(alloc, restored, map, checked, costs, SIZES) {
        Ok(running) => Ok(JournalLife::new(running, journal, device, checked.geometry.channels)),
        Err((_, error)) => Err(error.into()),
    }
}
