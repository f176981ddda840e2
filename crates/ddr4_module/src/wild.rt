// A life with any device and any gauge.
ghost use Rattle.std.specs.Prelude.{◌≡◌, ◌≤◌, All, IfErr, IfOk};
ghost use Rattle.ddr4_timing.specs.Limits.{lines_of};
ghost use Rattle.energy_budget.specs.Costs.{AreReckonedFor};
ghost use Rattle.slot_store.specs.Outcomes.{restored};
ghost use Rattle.slot_store.specs.Slots.{IsCapacity};
ghost use Rattle.slot_store.specs.Told.{Refuses};
ghost use Rattle.ddr4_port.specs.Memory.{shape_over};
ghost use Rattle.ddr4_module.specs.WildLives.{SurvivesEachStop, WorksWithin};

use crate::opening::{Sizes, open};
use ddr4_timing::timing::Checked;
use energy_budget::{Costs, Energy};
use interleave_map::cells::line_count;
use interleave_map::line_map::LineMap;
use nv_machine::{Event, Reply};
use save_device::SaveDevice;
use slot_store::{RestoreError, restore};
use std::alloc::Global;

// How many lines a profile has; they make whole pages.
fn capacity_of(checked: &Checked) -> usize
    ensures is { result ≡ lines_of checked.now.geometry }
    ensures capacity { IsCapacity result }
{
    line_count(checked) as usize
}

/// A whole life on parts that nothing is asked of: a device with any bytes, whose calls fail as they will, and a gauge that answers
/// what it will. The device is restored, a module is opened with that, and answers the events.
///
/// **Whatever a stop leaves, at any moment of the life, even within a device write: a restore finds the memory after a prefix of
/// the accepted writes. Complete, it holds each write that was acknowledged persistent; and where it isn't complete there is a
/// cause.** That is the headline's half that no honest gauge is needed for. No premise speaks of what an event comes to: nothing but
/// the calls of these parts is taken, as their traits say. The other half holds as well, of the run that is told beside.
///
/// A refusal is that of a restore, `Memory` also where there was none for the module or for its replies. It changes no byte of the
/// device, and asks nothing of the gauge.
pub fn wild_life<M: LineMap, D: SaveDevice, E: Energy>(
    alloc: Global,
    map: &M,
    checked: &Checked,
    costs: Costs,
    sizes: Sizes,
    events: &[Event],
    device: &mut D,
    gauge: &mut E,
) -> Result<Vec<Reply>, RestoreError>
    requires lawful { M.is_lawful map.now }
    requires geometry { M.geometry_of map.now ≡ checked.now.geometry }
    requires costs { AreReckonedFor checked.now costs }
    requires depth { (1 ≤ sizes.depth) × (sizes.depth ≤ 64) }
    requires reads { sizes.reads ≤ 64 }
    requires channels { All (WorksWithin checked.now.geometry.channels) events.now }
    ensures survives { IfOk result (λ replies. SurvivesEachStop
        (record {
          shape = shape_over (M.place_of map.now) checked.now sizes.depth sizes.reads costs;
          trail = sizes.trail;
        })
        (E.gauge gauge.old) events.now replies.items
        (D.state device.old) (D.state device.new)) }
    ensures refused { IfErr result (λ error. Refuses error
        (restored (lines_of checked.now.geometry) (D.state device.old).bytes)) }
    ensures same { IfErr result
        (λ error. (D.state device.new).bytes ≡ (D.state device.old).bytes) }
    ensures unasked { IfErr result (λ error. gauge.new ≡ gauge.old) }
{
    let restored = restore(alloc, device, capacity_of(checked))?;
    let Ok(mut life) = open(alloc, restored, map, checked, costs, sizes) else {
        return Err(RestoreError::Memory);
    };
    match life.run(alloc, events, device, gauge) {
        Ok(replies) => Ok(replies),
        Err(_) => Err(RestoreError::Memory),
    }
}
