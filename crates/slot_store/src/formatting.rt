// A store from nothing.
ghost use Rattle.std.specs.Prelude.{◌≡◌, ℕ, ◌+◌, ◌*◌, ◌<◌, ◌≤◌, [], ◌∷◌, true, length, is_ok, slice_index, IfOk, OnOk};
ghost use Rattle.save_device.specs.declared.calls.CallKind.TheVariants.{Write, Sync};
ghost use Rattle.save_device.specs.Calls.{MakesCalls};
ghost use Rattle.save_device.specs.Device.{IsSettled, LeavesOnly};
ghost use Rattle.line_memory.specs.Memory.{zero_lines};
ghost use Rattle.slot_store.specs.declared.slots.Slot.TheVariants.{First};
ghost use Rattle.slot_store.specs.Slots.{IsCapacity, HasSize, slot_size, device_size};
ghost use Rattle.slot_store.specs.Steps.{format_calls};
ghost use Rattle.slot_store.specs.Outcomes.{first_image};
ghost use Rattle.slot_store.specs.Rest.{IsAtRestOn};
ghost use Rattle.slot_store.specs.Finishing.{GrantsEach};
ghost use Rattle.slot_store.specs.Formatted.{IsFormatted, HasShutGates, first_head};
ghost use Rattle.slot_store.specs.declared.slots.TheConstants.{MOST_LINES};

use crate::slots::slot_size;
use crate::{Head, Newest, Refused, SaveRun, SaveSource, Slot, Step, Verdict};
use save_device::{DeviceFault, SaveDevice};
use save_image::PAGE_BYTES;

// A memory of so many zero lines.
#[derive(Drop)]
struct ZeroLines {
    lines: usize,
}

impl SaveSource for ZeroLines {
    ghost memory = { λ zeros. zero_lines zeros.lines };

    ghost asks = { GrantsEach };

    fn ask(&mut self, _step: Step) -> Result<(), Refused> {
        Ok(())
    }

    fn page<'p>(&'p self, _page: usize, _room: &'p mut [u8; PAGE_BYTES]) -> &'p [u8; PAGE_BYTES] {
        &[0; PAGE_BYTES]
    }
}

// Closes both gates and makes that durable.
fn shut_gates<D: SaveDevice>(device: &mut D, lines: usize) -> Result<(), DeviceFault>
    requires lines { lines ≤ MOST_LINES }
    requires size { HasSize lines (D.state device.old) }
    ensures shut { OnOk result
        (HasShutGates lines (D.state device.old).bytes (D.state device.new).bytes) }
    ensures settled { OnOk result (IsSettled (D.state device.new)) }
    ensures size { HasSize lines (D.state device.new) }
    ensures calls { MakesCalls (Write ∷ Write ∷ Sync ∷ []) (is_ok result)
        (D.state device.old).calls (D.state device.new).calls }
    ensures any_moment { LeavesOnly (D.state device.old) (D.state device.new)
        (λ image. length image ≡ device_size lines) }
{
    device.write_at(0, &[0])?;
    device.write_at(slot_size(lines), &[0])?;
    device.sync()
}

/// Makes the device a store of a memory of so many zero lines: generation 1, no write, clear, in the first slot; the gate
/// of the second one is closed and the rest of that slot stays. It costs one pass over a slot. A stop during the call
/// leaves a device of this size, and no more is said of it. After a fault format again.
pub fn format<D: SaveDevice>(device: &mut D, lines: usize) -> Result<Head, DeviceFault>
    requires capacity { IsCapacity lines }
    requires size { HasSize lines (D.state device.old) }
    ensures head { IfOk result (λ head. head ≡ first_head) }
    ensures formatted { OnOk result
        (IsFormatted lines (D.state device.old).bytes (D.state device.new).bytes) }
    ensures settled { OnOk result (IsSettled (D.state device.new)) }
    ensures at_rest { OnOk result
        (IsAtRestOn First (first_image lines) lines true (D.state device.new)) }

    // Both gates are closed and that is made durable before anything else is written; no call is made behind a fault.
    ensures calls { MakesCalls (format_calls lines) (is_ok result)
        (D.state device.old).calls (D.state device.new).calls }
    ensures size { HasSize lines (D.state device.new) }
    ensures any_moment { LeavesOnly (D.state device.old) (D.state device.new)
        (λ image. length image ≡ device_size lines) }
{
    shut_gates(device, lines)?;
    let mut run = SaveRun::behind_shut_gates(lines);
    let Ok(()) = run.finish(&mut ZeroLines { lines }, device) else {
        return Err(DeviceFault);
    };
    Ok(Head {
        newest: Newest {
            slot: Slot::First,
            generation: 1,
        },
        count: 0,
        closed: true,
        verdict: Verdict::Complete,
    })
}
