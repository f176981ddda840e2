// A whole save.
ghost use Rattle.std.specs.Prelude.{◌≡◌, ◌+◌, ◌-◌, ◌<◌, ◌≤◌, ◌^◌, false, length, is_ok, OnOk, IfOk, IfErr};
ghost use Rattle.save_device.specs.Calls.{MakesCalls};
ghost use Rattle.save_device.specs.Device.{LeavesOnly};
ghost use Rattle.save_image.specs.Image.{Image};
ghost use Rattle.slot_store.specs.declared.plan.Step.TheVariants.{Close};
ghost use Rattle.slot_store.specs.Slots.{IsCapacity, HasSize, other};
ghost use Rattle.slot_store.specs.Outcomes.{restored};
ghost use Rattle.slot_store.specs.Steps.{calls_left};
ghost use Rattle.slot_store.specs.Rest.{Candidates, only, IsAmongOr, IsAtRestOn, IsAtRestStill};
ghost use Rattle.slot_store.specs.Whole.{IsReady, made_over, FindsOldOrNew};

use crate::{Newest, SaveRun};
use line_memory::Line;
use save_device::SaveDevice;
use thiserror::Error;

/// A save that failed, on a call of the device.
#[derive(Clone, Copy, Debug, PartialEq, Eq, Error)]
#[error("the device failed")]
pub struct SaveFault {
    /// The gate of the slot still counts as closed, for the next save.
    pub closed: bool,
}

/// Saves a memory after `count` writes over the newest image, all steps one after another: in the other slot, with the
/// next generation, and with the arm byte 0x5A where it is `armed`. `closed` says that the other slot's gate is known
/// closed and settled. It makes `lines / 64 + 6` calls of the device, and stops at the first that fails.
///
/// **A stop at any moment of it leaves the old image or the new one**, where the device rested on the old one alone; else
/// one of those that a stop could leave before, or the new one. At its end the new one is left.
pub fn save<D: SaveDevice>(
    device: &mut D,
    newest: Newest,
    closed: bool,
    count: u64,
    armed: bool,
    memory: &[Line],
) -> Result<Newest, SaveFault>
    requires generation { newest.generation < 2 ^ 63 - 1 }
    requires count { count ≤ 2 ^ 62 }
    requires capacity { IsCapacity (length memory.now) }
    requires size { HasSize (length memory.now) (D.state device.old) }

    // A stop at any moment, whatever the answer.
    ensures old_or_new { (old : Image)
        → IsReady (only newest.slot old) old newest closed memory.now (D.state device.old)
        → LeavesOnly (D.state device.old) (D.state device.new)
        (FindsOldOrNew newest.slot old (made_over newest count armed memory.now)) }
    ensures any_moment { (candidates : Candidates) (old : Image)
        → IsReady candidates old newest closed memory.now (D.state device.old)
        → LeavesOnly (D.state device.old) (D.state device.new) (λ image.
        IsAmongOr candidates (other newest.slot) (made_over newest count armed memory.now)
        (restored (length memory.now) image)) }

    // At its end, and after a fault.
    ensures saved { OnOk result ((candidates : Candidates) (old : Image)
        → IsReady candidates old newest closed memory.now (D.state device.old)
        → IsAtRestOn (other newest.slot) (made_over newest count armed memory.now)
        (length memory.now) false (D.state device.new)) }
    ensures failed { IfErr result (λ fault. (candidates : Candidates) (old : Image)
        → IsReady candidates old newest closed memory.now (D.state device.old)
        → IsAtRestStill candidates old newest.slot (made_over newest count armed memory.now)
        (length memory.now) fault.closed (D.state device.new)) }

    ensures slot { IfOk result (λ next. next.slot ≡ other newest.slot) }
    ensures generation { IfOk result (λ next. next.generation ≡ newest.generation + 1) }
    ensures calls { MakesCalls (calls_left closed (length memory.now) Close) (is_ok result)
        (D.state device.old).calls (D.state device.new).calls }
    ensures size { HasSize (length memory.now) (D.state device.new) }
{
    let mut run = SaveRun::begin(newest, closed, count, armed, memory.len());
    let mut lines = memory;
    let Ok(()) = run.finish(&mut lines, device) else {
        return Err(SaveFault {
            closed: run.is_closed(),
        });
    };
    Ok(newest.next())
}
