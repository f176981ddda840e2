// The arm byte of the newest image.
ghost use Rattle.std.specs.Prelude.{◌≡◌, ℕ, ◌+◌, ◌<◌, ◌≤◌, [], ◌∷◌, Bool, true, length, is_ok, OnOk, OnErr};
ghost use Rattle.save_device.specs.declared.calls.CallKind.TheVariants.{Write, Sync};
ghost use Rattle.save_device.specs.Calls.{MakesCalls};
ghost use Rattle.save_device.specs.Rows.{DiffersOnlyAt};
ghost use Rattle.save_device.specs.Device.{LeavesOnly};
ghost use Rattle.save_image.specs.Header.{arm_byte};
ghost use Rattle.save_image.specs.Image.{Image};
ghost use Rattle.slot_store.specs.Slots.{HasSize, start_of};
ghost use Rattle.slot_store.specs.Outcomes.{restored};
ghost use Rattle.slot_store.specs.Rest.{rearmed, with_any_arm, IsAmong, IsAtRestOn, IsAtRestRearmed};

use crate::Slot;
use save_device::{DeviceFault, SaveDevice};
use save_image::ARMED;

/// Marks the newest image as armed, in its slot: writes the arm byte 0x5A and nothing else, and makes that durable. It
/// makes two calls of the device, and stops at the first that fails.
pub fn mark_armed<D: SaveDevice>(device: &mut D, slot: Slot) -> Result<(), DeviceFault>
    requires { 8192 ≤ length (D.state device.old).bytes }
    ensures calls { MakesCalls (Write ∷ Sync ∷ []) (is_ok result)
        (D.state device.old).calls (D.state device.new).calls }
    ensures outside { (lines : ℕ) → HasSize lines (D.state device.old)
        → DiffersOnlyAt (λ place. place ≡ start_of lines slot + 1)
        (D.state device.old).bytes (D.state device.new).bytes }

    // From a device at rest on an image alone: at rest on it armed; after a fault, on it with some arm byte.
    ensures armed { OnOk result ((newest : Image) (lines : ℕ) (closed : Bool)
        → IsAtRestOn slot newest lines closed (D.state device.old)
        → IsAtRestOn slot (rearmed newest (arm_byte true)) lines closed (D.state device.new)) }
    ensures failed { OnErr result ((newest : Image) (lines : ℕ) (closed : Bool)
        → IsAtRestOn slot newest lines closed (D.state device.old)
        → IsAtRestRearmed slot newest lines closed (D.state device.new)) }

    // A stop at any moment leaves that image with some arm byte.
    ensures any_moment { (newest : Image) (lines : ℕ) (closed : Bool)
        → IsAtRestOn slot newest lines closed (D.state device.old)
        → LeavesOnly (D.state device.old) (D.state device.new)
        (λ image. IsAmong (with_any_arm slot newest) (restored lines image)) }
{
    device.write_at(arm_place(device, slot), &[ARMED])?;
    device.sync()?;
    Ok(())
}

// Where the arm byte of a slot lies.
fn arm_place<D: SaveDevice>(device: &D, slot: Slot) -> usize
    requires { 8192 ≤ length (D.state device.now).bytes }
    ensures place { (lines : ℕ) → HasSize lines (D.state device.now)
        → result ≡ start_of lines slot + 1 }
    ensures within { result < length (D.state device.now).bytes }
{
    match slot {
        Slot::First => 1,
        Slot::Second => device.len() / 2 + 1,
    }
}
