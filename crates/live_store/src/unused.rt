// Whether nothing was ever saved on a device.
ghost use Rattle.std.specs.Prelude.{◌≡◌, ℕ, ◌+◌, ◌-◌, ◌<◌, ◌≤◌, IfOk, length, slice_index, slice_range, true};
ghost use Rattle.save_device.specs.Device.{present};
ghost use Rattle.save_image.specs.declared.page.TheConstants.{PAGE_BYTES};
ghost use Rattle.slot_store.specs.Slots.{HasSize, IsCapacity};
ghost use Rattle.live_store.specs.Starts.{HasZeros, IsUnused};

use save_device::{DeviceFault, SaveDevice};
use save_image::{PAGE_BYTES, PAGE_LINES};
use slot_store::device_size;

// Whether bytes are zero alone.
fn are_zero(bytes: &[u8]) -> bool
    ensures { result ≡ true → (k : ℕ) → k < length bytes.now → slice_index bytes.now k ≡ 0 }
{
    for byte in bytes {
        if *byte != 0 {
            return false;
        }
    }
    true
}

fn read_page<D: SaveDevice>(device: &mut D, at: usize) -> Result<[u8; PAGE_BYTES], DeviceFault>
    requires { at + PAGE_BYTES ≤ length (D.state device.old).bytes }
    ensures page { IfOk result
        (λ page. page ≡ slice_range (D.state device.old).bytes at (at + PAGE_BYTES)) }
    ensures same { present (D.state device.new) ≡ present (D.state device.old) }
{
    let mut page = [0; PAGE_BYTES];
    device.read(at, &mut page)?;
    Ok(page)
}

// Whether a page of a device is zero, but for so many bytes at its front.
fn is_zero_behind<D: SaveDevice>(
    device: &mut D,
    at: usize,
    front: usize,
) -> Result<bool, DeviceFault>
    requires within { at + PAGE_BYTES ≤ length (D.state device.old).bytes }
    requires front { front ≤ 1 }
    ensures zeros { IfOk result (λ zeros. zeros ≡ true
        → HasZeros (at + front) (PAGE_BYTES - front) (D.state device.old).bytes) }
    ensures same { present (D.state device.new) ≡ present (D.state device.old) }
{
    let page = read_page(device, at)?;
    Ok(are_zero(&page[front..]))
}

/// Whether the second slot of a device has zeros alone, but for its commit byte. The first save goes there, so none has ended then.
pub(crate) fn is_unused<D: SaveDevice>(device: &mut D, lines: usize) -> Result<bool, DeviceFault>
    requires capacity { IsCapacity lines }
    requires size { HasSize lines (D.state device.old) }
    ensures unused { IfOk result (λ unused. unused ≡ true
        → IsUnused lines (D.state device.old).bytes) }
    ensures same { present (D.state device.new) ≡ present (D.state device.old) }
{
    let slot = device_size(lines) / 2;
    for page in 0..lines / PAGE_LINES + 1 {
        let front = 1usize.saturating_sub(page);
        if !is_zero_behind(device, slot + PAGE_BYTES * page, front)? {
            return Ok(false);
        }
    }
    Ok(true)
}
