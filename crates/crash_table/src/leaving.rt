// What a stop may leave of a device.
ghost use Rattle.std.specs.Prelude.{◌≡◌, ◌≢◌, ◌<◌, ℕ, IfOk, IfSome, length, slice_index, true};
ghost use Rattle.save_device.specs.Device.{present};
ghost use Rattle.save_device.specs.Memory.{IsPicked, settled_row_of, state_of};
ghost use Rattle.save_device.specs.declared.memory.MemoryDevice.{MemoryDevice};
ghost use Rattle.crash_table.specs.Lefts.{IsLeftOf, IsSettledIn, IsTornTo};

use crate::left::Left;
use save_device::{MemoryDevice, Pick, SaveDevice};
use std::alloc::{AllocError, Global};

// A byte that none of these is, if there is one.
fn other_byte(bytes: &[u8]) -> Option<u8>
    ensures { IfSome result (λ other. (place : ℕ) → place < length bytes.now
        → slice_index bytes.now place ≢ other) }
{
    for other in 0..u8::MAX {
        if !bytes.contains(&other) {
            return Some(other);
        }
    }
    None
}

// The bytes of a device, as a read gives them. No more than the read is new of it then.
fn bytes_of(alloc: Global, device: &mut MemoryDevice) -> Result<Vec<u8>, AllocError>
    ensures bytes { IfOk result (λ bytes. bytes.items ≡ (state_of device.old).bytes) }
    ensures same { present (state_of device.new) ≡ present (state_of device.old) }
    ensures settled_row { settled_row_of device.new ≡ settled_row_of device.old }
{
    let mut bytes = Vec::from_elem(alloc, 0, device.len())?;
    let _done = device.read(0, &mut bytes);
    Ok(bytes)
}

impl Left {
    /// What a stop may leave of this device. None where its bytes are of all kinds, so that no other one is known from them.
    pub(crate) fn of(alloc: Global, mut device: MemoryDevice) -> Result<Option<Left>, AllocError>
        ensures { IfOk result (λ left. IfSome left (IsLeftOf device)) }
    {
        let bytes = bytes_of(alloc, &mut device)?;
        let Some(other) = other_byte(&bytes) else {
            return Ok(None);
        };
        device.stop(Pick::Torn(other));
        let torn = bytes_of(alloc, &mut device)?;
        Ok(Some(Left { bytes, torn }))
    }

    /// Whether no place is unsettled.
    pub(crate) fn is_settled(&self) -> bool
        ensures { result ≡ true → IsSettledIn self.now }
    {
        self.bytes == self.torn
    }

    /// Its bytes, as a read gave them.
    pub(crate) fn bytes(&self, alloc: Global) -> Result<Vec<u8>, AllocError>
        ensures { IfOk result (λ bytes. bytes.items ≡ self.now.bytes.items) }
    {
        self.bytes.to_vec(alloc)
    }

    // The same with this byte in each unsettled place.
    fn torn_to(&self, alloc: Global, byte: u8) -> Result<Vec<u8>, AllocError>
        ensures { IfOk result (λ image. IsTornTo byte self.now image.items) }
    {
        let mut image = self.bytes(alloc)?;
        for place in 0..image.len() {
            if self.torn[place] != self.bytes[place] {
                image[place] = byte;
            }
        }
        Ok(image)
    }

    /// The bytes that a stop leaves by this pick. None for the old ones where some place is unsettled: they aren't known.
    pub(crate) fn by(&self, alloc: Global, pick: Pick) -> Result<Option<Vec<u8>>, AllocError>
        ensures { IfOk result (λ image. IfSome image (λ image. (device : MemoryDevice)
            → IsLeftOf device self.now → IsPicked pick device image.items
            × (length image.items ≡ length (state_of device).bytes))) }
    {
        match pick {
            Pick::Old => {
                if self.is_settled() {
                    Ok(Some(self.bytes(alloc)?))
                } else {
                    Ok(None)
                }
            }
            Pick::New => Ok(Some(self.bytes(alloc)?)),
            Pick::Torn(byte) => Ok(Some(self.torn_to(alloc, byte)?)),
        }
    }
}
