// The opening of a device over a file of sectors.
ghost use Rattle.std.specs.Prelude.{◌≡◌, ℕ, ◌+◌, ◌*◌, ◌≤◌, length, slice_range, IfOk, IfSome, IsNone, true, false};
ghost use Rattle.std.specs.Int.{w64, from_le_bytes};
ghost use Rattle.save_device.specs.Device.{IsSettled};
ghost use Rattle.save_device.specs.Memory.{state_of};
ghost use Rattle.file_device.specs.Kept.{IfKept, IsAtRest};
ghost use Rattle.sector_device.specs.Spare.{found_in, is_open, spare_number, spare_size};
ghost use Rattle.sector_device.specs.Backing.{HasSectors, IsFileSize, IsFoundGate};

use crate::SectorFile;
use crate::device::{GATE, Gate, SectorDevice};
use crate::file::SECTOR;
use file_device::Places;
use save_device::{CallLog, MemoryDevice, SaveDevice};
use std::alloc::Global;
use std::io::{self, ErrorKind};

/// The bytes of the spare place, which a file has behind those of its device.
pub const SPARE_PLACE: usize = 3 * SECTOR;

// How many bytes the device has of a file of so many; none where there is no such file.
fn device_len(n: usize) -> Option<usize>
    ensures some { IfSome result (λ size. IsFileSize size n) }
    ensures none { IsNone result → (size : ℕ) → ¬ IsFileSize size n }
{
    let size = n.checked_sub(SPARE_PLACE)?;
    if size % SECTOR == 0 { Some(size) } else { None }
}

// The number in eight bytes.
fn number_in(bytes: &[u8], at: usize) -> usize
    requires { at + 8 ≤ length bytes.now }
    ensures { result ≡ from_le_bytes w64 (slice_range bytes.now at (at + 8)) }
{
    let mut word = [0; 8];
    word.copy_from_slice(&bytes[at..at + 8]);
    u64::from_le_bytes(word) as usize
}

// The sector that is to be put back into a device of so many bytes, if one is.
fn open_sector(bytes: &[u8], size: usize) -> Option<usize>
    requires size { length bytes.now ≡ size + spare_size }
    requires sectors { HasSectors size }
    ensures some { IfSome result (λ number. (is_open size bytes.now ≡ true)
        × (number ≡ spare_number size bytes.now)) }
    ensures none { IsNone result → is_open size bytes.now ≡ false }
    ensures inside { IfSome result (λ number. 512 * number + 512 ≤ size) }
{
    let number = number_in(bytes, size + SECTOR);
    if bytes[size + GATE] != 0 && number < size / SECTOR {
        Some(number)
    } else {
        None
    }
}

// What an opening finds: the device's bytes, with the sector of the spare place put back.
fn found(mut bytes: Vec<u8>, size: usize, held: Option<usize>) -> Vec<u8>
    requires size { length bytes.items ≡ size + spare_size }
    requires some { IfSome held (λ number. (is_open size bytes.items ≡ true)
        × (number ≡ spare_number size bytes.items)) }
    requires none { IsNone held → is_open size bytes.items ≡ false }
    requires inside { IfSome held (λ number. 512 * number + 512 ≤ size) }
    ensures is { result.items ≡ found_in size bytes.items }
    ensures len { length result.items ≡ size }
{
    let mut sector = [0; SECTOR];
    sector.copy_from_slice(&bytes[size..size + SECTOR]);
    bytes.truncate(size);
    if let Some(number) = held {
        bytes[SECTOR * number..SECTOR * number + SECTOR].copy_from_slice(&sector);
    }
    bytes
}

// How the gate stands as an opening finds it.
fn gate_found(bytes: &[u8], size: usize, held: Option<usize>) -> Gate
    requires { length bytes.now ≡ size + spare_size }
    ensures { IsFoundGate size bytes.now held result }
{
    match held {
        Some(number) => Gate::Open(number),
        None if bytes[size + GATE] == 0 => Gate::Shut,
        None => Gate::Ajar,
    }
}

impl<F: SectorFile + Drop> SectorDevice<F> {
    /// A device with what an opening of the file finds, all of which is on the disk: where a stop came while a sector was written
    /// by the spare place, it is put back first. A file whose length isn't one of whole sectors with the spare place is refused. It
    /// takes four times the memory of the bytes.
    pub fn over(alloc: Global, mut file: F) -> io::Result<SectorDevice<F>>
        requires { IfKept IsAtRest (F.kept file) }
        ensures bytes { IfOk result (λ device. IfKept (λ kept. (state_of device.mirror).bytes
            ≡ found_in (length (state_of device.mirror).bytes) kept.bytes) (F.kept file)) }
        ensures settled { IfOk result (λ device. IsSettled (state_of device.mirror)) }
        ensures shut { IfOk result (λ device. device.gate ≡ Gate.Shut) }
    {
        let bytes = file.load(alloc)?;
        let Some(size) = device_len(bytes.len()) else {
            return Err(ErrorKind::InvalidData.into());
        };
        let held = open_sector(&bytes, size);
        let gate = gate_found(&bytes, size, held);
        let mirror = MemoryDevice::new(alloc, found(bytes, size, held))?;
        let unsettled = Places::none(alloc, size)?;
        let mut device = SectorDevice {
            mirror,
            unsettled,
            file,
            gate,
            calls: CallLog::new(),
        };
        if !device.shut() {
            return Err(ErrorKind::Other.into());
        }
        Ok(device)
    }

    /// Its file, which nothing is written to any more.
    pub fn into_file(self) -> F
        ensures { result ≡ self.file }
    {
        self.file
    }
}

/// The bytes of the device whose file has these, as an opening finds them; none where a file of this length is no such file.
pub fn found_bytes(bytes: Vec<u8>) -> Option<Vec<u8>>
    ensures size { IfSome result (λ device. IsFileSize (length device.items) (length bytes.items)) }
    ensures is { IfSome result (λ device.
        device.items ≡ found_in (length device.items) bytes.items) }
    ensures none { IsNone result → (size : ℕ) → ¬ IsFileSize size (length bytes.items) }
{
    let size = device_len(bytes.len())?;
    let held = open_sector(&bytes, size);
    Some(found(bytes, size, held))
}
