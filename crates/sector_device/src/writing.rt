// How a sync writes the places that are unsettled to the file: each step, and what a stop within it leaves.
ghost use Rattle.std.specs.Prelude.{◌≡◌, ◌+◌, ◌*◌, ◌<◌, ◌≤◌, ◌++◌, length, slice_range, IsTrue, IfSome, true, false, [], ◌∷◌, ℕ};
ghost use Rattle.std.specs.Int.{w64, to_le_bytes};
ghost use Rattle.save_device.specs.Device.{present};
ghost use Rattle.save_device.specs.Flags.{IsUp};
ghost use Rattle.save_device.specs.Memory.{state_of};
ghost use Rattle.save_device.specs.Rows.{IsInRange};
ghost use Rattle.file_device.specs.Kept.{BothKept, Flushes, IfKept};
ghost use Rattle.sector_device.specs.declared.device.Gate.{Gate};
ghost use Rattle.sector_device.specs.declared.writing.TheConstants.{CHUNK};
ghost use Rattle.sector_device.specs.Sectors.{PutsDurably, PutsSectors};
ghost use Rattle.sector_device.specs.Spare.{gate_at, spare_of};
ghost use Rattle.sector_device.specs.Backing.{HasSectors, HoldsSector, IsAjar, LeavesLeftWithin, PutsBelow, StandsWithin};

use crate::SectorFile;
use crate::device::{GATE, Gate, SectorDevice};
use crate::file::SECTOR;
use file_device::Places;
use save_device::{MemoryDevice, SaveDevice};

/// How many bytes are written to the file at once.
const CHUNK: usize = 1 << 16;

/// The bytes of a sector and its number.
const SPARE: usize = SECTOR + 8;

// Whether one of the places of a sector is among these.
fn touches(places: &Places, at: usize) -> bool
    requires { at + 512 ≤ length places.now.flags.items }
    ensures { result ≡ false → (place : ℕ) → IsInRange at 512 place
        → ¬ IsUp places.now.flags.items place }
{
    for place in at..at + SECTOR {
        if places.has(place) {
            return true;
        }
    }
    false
}

// A sector with its number behind it, as the spare place has it.
fn spare_bytes(sector: &[u8; 512], number: usize) -> [u8; 520]
    ensures { result ≡ sector.now ++ to_le_bytes w64 number }
{
    let mut spare = [0; SPARE];
    spare[..SECTOR].copy_from_slice(sector);
    spare[SECTOR..].copy_from_slice(&(number as u64).to_le_bytes());
    spare
}

// Writes n bytes of the mirror from `at` on to the file, and says whether that went well.
fn copy_out<F: SectorFile>(mirror: &mut MemoryDevice, file: &mut F, at: usize, n: usize) -> bool
    requires most { n ≤ CHUNK }
    requires fits { at + n ≤ length (state_of mirror.old).bytes }
    requires file_fits { IfKept (λ kept. at + n ≤ length kept.bytes) (F.kept file.old) }
    ensures puts { BothKept
        (PutsSectors at (slice_range (state_of mirror.old).bytes at (at + n)) result)
        (F.kept file.old) (F.kept file.new) }
    ensures same { present (state_of mirror.new) ≡ present (state_of mirror.old) }
    ensures earlier { (state_of mirror.new).earlier ≡ (state_of mirror.old).earlier }
{
    let mut buffer = [0; CHUNK];
    let _done = mirror.read(at, &mut buffer[..n]);
    file.put(at, &buffer[..n]).is_ok()
}

impl<F: SectorFile> SectorDevice<F> {
    // Writes bytes to the file, and says whether that went well. It is done only where the file backs the device whatever becomes of
    // the sectors that it touches.
    fn put(&mut self, at: usize, bytes: &[u8]) -> bool
        requires fits { IfKept (λ kept. at + length bytes.now ≤ length kept.bytes)
            (F.kept self.old.file) }
        requires within { IfKept (StandsWithin self.old.gate
            (present (state_of self.old.mirror)) at (length bytes.now)) (F.kept self.old.file) }
        ensures puts { BothKept (PutsSectors at bytes.now result)
            (F.kept self.old.file) (F.kept self.new.file) }
        ensures mirror { self.new.mirror ≡ self.old.mirror }
        ensures places { self.new.unsettled ≡ self.old.unsettled }
        ensures calls { self.new.calls ≡ self.old.calls }
        ensures gate { self.new.gate ≡ self.old.gate }

        // A stop at any moment of it leaves what one may leave of the device.
        ensures left { IfKept (LeavesLeftWithin (present (state_of self.old.mirror))
            at (length bytes.now)) (F.kept self.old.file) }
    {
        self.file.put(at, bytes).is_ok()
    }

    // Makes what was put durable, and says whether that went well.
    pub(crate) fn flush(&mut self) -> bool
        ensures flushes { BothKept (Flushes result)
            (F.kept self.old.file) (F.kept self.new.file) }
        ensures mirror { self.new.mirror ≡ self.old.mirror }
        ensures places { self.new.unsettled ≡ self.old.unsettled }
        ensures calls { self.new.calls ≡ self.old.calls }
        ensures gate { self.new.gate ≡ self.old.gate }
    {
        self.file.flush().is_ok()
    }

    // Writes bytes to the file and flushes it, and says whether that went well.
    fn put_durably(&mut self, at: usize, bytes: &[u8]) -> bool
        requires fits { IfKept (λ kept. at + length bytes.now ≤ length kept.bytes)
            (F.kept self.old.file) }
        requires within { IfKept (StandsWithin self.old.gate
            (present (state_of self.old.mirror)) at (length bytes.now)) (F.kept self.old.file) }
        ensures puts { BothKept (PutsDurably at bytes.now result)
            (F.kept self.old.file) (F.kept self.new.file) }
        ensures mirror { self.new.mirror ≡ self.old.mirror }
        ensures places { self.new.unsettled ≡ self.old.unsettled }
        ensures calls { self.new.calls ≡ self.old.calls }
        ensures gate { self.new.gate ≡ self.old.gate }
    {
        if !self.put(at, bytes) {
            return false;
        }
        self.flush()
    }

    // Opens the gate by 1, or shuts it by 0.
    fn put_gate(&mut self, gate: u8) -> bool
        requires { self.old.gate ≡ Gate.Ajar }
        ensures puts { BothKept
            (PutsDurably (gate_at (length (state_of self.old.mirror).bytes)) (gate ∷ []) result)
            (F.kept self.old.file) (F.kept self.new.file) }
        ensures mirror { self.new.mirror ≡ self.old.mirror }
        ensures places { self.new.unsettled ≡ self.old.unsettled }
        ensures calls { self.new.calls ≡ self.old.calls }
        ensures gate { self.new.gate ≡ Gate.Ajar }
    {
        let size = self.mirror.len();
        self.put_durably(size + GATE, &[gate])
    }

    // Opens the gate for the sector that the spare place has.
    fn open_gate(&mut self, number: usize) -> bool
        requires shut { self.old.gate ≡ Gate.Shut }
        requires inside { 512 * number + 512 ≤ length (state_of self.old.mirror).bytes }
        requires holds { IfKept (HoldsSector number (present (state_of self.old.mirror)))
            (F.kept self.old.file) }
        ensures open { result ≡ true → self.new.gate ≡ Gate.Open number }
        ensures puts { BothKept
            (PutsDurably (gate_at (length (state_of self.old.mirror).bytes)) (1 ∷ []) result)
            (F.kept self.old.file) (F.kept self.new.file) }
        ensures mirror { self.new.mirror ≡ self.old.mirror }
        ensures places { self.new.unsettled ≡ self.old.unsettled }
        ensures calls { self.new.calls ≡ self.old.calls }
    {
        self.gate = Gate::Ajar;
        if !self.put_gate(1) {
            return false;
        }
        self.gate = Gate::Open(number);
        true
    }

    // Shuts the gate, where the disk has each settled byte in its place.
    fn shut_gate(&mut self) -> bool
        requires { IfKept (IsAjar (present (state_of self.old.mirror))) (F.kept self.old.file) }
        ensures shut { result ≡ true → self.new.gate ≡ Gate.Shut }
        ensures puts { BothKept
            (PutsDurably (gate_at (length (state_of self.old.mirror).bytes)) (0 ∷ []) result)
            (F.kept self.old.file) (F.kept self.new.file) }
        ensures mirror { self.new.mirror ≡ self.old.mirror }
        ensures places { self.new.unsettled ≡ self.old.unsettled }
        ensures calls { self.new.calls ≡ self.old.calls }
    {
        self.gate = Gate::Ajar;
        if !self.put_gate(0) {
            return false;
        }
        self.gate = Gate::Shut;
        true
    }

    // Writes n bytes of the device to their place, and says whether that went well.
    fn put_own(&mut self, at: usize, n: usize) -> bool
        requires most { n ≤ CHUNK }
        requires fits { at + n ≤ length (state_of self.old.mirror).bytes }
        requires within { IfKept (StandsWithin self.old.gate
            (present (state_of self.old.mirror)) at n) (F.kept self.old.file) }
        ensures puts { BothKept
            (PutsSectors at (slice_range (state_of self.old.mirror).bytes at (at + n)) result)
            (F.kept self.old.file) (F.kept self.new.file) }
        ensures same { present (state_of self.new.mirror) ≡ present (state_of self.old.mirror) }
        ensures earlier { (state_of self.new.mirror).earlier ≡ (state_of self.old.mirror).earlier }
        ensures places { self.new.unsettled ≡ self.old.unsettled }
        ensures calls { self.new.calls ≡ self.old.calls }
        ensures gate { self.new.gate ≡ self.old.gate }

        // A stop at any moment of it leaves what one may leave of the device.
        ensures left { IfKept (LeavesLeftWithin (present (state_of self.old.mirror)) at n)
            (F.kept self.old.file) }
    {
        copy_out(&mut self.mirror, &mut self.file, at, n)
    }

    // Writes the sector for which the gate is open, and shuts the gate.
    fn put_held(&mut self, number: usize) -> bool
        requires { self.old.gate ≡ Gate.Open number }
        ensures shut { result ≡ true → self.new.gate ≡ Gate.Shut }
        ensures put { BothKept (PutsBelow (512 * number) (512 * number + 512)
            (present (state_of self.old.mirror)) result)
            (F.kept self.old.file) (F.kept self.new.file) }
        ensures same { present (state_of self.new.mirror) ≡ present (state_of self.old.mirror) }
        ensures earlier { (state_of self.new.mirror).earlier ≡ (state_of self.old.mirror).earlier }
        ensures places { self.new.unsettled ≡ self.old.unsettled }
        ensures calls { self.new.calls ≡ self.old.calls }
    {
        if !self.put_own(SECTOR * number, SECTOR) {
            return false;
        }
        if !self.flush() {
            return false;
        }
        self.shut_gate()
    }

    // The bytes of a sector.
    fn sector(&mut self, number: usize) -> [u8; 512]
        requires { 512 * number + 512 ≤ length (state_of self.old.mirror).bytes }
        ensures is { result ≡ slice_range (state_of self.old.mirror).bytes
            (512 * number) (512 * number + 512) }
        ensures same { present (state_of self.new.mirror) ≡ present (state_of self.old.mirror) }
        ensures earlier { (state_of self.new.mirror).earlier ≡ (state_of self.old.mirror).earlier }
        ensures file { self.new.file ≡ self.old.file }
        ensures places { self.new.unsettled ≡ self.old.unsettled }
        ensures calls { self.new.calls ≡ self.old.calls }
        ensures gate { self.new.gate ≡ self.old.gate }
    {
        let mut sector = [0; SECTOR];
        let _done = self.mirror.read(SECTOR * number, &mut sector);
        sector
    }

    // Writes a sector to the spare place.
    fn put_spare(&mut self, number: usize) -> bool
        requires shut { self.old.gate ≡ Gate.Shut }
        requires inside { 512 * number + 512 ≤ length (state_of self.old.mirror).bytes }
        ensures puts { BothKept (PutsDurably (length (state_of self.old.mirror).bytes)
            (spare_of number (state_of self.old.mirror).bytes) result)
            (F.kept self.old.file) (F.kept self.new.file) }
        ensures same { present (state_of self.new.mirror) ≡ present (state_of self.old.mirror) }
        ensures earlier { (state_of self.new.mirror).earlier ≡ (state_of self.old.mirror).earlier }
        ensures places { self.new.unsettled ≡ self.old.unsettled }
        ensures calls { self.new.calls ≡ self.old.calls }
        ensures gate { self.new.gate ≡ Gate.Shut }
    {
        let sector = self.sector(number);
        let spare = spare_bytes(&sector, number);
        let size = self.mirror.len();
        self.put_durably(size, &spare)
    }

    // Writes a sector by the spare place.
    fn put_by_spare(&mut self, number: usize) -> bool
        requires shut { self.old.gate ≡ Gate.Shut }
        requires inside { 512 * number + 512 ≤ length (state_of self.old.mirror).bytes }
        ensures shut { result ≡ true → self.new.gate ≡ Gate.Shut }
        ensures put { BothKept (PutsBelow (512 * number) (512 * number + 512)
            (present (state_of self.old.mirror)) result)
            (F.kept self.old.file) (F.kept self.new.file) }
        ensures same { present (state_of self.new.mirror) ≡ present (state_of self.old.mirror) }
        ensures earlier { (state_of self.new.mirror).earlier ≡ (state_of self.old.mirror).earlier }
        ensures places { self.new.unsettled ≡ self.old.unsettled }
        ensures calls { self.new.calls ≡ self.old.calls }
    {
        if !self.put_spare(number) {
            return false;
        }
        if !self.open_gate(number) {
            return false;
        }
        self.put_held(number)
    }

    // Shuts the gate as it stands behind a call that failed, or as an opening found it: behind the sector for which it is open.
    pub(crate) fn shut(&mut self) -> bool
        ensures shut { result ≡ true → self.new.gate ≡ Gate.Shut }
        ensures same { present (state_of self.new.mirror) ≡ present (state_of self.old.mirror) }
        ensures earlier { (state_of self.new.mirror).earlier ≡ (state_of self.old.mirror).earlier }
        ensures places { self.new.unsettled ≡ self.old.unsettled }
        ensures calls { self.new.calls ≡ self.old.calls }
    {
        match self.gate {
            Gate::Shut => true,
            Gate::Ajar => self.shut_gate(),
            Gate::Open(number) => self.put_held(number),
        }
    }

    // Writes a sector by the spare place, if one of its bytes is unsettled.
    fn put_covered(&mut self, number: usize) -> bool
        requires shut { self.old.gate ≡ Gate.Shut }
        requires inside { 512 * number + 512 ≤ length (state_of self.old.mirror).bytes }
        ensures shut { result ≡ true → self.new.gate ≡ Gate.Shut }
        ensures put { BothKept (PutsBelow (512 * number) (512 * number + 512)
            (present (state_of self.old.mirror)) result)
            (F.kept self.old.file) (F.kept self.new.file) }
        ensures same { present (state_of self.new.mirror) ≡ present (state_of self.old.mirror) }
        ensures earlier { (state_of self.new.mirror).earlier ≡ (state_of self.old.mirror).earlier }
        ensures places { self.new.unsettled ≡ self.old.unsettled }
        ensures calls { self.new.calls ≡ self.old.calls }
    {
        if !touches(&self.unsettled, SECTOR * number) {
            return true;
        }
        self.put_by_spare(number)
    }

    // Writes whole sectors that have no settled byte.
    fn put_whole(&mut self, at: usize, n: usize) -> bool
        requires shut { self.old.gate ≡ Gate.Shut }
        requires most { n ≤ CHUNK }
        requires from { HasSectors at }
        requires sectors { HasSectors n }
        requires fits { at + n ≤ length (state_of self.old.mirror).bytes }
        requires unsettled { (place : ℕ) → IsInRange at n place
            → IsTrue ((state_of self.old.mirror).unsettled place) }
        ensures put { BothKept (PutsBelow at (at + n)
            (present (state_of self.old.mirror)) result)
            (F.kept self.old.file) (F.kept self.new.file) }
        ensures same { present (state_of self.new.mirror) ≡ present (state_of self.old.mirror) }
        ensures earlier { (state_of self.new.mirror).earlier ≡ (state_of self.old.mirror).earlier }
        ensures places { self.new.unsettled ≡ self.old.unsettled }
        ensures calls { self.new.calls ≡ self.old.calls }
        ensures gate { self.new.gate ≡ Gate.Shut }
    {
        self.put_own(at, n)
    }

    // Writes the next sector, or more of them where they have no settled byte, and says how many; none where a call failed.
    pub(crate) fn put_next(&mut self, number: usize) -> Option<usize>
        requires shut { self.old.gate ≡ Gate.Shut }
        requires inside { 512 * number < length (state_of self.old.mirror).bytes }
        ensures some { IfSome result (λ count. 0 < count) }
        ensures shut { IfSome result (λ _. self.new.gate ≡ Gate.Shut) }
        ensures inside { IfSome result (λ count. 512 * (number + count)
            ≤ length (state_of self.new.mirror).bytes) }
        ensures put { IfSome result (λ count. BothKept (PutsBelow (512 * number)
            (512 * (number + count)) (present (state_of self.old.mirror)) true)
            (F.kept self.old.file) (F.kept self.new.file)) }
        ensures same { present (state_of self.new.mirror) ≡ present (state_of self.old.mirror) }
        ensures earlier { (state_of self.new.mirror).earlier ≡ (state_of self.old.mirror).earlier }
        ensures places { self.new.unsettled ≡ self.old.unsettled }
        ensures calls { self.new.calls ≡ self.old.calls }
    {
        let at = SECTOR * number;
        let whole = self.unsettled.run_at(at, CHUNK) / SECTOR;
        if whole > 0 {
            if self.put_whole(at, SECTOR * whole) {
                return Some(whole);
            }
        } else if self.put_covered(number) {
            return Some(1);
        }
        None
    }
}
