// A device over a file of sectors.
ghost use Rattle.std.specs.Prelude.{◌≡◌, ◌+◌, ◌*◌, ◌<◌, ◌^◌, length, is_ok, OnOk, true, false};
ghost use Rattle.save_device.specs.declared.calls.CallKind.TheVariants.{Read};
ghost use Rattle.save_device.specs.Device.{present, with_calls};
ghost use Rattle.save_device.specs.Memory.{state_of};
ghost use Rattle.save_device.specs.Changes.{Settle, Makes};
ghost use Rattle.file_device.specs.Kept.{IfKept, Marks};
ghost use Rattle.sector_device.specs.Spare.{spare_size};
ghost use Rattle.sector_device.specs.Backing.{HasSectors, IsForSector, IsPutWhole, IsSavedWhole, Stands};

use crate::SectorFile;
use crate::file::SECTOR;
use file_device::Places;
use save_device::{CallKind, CallLog, DeviceFault, MemoryDevice, SaveDevice};

/// Where the gate stands behind a device's bytes.
pub(crate) const GATE: usize = 2 * SECTOR;

/// How the gate of the spare place stands.
#[derive(Clone, Copy)]
pub enum Gate {
    /// It is shut.
    Shut,
    /// It was being written, so that an opening may find it open or shut. Either is right: the disk has each settled byte in its place.
    Ajar,
    /// It is open for the sector of this number. The spare place has its settled bytes, and its own place may have anything.
    Open(usize),
}

/// A device whose bytes stand in a file on a disk that loses whole sectors. A read takes them from a copy in memory, and so does a
/// write; a sync writes all unsettled places to the file and flushes it.
///
/// A sector of which some bytes are settled isn't written at once: its new content goes to the spare place and is flushed, then the
/// gate is opened and flushed, then the sector is written and flushed, and then the gate is shut and flushed. So a sector in part
/// costs four flushes. A sector with no settled byte is written in its place.
///
/// A call of the file that fails is told as a fault of the sync, and the device goes on: the next sync first shuts the gate, behind the
/// sector for which it is open, and writes all unsettled places again, since no flush is known to make up for one that failed.
#[derive(Drop)]
pub struct SectorDevice<F: SectorFile> {
    pub(crate) mirror: MemoryDevice,
    // the unsettled places of the mirror
    pub(crate) unsettled: Places,
    pub(crate) file: F,
    pub(crate) gate: Gate,
    pub(crate) calls: CallLog,
    pub ghost fits: { length (state_of mirror).bytes < 2 ^ 64 },
    pub ghost room: { length (state_of mirror).bytes + spare_size < 2 ^ 64 },
    pub ghost sectors: { HasSectors (length (state_of mirror).bytes) },
    pub ghost marked: { Marks unsettled.flags.items (state_of mirror) },
    pub ghost inside: { IsForSector gate (length (state_of mirror).bytes) },
    pub ghost backed: { IfKept (Stands gate (present (state_of mirror))) (F.kept file) },
}

impl<F: SectorFile> SectorDevice<F> {
    // Writes all unsettled places, and says whether that went well.
    fn write_out(&mut self) -> bool
        requires { self.old.gate ≡ Gate.Shut }
        ensures shut { result ≡ true → self.new.gate ≡ Gate.Shut }
        ensures put { result ≡ true → IfKept
            (IsPutWhole (present (state_of self.new.mirror))) (F.kept self.new.file) }
        ensures same { present (state_of self.new.mirror) ≡ present (state_of self.old.mirror) }
        ensures earlier { (state_of self.new.mirror).earlier ≡ (state_of self.old.mirror).earlier }
        ensures calls { self.new.calls ≡ self.old.calls }
    {
        let mut number = self.unsettled.first().min(self.unsettled.end()) / SECTOR;
        while SECTOR * number < self.unsettled.end() {
            let Some(count) = self.put_next(number) else {
                return false;
            };
            number += count;
        }
        true
    }

    // Makes durable what was written, and says whether that went well.
    fn flush_out(&mut self) -> bool
        requires shut { self.old.gate ≡ Gate.Shut }
        requires put { IfKept (IsPutWhole (present (state_of self.old.mirror)))
            (F.kept self.old.file) }
        ensures saved { result ≡ true → IfKept
            (IsSavedWhole (present (state_of self.new.mirror))) (F.kept self.new.file) }
        ensures same { self.new.mirror ≡ self.old.mirror }
        ensures calls { self.new.calls ≡ self.old.calls }
        ensures gate { self.new.gate ≡ Gate.Shut }
    {
        self.flush()
    }

    // Writes all unsettled places and makes them durable, and says whether that went well.
    fn save(&mut self) -> bool
        ensures shut { result ≡ true → self.new.gate ≡ Gate.Shut }
        ensures saved { result ≡ true → IfKept
            (IsSavedWhole (present (state_of self.new.mirror))) (F.kept self.new.file) }
        ensures same { present (state_of self.new.mirror) ≡ present (state_of self.old.mirror) }
        ensures earlier { (state_of self.new.mirror).earlier ≡ (state_of self.old.mirror).earlier }
        ensures calls { self.new.calls ≡ self.old.calls }
    {
        if !self.shut() {
            return false;
        }
        if !self.write_out() {
            return false;
        }
        self.flush_out()
    }
}

impl<F: SectorFile> SaveDevice for SectorDevice<F> {
    ghost state = { λ device. with_calls (state_of device.mirror) device.calls };

    ghost fits = { λ device. device.fits };

    fn len(&self) -> usize {
        self.mirror.len()
    }

    fn read(&mut self, at: usize, into: &mut [u8]) -> Result<(), DeviceFault> {
        let result = self.mirror.read(at, into);
        self.calls.note(CallKind::Read, result.is_ok());
        result
    }

    fn write_at(&mut self, at: usize, bytes: &[u8]) -> Result<(), DeviceFault> {
        self.unsettled.add(at, bytes.len());
        self.calls.note(CallKind::Write, true);
        self.mirror.write_at(at, bytes)
    }

    fn sync(&mut self) -> Result<(), DeviceFault>
        ensures makes { Makes Settle (is_ok result)
            (with_calls (state_of self.old.mirror) self.old.calls)
            (with_calls (state_of self.new.mirror) self.new.calls) }

        // The disk has all bytes where it is told so.
        ensures saved { OnOk result
            (IfKept (IsSavedWhole (present (state_of self.new.mirror)))
            (F.kept self.new.file)) }
    {
        let is_good = self.save();
        self.calls.note(CallKind::Sync, is_good);
        if is_good {
            self.unsettled.clear();
            self.mirror.sync()
        } else {
            Err(DeviceFault)
        }
    }

    fn faults(&self) -> u64 {
        self.calls.faults()
    }
}
