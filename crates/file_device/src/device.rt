// A device over a file.
ghost use Rattle.std.specs.Prelude.{◌≡◌, ◌+◌, ◌-◌, ◌<◌, ◌≤◌, ◌^◌, length, is_ok, IsTrue, IfOk, OnOk, IsErr, List, true, false, not, ℕ};
ghost use Rattle.save_device.specs.declared.calls.CallKind.TheVariants.{Read};
ghost use Rattle.save_device.specs.Device.{IsSettled, MayLeave, present, with_calls};
ghost use Rattle.save_device.specs.Memory.{state_of};
ghost use Rattle.save_device.specs.Changes.{Put, Settle, IsCall, Makes};
ghost use Rattle.save_device.specs.Rows.{IsInRange};
ghost use Rattle.file_device.specs.declared.device.TheConstants.{CHUNK};
ghost use Rattle.file_device.specs.Kept.{IfKept, BothKept, IsAtRest, IsSaved, IsCurrent, Backs, Marks, Puts, PutsOut, MayLeaveWithin};

use crate::DiskFile;
use crate::places::Places;
use save_device::{CallKind, CallLog, DeviceFault, MemoryDevice, SaveDevice};
use std::alloc::Global;
use std::io;

/// How many bytes are written again at once.
const CHUNK: usize = 4096;

/// A device whose bytes stand in a file. A read takes them from a copy in memory, a write goes to the file too, and a sync
/// flushes it.
///
/// A call of the file that fails is told as a fault, and the device goes on: its next sync first writes all unsettled places
/// again, since no flush is known to make up for one that failed.
#[derive(Drop)]
pub struct FileDevice<F: DiskFile> {
    mirror: MemoryDevice,
    // the unsettled places of the mirror
    unsettled: Places,
    file: F,
    // a call of the file failed, and the places weren't written again yet
    is_behind: bool,
    calls: CallLog,
    pub ghost fits: { length (state_of mirror).bytes < 2 ^ 64 },
    pub ghost marked: { Marks unsettled.flags.items (state_of mirror) },
    pub ghost backed: { Backs is_behind (state_of mirror) (F.kept file) },
}

// Writes n bytes of the mirror from `at` on to the file, and says whether that went well.
fn copy_out<F: DiskFile>(mirror: &mut MemoryDevice, file: &mut F, at: usize, n: usize) -> bool
    requires most { n ≤ CHUNK }
    requires fits { at + n ≤ length (state_of mirror.old).bytes }
    requires file_fits { IfKept (λ kept. at + n ≤ length kept.bytes) (F.kept file.old) }
    ensures puts { BothKept (PutsOut at n (state_of mirror.old) result)
        (F.kept file.old) (F.kept file.new) }
    ensures same { present (state_of mirror.new) ≡ present (state_of mirror.old) }
    ensures earlier { (state_of mirror.new).earlier ≡ (state_of mirror.old).earlier }
{
    let mut buffer = [0; CHUNK];
    let _done = mirror.read(at, &mut buffer[..n]);
    file.put(at, &buffer[..n]).is_ok()
}

impl<F: DiskFile + Drop> FileDevice<F> {
    /// A device with what the file holds, all of which is on the disk. It takes four times the memory of the bytes.
    pub fn over(alloc: Global, mut file: F) -> io::Result<FileDevice<F>>
        requires { IfKept IsAtRest (F.kept file) }
        ensures bytes { IfOk result (λ device. IfKept
            (λ kept. (state_of device.mirror).bytes ≡ kept.bytes) (F.kept file)) }
        ensures settled { IfOk result (λ device. IsSettled (state_of device.mirror)) }
    {
        let bytes = file.load(alloc)?;
        let mirror = MemoryDevice::new(alloc, bytes)?;
        let unsettled = Places::none(alloc, mirror.len())?;
        Ok(FileDevice {
            mirror,
            unsettled,
            file,
            is_behind: false,
            calls: CallLog::new(),
        })
    }

    /// Its file, which nothing is written to any more.
    pub fn into_file(self) -> F
        ensures { result ≡ self.file }
    {
        self.file
    }
}

impl<F: DiskFile> FileDevice<F> {
    // Writes n unsettled places from `at` on again, and says whether that went well.
    fn put_again(&mut self, at: usize, n: usize) -> bool
        requires most { n ≤ CHUNK }
        requires fits { at + n ≤ length (state_of self.old.mirror).bytes }
        requires unsettled { (place : ℕ) → IsInRange at n place
            → IsTrue ((state_of self.old.mirror).unsettled place) }
        ensures puts { BothKept (PutsOut at n (state_of self.old.mirror) result)
            (F.kept self.old.file) (F.kept self.new.file) }
        ensures same { present (state_of self.new.mirror) ≡ present (state_of self.old.mirror) }
        ensures earlier { (state_of self.new.mirror).earlier ≡ (state_of self.old.mirror).earlier }
        ensures calls { self.new.calls ≡ self.old.calls }
        ensures places { self.new.unsettled ≡ self.old.unsettled }
        ensures behind { self.new.is_behind ≡ true }

        // A stop within it leaves what one before it may leave.
        ensures within { IfKept (λ kept. (image : List ℕ) → MayLeaveWithin at n kept image
            → MayLeave (present (state_of self.old.mirror)) image) (F.kept self.old.file) }
    {
        self.is_behind = true;
        copy_out(&mut self.mirror, &mut self.file, at, n)
    }

    // Writes all unsettled places again behind a call that failed, and says whether that went well.
    fn catch_up(&mut self) -> bool
        ensures same { present (state_of self.new.mirror) ≡ present (state_of self.old.mirror) }
        ensures earlier { (state_of self.new.mirror).earlier ≡ (state_of self.old.mirror).earlier }
        ensures calls { self.new.calls ≡ self.old.calls }
        ensures behind { self.new.is_behind ≡ not result }
    {
        if !self.is_behind {
            return true;
        }
        let mut at = self.unsettled.first();
        while at < self.unsettled.end() {
            let n = self.unsettled.run_at(at, CHUNK);
            if n == 0 {
                at += 1;
            } else if self.put_again(at, n) {
                at += n;
            } else {
                return false;
            }
        }
        self.is_behind = false;
        true
    }

    // Makes durable what was written, and says whether that went well.
    fn flush(&mut self) -> bool
        ensures same { present (state_of self.new.mirror) ≡ present (state_of self.old.mirror) }
        ensures earlier { (state_of self.new.mirror).earlier ≡ (state_of self.old.mirror).earlier }
        ensures calls { self.new.calls ≡ self.old.calls }
        ensures behind { self.new.is_behind ≡ not result }
        ensures saved { IsTrue result
            → IfKept (IsSaved (state_of self.new.mirror)) (F.kept self.new.file) }
    {
        if !self.catch_up() {
            return false;
        }
        self.is_behind = self.file.flush().is_err();
        !self.is_behind
    }
}

impl<F: DiskFile> SaveDevice for FileDevice<F> {
    ghost state = { λ device. with_calls (state_of device.mirror) device.calls };

    ghost fits = { λ device. device.fits };

    fn len(&self) -> usize {
        self.mirror.len()
    }

    fn read(&mut self, at: usize, into: &mut [u8]) -> Result<(), DeviceFault> {
        let result = self.mirror.read(at, into);
        self.calls.note(CallKind::Read, result.is_ok());
        result
    }

    fn write_at(&mut self, at: usize, bytes: &[u8]) -> Result<(), DeviceFault>
        requires { at + length bytes.now ≤ length (state_of self.old.mirror).bytes }
        ensures makes { Makes (Put at bytes.now) (is_ok result)
            (with_calls (state_of self.old.mirror) self.old.calls)
            (with_calls (state_of self.new.mirror) self.new.calls) }

        // The file is handed the same bytes for the same place, and its answer is told.
        ensures puts { BothKept (Puts at bytes.now (is_ok result))
            (F.kept self.old.file) (F.kept self.new.file) }
        ensures behind { IsErr result → self.new.is_behind ≡ true }

        // A stop within the file's write leaves what one behind the call may leave.
        ensures within { IfKept (λ kept. (image : List ℕ)
            → MayLeaveWithin at (length bytes.now) kept image
            → MayLeave (present (state_of self.new.mirror)) image) (F.kept self.old.file) }
    {
        let _done = self.mirror.write_at(at, bytes);
        self.unsettled.add(at, bytes.len());
        let is_good = self.file.put(at, bytes).is_ok();
        self.calls.note(CallKind::Write, is_good);
        if is_good {
            Ok(())
        } else {
            self.is_behind = true;
            Err(DeviceFault)
        }
    }

    fn sync(&mut self) -> Result<(), DeviceFault>
        ensures makes { Makes Settle (is_ok result)
            (with_calls (state_of self.old.mirror) self.old.calls)
            (with_calls (state_of self.new.mirror) self.new.calls) }

        // The file has all bytes on the disk where it is told so.
        ensures saved { OnOk result
            (IfKept (IsSaved (state_of self.new.mirror)) (F.kept self.new.file)) }
        ensures behind { IsErr result → self.new.is_behind ≡ true }
    {
        let is_good = self.flush();
        self.calls.note(CallKind::Sync, is_good);
        if is_good {
            self.unsettled.clear();
            self.mirror.sync()
        } else {
            Err(DeviceFault)
        }
    }

    fn faults(&self) -> u64 {
        self.calls.faults()
    }
}
