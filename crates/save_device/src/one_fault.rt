// A device of which one call fails, around another one.
ghost use Rattle.std.specs.Prelude.{◌≡◌, ◌≢◌, ◌↔◌, ◌+◌, ◌≤◌, Bool, Some, None, length, is_ok, slice_range, IfOk, IsTrue, IsErr, OnOk};
ghost use Rattle.save_device.specs.declared.calls.CallKind.TheVariants.{Read};
ghost use Rattle.save_device.specs.Device.{present, with_calls};
ghost use Rattle.save_device.specs.Changes.{Put, Settle, IsCall, Makes};
ghost use Rattle.save_device.specs.OneFault.{before_next};

use crate::{CallKind, CallLog, DeviceFault, Fuse, MemoryDevice, SaveDevice};
use std::alloc::{AllocError, Global};

/// One call fails: a write is handed on to the device all the same, a read or a sync isn't. It counts its own calls and
/// faults.
#[derive(Drop)]
pub struct OneFault<D: SaveDevice> {
    pub device: D,
    /// The calls that pass before it, and none once it has failed.
    pub before: Option<u64>,
    calls: CallLog,
}

impl<D: SaveDevice> OneFault<D> {
    /// Around this device, of which so many calls pass before the one that fails.
    pub fn new(device: D, before: u64) -> OneFault<D>
        ensures device { result.device ≡ device }
        ensures before { result.before ≡ Some before }
    {
        OneFault {
            device,
            before: Some(before),
            calls: CallLog::new(),
        }
    }
}

impl OneFault<Fuse<MemoryDevice>> {
    ghost use Rattle.save_device.specs.Copies.{AreFaultsAlike};

    /// The same around a copy of its device, of which as many calls pass before the one that fails. Refused only where there is no
    /// memory.
    pub fn copy(&self, alloc: Global) -> Result<OneFault<Fuse<MemoryDevice>>, AllocError>
        ensures { IfOk result (AreFaultsAlike self.now) }
    {
        Ok(OneFault {
            device: self.device.copy(alloc)?,
            before: self.before,
            calls: self.calls.copy(),
        })
    }
}

// Counts one call, and says whether it is the one that fails.
fn is_due(before: &mut Option<u64>) -> bool
    ensures due { IsTrue result ↔ (before.old ≡ Some 0) }
    ensures next { before.new ≡ before_next before.old }
{
    match *before {
        None => false,
        Some(0) => {
            *before = None;
            true
        }
        Some(n) => {
            *before = Some(n - 1);
            false
        }
    }
}

impl<D: SaveDevice> SaveDevice for OneFault<D> {
    ghost state = { λ one. with_calls (D.state one.device) one.calls };

    ghost fits = { λ one. D.fits one.device };

    fn len(&self) -> usize {
        self.device.len()
    }

    fn read(&mut self, at: usize, into: &mut [u8]) -> Result<(), DeviceFault>
        requires { at + length into.old ≤ length (D.state self.old.device).bytes }
        ensures call { IsCall Read (is_ok result)
            (with_calls (D.state self.old.device) self.old.calls)
            (with_calls (D.state self.new.device) self.new.calls) }
        ensures same { present (D.state self.new.device) ≡ present (D.state self.old.device) }
        ensures bytes { OnOk result
            (into.new ≡ slice_range (D.state self.old.device).bytes at (at + length into.old)) }

        ensures next { self.new.before ≡ before_next self.old.before }
        ensures fails { self.old.before ≡ Some 0
            → IsErr result × (self.new.device ≡ self.old.device) }
        ensures passed { self.old.before ≢ Some 0
            → IsCall Read (is_ok result) (D.state self.old.device) (D.state self.new.device) }
    {
        if is_due(&mut self.before) {
            self.calls.note(CallKind::Read, false);
            return Err(DeviceFault);
        }
        let result = self.device.read(at, into);
        self.calls.note(CallKind::Read, result.is_ok());
        result
    }

    fn write_at(&mut self, at: usize, bytes: &[u8]) -> Result<(), DeviceFault>
        requires { at + length bytes.now ≤ length (D.state self.old.device).bytes }
        ensures makes { Makes (Put at bytes.now) (is_ok result)
            (with_calls (D.state self.old.device) self.old.calls)
            (with_calls (D.state self.new.device) self.new.calls) }

        ensures next { self.new.before ≡ before_next self.old.before }
        ensures fails { self.old.before ≡ Some 0 → IsErr result
            × ((good : Bool) × Makes (Put at bytes.now) good
            (D.state self.old.device) (D.state self.new.device)) }
        ensures passed { self.old.before ≢ Some 0
            → Makes (Put at bytes.now) (is_ok result)
            (D.state self.old.device) (D.state self.new.device) }
    {
        let fails = is_due(&mut self.before);
        let result = self.device.write_at(at, bytes);
        if fails {
            self.calls.note(CallKind::Write, false);
            return Err(DeviceFault);
        }
        self.calls.note(CallKind::Write, result.is_ok());
        result
    }

    fn sync(&mut self) -> Result<(), DeviceFault>
        ensures makes { Makes Settle (is_ok result)
            (with_calls (D.state self.old.device) self.old.calls)
            (with_calls (D.state self.new.device) self.new.calls) }

        ensures next { self.new.before ≡ before_next self.old.before }
        ensures fails { self.old.before ≡ Some 0
            → IsErr result × (self.new.device ≡ self.old.device) }
        ensures passed { self.old.before ≢ Some 0
            → Makes Settle (is_ok result) (D.state self.old.device) (D.state self.new.device) }
    {
        if is_due(&mut self.before) {
            self.calls.note(CallKind::Sync, false);
            return Err(DeviceFault);
        }
        let result = self.device.sync();
        self.calls.note(CallKind::Sync, result.is_ok());
        result
    }

    fn faults(&self) -> u64 {
        self.calls.faults()
    }
}
