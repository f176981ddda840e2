// A device that fails from one call on, around another one.
ghost use Rattle.std.specs.Prelude.{◌≡◌, ◌+◌, ◌-◌, ◌<◌, ◌≤◌, length, is_ok, slice_range, IfOk, IsErr, OnOk};
ghost use Rattle.save_device.specs.declared.calls.CallKind.TheVariants.{Read};
ghost use Rattle.save_device.specs.Device.{present, with_calls};
ghost use Rattle.save_device.specs.Changes.{Put, Settle, IsCall, Makes};

use crate::{CallKind, CallLog, DeviceFault, MemoryDevice, SaveDevice};
use std::alloc::{AllocError, Global};

/// Passes so many calls to its device. The next and all later ones fail, and aren't handed on. It counts its own calls and
/// faults.
#[derive(Drop)]
pub struct Fuse<D: SaveDevice> {
    pub device: D,
    /// The calls that still pass.
    pub left: u64,
    calls: CallLog,
}

impl<D: SaveDevice> Fuse<D> {
    /// A fuse around this device that passes so many calls.
    pub fn new(device: D, passes: u64) -> Fuse<D>
        ensures device { result.device ≡ device }
        ensures left { result.left ≡ passes }
    {
        Fuse {
            device,
            left: passes,
            calls: CallLog::new(),
        }
    }
}

impl Fuse<MemoryDevice> {
    ghost use Rattle.save_device.specs.Copies.{AreFusesAlike};

    /// A fuse that passes as many calls, around a copy of its device. Refused only where there is no memory.
    pub fn copy(&self, alloc: Global) -> Result<Fuse<MemoryDevice>, AllocError>
        ensures { IfOk result (AreFusesAlike self.now) }
    {
        Ok(Fuse {
            device: self.device.copy(alloc)?,
            left: self.left,
            calls: self.calls.copy(),
        })
    }
}

impl<D: SaveDevice> SaveDevice for Fuse<D> {
    ghost state = { λ fuse. with_calls (D.state fuse.device) fuse.calls };

    ghost fits = { λ fuse. D.fits fuse.device };

    fn len(&self) -> usize {
        self.device.len()
    }

    fn read(&mut self, at: usize, into: &mut [u8]) -> Result<(), DeviceFault>
        requires { at + length into.old ≤ length (D.state self.old.device).bytes }
        ensures call { IsCall Read (is_ok result)
            (with_calls (D.state self.old.device) self.old.calls)
            (with_calls (D.state self.new.device) self.new.calls) }
        ensures same { present (D.state self.new.device) ≡ present (D.state self.old.device) }
        ensures bytes { OnOk result
            (into.new ≡ slice_range (D.state self.old.device).bytes at (at + length into.old)) }

        ensures left { self.new.left ≡ self.old.left - 1 }
        ensures blown { self.old.left ≡ 0 → IsErr result × (self.new.device ≡ self.old.device) }
        ensures passed { 0 < self.old.left
            → IsCall Read (is_ok result) (D.state self.old.device) (D.state self.new.device) }
    {
        if self.left == 0 {
            self.calls.note(CallKind::Read, false);
            return Err(DeviceFault);
        }
        self.left -= 1;
        let result = self.device.read(at, into);
        self.calls.note(CallKind::Read, result.is_ok());
        result
    }

    fn write_at(&mut self, at: usize, bytes: &[u8]) -> Result<(), DeviceFault>
        requires { at + length bytes.now ≤ length (D.state self.old.device).bytes }
        ensures makes { Makes (Put at bytes.now) (is_ok result)
            (with_calls (D.state self.old.device) self.old.calls)
            (with_calls (D.state self.new.device) self.new.calls) }

        ensures left { self.new.left ≡ self.old.left - 1 }
        ensures blown { self.old.left ≡ 0 → IsErr result × (self.new.device ≡ self.old.device) }
        ensures passed { 0 < self.old.left
            → Makes (Put at bytes.now) (is_ok result)
            (D.state self.old.device) (D.state self.new.device) }
    {
        if self.left == 0 {
            self.calls.note(CallKind::Write, false);
            return Err(DeviceFault);
        }
        self.left -= 1;
        let result = self.device.write_at(at, bytes);
        self.calls.note(CallKind::Write, result.is_ok());
        result
    }

    fn sync(&mut self) -> Result<(), DeviceFault>
        ensures makes { Makes Settle (is_ok result)
            (with_calls (D.state self.old.device) self.old.calls)
            (with_calls (D.state self.new.device) self.new.calls) }

        ensures left { self.new.left ≡ self.old.left - 1 }
        ensures blown { self.old.left ≡ 0 → IsErr result × (self.new.device ≡ self.old.device) }
        ensures passed { 0 < self.old.left
            → Makes Settle (is_ok result) (D.state self.old.device) (D.state self.new.device) }
    {
        if self.left == 0 {
            self.calls.note(CallKind::Sync, false);
            return Err(DeviceFault);
        }
        self.left -= 1;
        let result = self.device.sync();
        self.calls.note(CallKind::Sync, result.is_ok());
        result
    }

    fn faults(&self) -> u64 {
        self.calls.faults()
    }
}
