// A device as its callers see it.
ghost use Rattle.std.specs.Prelude.{◌≡◌, ◌+◌, ◌-◌, ◌<◌, ◌≤◌, ◌^◌, length, min, is_ok, slice_range, OnOk};
ghost use Rattle.save_device.specs.declared.calls.CallKind.TheVariants.{Read};
ghost use Rattle.save_device.specs.Device.{DeviceState, present, faults_of};
ghost use Rattle.save_device.specs.Changes.{Put, Settle, IsCall, Makes};

use thiserror::Error;

/// A device's own failure of one call.
#[derive(Clone, Copy, Debug, PartialEq, Eq, Error)]
#[error("the device failed")]
pub struct DeviceFault;

/// A device of bytes. Each range that was written since the last sync that succeeded is unsettled: after a stop, a loss
/// of power, its bytes may be anything. After a good sync a stop leaves what a read gives. A stop may come before, within
/// or after any call; clauses speak of all these moments by the list of them in the device's state.
///
/// No call takes memory.
pub trait SaveDevice {
    /// What is known of the device: its bytes, which of them are unsettled, its earlier moments and its calls.
    ghost state: { Self → DeviceState };

    /// The number of bytes, which no call changes.
    fn len(&self) -> usize
        ensures { result ≡ length (state self.now).bytes };

    /// Reads the bytes from `at` on. A read changes nothing, whether it fails or not.
    fn read(&mut self, at: usize, into: &mut [u8]) -> Result<(), DeviceFault>
        requires { at + length into.old ≤ length (state self.old).bytes }
        ensures call { IsCall Read (is_ok result) (state self.old) (state self.new) }
        ensures same { present (state self.new) ≡ present (state self.old) }
        ensures bytes { OnOk result
            (into.new ≡ slice_range (state self.old).bytes at (at + length into.old)) };

    /// Writes the bytes from `at` on. Until a good sync a stop may leave any bytes in the range; after a fault a read may
    /// give any bytes there.
    fn write_at(&mut self, at: usize, bytes: &[u8]) -> Result<(), DeviceFault>
        requires { at + length bytes.now ≤ length (state self.old).bytes }
        ensures { Makes (Put at bytes.now) (is_ok result) (state self.old) (state self.new) };

    /// Makes what was written durable: after it, a stop leaves what a read gives. A sync that fails settles nothing.
    fn sync(&mut self) -> Result<(), DeviceFault>
        ensures { Makes Settle (is_ok result) (state self.old) (state self.new) };

    /// The number of calls that failed, or the largest number where there were more.
    fn faults(&self) -> u64
        ensures { result ≡ min (faults_of (state self.now)) (2 ^ 64 - 1) };

    /// A place in the row fits a `usize`.
    ghost fits: { (device : Self) → length (state device).bytes < 2 ^ 64 };
}
