// A device that is one of two kinds.
ghost use Rattle.std.specs.Prelude.{◌≡◌};
ghost use Rattle.std.specs.Option.{option_map};
ghost use Rattle.open_life.specs.Either.{either_fits, either_state, first_in};

use save_device::{DeviceFault, SaveDevice};

/// A device of one of two kinds.
#[derive(Drop)]
pub enum EitherDevice<A: SaveDevice, B: SaveDevice> {
    First(A),
    Second(B),
}

impl<A: SaveDevice, B: SaveDevice> EitherDevice<A, B> {
    /// The device, if it is of the first kind, to be looked at.
    pub fn first(&self) -> Option<&A>
        ensures { option_map (λ device. device.now) result ≡ first_in self.now }
    {
        match self {
            EitherDevice::First(device) => Some(device),
            EitherDevice::Second(_) => None,
        }
    }
}

impl<A: SaveDevice + Drop, B: SaveDevice + Drop> EitherDevice<A, B> {
    /// The device, if it is of the first kind.
    pub fn into_first(self) -> Option<A>
        ensures { result ≡ first_in self }
    {
        match self {
            EitherDevice::First(device) => Some(device),
            EitherDevice::Second(_) => None,
        }
    }
}

impl<A: SaveDevice, B: SaveDevice> SaveDevice for EitherDevice<A, B> {
    ghost state = { either_state A.state B.state };

    ghost fits = { either_fits A.state B.state A.fits B.fits };

    fn len(&self) -> usize {
        match self {
            EitherDevice::First(device) => device.len(),
            EitherDevice::Second(device) => device.len(),
        }
    }

    fn read(&mut self, at: usize, into: &mut [u8]) -> Result<(), DeviceFault> {
        match self {
            EitherDevice::First(device) => device.read(at, into),
            EitherDevice::Second(device) => device.read(at, into),
        }
    }

    fn write_at(&mut self, at: usize, bytes: &[u8]) -> Result<(), DeviceFault> {
        match self {
            EitherDevice::First(device) => device.write_at(at, bytes),
            EitherDevice::Second(device) => device.write_at(at, bytes),
        }
    }

    fn sync(&mut self) -> Result<(), DeviceFault> {
        match self {
            EitherDevice::First(device) => device.sync(),
            EitherDevice::Second(device) => device.sync(),
        }
    }

    fn faults(&self) -> u64 {
        match self {
            EitherDevice::First(device) => device.faults(),
            EitherDevice::Second(device) => device.faults(),
        }
    }
}
