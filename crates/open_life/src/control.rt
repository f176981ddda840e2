// What is set from outside, the level of the gauge and the calls that a device passes, and what is taken from it: its bytes, and the
// changes that it notes.
ghost use Rattle.std.specs.Prelude.{◌≡◌, length, true, false, None};
ghost use Rattle.std.specs.Option.{IsSome};
ghost use Rattle.ddr4_timing.specs.Limits.{lines_of};
ghost use Rattle.energy_budget.specs.Meter.{meter_gauge};
ghost use Rattle.nv_session.specs.Coming.{IsOneEvent};
ghost use Rattle.noted_device.specs.Notes.{Hands};
ghost use Rattle.nv_session.specs.Living.{set_to};
ghost use Rattle.slot_store.specs.Slots.{device_size};
ghost use Rattle.open_life.specs.Either.{first_in};
ghost use Rattle.open_life.specs.Noted.{changes_in};

use crate::either::EitherDevice;
use crate::life::OpenLife;
use channel_port::ChannelPort;
use noted_device::{Handed, NotedDevice};
use nv_machine::{Event, Reply};
use save_device::{Fuse, MemoryDevice, SaveDevice};

impl<K: ChannelPort, D: SaveDevice> OpenLife<K, D> {
    ghost use Rattle.open_life.specs.Lives.{GoesOn};
    ghost use Rattle.open_life.specs.Now.{now_of};

    /// The module reads the gauge as it is. In a mode that reads none the answer is the last reading.
    pub fn sense(&mut self) -> u64
        ensures goes { GoesOn K.ChannelPort
            (λ setup. IsOneEvent Event.Sense (Reply.Sense result))
            (now_of self.old) (now_of self.new) }
        ensures device { self.new.device ≡ self.old.device }
        ensures profile { self.new.profile ≡ self.old.profile }
    {
        self.running.sense(&mut self.gauge)
    }

    // The level of the gauge, which isn't read.
    fn set_level(&mut self, level: u64)
        ensures now { now_of self.new
            ≡ record (now_of self.old) { gauge = set_to level (meter_gauge self.old.gauge) } }
        ensures device { self.new.device ≡ self.old.device }
        ensures profile { self.new.profile ≡ self.old.profile }
    {
        self.gauge.set(level);
    }

    /// Sets the level of the gauge, which the module reads then. One below the last is a fault of the gauge.
    pub fn set_energy(&mut self, level: u64) -> u64
        ensures goes { GoesOn K.ChannelPort
            (λ setup. IsOneEvent Event.Sense (Reply.Sense result))
            (record (now_of self.old) { gauge = set_to level (meter_gauge self.old.gauge) })
            (now_of self.new) }
        ensures device { self.new.device ≡ self.old.device }
        ensures profile { self.new.profile ≡ self.old.profile }
    {
        self.set_level(level);
        self.sense()
    }
}

impl<K: ChannelPort, D: SaveDevice> OpenLife<K, Fuse<D>> {
    ghost use Rattle.open_life.specs.Now.{now_of};

    /// From now on the device passes so many calls, and fails each later one.
    pub fn stop_after(&mut self, calls: u64)
        ensures passes { self.new.device.left ≡ calls }
        ensures device { self.new.device.device ≡ self.old.device.device }
        ensures now { now_of self.new ≡ now_of self.old }
        ensures gauge { self.new.gauge ≡ self.old.gauge }
        ensures profile { self.new.profile ≡ self.old.profile }
    {
        self.device.left = calls;
    }
}

impl<K: ChannelPort, B: SaveDevice> OpenLife<K, Fuse<EitherDevice<MemoryDevice, B>>> {
    ghost use Rattle.open_life.specs.Now.{now_of};

    /// Reads all bytes of a device in memory, and says whether it is one. It is no call of the life: none of the device's failures
    /// meets it, and as many calls still pass.
    pub fn read_memory(&mut self, into: &mut [u8]) -> bool
        requires { length into.old
            ≡ device_size (lines_of self.old.profile.checked.geometry) }
        ensures bytes { result ≡ true → into.new ≡ (now_of self.old).device.bytes }
        ensures memory { result ≡ true → IsSome (first_in self.old.device.device) }
        ensures file { result ≡ false → first_in self.old.device.device ≡ None }
        ensures same { result ≡ false → into.new ≡ into.old }
        ensures passes { self.new.device.left ≡ self.old.device.left }
        ensures now { now_of self.new ≡ now_of self.old }
        ensures gauge { self.new.gauge ≡ self.old.gauge }
        ensures profile { self.new.profile ≡ self.old.profile }
    {
        match &mut self.device.device {
            EitherDevice::First(memory) => {
                let Ok(()) = memory.read(0, into) else {
                    unreachable!();
                };
                true
            }
            EitherDevice::Second(_) => false,
        }
    }
}

impl<K: ChannelPort, A: SaveDevice> OpenLife<K, Fuse<EitherDevice<A, NotedDevice>>> {
    ghost use Rattle.open_life.specs.Now.{now_of};

    /// Hands out the oldest change that its device notes, which isn't noted then: its bytes into the beginning of a buffer. It is no
    /// call of the life: as many calls still pass.
    pub fn hand_out(&mut self, into: &mut [u8]) -> Handed
        ensures hands { Hands result (changes_in self.old.device.device)
            (changes_in self.new.device.device) into.old into.new }
        ensures passes { self.new.device.left ≡ self.old.device.left }
        ensures now { now_of self.new ≡ now_of self.old }
        ensures gauge { self.new.gauge ≡ self.old.gauge }
        ensures profile { self.new.profile ≡ self.old.profile }
    {
        match &mut self.device.device {
            EitherDevice::First(_) => Handed::Nothing,
            EitherDevice::Second(noted) => noted.hand_out(into),
        }
    }
}
