// A life with its device and its gauge, and the calls that ask nothing of the device.
ghost use Rattle.std.specs.Prelude.{◌≡◌, ◌<◌};
ghost use Rattle.ddr4_timing.specs.Limits.{lines_of};
ghost use Rattle.energy_budget.specs.Meter.{meter_gauge};
ghost use Rattle.module_core.specs.Stands.{assembly};
ghost use Rattle.nv_session.specs.Coming.{IsOneEvent};
ghost use Rattle.open_life.specs.Lives.{IsAlive};

use arm_state::{ArmRefusal, DisarmReply, Mode, WriteRefusal};
use channel_port::{ChannelPort, Done};
use energy_budget::Meter;
use interleave_map::cells::line_count;
use line_memory::Write;
use module_core::Module;
use nv_machine::{Accepted, Event, Reply};
use nv_profile::Profile;
use save_device::SaveDevice;

/// A module with its device and its gauge, whose level is set from outside.
#[derive(Drop)]
pub struct OpenLife<K: ChannelPort, D: SaveDevice> {
    pub(crate) running: Module<K>,
    pub(crate) device: D,
    pub(crate) gauge: Meter,
    pub(crate) profile: Profile,
    ghost alive: { IsAlive K.ChannelPort profile
        (assembly running (D.state device) (meter_gauge gauge)) },
}

impl<K: ChannelPort, D: SaveDevice> OpenLife<K, D> {
    ghost use Rattle.open_life.specs.Lives.{GoesOn, WorksUpTo};
    ghost use Rattle.open_life.specs.Now.{now_of};

    /// Accepts a write.
    pub fn write(&mut self, write: Write) -> Result<Accepted, WriteRefusal>
        ensures goes { GoesOn K.ChannelPort
            (λ setup. IsOneEvent (Event.Write write) (Reply.Write result))
            (now_of self.old) (now_of self.new) }
        ensures device { self.new.device ≡ self.old.device }
        ensures gauge { self.new.gauge ≡ self.old.gauge }
        ensures profile { self.new.profile ≡ self.old.profile }
    {
        self.running.write(write)
    }

    /// Issues one command of a channel, where it has one.
    pub fn work(&mut self, channel: u64) -> Option<Done>
        requires { channel < self.old.profile.checked.geometry.channels }
        ensures goes { GoesOn K.ChannelPort
            (λ setup. IsOneEvent (Event.Work channel) (Reply.Work result))
            (now_of self.old) (now_of self.new) }
        ensures device { self.new.device ≡ self.old.device }
        ensures gauge { self.new.gauge ≡ self.old.gauge }
        ensures profile { self.new.profile ≡ self.old.profile }
    {
        self.running.work(channel)
    }

    /// Issues one command of each channel, where it has one, and answers how many were issued.
    pub fn work_each(&mut self) -> u64
        ensures works { WorksUpTo K.ChannelPort self.old.profile.checked.geometry.channels result
            (now_of self.old) (now_of self.new) }
        ensures device { self.new.device ≡ self.old.device }
        ensures gauge { self.new.gauge ≡ self.old.gauge }
        ensures profile { self.new.profile ≡ self.old.profile }
    {
        let mut issued = 0;
        for channel in 0..self.profile.checked.geometry.channels {
            if self.work(channel).is_some() {
                issued += 1;
            }
        }
        issued
    }

    /// Begins the disarming.
    pub fn disarm(&mut self) -> Result<DisarmReply, ArmRefusal>
        ensures goes { GoesOn K.ChannelPort
            (λ setup. IsOneEvent Event.Disarm (Reply.Disarm result))
            (now_of self.old) (now_of self.new) }
        ensures device { self.new.device ≡ self.old.device }
        ensures gauge { self.new.gauge ≡ self.old.gauge }
        ensures profile { self.new.profile ≡ self.old.profile }
    {
        self.running.disarm()
    }

    /// How many writes are persistent: those with a smaller number.
    pub fn mark(&self) -> u64
        ensures { result ≡ self.now.running.front.persisted }
    {
        self.running.mark()
    }

    /// How many writes were accepted.
    pub fn accepted(&self) -> u64
        ensures { result ≡ self.now.running.front.accepted }
    {
        self.running.accepted()
    }

    /// What the module does with writes.
    pub fn mode(&self) -> Mode
        ensures { result ≡ self.now.running.front.mode }
    {
        self.running.mode()
    }

    /// How many lines the memory has.
    pub fn line_count(&self) -> u64
        ensures { result ≡ lines_of self.now.profile.checked.geometry }
    {
        line_count(&self.profile.checked)
    }

    /// Its device, to be looked at.
    pub fn device(&self) -> &D
        ensures { result.now ≡ self.now.device }
    {
        &self.device
    }
}

impl<K: ChannelPort + Drop, D: SaveDevice> OpenLife<K, D> {
    /// Its device, at the end of the life.
    pub fn into_device(self) -> D
        ensures { result ≡ self.device }
    {
        self.device
    }
}
