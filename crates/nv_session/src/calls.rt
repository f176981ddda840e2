// The calls of a session that ask nothing of the device.
ghost use Rattle.std.specs.Prelude.{◌≡◌, ◌<◌, unwrap_or, Err, None, Some};
ghost use Rattle.std.specs.Option.{option_map};
ghost use Rattle.save_device.specs.Device.{DeviceState};
ghost use Rattle.energy_budget.specs.Meter.{meter_gauge, lie_of};
ghost use Rattle.nv_session.specs.ReadTurns.{ReadsLine};
ghost use Rattle.nv_session.specs.Coming.{IsOneEvent};
ghost use Rattle.nv_session.specs.Living.{GoesOnBy, GoesOnAlone, IsWork, device_state, innermost, session_at, set_to, read_refusal_at_rest, write_refusal_at_rest};

use crate::session::{ALL_CALLS, Session};
use crate::turns::{LineSeen, read};
use crate::wires::Wires;
use arm_state::{ArmRefusal, DisarmReply, Mode, ReadRefusal, WriteRefusal};
use channel_port::{ChannelPort, Done};
use ddr4_timing::command::Stamped;
use line_memory::Write;
use nv_machine::{Accepted, Event, Reply};

/// What a gauge shows, and what the module does with writes then, where a life runs.
#[derive(Clone, Copy, Debug, PartialEq, Eq)]
pub struct Level {
    pub reading: u64,
    pub mode: Option<Mode>,
}

/// The command that was issued, if one was.
pub fn command_of(done: Option<Done>) -> Option<Stamped>
    ensures { result ≡ option_map (λ done. done.command) done }
{
    match done {
        Some(done) => Some(done.command),
        None => None,
    }
}

impl<K: ChannelPort + Drop, A: Wires<K> + Drop> Session<K, A> {
    ghost use Rattle.nv_session.specs.Sessions.{line_count_in};

    /// Accepts a write.
    pub fn write(&mut self, write: Write) -> Result<Accepted, WriteRefusal>
        ensures comes { GoesOnAlone K.ChannelPort
            (λ setup. IsOneEvent (Event.Write write) (Reply.Write result))
            self.old.life self.new.life }
        ensures none { self.old.life ≡ None
            → result ≡ Err (write_refusal_at_rest (line_count_in self.old) write.line) }
        ensures device { self.new.device ≡ self.old.device }
        ensures gauge { self.new.gauge ≡ self.old.gauge }
        ensures profile { self.new.profile ≡ self.old.profile }
        ensures wires { self.new.wires ≡ self.old.wires }
    {
        let lines = self.lines();
        match &mut self.life {
            Some(life) => life.write(write),
            None if write.line < lines => Err(WriteRefusal::Closed),
            None => Err(WriteRefusal::NoSuchLine),
        }
    }

    /// Reads a line of the memory after all accepted writes. A read that must wait works its channel up to 64 times.
    pub fn read(&mut self, line: u64) -> Result<LineSeen, ReadRefusal>
        ensures comes { GoesOnAlone K.ChannelPort (λ setup. ReadsLine setup line result)
            self.old.life self.new.life }
        ensures none { self.old.life ≡ None
            → result ≡ Err (read_refusal_at_rest (line_count_in self.old) line) }
        ensures device { self.new.device ≡ self.old.device }
        ensures gauge { self.new.gauge ≡ self.old.gauge }
        ensures profile { self.new.profile ≡ self.old.profile }
        ensures wires { self.new.wires ≡ self.old.wires }
    {
        let lines = self.lines();
        match &mut self.life {
            Some(life) => read(life, line),
            None if line < lines => Err(ReadRefusal::Closed),
            None => Err(ReadRefusal::NoSuchLine),
        }
    }

    /// Issues one command of a channel, where it has one.
    pub fn work(&mut self, channel: u64) -> Option<Stamped>
        requires { channel < self.old.profile.checked.geometry.channels }
        ensures comes { GoesOnAlone K.ChannelPort (λ setup. IsWork channel result)
            self.old.life self.new.life }
        ensures none { self.old.life ≡ None → result ≡ None }
        ensures device { self.new.device ≡ self.old.device }
        ensures gauge { self.new.gauge ≡ self.old.gauge }
        ensures profile { self.new.profile ≡ self.old.profile }
        ensures wires { self.new.wires ≡ self.old.wires }
    {
        match &mut self.life {
            Some(life) => command_of(life.work(channel)),
            None => None,
        }
    }

    /// Sets the level of the gauge and reads it, where the mode reads gauges; with the mode where a life runs.
    pub fn sense(&mut self, level: u64) -> Level
        ensures comes { (device : DeviceState) → GoesOnBy K.ChannelPort
            (λ setup. IsOneEvent Event.Sense (Reply.Sense result.reading))
            (session_at self.old.life device (set_to level (meter_gauge self.old.gauge)))
            (session_at self.new.life device (meter_gauge self.new.gauge)) }
        ensures mode { result.mode ≡ option_map (λ life. life.front.mode) self.new.life }
        ensures none { self.old.life ≡ None → result.reading ≡ level }
        ensures lie { self.old.life ≡ None
            → lie_of self.new.gauge ≡ lie_of self.old.gauge }
        ensures device { self.new.device ≡ self.old.device }
        ensures profile { self.new.profile ≡ self.old.profile }
        ensures wires { self.new.wires ≡ self.old.wires }
    {
        self.gauge.set(level);
        match &mut self.life {
            Some(life) => {
                let reading = life.sense(&mut self.gauge);
                Level {
                    reading,
                    mode: Some(life.mode()),
                }
            }
            None => Level {
                reading: level,
                mode: None,
            },
        }
    }

    /// Begins the disarming.
    pub fn disarm(&mut self) -> Result<DisarmReply, ArmRefusal>
        ensures comes { GoesOnAlone K.ChannelPort
            (λ setup. IsOneEvent Event.Disarm (Reply.Disarm result))
            self.old.life self.new.life }
        ensures none { self.old.life ≡ None → result ≡ Err ArmRefusal.Closed }
        ensures device { self.new.device ≡ self.old.device }
        ensures gauge { self.new.gauge ≡ self.old.gauge }
        ensures profile { self.new.profile ≡ self.old.profile }
        ensures wires { self.new.wires ≡ self.old.wires }
    {
        match &mut self.life {
            Some(life) => life.disarm(),
            None => Err(ArmRefusal::Closed),
        }
    }

    /// From now on so many units can be paid on backup, whatever the gauge shows.
    pub fn lie(&mut self, units: u64)
        ensures lie { lie_of self.new.gauge ≡ Some units }
        ensures gauge { meter_gauge self.new.gauge ≡ meter_gauge self.old.gauge }
        ensures device { self.new.device ≡ self.old.device }
        ensures life { self.new.life ≡ self.old.life }
        ensures profile { self.new.profile ≡ self.old.profile }
        ensures wires { self.new.wires ≡ self.old.wires }
    {
        self.gauge.lie(units);
    }

    /// From now on the device passes so many calls, or all.
    pub fn fuse(&mut self, calls: Option<u64>)
        ensures passes { self.new.device.device.left ≡ unwrap_or calls ALL_CALLS }
        ensures fault { self.new.device.before ≡ self.old.device.before }
        ensures device { innermost self.new.device ≡ innermost self.old.device }
        ensures state { device_state self.new.device ≡ device_state self.old.device }
        ensures gauge { self.new.gauge ≡ self.old.gauge }
        ensures life { self.new.life ≡ self.old.life }
        ensures profile { self.new.profile ≡ self.old.profile }
        ensures wires { self.new.wires ≡ self.old.wires }
    {
        self.device.device.left = calls.unwrap_or(ALL_CALLS);
    }

    /// From now on the device's call behind so many others fails alone, in place of any other that was to. A call that a fuse
    /// fails is one of them.
    pub fn fail_one(&mut self, before: u64)
        ensures fault { self.new.device.before ≡ Some before }
        ensures device { self.new.device.device ≡ self.old.device.device }
        ensures state { device_state self.new.device ≡ device_state self.old.device }
        ensures gauge { self.new.gauge ≡ self.old.gauge }
        ensures life { self.new.life ≡ self.old.life }
        ensures profile { self.new.profile ≡ self.old.profile }
        ensures wires { self.new.wires ≡ self.old.wires }
    {
        self.device.before = Some(before);
    }

    /// The number of writes that are persistent; 0 where no life runs.
    pub fn mark(&self) -> u64
        ensures { result ≡ unwrap_or (option_map (λ life. life.front.persisted) self.now.life) 0 }
    {
        match &self.life {
            Some(life) => life.mark(),
            None => 0,
        }
    }
}
