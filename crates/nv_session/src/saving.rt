// The calls of a session that may call its device, and ask its gauge. Behind those that may end a save the stored writes are cut.
ghost use Rattle.std.specs.Prelude.{◌≡◌, Err, None};
ghost use Rattle.nv_session.specs.SaveTurns.{MakesSave};
ghost use Rattle.nv_session.specs.Turns.{MakesOneStep};
ghost use Rattle.nv_session.specs.Coming.{IsOneEvent};
ghost use Rattle.nv_session.specs.Living.{GoesOnBy};

use crate::session::Session;
use crate::turns::{save, step};
use crate::wires::Wires;
use arm_state::{ArmRefusal, ArmReply, Loss};
use channel_port::ChannelPort;
use nv_machine::{Event, Reply, StepReply};

impl<K: ChannelPort + Drop, A: Wires<K> + Drop> Session<K, A> {
    ghost use Rattle.nv_session.specs.Sessions.{moment_in};

    /// A save, or the rest of one that runs: up to 4,096 turns of a step, or where that waits of one work on each channel.
    pub fn save(&mut self) -> Result<StepReply, ArmRefusal>
        ensures comes { GoesOnBy K.ChannelPort (λ setup. MakesSave setup.shape.channels result)
            (moment_in self.old) (moment_in self.new) }
        ensures none { self.old.life ≡ None → result ≡ Err ArmRefusal.Closed }
        ensures rests { self.old.life ≡ None
            → (self.new.device ≡ self.old.device) × (self.new.gauge ≡ self.old.gauge) }
        ensures profile { self.new.profile ≡ self.old.profile }
        ensures wires { self.new.wires ≡ self.old.wires }
    {
        let channels = self.profile.checked.geometry.channels;
        match &mut self.life {
            Some(life) => {
                let made = save(life, channels, &mut self.device, &mut self.gauge);
                let _cut_by_save = life.cut();
                made
            }
            None => Err(ArmRefusal::Closed),
        }
    }

    /// One step of a save, which is begun where none runs.
    pub fn step(&mut self) -> Result<StepReply, ArmRefusal>
        ensures comes { GoesOnBy K.ChannelPort (λ setup. MakesOneStep result)
            (moment_in self.old) (moment_in self.new) }
        ensures none { self.old.life ≡ None → result ≡ Err ArmRefusal.Closed }
        ensures rests { self.old.life ≡ None
            → (self.new.device ≡ self.old.device) × (self.new.gauge ≡ self.old.gauge) }
        ensures profile { self.new.profile ≡ self.old.profile }
        ensures wires { self.new.wires ≡ self.old.wires }
    {
        match &mut self.life {
            Some(life) => {
                let made = step(life, &mut self.device, &mut self.gauge);
                let _cut_by_step = life.cut();
                made
            }
            None => Err(ArmRefusal::Closed),
        }
    }

    /// Arms.
    pub fn arm(&mut self) -> Result<ArmReply, ArmRefusal>
        ensures comes { GoesOnBy K.ChannelPort
            (λ setup. IsOneEvent Event.Arm (Reply.Arm result))
            (moment_in self.old) (moment_in self.new) }
        ensures none { self.old.life ≡ None → result ≡ Err ArmRefusal.Closed }
        ensures rests { self.old.life ≡ None
            → (self.new.device ≡ self.old.device) × (self.new.gauge ≡ self.old.gauge) }
        ensures profile { self.new.profile ≡ self.old.profile }
        ensures wires { self.new.wires ≡ self.old.wires }
    {
        match &mut self.life {
            Some(life) => life.arm(&mut self.device, &mut self.gauge),
            None => Err(ArmRefusal::Closed),
        }
    }

    /// Mains are lost: an armed life saves its accepted writes on backup, as far as the energy goes. Where no life runs, or
    /// they were lost before, it is `Closed`.
    pub fn lose(&mut self) -> Loss
        ensures comes { GoesOnBy K.ChannelPort
            (λ setup. IsOneEvent Event.Lose (Reply.Lose result))
            (moment_in self.old) (moment_in self.new) }
        ensures none { self.old.life ≡ None → result ≡ Loss.Closed }
        ensures rests { self.old.life ≡ None
            → (self.new.device ≡ self.old.device) × (self.new.gauge ≡ self.old.gauge) }
        ensures profile { self.new.profile ≡ self.old.profile }
        ensures wires { self.new.wires ≡ self.old.wires }
    {
        match &mut self.life {
            Some(life) => {
                let lost = life.power_loss(&mut self.device, &mut self.gauge);
                let _cut_by_loss = life.cut();
                lost
            }
            None => Loss::Closed,
        }
    }
}
