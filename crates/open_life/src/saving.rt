// The calls of a life that may call its device, and ask its gauge. Behind those that may end a save the stored writes are cut.
ghost use Rattle.std.specs.Prelude.{◌≡◌};
ghost use Rattle.nv_session.specs.Coming.{IsOneEvent};
ghost use Rattle.nv_session.specs.SaveTurns.{MakesSave};
ghost use Rattle.nv_session.specs.Turns.{MakesOneStep};

use crate::life::OpenLife;
use arm_state::{ArmRefusal, ArmReply, Loss};
use channel_port::ChannelPort;
use nv_machine::{Event, Reply, StepReply};
use nv_session::{save, step};
use save_device::SaveDevice;

impl<K: ChannelPort, D: SaveDevice> OpenLife<K, D> {
    ghost use Rattle.open_life.specs.Lives.{GoesOn};
    ghost use Rattle.open_life.specs.Now.{now_of};

    /// A save, or the rest of one that runs: up to 4,096 turns of a step, or where that waits of one work on each channel.
    pub fn save(&mut self) -> Result<StepReply, ArmRefusal>
        ensures goes { GoesOn K.ChannelPort (λ setup. MakesSave setup.shape.channels result)
            (now_of self.old) (now_of self.new) }
        ensures profile { self.new.profile ≡ self.old.profile }
    {
        let channels = self.profile.checked.geometry.channels;
        let made = save(
            &mut self.running,
            channels,
            &mut self.device,
            &mut self.gauge,
        );
        let _cut_by_save = self.running.cut();
        made
    }

    /// One step of a save, which is begun where none runs.
    pub fn step(&mut self) -> Result<StepReply, ArmRefusal>
        ensures goes { GoesOn K.ChannelPort (λ setup. MakesOneStep result)
            (now_of self.old) (now_of self.new) }
        ensures profile { self.new.profile ≡ self.old.profile }
    {
        let made = step(&mut self.running, &mut self.device, &mut self.gauge);
        let _cut_by_step = self.running.cut();
        made
    }

    /// Mains are lost: an armed life saves its accepted writes on backup, as far as the energy goes.
    pub fn lose(&mut self) -> Loss
        ensures goes { GoesOn K.ChannelPort (λ setup. IsOneEvent Event.Lose (Reply.Lose result))
            (now_of self.old) (now_of self.new) }
        ensures profile { self.new.profile ≡ self.old.profile }
    {
        let lost = self.running.power_loss(&mut self.device, &mut self.gauge);
        let _cut_by_loss = self.running.cut();
        lost
    }

    /// Arms.
    pub fn arm(&mut self) -> Result<ArmReply, ArmRefusal>
        ensures goes { GoesOn K.ChannelPort (λ setup. IsOneEvent Event.Arm (Reply.Arm result))
            (now_of self.old) (now_of self.new) }
        ensures profile { self.new.profile ≡ self.old.profile }
    {
        self.running.arm(&mut self.device, &mut self.gauge)
    }
}
