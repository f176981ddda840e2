// A life on a device, and what it answers to a line.
ghost use Rattle.std.specs.Prelude.{◌≡◌, ◌<◌, true, false, IfSome, IsNone};
ghost use Rattle.energy_budget.specs.Meter.{meter_gauge};
ghost use Rattle.module_core.specs.Stands.{HasDevice, assembly, setup_of};
ghost use Rattle.nv_script.specs.Line.{NamesChannelOf};
ghost use Rattle.nv_session.specs.Living.{IsWork, set_to};
ghost use Rattle.nv_session.specs.ReadTurns.{ReadsLine};
ghost use Rattle.nv_session.specs.SaveTurns.{MakesSave};
ghost use Rattle.nv_session.specs.Turns.{MakesOneStep};

use arm_state::{ArmRefusal, ArmReply, DisarmReply, Loss, Mode, ReadRefusal, WriteRefusal};
use channel_port::ChannelPort;
use ddr4_timing::command::Stamped;
use ddr4_timing::timing::Geometry;
use energy_budget::Meter;
use line_memory::Write;
use module_core::Module;
use nv_machine::{Accepted, Event, Reply, StepReply};
use nv_script::{Answer, ScriptLine};
use nv_session::{LineSeen, command_of, read, save, step};
use save_device::SaveDevice;
use script_runner::{
    arm_answer, disarm_answer, read_answer, save_answer, step_answer, work_answer, write_answer,
};

/// A module with its device and its gauge, whose level is set from outside.
#[derive(Drop)]
pub struct Life<K: ChannelPort, D: SaveDevice> {
    pub(crate) running: Module<K>,
    pub(crate) device: D,
    pub(crate) gauge: Meter,
    pub(crate) geometry: Geometry,
    pub ghost has_channels: { geometry.channels ≡ (setup_of K.ChannelPort running).shape.channels },
    pub ghost size: { HasDevice K.ChannelPort running (D.state device) },
}

impl<K: ChannelPort, D: SaveDevice> Life<K, D> {
    ghost use Rattle.live_store.specs.Lives.{GoesBy, GoesTo, TakesTurn, charged, is_for_lives, now_of};

    /// What the module does with writes.
    pub fn mode(&self) -> Mode
        ensures { result ≡ self.now.running.front.mode }
    {
        self.running.mode()
    }

    fn write(&mut self, write: Write) -> Result<Accepted, WriteRefusal>
        ensures goes { GoesBy K.ChannelPort (Event.Write write) (Reply.Write result)
            (now_of self.old) (now_of self.new) }
        ensures geometry { self.new.geometry ≡ self.old.geometry }
    {
        self.running.write(write)
    }

    fn read(&mut self, line: u64) -> Result<LineSeen, ReadRefusal>
        ensures goes { GoesTo K.ChannelPort (λ setup. ReadsLine setup line result)
            (now_of self.old) (now_of self.new) }
        ensures geometry { self.new.geometry ≡ self.old.geometry }
    {
        read(&mut self.running, line)
    }

    fn work(&mut self, channel: u64) -> Option<Stamped>
        requires channel { channel < self.old.geometry.channels }
        ensures goes { GoesTo K.ChannelPort (λ setup. IsWork channel result)
            (now_of self.old) (now_of self.new) }
        ensures geometry { self.new.geometry ≡ self.old.geometry }
    {
        command_of(self.running.work(channel))
    }

    // Behind a save the stored writes are cut, as behind a step and a loss.
    fn save(&mut self) -> Result<StepReply, ArmRefusal>
        ensures goes { GoesTo K.ChannelPort (λ setup. MakesSave setup.shape.channels result)
            (now_of self.old) (now_of self.new) }
        ensures geometry { self.new.geometry ≡ self.old.geometry }
    {
        let made = save(
            &mut self.running,
            self.geometry.channels,
            &mut self.device,
            &mut self.gauge,
        );
        let _cut_by_save = self.running.cut();
        made
    }

    fn step(&mut self) -> Result<StepReply, ArmRefusal>
        ensures goes { GoesTo K.ChannelPort (λ setup. MakesOneStep result)
            (now_of self.old) (now_of self.new) }
        ensures geometry { self.new.geometry ≡ self.old.geometry }
    {
        let made = step(&mut self.running, &mut self.device, &mut self.gauge);
        let _cut_by_step = self.running.cut();
        made
    }

    fn lose(&mut self) -> Loss
        ensures goes { GoesBy K.ChannelPort Event.Lose (Reply.Lose result)
            (now_of self.old) (now_of self.new) }
        ensures geometry { self.new.geometry ≡ self.old.geometry }
    {
        let lost = self.running.power_loss(&mut self.device, &mut self.gauge);
        let _cut_by_loss = self.running.cut();
        lost
    }

    // Sets the level of the gauge and reads it.
    fn sense(&mut self, level: u64) -> u64
        ensures goes { GoesBy K.ChannelPort Event.Sense (Reply.Sense result)
            (charged (ScriptLine.Sense level) (now_of self.old)) (now_of self.new) }
        ensures geometry { self.new.geometry ≡ self.old.geometry }
    {
        self.gauge.set(level);
        self.running.sense(&mut self.gauge)
    }

    fn arm(&mut self) -> Result<ArmReply, ArmRefusal>
        ensures goes { GoesBy K.ChannelPort Event.Arm (Reply.Arm result)
            (now_of self.old) (now_of self.new) }
        ensures geometry { self.new.geometry ≡ self.old.geometry }
    {
        self.running.arm(&mut self.device, &mut self.gauge)
    }

    fn disarm(&mut self) -> Result<DisarmReply, ArmRefusal>
        ensures goes { GoesBy K.ChannelPort Event.Disarm (Reply.Disarm result)
            (now_of self.old) (now_of self.new) }
        ensures geometry { self.new.geometry ≡ self.old.geometry }
    {
        self.running.disarm()
    }

    /// Does a turn of a line, and answers by what that came to: the events of the line's verb, or at `mark` none. It answers
    /// nothing, and does nothing, to a line that asks for what no life does: a format, a restore, a lie of the gauge, a fault of the
    /// device.
    pub fn answer(&mut self, line: ScriptLine) -> Option<Answer>
        requires channel { NamesChannelOf self.old.geometry line }
        ensures some { IfSome result (λ answer. TakesTurn K.ChannelPort line answer
            (now_of self.old) (now_of self.new)) }
        ensures asks { IfSome result (λ answer. is_for_lives line ≡ true) }
        ensures none { IsNone result → is_for_lives line ≡ false }
        ensures same { IsNone result → self.new ≡ self.old }
        ensures geometry { self.new.geometry ≡ self.old.geometry }
    {
        Some(match line {
            ScriptLine::Write(write) => write_answer(self.write(write)),
            ScriptLine::Read { line } => read_answer(line, self.read(line)),
            ScriptLine::Work { channel, .. } => work_answer(channel, self.work(channel)),
            ScriptLine::Save => save_answer(self.save()),
            ScriptLine::Step => step_answer(self.step()),
            ScriptLine::Sense { level } => {
                let reading = self.sense(level);
                Answer::Level {
                    reading,
                    mode: Some(self.mode()),
                }
            }
            ScriptLine::Arm => arm_answer(self.arm()),
            ScriptLine::Disarm => disarm_answer(self.disarm()),
            ScriptLine::Lose => Answer::Lost(self.lose()),
            ScriptLine::Mark => Answer::Mark {
                mark: self.running.mark(),
            },
            _ => return None,
        })
    }
}

impl<K: ChannelPort + Drop, D: SaveDevice> Life<K, D> {
    /// Its device, at the end of the life.
    pub fn into_device(self) -> D
        ensures { result ≡ self.device }
    {
        self.device
    }
}
