// What is asked of a whole module, with all locks of its board held.
ghost use Rattle.std.specs.Prelude.{◌≡◌, ℕ};
ghost use Rattle.line_memory.specs.History.{Recorded};
ghost use Rattle.channel_port.specs.Draining.{at_once};
ghost use Rattle.channel_set.specs.Issuing.{IssuesNone};
ghost use Rattle.module_core.specs.Draining.{WhereDrained};
ghost use Rattle.module_core.specs.Losing.{LosesBy};
ghost use Rattle.module_core.specs.Stands.{setup_of};
ghost use Rattle.board_hosts.specs.Kept.{IsRecordKept};
ghost use Rattle.board_hosts.specs.Lived.{assembly_of};
ghost use Rattle.board_desk.specs.Calling.{AddsNone, Course, GoesBy, loss_course};
ghost use Rattle.board_desk.specs.Losing.{DrainsBehind, WhereUndrained};

use arm_state::{ArmRefusal, ArmReply, DisarmReply, Loss};
use board_hosts::RecordedModule;
use channel_port::ChannelPort;
use energy_budget::Energy;
use nv_machine::StepReply;
use save_device::SaveDevice;
use std::thread::Threads;
use worker_turns::Gate;

/// A call of a module with its device, its gauge and its record. It accepts no write, and no channel issues a command.
pub trait WholeCall<K: ChannelPort, D: SaveDevice, E: Energy> {
    /// What the call answers.
    type Answer;

    /// What it is to the life, with this answer.
    ghost course: { Self.Answer → Course };

    /// What its answer tells of the record, where the newest image holds so many writes before the call.
    ghost told: { Self.Answer → ℕ → Recorded → Recorded → Type 0 };

    /// Makes the call.
    fn call(self, it: &mut RecordedModule<K, D, E>) -> Self::Answer
        requires { IsRecordKept K.ChannelPort D.SaveDevice E.Energy it.old }
        ensures goes { GoesBy K.ChannelPort D.SaveDevice E.Energy (course result) it.old it.new }
        ensures setup { setup_of K.ChannelPort it.new.running
            ≡ setup_of K.ChannelPort it.old.running }
        ensures room { it.new.history.room ≡ it.old.history.room }
        ensures told { told result it.old.running.front.saved it.old.history it.new.history }
        ensures issues { IssuesNone K.ChannelPort it.old.running.channels it.new.running.channels };

    /// The life has the writes that it had.
    ghost adds_none: { (answer : Self.Answer) → AddsNone (course answer) };
}

/// Arms the module.
#[derive(Drop)]
pub struct ArmCall;

impl<K: ChannelPort, D: SaveDevice, E: Energy> WholeCall<K, D, E> for ArmCall {
    type Answer = Result<ArmReply, ArmRefusal>;

    ghost use Rattle.std.specs.Prelude.{refl};
    ghost use Rattle.board_desk.specs.Calling.{arm_course, same_record};

    ghost course = { arm_course };

    ghost told = { λ answer. same_record };

    ghost adds_none = { λ answer. refl };

    fn call(self, it: &mut RecordedModule<K, D, E>) -> Result<ArmReply, ArmRefusal> {
        it.running.arm(&mut it.device, &mut it.energy)
    }
}

/// Begins the disarming of an armed module.
#[derive(Drop)]
pub struct DisarmCall;

impl<K: ChannelPort, D: SaveDevice, E: Energy> WholeCall<K, D, E> for DisarmCall {
    type Answer = Result<DisarmReply, ArmRefusal>;

    ghost use Rattle.std.specs.Prelude.{refl};
    ghost use Rattle.board_desk.specs.Calling.{disarm_course, same_record};

    ghost course = { disarm_course };

    ghost told = { λ answer. same_record };

    ghost adds_none = { λ answer. refl };

    fn call(self, it: &mut RecordedModule<K, D, E>) -> Result<DisarmReply, ArmRefusal> {
        it.running.disarm()
    }
}

/// Reads the gauge while disarmed or armed; while armed a low reading begins the disarming.
#[derive(Drop)]
pub struct SenseCall;

impl<K: ChannelPort, D: SaveDevice, E: Energy> WholeCall<K, D, E> for SenseCall {
    type Answer = u64;

    ghost use Rattle.std.specs.Prelude.{refl};
    ghost use Rattle.board_desk.specs.Calling.{sense_course, same_record};

    ghost course = { sense_course };

    ghost told = { λ answer. same_record };

    ghost adds_none = { λ answer. refl };

    fn call(self, it: &mut RecordedModule<K, D, E>) -> u64 {
        it.running.sense(&mut it.energy)
    }
}

/// Begins a save of all writes accepted so far.
#[derive(Drop)]
pub struct SaveBeginCall;

impl<K: ChannelPort, D: SaveDevice, E: Energy> WholeCall<K, D, E> for SaveBeginCall {
    type Answer = Result<(), ArmRefusal>;

    ghost use Rattle.std.specs.Prelude.{refl};
    ghost use Rattle.board_desk.specs.Calling.{save_begin_course, same_record};

    ghost course = { save_begin_course };

    ghost told = { λ answer. same_record };

    ghost adds_none = { λ answer. refl };

    fn call(self, it: &mut RecordedModule<K, D, E>) -> Result<(), ArmRefusal> {
        it.running.save_begin()
    }
}

/// Makes the coming step of the save that runs, after a reading of the gauge.
#[derive(Drop)]
pub struct SaveStepCall;

impl<K: ChannelPort, D: SaveDevice, E: Energy> WholeCall<K, D, E> for SaveStepCall {
    type Answer = StepReply;

    ghost use Rattle.std.specs.Prelude.{refl};
    ghost use Rattle.board_desk.specs.Calling.{save_step_course, same_record};

    ghost course = { save_step_course };

    ghost told = { λ answer. same_record };

    ghost adds_none = { λ answer. refl };

    fn call(self, it: &mut RecordedModule<K, D, E>) -> StepReply {
        it.running.save_step(&mut it.device, &mut it.energy)
    }
}

/// Takes off the stored writes that the newest image holds: they go into the record's memory. It answers with which number the
/// stored writes begin then.
#[derive(Drop)]
pub struct CutCall;

impl<K: ChannelPort, D: SaveDevice, E: Energy> WholeCall<K, D, E> for CutCall {
    type Answer = u64;

    ghost use Rattle.board_desk.specs.Calling.{Paused, cut_record};

    ghost course = { λ from. Paused };

    ghost told = { cut_record };

    ghost adds_none = { λ from. tt };

    fn call(self, it: &mut RecordedModule<K, D, E>) -> u64 {
        let from = it.running.saved();
        it.history.cut(from);
        let _gone = it.running.cut();
        from
    }
}

/// Mains were lost: where acknowledged writes are to be saved, the channels are drained at once and all accepted writes saved, as
/// `Module::power_loss_with`.
pub(crate) fn lose_mains<K, D, E, G, R>(rt: &R, it: &mut RecordedModule<K, D, E>, gate: &G) -> Loss
where
    K: ChannelPort + Send,
    D: SaveDevice,
    E: Energy,
    G: Gate + Sync,
    R: Threads + Sync,
    requires kept { IsRecordKept K.ChannelPort D.SaveDevice E.Energy it.old }
    ensures goes { GoesBy K.ChannelPort D.SaveDevice E.Energy (loss_course result) it.old it.new }
    ensures setup { setup_of K.ChannelPort it.new.running ≡ setup_of K.ChannelPort it.old.running }
    ensures room { it.new.history.room ≡ it.old.history.room }
    ensures loses { LosesBy K.ChannelPort at_once result
        (assembly_of K.ChannelPort D.SaveDevice E.Energy it.old)
        (assembly_of K.ChannelPort D.SaveDevice E.Energy it.new) }
    ensures issues { WhereUndrained result
        (IssuesNone K.ChannelPort it.old.running.channels it.new.running.channels) }
    ensures drains { WhereDrained result (DrainsBehind K.ChannelPort G.Gate gate.now
        it.old.running.channels.ports.items it.new.running.channels.ports.items) }
{
    it.running
        .power_loss_with(rt, &mut it.device, &mut it.energy, gate)
}
