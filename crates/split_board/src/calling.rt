// What is asked of a whole module, with all locks of its board held.
ghost use Rattle.board_desk.specs.Calling.{arm_course, disarm_course};
ghost use Rattle.board_desk.specs.Calling.{save_begin_course, save_step_course, sense_course};
ghost use Rattle.split_board.specs.Wholes.{LentLoss, LentWhole};

use crate::board::Board;
use arm_state::{ArmRefusal, ArmReply, DisarmReply, Loss};
use board_desk::{
    ArmCall, BoardPort, DisarmCall, SaveBeginCall, SaveStepCall, SenseCall, WholeCall, lose, whole,
};
use board_hosts::BoardName;
use channel_locks::{PartsName, take_lock};
use channel_port::ChannelPort;
use energy_budget::Energy;
use notice_book::Notices;
use nv_machine::StepReply;
use save_device::SaveDevice;
use std::sync::Wait;
use std::thread::Threads;
use worker_turns::Gate;

impl<K, D, E, B, N> Board<K, D, E, B, N>
where
    K: ChannelPort + Drop,
    D: SaveDevice + Drop,
    E: Energy + Drop,
    B: BoardName + PartsName,
    N: Notices,
{
    // Makes a call of the whole module, with all locks held.
    fn call<W: WholeCall<BoardPort<K, B>, D, E>, R: Wait>(&self, rt: &R, call: W) -> W::Answer
        ensures { LentWhole K.ChannelPort D.SaveDevice E.Energy B.BoardName.own B.PartsName.own
            (W.course result) }
    {
        let mut locked = take_lock(rt, &self.desk);
        whole(rt, &mut *locked, &self.channels, call)
    }

    /// Arms the module.
    pub fn arm<R: Wait>(&self, rt: &R) -> Result<ArmReply, ArmRefusal>
        ensures { LentWhole K.ChannelPort D.SaveDevice E.Energy B.BoardName.own B.PartsName.own
            (arm_course result) }
    {
        self.call(rt, ArmCall)
    }

    /// Begins the disarming of an armed module.
    pub fn disarm<R: Wait>(&self, rt: &R) -> Result<DisarmReply, ArmRefusal>
        ensures { LentWhole K.ChannelPort D.SaveDevice E.Energy B.BoardName.own B.PartsName.own
            (disarm_course result) }
    {
        self.call(rt, DisarmCall)
    }

    /// Reads the gauge while disarmed or armed; while armed a low reading begins the disarming.
    pub fn sense<R: Wait>(&self, rt: &R) -> u64
        ensures { LentWhole K.ChannelPort D.SaveDevice E.Energy B.BoardName.own B.PartsName.own
            (sense_course result) }
    {
        self.call(rt, SenseCall)
    }

    /// Begins a save of all writes accepted so far.
    pub fn save_begin<R: Wait>(&self, rt: &R) -> Result<(), ArmRefusal>
        ensures { LentWhole K.ChannelPort D.SaveDevice E.Energy B.BoardName.own B.PartsName.own
            (save_begin_course result) }
    {
        self.call(rt, SaveBeginCall)
    }

    /// Makes the coming step of the save that runs.
    pub fn save_step<R: Wait>(&self, rt: &R) -> StepReply
        ensures { LentWhole K.ChannelPort D.SaveDevice E.Energy B.BoardName.own B.PartsName.own
            (save_step_course result) }
    {
        self.call(rt, SaveStepCall)
    }

    /// Mains were lost: where acknowledged writes are to be saved, all drains are paid for, the channels are drained at once, and all
    /// accepted writes are saved. The gate is asked before each drain, by the channel's number, and again while it says Hold. Behind a
    /// loss whose drains were paid for each channel is as its own drain leaves it. All locks are held meanwhile, so that a gate which
    /// waits for another call of the board waits for ever.
    pub fn power_loss<G: Gate + Sync, R: Threads + Wait + Sync>(&self, rt: &R, gate: &G) -> Loss
    where
        K: Send,
        B: Send,
        ensures { LentLoss K.ChannelPort D.SaveDevice E.Energy B.BoardName.own B.PartsName.own
            G.Gate gate.now result }
    {
        let mut locked = take_lock(rt, &self.desk);
        lose(rt, &mut *locked, &self.channels, gate)
    }
}
