// A module in pieces is put together, asked, and taken apart again.
ghost use Rattle.std.specs.Prelude.{◌≡◌, Some, map, slice_get};
ghost use Rattle.channel_locks.specs.PortMakes.{make_of};
ghost use Rattle.module_core.specs.Draining.{WhereDrained};
ghost use Rattle.split_module.specs.Gathering.{FitAsModule, IsMadeOf, StandsGathered, StandsSplit};
ghost use Rattle.board_desk.specs.Asking.{AreOfBoard, LedAs};
ghost use Rattle.board_desk.specs.Calling.{loss_course};
ghost use Rattle.board_desk.specs.Losing.{DrainsBehind, LedAtOnce, WhereUndrained};

use crate::board_port::BoardPort;
use crate::calling::{WholeCall, lose_mains};
use arm_state::Loss;
use board_hosts::RecordedModule;
use channel_locks::PartsName;
use channel_port::ChannelPort;
use energy_budget::Energy;
use line_memory::History;
use save_device::SaveDevice;
use split_module::SplitModule;
use std::thread::Threads;
use worker_turns::Gate;

/// A board's module in pieces, with its device, its gauge and its record.
#[derive(Drop)]
pub(crate) struct RecordedPieces<K: ChannelPort, D: SaveDevice, E: Energy, B: PartsName> {
    pub(crate) pieces: SplitModule<BoardPort<K, B>>,
    pub(crate) device: D,
    pub(crate) energy: E,
    pub(crate) history: History,
}

/// The pieces behind a call, and what it answered.
#[derive(Drop)]
pub(crate) struct CalledPieces<K: ChannelPort, D: SaveDevice, E: Energy, B: PartsName, A> {
    pub(crate) rest: RecordedPieces<K, D, E, B>,
    pub(crate) answer: A,
}

impl<K: ChannelPort, D: SaveDevice, E: Energy, B: PartsName> RecordedPieces<K, D, E, B> {
    /// The module put together, with its record.
    pub(crate) fn gather(self) -> RecordedModule<BoardPort<K, B>, D, E>
        requires { FitAsModule ⟦<BoardPort<K, B> as ChannelPort>⟧ self.pieces }
        ensures pieces { IsMadeOf ⟦<BoardPort<K, B> as ChannelPort>⟧ result.running self.pieces }
        ensures stands { StandsGathered ⟦<BoardPort<K, B> as ChannelPort>⟧
            self.pieces result.running }
        ensures device { result.device ≡ self.device }
        ensures energy { result.energy ≡ self.energy }
        ensures history { result.history ≡ self.history }
    {
        RecordedModule {
            running: self.pieces.gather(),
            device: self.device,
            energy: self.energy,
            history: self.history,
        }
    }

    // The module taken apart, with its record.
    fn of(it: RecordedModule<BoardPort<K, B>, D, E>) -> RecordedPieces<K, D, E, B>
        ensures pieces { IsMadeOf ⟦<BoardPort<K, B> as ChannelPort>⟧ it.running result.pieces }
        ensures fit { FitAsModule ⟦<BoardPort<K, B> as ChannelPort>⟧ result.pieces }
        ensures stands { StandsSplit ⟦<BoardPort<K, B> as ChannelPort>⟧ it.running result.pieces }
        ensures device { result.device ≡ it.device }
        ensures energy { result.energy ≡ it.energy }
        ensures history { result.history ≡ it.history }
    {
        RecordedPieces {
            pieces: SplitModule::of(it.running),
            device: it.device,
            energy: it.energy,
            history: it.history,
        }
    }

    // The first port is one of the board's.
    fn always(&self)
        ensures { (port : K) → slice_get self.now.pieces.ports.items 0 ≡ Some port
            → ∥ make_of (K.view port) ≡ B.make ∥₁ }
    {
        if let Some(port) = self.pieces.ports.first() {
            port.always();
        }
    }

    /// Makes a call of the module that the pieces are.
    pub(crate) fn call<W: WholeCall<BoardPort<K, B>, D, E>>(
        self,
        call: W,
    ) -> CalledPieces<K, D, E, B, W::Answer>
        requires { AreOfBoard K.ChannelPort D.SaveDevice E.Energy B.PartsName self }
        ensures did { LedAs K.ChannelPort D.SaveDevice E.Energy B.PartsName
            (W.course result.answer) self result.rest }
        ensures told { W.told result.answer self.pieces.front.front.saved self.history
            result.rest.history }
        ensures issued { map K.issued result.rest.pieces.ports.items
            ≡ map K.issued self.pieces.ports.items }
    {
        let mut it = self.gather();
        let answer = call.call(&mut it);
        let rest = RecordedPieces::of(it);
        rest.always();
        CalledPieces { rest, answer }
    }

    /// Mains were lost, as `lose_mains`.
    pub(crate) fn lose<G: Gate + Sync, R: Threads + Sync>(
        self,
        rt: &R,
        gate: &G,
    ) -> CalledPieces<K, D, E, B, Loss>
    where
        K: Send,
        B: Send,
        requires kept { AreOfBoard K.ChannelPort D.SaveDevice E.Energy B.PartsName self }
        ensures did { LedAs K.ChannelPort D.SaveDevice E.Energy B.PartsName
            (loss_course result.answer) self result.rest }
        ensures loses { LedAtOnce K.ChannelPort D.SaveDevice E.Energy B.PartsName
            result.answer self result.rest }
        ensures issued { WhereUndrained result.answer (map K.issued result.rest.pieces.ports.items
            ≡ map K.issued self.pieces.ports.items) }
        ensures drains { WhereDrained result.answer (DrainsBehind K.ChannelPort G.Gate gate.now
            self.pieces.ports.items result.rest.pieces.ports.items) }
    {
        let mut it = self.gather();
        let answer = lose_mains(rt, &mut it, gate);
        let rest = RecordedPieces::of(it);
        rest.always();
        CalledPieces { rest, answer }
    }
}
