// The turn of a channel's worker.
ghost use Rattle.std.specs.Prelude.{◌≡◌};
ghost use Rattle.worker_turns.specs.Inside.{AwaitsInside};

use crate::locked_channel::LockedChannel;
use crate::parts_name::PartsName;
use channel_port::{ChannelPort, Done};
use worker_turns::{Gate, await_inside};

/// What a turn at a channel came to: the command that it issued, and whether mains were lost.
#[derive(Clone, Copy, Debug, PartialEq, Eq)]
pub struct ChannelTurn {
    pub done: Option<Done>,
    pub ended: bool,
}

impl<K: ChannelPort, B: PartsName> LockedChannel<K, B> {
    ghost use Rattle.channel_locks.specs.Alone.{WorksAlone, lost_mains_in};

    /// Takes a turn of the channel's worker: the gate is asked once more, and then the channel issues one command, if it has one.
    pub fn take_turn<G: Gate>(&mut self, gate: &G) -> ChannelTurn
        ensures asked { AwaitsInside G.Gate self.old.number gate.now }
        ensures works { WorksAlone K.ChannelPort result.done self.old.part self.new.part }
        ensures ended { result.ended ≡ lost_mains_in K.ChannelPort self.new.part }
        ensures seat { self.new.seat ≡ self.old.seat }
        ensures number { self.new.number ≡ self.old.number }
    {
        await_inside(gate, self.number);
        let done = self.work();
        let ended = self.has_ended();
        ChannelTurn { done, ended }
    }
}
