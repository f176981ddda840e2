// The worker of a channel.
ghost use Rattle.std.specs.Prelude.{◌≡◌, ◌<◌};
ghost use Rattle.split_board.specs.Turns.{TakesChannelTurn, WorksByGate, going_on};

use crate::board::Board;
use board_hosts::BoardName;
use channel_locks::{ChannelTurn, LockedChannels, PartsName};
use channel_port::ChannelPort;
use energy_budget::Energy;
use notice_book::Notices;
use save_device::SaveDevice;
use std::sync::Wait;
use std::time::Clock;
use worker_turns::{Ended, Gate, Shift, Turn, Working, give_way, take_turns};

// How a worker goes on behind its turn.
fn going_on(turn: ChannelTurn) -> Working
    ensures { result ≡ going_on turn }
{
    if turn.ended {
        return Working::Closed;
    }
    match turn.done {
        Some(_) => Working::Worked,
        None => Working::Rested,
    }
}

// What a board lends the worker of a channel.
#[derive(Drop)]
struct ChannelShift<'a, K: ChannelPort, B: PartsName, G, R> {
    rt: &'a R,
    channels: &'a LockedChannels<K, B>,
    gate: &'a G,
}

impl<K, B, G, R> Shift for ChannelShift<'_, K, B, G, R>
where
    K: ChannelPort,
    B: PartsName,
    G: Gate,
    R: Wait + Clock,
{
    ghost use Rattle.std.specs.Prelude.{◌≡◌, ◌<◌};
    ghost use Rattle.split_board.specs.Turns.{TakesChannelTurn};

    ghost is_of = { λ worker. worker < 8 };

    ghost asks = { λ worker turn told old new. G.says worker turn told old.gate.now × (new ≡ old) };

    ghost works = { λ worker done old new.
        TakesChannelTurn K.ChannelPort B.PartsName G.Gate worker old.gate.now done × (new ≡ old) };

    ghost rests = { λ idle old new. new ≡ old };

    fn ask(&mut self, worker: u64, turn: u64) -> Turn {
        self.gate.pass(worker, turn)
    }

    fn work(&mut self, worker: u64) -> Working {
        going_on(self.channels.turn(self.rt, worker, self.gate))
    }

    fn give_way(&mut self, idle: u64) -> u64 {
        give_way(self.rt, idle)
    }
}

/// Issues one command of a channel at each `Go`, under that channel's lock alone, until the gate says stop or mains were lost, as
/// `take_turns`. With the lock held the gate is asked once more (`Gate::inside`). Behind a turn that was held or found no command
/// it gives its processor away, and behind 16 of them in a row it sleeps, three milliseconds at most.
pub fn channel_worker<K, D, E, B, N, G, R>(
    rt: &R,
    board: &Board<K, D, E, B, N>,
    channel: u64,
    gate: &G,
) -> Ended
where
    K: ChannelPort,
    D: SaveDevice,
    E: Energy,
    B: BoardName + PartsName,
    N: Notices,
    G: Gate,
    R: Wait + Clock,
    requires { channel < B.channels }
    ensures { WorksByGate (λ worker turn told. G.says worker turn told gate.now)
        (λ worker done. TakesChannelTurn K.ChannelPort B.PartsName.own G.Gate
        worker gate.now done) channel result }
{
    let channels = &board.channels;
    take_turns(&mut ChannelShift { rt, channels, gate }, channel)
}
