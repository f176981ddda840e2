// The saver.
ghost use Rattle.std.specs.Prelude.{◌≡◌};
ghost use Rattle.split_board.specs.Turns.{WorksByGate};
ghost use Rattle.split_board.specs.Wholes.{LentTurnOfSaver, SavesLocked, WorksAsSaver, sleep_behind};

use crate::board::Board;
use board_desk::{LockedDesk, SaveBeginCall, SaveStepCall, whole};
use board_hosts::{BoardName, SaverTurn, Saving, working_of};
use channel_locks::{LockedChannels, PartsName, take_lock};
use channel_port::ChannelPort;
use energy_budget::Energy;
use notice_book::Notices;
use nv_machine::StepReply;
use save_device::SaveDevice;
use std::sync::Wait;
use std::thread;
use std::time::{Clock, Duration};
use worker_turns::{Ended, Gate, Shift, Turn, Working, give_way, take_turns};

/// How long a saver sleeps at least behind a begin and behind a step, with no lock held, in microseconds; on most systems some fifty
/// more. A thread that waits for a lock tries it and gives way in turn: it would find it taken at each try if the saver took all
/// locks back at once.
const LETS_IN: u64 = 1;

/// How long a saver sleeps at least behind the end of a save, in microseconds. While a save goes on no more writes are accepted than
/// the channels have room for; between two of them hosts write as fast as they can, and the next save has all that they wrote.
const BETWEEN_SAVES: u64 = 3_000;

// How long a saver sleeps behind a turn in which it worked, in microseconds.
fn sleep_behind(saving: Saving) -> u64
    ensures { result ≡ sleep_behind saving }
{
    match saving {
        Saving::Stepped(StepReply::Saved { .. } | StepReply::Fault) => BETWEEN_SAVES,
        _ => LETS_IN,
    }
}

// One turn of a saver, with the board's lock held. It decides by the desk alone, and the channels' locks are taken only where it
// saves.
fn save_locked<K, D, E, B, R>(
    rt: &R,
    locked: &mut LockedDesk<K, D, E, B>,
    channels: &LockedChannels<K, B>,
) -> Saving
where
    K: ChannelPort + Drop,
    D: SaveDevice + Drop,
    E: Energy + Drop,
    B: BoardName + PartsName,
    R: Wait,
    ensures { SavesLocked K.ChannelPort D.SaveDevice E.Energy B.BoardName.own B.PartsName.own
        result locked.old.desk locked.new.desk }
{
    let Some(desk) = &locked.desk else {
        unreachable!();
    };
    match desk.saver_turn() {
        SaverTurn::Begin => Saving::Began(whole(rt, locked, channels, SaveBeginCall)),
        SaverTurn::Step => Saving::Stepped(whole(rt, locked, channels, SaveStepCall)),
        SaverTurn::Rest => Saving::Rested,
        SaverTurn::End => Saving::Closed,
    }
}

impl<K, D, E, B, N> Board<K, D, E, B, N>
where
    K: ChannelPort + Drop,
    D: SaveDevice + Drop,
    E: Energy + Drop,
    B: BoardName + PartsName,
    N: Notices,
{
    // Takes one turn of a saver.
    fn save<R: Wait>(&self, rt: &R) -> Saving
        ensures { LentTurnOfSaver K.ChannelPort D.SaveDevice E.Energy B.BoardName.own
            B.PartsName.own result }
    {
        let mut locked = take_lock(rt, &self.desk);
        save_locked(rt, &mut *locked, &self.channels)
    }
}

// What a board lends the saver, whose number is that of the channels.
#[derive(Drop)]
struct SaverShift<'a, K, D, E, B, N, G, R>
where
    K: ChannelPort,
    D: SaveDevice,
    E: Energy,
    B: BoardName + PartsName,
    N: Notices,
{
    rt: &'a R,
    board: &'a Board<K, D, E, B, N>,
    gate: &'a G,
}

impl<K, D, E, B, N, G, R> Shift for SaverShift<'_, K, D, E, B, N, G, R>
where
    K: ChannelPort + Drop,
    D: SaveDevice + Drop,
    E: Energy + Drop,
    B: BoardName + PartsName,
    N: Notices,
    G: Gate,
    R: Wait + Clock,
{
    ghost use Rattle.std.specs.Prelude.{◌≡◌};
    ghost use Rattle.split_board.specs.Wholes.{WorksAsSaver};

    ghost is_of = { λ worker. worker ≡ B.channels };

    ghost asks = { λ worker turn told old new. G.says worker turn told old.gate.now × (new ≡ old) };

    ghost works = { λ worker done old new.
        WorksAsSaver K.ChannelPort D.SaveDevice E.Energy B.BoardName.own B.PartsName.own done
        × (new ≡ old) };

    ghost rests = { λ idle old new. new ≡ old };

    fn ask(&mut self, worker: u64, turn: u64) -> Turn {
        self.gate.pass(worker, turn)
    }

    fn work(&mut self, _worker: u64) -> Working {
        let saving = self.board.save(self.rt);
        let working = working_of(saving);
        if working == Working::Worked {
            thread::sleep(self.rt, Duration::from_micros(sleep_behind(saving)));
        }
        working
    }

    fn give_way(&mut self, idle: u64) -> u64 {
        give_way(self.rt, idle)
    }
}

/// Takes one turn of a saver at each `Go`, until the gate says stop or mains were lost, as `take_turns`. Behind a turn that was
/// held or at rest, and behind a step that has to wait, it gives way as a channel's worker does. Behind the end of a save it sleeps
/// three milliseconds, and behind any other turn a microsecond, so that threads which wait for a lock come in. The gate is asked
/// for it by the number of channels. A saver that rests takes the board's lock alone.
pub fn saver_worker<K, D, E, B, N, G, R>(
    rt: &R,
    board: &Board<K, D, E, B, N>,
    channels: u64,
    gate: &G,
) -> Ended
where
    K: ChannelPort + Drop,
    D: SaveDevice + Drop,
    E: Energy + Drop,
    B: BoardName + PartsName,
    N: Notices,
    G: Gate,
    R: Wait + Clock,
    requires number { channels ≡ B.channels }
    ensures { WorksByGate (λ worker turn told. G.says worker turn told gate.now)
        (λ worker done. WorksAsSaver K.ChannelPort D.SaveDevice E.Energy B.BoardName.own
        B.PartsName.own done) channels result }
{
    take_turns(&mut SaverShift { rt, board, gate }, channels)
}
