// Boards on one thread. The expected values are worked out by hand.
ghost use Rattle.std.specs.Prelude.{◌≡◌, ℕ};

use crate::check::{AMPLE, CHANNELS, first_receipt, same, write_of};
use crate::gates::{EachTurn, Turns};
use arm_state::{ArmRefusal, ArmReply, DisarmReply, Loss, ReadRefusal, WriteRefusal};
use board_hosts::{Always, Behind, BoardName, Ended, Host, Seen, Turn};
use channel_locks::PartsName;
use channel_port::ChannelPort;
use energy_budget::Energy;
use notice_book::{Called, Notices, Persisted};
use nv_machine::StepReply;
use save_device::SaveDevice;
use slot_store::Step;
use split_board::{Board, channel_worker, saver_worker};
use std::alloc::Global;
use std::process::Abort;
use std::sync::Wait;
use std::thread::Threads;
use std::time::Clock;

/// So many turns of the saver, and how it ended.
pub(crate) fn saved<K, D, E, B, N, R>(rt: &R, board: &Board<K, D, E, B, N>, most: u64) -> Ended
where
    K: ChannelPort + Drop,
    D: SaveDevice + Drop,
    E: Energy + Drop,
    B: BoardName + PartsName,
    N: Notices,
    R: Wait + Clock,
    requires { CHANNELS ≡ B.channels }
{
    let worker = CHANNELS;
    saver_worker(rt, board, CHANNELS, &Turns { worker, most })
}

/// So many turns of channel 0, and how its worker ended.
pub(crate) fn worked<K, D, E, B, N, R>(rt: &R, board: &Board<K, D, E, B, N>, most: u64) -> Ended
where
    K: ChannelPort + Drop,
    D: SaveDevice + Drop,
    E: Energy + Drop,
    B: BoardName + PartsName,
    N: Notices,
    R: Wait + Clock,
    requires { CHANNELS ≡ B.channels }
{
    channel_worker(rt, board, 0, &Turns { worker: 0, most })
}

// The first notice that is called.
fn told<K, D, E, B, N, R>(
    rt: &R,
    alloc: Global,
    board: &Board<K, D, E, B, N>,
    host: &mut Host<B>,
) -> Option<Called>
where
    K: ChannelPort + Drop,
    D: SaveDevice + Drop,
    E: Energy + Drop,
    B: BoardName + PartsName,
    N: Notices,
    R: Wait,
{
    let answers = board.deliver(rt, alloc, host).ok()?;
    answers.first().copied()
}

/// A disarmed write that another host reads; it is persistent once a save ended, and then its notice is called, by a mark that the
/// other host hasn't seen before.
pub(crate) fn write_disarmed<K, D, E, B, N, R>(
    rt: &R,
    alloc: Global,
    board: &Board<K, D, E, B, N>,
    first: &mut Host<B>,
    second: &mut Host<B>,
    notice: N::Notice,
)
where
    K: ChannelPort + Drop,
    D: SaveDevice + Drop,
    E: Energy + Drop,
    B: BoardName + PartsName,
    N: Notices,
    N::Notice: Drop,
    R: Wait + Clock + Abort,
    requires channels { CHANNELS ≡ B.channels }
    requires notice { (number : ℕ) → N.is_callable number notice }
{
    let receipt = first_receipt(0);
    same(rt, board.write(rt, first, write_of(0, 11)), Ok(receipt));
    let data = [11; 64];
    let seen = Seen {
        line: 0,
        data,
        at: 1,
    };
    same(rt, board.read(rt, second, 0), Ok(seen));
    let behind = Err(Behind { seen: 0, found: 0 });
    same(rt, first.check(&receipt), behind);
    same(rt, board.notify(rt, &receipt, notice).is_ok(), true);
    same(rt, told(rt, alloc, board, first), None);
    let turns = (worked(rt, board, 2), saved(rt, board, 8));
    same(rt, turns, (Ended::Stopped, Ended::Stopped));
    same(rt, first.check(&receipt), behind);
    same(rt, saved(rt, board, 1), Ended::Stopped);
    same(
        rt,
        first.check(&receipt),
        Ok(Persisted { number: 0, mark: 1 }),
    );
    let called = Called {
        number: 0,
        answer: 1,
    };
    same(rt, told(rt, alloc, board, second), Some(called));
    same(rt, told(rt, alloc, board, first), None);
}

/// Arms, and is armed already: a write is persistent at once, and a loss of mains saves it; from then on nothing is taken.
pub(crate) fn lose_armed<K, D, E, B, N, R>(rt: &R, board: &Board<K, D, E, B, N>, host: &mut Host<B>)
where
    K: ChannelPort + Drop + Send,
    D: SaveDevice + Drop,
    E: Energy + Drop,
    B: BoardName + PartsName + Send,
    N: Notices,
    R: Threads + Wait + Abort + Sync,
{
    same(rt, board.arm(rt), Ok(ArmReply::Armed));
    same(rt, board.arm(rt), Ok(ArmReply::AlreadyArmed));
    let receipt = first_receipt(0);
    same(rt, board.write(rt, host, write_of(0, 11)), Ok(receipt));
    same(rt, host.mark(), 1);
    same(
        rt,
        host.check(&receipt),
        Ok(Persisted { number: 0, mark: 1 }),
    );
    let saved = Loss::Saved {
        generation: 2,
        count: 1,
    };
    same(rt, board.power_loss(rt, &Always), saved);
    let closed = WriteRefusal::Closed;
    same(rt, board.write(rt, host, write_of(0, 22)), Err(closed));
    same(rt, board.read(rt, host, 0), Err(ReadRefusal::Closed));
    same(
        rt,
        (host.mark(), board.power_loss(rt, &Always)),
        (1, Loss::Closed),
    );
}

/// A loss of mains while armed asks its gate for each of the two channels, turn by turn, also for one on which nothing waits.
pub(crate) fn lose_by_a_gate<K, D, E, B, N, R>(
    rt: &R,
    board: &Board<K, D, E, B, N>,
    host: &mut Host<B>,
)
where
    K: ChannelPort + Drop + Send,
    D: SaveDevice + Drop,
    E: Energy + Drop,
    B: BoardName + PartsName + Send,
    N: Notices,
    R: Threads + Wait + Abort + Sync,
{
    same(rt, board.arm(rt), Ok(ArmReply::Armed));
    let receipt = first_receipt(0);
    same(rt, board.write(rt, host, write_of(0, 11)), Ok(receipt));
    let saved = Loss::Saved {
        generation: 2,
        count: 1,
    };
    let held = EachTurn::new(Turn::Hold, 2);
    same(rt, board.power_loss(rt, &held), saved);
    same(rt, held.asked(), 2 * 3);
}

/// A loss of mains while disarmed.
pub(crate) fn lose_disarmed<K, D, E, B, N, R>(rt: &R, board: &Board<K, D, E, B, N>)
where
    K: ChannelPort + Drop + Send,
    D: SaveDevice + Drop,
    E: Energy + Drop,
    B: BoardName + PartsName + Send,
    N: Notices,
    R: Threads + Wait + Abort + Sync,
{
    same(rt, board.power_loss(rt, &Always), Loss::Unsaved);
}

/// A save by hand, and a disarming whose save the saver makes.
pub(crate) fn save_by_hand<K, D, E, B, N, R>(
    rt: &R,
    board: &Board<K, D, E, B, N>,
    host: &mut Host<B>,
)
where
    K: ChannelPort + Drop,
    D: SaveDevice + Drop,
    E: Energy + Drop,
    B: BoardName + PartsName,
    N: Notices,
    R: Wait + Clock + Abort,
    requires { CHANNELS ≡ B.channels }
{
    same(rt, board.sense(rt), AMPLE - 1);
    same(rt, board.disarm(rt), Ok(DisarmReply::AlreadyDisarmed));
    let begun = (board.save_begin(rt), board.save_begin(rt));
    same(rt, begun, (Ok(()), Err(ArmRefusal::SaveRunning)));
    same(rt, board.save_step(rt), StepReply::Did(Step::Close));
    same(rt, saved(rt, board, 6), Ended::Stopped);
    let done = StepReply::Saved {
        generation: 2,
        count: 0,
    };
    same(rt, board.save_step(rt), done);
    same(rt, board.arm(rt), Ok(ArmReply::Armed));
    same(
        rt,
        board.write(rt, host, write_of(0, 11)),
        Ok(first_receipt(0)),
    );
    same(rt, board.disarm(rt), Ok(DisarmReply::Disarming));
    let disarming = Err(WriteRefusal::Disarming);
    same(rt, board.write(rt, host, write_of(1, 44)), disarming);
    let turns = (worked(rt, board, 2), saved(rt, board, 8));
    same(rt, turns, (Ended::Stopped, Ended::Stopped));
    same(rt, board.disarm(rt), Ok(DisarmReply::AlreadyDisarmed));
    same(rt, board.save_step(rt), StepReply::NoSave);
}

/// A write reaches its array by an ACT and a WR, one a turn: the save's first page waits until both went.
pub(crate) fn work_by_turns<K, D, E, B, N, R>(
    rt: &R,
    board: &Board<K, D, E, B, N>,
    host: &mut Host<B>,
)
where
    K: ChannelPort + Drop,
    D: SaveDevice + Drop,
    E: Energy + Drop,
    B: BoardName + PartsName,
    N: Notices,
    R: Wait + Clock + Abort,
    requires { CHANNELS ≡ B.channels }
{
    let receipt = first_receipt(0);
    same(rt, board.write(rt, host, write_of(0, 11)), Ok(receipt));
    same(rt, saved(rt, board, 4), Ended::Stopped);
    for _ in 0..2 {
        same(rt, board.save_step(rt), StepReply::Waiting);
        same(rt, worked(rt, board, 1), Ended::Stopped);
    }
    let page = StepReply::Did(Step::Page(0));
    same(rt, board.save_step(rt), page);
}

/// A line that isn't there; then gates that hold or stop at once, and a loss of mains, end each worker.
pub(crate) fn end_workers<K, D, E, B, N, R>(
    rt: &R,
    board: &Board<K, D, E, B, N>,
    host: &mut Host<B>,
)
where
    K: ChannelPort + Drop + Send,
    D: SaveDevice + Drop,
    E: Energy + Drop,
    B: BoardName + PartsName + Send,
    N: Notices,
    R: Threads + Wait + Clock + Abort + Sync,
    requires { CHANNELS ≡ B.channels }
{
    let nowhere = WriteRefusal::NoSuchLine;
    same(rt, board.write(rt, host, write_of(128, 5)), Err(nowhere));
    same(rt, board.read(rt, host, 128), Err(ReadRefusal::NoSuchLine));
    let receipt = first_receipt(0);
    same(rt, board.write(rt, host, write_of(0, 11)), Ok(receipt));
    let stopped = (Ended::Stopped, Ended::Stopped);
    same(rt, (worked(rt, board, 0), saved(rt, board, 0)), stopped);
    let (goes, holds) = (EachTurn::new(Turn::Go, 100), EachTurn::new(Turn::Hold, 100));
    let channel = channel_worker(rt, board, 1, &goes);
    let saver = saver_worker(rt, board, CHANNELS, &holds);
    same(rt, (channel, saver), stopped);
    let asked = (goes.asked_in_order(), holds.asked_in_order());
    same(rt, asked, (Some(101), Some(101)));
    same(rt, board.save_step(rt), StepReply::NoSave);
    same(rt, board.power_loss(rt, &Always), Loss::Unsaved);
    let channel = channel_worker(rt, board, 0, &Always);
    let saver = saver_worker(rt, board, CHANNELS, &Always);
    same(rt, (channel, saver), (Ended::Closed, Ended::Closed));
}
