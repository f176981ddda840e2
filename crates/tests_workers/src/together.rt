// Boards whose hosts and workers are threads.
ghost use Rattle.std.specs.Prelude.{◌≡◌};

use crate::check::{CHANNELS, LINES, same, write_of};
use crate::gates::{HeldUntil, OtherFirst};
use arm_state::{Loss, ReadRefusal};
use board_hosts::{Always, BoardName, Ended, Host, Seen};
use channel_locks::PartsName;
use channel_port::ChannelPort;
use energy_budget::Energy;
use notice_book::Notices;
use save_device::SaveDevice;
use split_board::{Asked, Board, Claim, channel_worker, saver_worker};
use std::process::Abort;
use std::sync::Wait;
use std::thread;
use std::thread::Threads;
use std::time::{Clock, Duration};

/// How often a host tries its reads, all in all.
const TRIES: u64 = 1 << 28;

// The claim to a line that waits for a command of its channel.
fn claim_to<K, D, E, B, N, R>(
    rt: &R,
    board: &Board<K, D, E, B, N>,
    host: &mut Host<B>,
    line: u64,
) -> Claim<B>
where
    K: ChannelPort + Drop,
    D: SaveDevice + Drop,
    E: Energy + Drop,
    B: BoardName + PartsName,
    N: Notices,
    R: Wait + Abort,
{
    match board.ask(rt, host, line) {
        Ok(Asked::Later(claim)) => claim,
        _ => panic!(*rt; "a claim"),
    }
}

// Works channel 1 beside a write on it.
fn work_and_write<K, D, E, B, N, R>(
    rt: &R,
    board: &Board<K, D, E, B, N>,
    host: &mut Host<B>,
    gate: &OtherFirst<R>,
)
where
    K: ChannelPort + Drop + Send,
    D: SaveDevice + Drop + Send,
    E: Energy + Drop + Send,
    B: BoardName + PartsName + Send + Sync,
    N: Notices + Send,
    R: Threads + Wait + Clock + Send + Sync,
    requires { CHANNELS ≡ B.channels }
{
    thread::join(
        rt,
        || -> Ended
            requires { CHANNELS ≡ B.channels }
        { channel_worker(rt, board, 1, gate) },
        || {
            if board.write(rt, host, write_of(1, 11)).is_ok() {
                gate.answer();
            }
        },
    );
}

/// Channel 1 is worked while channel 0 is held.
pub(crate) fn work_apart<K, D, E, B, N, R>(rt: &R, board: &Board<K, D, E, B, N>, mut host: Host<B>)
where
    K: ChannelPort + Drop + Send,
    D: SaveDevice + Drop + Send,
    E: Energy + Drop + Send,
    B: BoardName + PartsName + Send + Sync,
    N: Notices + Send,
    R: Threads + Wait + Clock + Abort + Copy + Send + Sync,
    requires { CHANNELS ≡ B.channels }
{
    let gate = OtherFirst::new(*rt);
    thread::join(
        rt,
        || -> Ended
            requires { CHANNELS ≡ B.channels }
        { channel_worker(rt, board, 0, &gate) },
        ||
            requires { CHANNELS ≡ B.channels }
        { work_and_write(rt, board, &mut host, &gate) },
    );
    same(rt, gate.is_late(), false);
}

// A saver that goes on, and a loss of mains.
fn save_and_lose<K, D, E, B, N, R>(rt: &R, board: &Board<K, D, E, B, N>) -> (Ended, Loss)
where
    K: ChannelPort + Drop + Send,
    D: SaveDevice + Drop + Send,
    E: Energy + Drop + Send,
    B: BoardName + PartsName + Send + Sync,
    N: Notices + Send,
    R: Threads + Wait + Clock + Sync,
    requires { CHANNELS ≡ B.channels }
{
    thread::join(
        rt,
        || -> Ended
            requires { CHANNELS ≡ B.channels }
        { saver_worker(rt, board, CHANNELS, &Always) },
        || -> Loss {
            thread::sleep(rt, Duration::from_millis(5));
            board.power_loss(rt, &Always)
        },
    )
}

// Reads line after line until mains are lost: was each answer before the lines' zeros?
fn read_until_lost<K, D, E, B, N, R>(
    rt: &R,
    board: &Board<K, D, E, B, N>,
    host: &mut Host<B>,
) -> bool
where
    K: ChannelPort + Drop,
    D: SaveDevice + Drop,
    E: Energy + Drop,
    B: BoardName + PartsName,
    N: Notices,
    R: Wait,
{
    for turn in 0..TRIES {
        match board.read(rt, host, turn % LINES) {
            Ok(seen) => {
                if seen.data != [0; 64] {
                    return false;
                }
            }
            Err(ReadRefusal::Full) => thread::yield_now(),
            Err(refused) => return refused == ReadRefusal::Closed,
        }
    }
    false
}

/// A host that reads on while no worker goes, and a saver that goes on, end by a loss of mains. A claim that was lost with them is
/// answered at once.
pub(crate) fn lose_threads<K, D, E, B, N, R>(
    rt: &R,
    board: &Board<K, D, E, B, N>,
    mut host: Host<B>,
)
where
    K: ChannelPort + Drop + Send,
    D: SaveDevice + Drop + Send,
    E: Energy + Drop + Send,
    B: BoardName + PartsName + Send + Sync,
    N: Notices + Send,
    R: Threads + Wait + Clock + Abort + Copy + Send + Sync,
    requires { CHANNELS ≡ B.channels }
{
    let left = claim_to(rt, board, &mut host, 6);
    let (zeros, lost) = thread::join(
        rt,
        || -> bool { read_until_lost(rt, board, &mut host) },
        || -> (Ended, Loss)
            requires { CHANNELS ≡ B.channels }
        { save_and_lose(rt, board) },
    );
    same(rt, (zeros, lost), (true, (Ended::Closed, Loss::Unsaved)));
    same(rt, board.await_line(rt, left), Err(ReadRefusal::Closed));
    same(rt, board.read(rt, &mut host, 5), Err(ReadRefusal::Closed));
}

/// A read is served while the gate holds each worker. A line that is asked for is awaited.
pub(crate) fn read_beside_held<K, D, E, B, N, R>(
    rt: &R,
    board: &Board<K, D, E, B, N>,
    mut host: Host<B>,
)
where
    K: ChannelPort + Drop + Send,
    D: SaveDevice + Drop + Send,
    E: Energy + Drop + Send,
    B: BoardName + PartsName + Send + Sync,
    N: Notices + Send,
    R: Threads + Wait + Clock + Abort + Copy + Send + Sync,
    requires { CHANNELS ≡ B.channels }
{
    let gate = HeldUntil::new(*rt);
    let (ended, seen) = thread::join(
        rt,
        || -> Ended
            requires { CHANNELS ≡ B.channels }
        { channel_worker(rt, board, 1, &gate) },
        || -> Result<Seen, ReadRefusal> {
            let seen = board.read(rt, &mut host, 5);
            gate.finish();
            seen
        },
    );
    let zeros = Seen {
        line: 5,
        data: [0; 64],
        at: 0,
    };
    same(rt, (ended, seen), (Ended::Stopped, Ok(zeros)));
    same(rt, gate.is_late(), false);
    let asked = claim_to(rt, board, &mut host, 7);
    let seen = Seen { line: 7, ..zeros };
    same(rt, board.await_line(rt, asked), Ok(seen));
}
