// A host that waits until its write is persistent.
ghost use Rattle.std.specs.Prelude.{◌≡◌};

use crate::check::{CHANNELS, same, write_of};
use crate::gates::Turns;
use arm_state::Loss;
use board_hosts::{Always, BoardName, Ended, Host};
use channel_locks::PartsName;
use channel_port::ChannelPort;
use energy_budget::Energy;
use notice_book::{Notices, Persisted};
use save_device::SaveDevice;
use split_board::{Board, MainsLost, channel_worker, saver_worker};
use std::process::Abort;
use std::sync::Wait;
use std::thread;
use std::thread::Threads;
use std::time::Clock;

/// As many turns as a saver takes for a whole save, and some more.
const TURNS: u64 = 16;

// The write goes to its array, and a saver makes a whole save.
fn save_all<K, D, E, B, N, R>(rt: &R, board: &Board<K, D, E, B, N>) -> Ended
where
    K: ChannelPort + Drop,
    D: SaveDevice + Drop,
    E: Energy + Drop,
    B: BoardName + PartsName,
    N: Notices,
    R: Wait + Clock,
    requires { CHANNELS ≡ B.channels }
{
    let _ended = channel_worker(rt, board, 0, &Turns { worker: 0, most: 2 });
    let saver = Turns {
        worker: CHANNELS,
        most: TURNS,
    };
    saver_worker(rt, board, CHANNELS, &saver)
}

/// Beside a save a host that waits gets a mark above its write's number, and beside a loss of mains that saves nothing the mark that
/// was there before.
pub(crate) fn wait_for_marks<K, D, E, B, N, R>(
    rt: &R,
    board: &Board<K, D, E, B, N>,
    mut host: Host<B>,
)
where
    K: ChannelPort + Drop + Send,
    D: SaveDevice + Drop + Send,
    E: Energy + Drop + Send,
    B: BoardName + PartsName + Send + Sync,
    N: Notices + Send,
    R: Threads + Wait + Clock + Abort + Copy + Send + Sync,
    requires { CHANNELS ≡ B.channels }
{
    let Ok(first) = board.write(rt, &mut host, write_of(0, 11)) else {
        panic!(*rt; "a refusal");
    };
    let (_ended, told) = thread::join(
        rt,
        || -> Ended
            requires { CHANNELS ≡ B.channels }
        { save_all(rt, board) },
        || -> Result<Persisted, MainsLost> { board.await_persistent(rt, &mut host, &first) },
    );
    same(rt, told, Ok(Persisted { number: 0, mark: 1 }));
    let Ok(second) = board.write(rt, &mut host, write_of(1, 22)) else {
        panic!(*rt; "a refusal");
    };
    let (_lost, told) = thread::join(
        rt,
        || -> Loss { board.power_loss(rt, &Always) },
        || -> Result<Persisted, MainsLost> { board.await_persistent(rt, &mut host, &second) },
    );
    same(rt, told, Err(MainsLost { mark: 1 }));
}
