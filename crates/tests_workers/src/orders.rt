// In which order a board's locks are taken.
ghost use Rattle.std.specs.Prelude.{◌≡◌};

use crate::check::{AMPLE, CHANNELS, first_receipt, same, write_of};
use crate::gates::Turns;
use crate::inside::{InsideUntil, LIMIT};
use arm_state::WriteRefusal;
use board_hosts::{BoardName, Ended, Host, Receipt};
use channel_locks::PartsName;
use channel_port::ChannelPort;
use energy_budget::Energy;
use notice_book::Notices;
use save_device::SaveDevice;
use split_board::{Board, channel_worker};
use std::process::Abort;
use std::sync::Wait;
use std::sync::atomic::{AtomicBool, Ordering};
use std::thread;
use std::thread::Threads;
use std::time::{Clock, Duration};

/// How long a call has to come to the lock that it waits for, in milliseconds.
const WHILE: u64 = 300;

// A call was begun, and waits for its lock by now.
fn await_call<R: Clock>(rt: &R, begun: &AtomicBool) {
    for _ in 0..LIMIT {
        if begun.load(Ordering::SeqCst) {
            break;
        }
        thread::sleep(rt, Duration::from_millis(1));
    }
    thread::sleep(rt, Duration::from_millis(WHILE));
}

/// What was told of channel 1 while channel 0's lock was held.
#[derive(Clone, Copy, Debug, PartialEq, Eq)]
struct Told {
    receipt: Result<Receipt, WriteRefusal>,
    worked: Ended,
}

// A write on channel 1, and then turns of that channel's worker, behind which the gate lets channel 0 go.
fn write_and_work<K, D, E, B, N, R>(
    rt: &R,
    board: &Board<K, D, E, B, N>,
    host: &mut Host<B>,
    gate: &InsideUntil<R>,
    sensed: &AtomicBool,
) -> Told
where
    K: ChannelPort + Drop + Send,
    D: SaveDevice + Drop + Send,
    E: Energy + Drop + Send,
    B: BoardName + PartsName + Send + Sync,
    N: Notices + Send,
    R: Threads + Wait + Clock + Send + Sync,
    requires { CHANNELS ≡ B.channels }
{
    let written = AtomicBool::new(false);
    let (receipt, worked) = thread::join(
        rt,
        || -> Result<Receipt, WriteRefusal> {
            await_call(rt, sensed);
            written.store(true, Ordering::SeqCst);
            board.write(rt, host, write_of(1, 11))
        },
        || -> Ended
            requires { CHANNELS ≡ B.channels }
        {
            await_call(rt, &written);
            let turns = Turns { worker: 1, most: 4 };
            let ended = channel_worker(rt, board, 1, &turns);
            gate.answer();
            ended
        },
    );
    Told { receipt, worked }
}

// The same beside a call of the whole board, which waits for channel 0's lock meanwhile, as the write does for the board's.
fn call_and_work<K, D, E, B, N, R>(
    rt: &R,
    board: &Board<K, D, E, B, N>,
    host: &mut Host<B>,
    gate: &InsideUntil<R>,
) -> (u64, Told)
where
    K: ChannelPort + Drop + Send,
    D: SaveDevice + Drop + Send,
    E: Energy + Drop + Send,
    B: BoardName + PartsName + Send + Sync,
    N: Notices + Send,
    R: Threads + Wait + Clock + Send + Sync,
    requires { CHANNELS ≡ B.channels }
{
    let _entered = gate.await_entry();
    let sensed = AtomicBool::new(false);
    thread::join(
        rt,
        || -> u64 {
            sensed.store(true, Ordering::SeqCst);
            board.sense(rt)
        },
        || -> Told
            requires { CHANNELS ≡ B.channels }
        { write_and_work(rt, board, host, gate, &sensed) },
    )
}

/// Who waits for a lock holds none that is taken behind it: channel 1 is worked while a call of the whole board waits for channel 0,
/// and a write on channel 1 for the board.
pub(crate) fn wait_in_order<K, D, E, B, N, R>(
    rt: &R,
    board: &Board<K, D, E, B, N>,
    mut host: Host<B>,
)
where
    K: ChannelPort + Drop + Send,
    D: SaveDevice + Drop + Send,
    E: Energy + Drop + Send,
    B: BoardName + PartsName + Send + Sync,
    N: Notices + Send,
    R: Threads + Wait + Clock + Abort + Copy + Send + Sync,
    requires { CHANNELS ≡ B.channels }
{
    let gate = InsideUntil::new(*rt, LIMIT);
    let (ended, told) = thread::join(
        rt,
        || -> Ended
            requires { CHANNELS ≡ B.channels }
        { channel_worker(rt, board, 0, &gate) },
        || -> (u64, Told)
            requires { CHANNELS ≡ B.channels }
        { call_and_work(rt, board, &mut host, &gate) },
    );
    let wanted = Told {
        receipt: Ok(first_receipt(1)),
        worked: Ended::Stopped,
    };
    same(rt, (ended, told), (Ended::Stopped, (AMPLE - 1, wanted)));
    same(rt, gate.is_late(), false);
}
