// Boards with a lock for each channel, whose hosts and workers are threads.
ghost use Rattle.std.specs.Prelude.{◌≡◌};

use crate::check::{CHANNELS, first_receipt, same, write_of};
use crate::inside::{InsideUntil, LIMIT, NeverInside};
use arm_state::{ReadRefusal, WriteRefusal};
use board_hosts::{BoardName, Ended, Host, Receipt, Seen};
use channel_locks::PartsName;
use channel_port::ChannelPort;
use energy_budget::Energy;
use notice_book::Notices;
use save_device::SaveDevice;
use split_board::{Board, channel_worker};
use std::alloc::{AllocError, Global};
use std::process::Abort;
use std::sync::Wait;
use std::thread;
use std::thread::Threads;
use std::time::Clock;

/// How many writes each of them makes.
const WRITES_EACH: usize = 4;

/// How often a host tries its writes, all in all.
const TRIES: u64 = 1 << 20;

/// How often a gate is asked while a call waits for the lock that it holds.
const SHORT: u64 = 50;

/// What a host was told while another channel's lock was held.
#[derive(Clone, Copy, Debug, PartialEq, Eq)]
struct Told {
    /// Whether the lock was held before the host's first call.
    beside: bool,
    receipt: Result<Receipt, WriteRefusal>,
    seen: Result<Seen, ReadRefusal>,
}

/// A write, and a read that has to wait, on channel 1, while channel 0's lock is held.
pub(crate) fn call_beside_held<K, D, E, B, N, R>(
    rt: &R,
    board: &Board<K, D, E, B, N>,
    mut host: Host<B>,
)
where
    K: ChannelPort + Drop + Send,
    D: SaveDevice + Drop + Send,
    E: Energy + Drop + Send,
    B: BoardName + PartsName + Send + Sync,
    N: Notices + Send,
    R: Threads + Wait + Clock + Abort + Copy + Send + Sync,
    requires { CHANNELS ≡ B.channels }
{
    let gate = InsideUntil::new(*rt, LIMIT);
    let (ended, told) = thread::join(
        rt,
        || -> Ended
            requires { CHANNELS ≡ B.channels }
        { channel_worker(rt, board, 0, &gate) },
        || -> Told {
            let beside = gate.await_entry();
            let receipt = board.write(rt, &mut host, write_of(1, 11));
            let seen = board.read(rt, &mut host, 5);
            gate.answer();
            Told {
                beside,
                receipt,
                seen,
            }
        },
    );
    let wanted = Told {
        beside: true,
        receipt: Ok(first_receipt(1)),
        seen: Ok(Seen {
            line: 5,
            data: [0; 64],
            at: 1,
        }),
    };
    same(rt, (ended, told), (Ended::Stopped, wanted));
    same(rt, gate.is_late(), false);
}

/// A write on channel 0 waits while a worker has that channel's lock: the gate is asked with the lock held.
pub(crate) fn call_behind_held<K, D, E, B, N, R>(
    rt: &R,
    board: &Board<K, D, E, B, N>,
    mut host: Host<B>,
)
where
    K: ChannelPort + Drop + Send,
    D: SaveDevice + Drop + Send,
    E: Energy + Drop + Send,
    B: BoardName + PartsName + Send + Sync,
    N: Notices + Send,
    R: Threads + Wait + Clock + Abort + Copy + Send + Sync,
    requires { CHANNELS ≡ B.channels }
{
    let gate = InsideUntil::new(*rt, SHORT);
    let (ended, receipt) = thread::join(
        rt,
        || -> Ended
            requires { CHANNELS ≡ B.channels }
        { channel_worker(rt, board, 0, &gate) },
        || -> Result<Receipt, WriteRefusal> {
            let _entered = gate.await_entry();
            let receipt = board.write(rt, &mut host, write_of(0, 11));
            gate.answer();
            receipt
        },
    );
    same(rt, (ended, receipt), (Ended::Stopped, Ok(first_receipt(0))));
    same(rt, gate.is_late(), true);
}

/// A worker ends whose gate never lets it go while it has the lock.
pub(crate) fn hold_inside<K, D, E, B, N, R>(rt: &R, board: &Board<K, D, E, B, N>)
where
    K: ChannelPort + Drop,
    D: SaveDevice + Drop,
    E: Energy + Drop,
    B: BoardName + PartsName,
    N: Notices,
    R: Wait + Clock + Abort,
    requires { CHANNELS ≡ B.channels }
{
    let gate = NeverInside::new();
    same(rt, channel_worker(rt, board, 0, &gate), Ended::Stopped);
    same(rt, gate.asked(), LIMIT + 1);
}

// The writes of a host, all on channel 0.
fn write_even<K, D, E, B, N, R>(
    rt: &R,
    alloc: Global,
    board: &Board<K, D, E, B, N>,
    mut host: Host<B>,
) -> Result<Vec<Receipt>, AllocError>
where
    K: ChannelPort + Drop,
    D: SaveDevice + Drop,
    E: Energy + Drop,
    B: BoardName + PartsName,
    N: Notices,
    R: Wait,
{
    let mut receipts = Vec::new(alloc);
    for turn in 0..TRIES {
        if receipts.len() == WRITES_EACH {
            break;
        }
        match board.write(rt, &mut host, write_of((turn % 64) * 2, 11)) {
            Ok(receipt) => receipts.push(receipt)?,
            Err(WriteRefusal::Full) => thread::yield_now(),
            Err(_) => break,
        }
    }
    Ok(receipts)
}

// The numbers of all receipts, from the least on.
fn numbers_of(
    alloc: Global,
    told: Vec<Result<Vec<Receipt>, AllocError>>,
) -> Result<Vec<u64>, AllocError> {
    let mut numbers = Vec::new(alloc);
    for receipts in told {
        for receipt in receipts? {
            numbers.push(receipt.number)?;
        }
    }
    numbers.sort()?;
    Ok(numbers)
}

/// Hosts write on channel 0 alone, and no worker goes: each write has a number of its own.
pub(crate) fn crowd_one_channel<K, D, E, B, N, R>(
    rt: &R,
    alloc: Global,
    board: &Board<K, D, E, B, N>,
    hosts: Vec<Host<B>>,
)
where
    K: ChannelPort + Drop + Send,
    D: SaveDevice + Drop + Send,
    E: Energy + Drop + Send,
    B: BoardName + PartsName + Send + Sync,
    N: Notices + Send,
    R: Threads + Wait + Abort + Sync,
{
    let writers = hosts.len();
    let told = thread::map_vec(
        rt,
        hosts,
        &|host: Host<B>| -> Result<Vec<Receipt>, AllocError> { write_even(rt, alloc, board, host) },
    )
    .expect(rt, "memory");
    let numbers = numbers_of(alloc, told).expect(rt, "memory");
    same(rt, numbers.len(), writers.saturating_mul(WRITES_EACH));
    let in_turn = numbers
        .iter()
        .enumerate()
        .all(|(index, number)| *number == index as u64);
    same(rt, in_turn, true);
}
