// What one host does.
use crate::plans::{Cuts, Plan};
use arm_state::{ReadRefusal, WriteRefusal};
use board_hosts::{Always, BoardName, Host, Receipt, Seen};
use channel_locks::PartsName;
use channel_port::ChannelPort;
use energy_budget::Meter;
use notice_book::Notices;
use save_device::SaveDevice;
use split_board::Board;
use std::alloc::{AllocError, Global};
use std::sync::Wait;
use std::thread;
use std::thread::Threads;
use std::time::Clock;
use worker_turns::give_way;

/// How often a host tries its calls, all in all: where no thread is to be had, what it waits for doesn't come.
const TRIES: u64 = 1 << 28;

/// How many receipts a host holds before it cuts the history.
const HELD: usize = 512;

/// The receipts that a host holds, and what its cuts told of those before.
#[derive(Drop)]
pub(crate) struct Kept {
    pub receipts: Vec<Receipt>,
    pub checked: u64,
    pub past: u64,
}

/// What one host was told.
#[derive(Drop)]
pub(crate) struct Told<B: BoardName> {
    pub host: Host<B>,
    pub kept: Kept,
    pub answers: Vec<Seen>,
}

// Cuts the history, where the plan is so. The receipts are let go that were checked or are past.
fn cut_off<K, D, B, N, R>(rt: &R, board: &Board<K, D, Meter, B, N>, kept: &mut Kept, plan: &Plan)
where
    K: ChannelPort + Drop,
    D: SaveDevice + Drop,
    B: BoardName + PartsName,
    N: Notices,
    R: Wait,
{
    if plan.cuts == Cuts::Along
        && let Ok(cut) = board.cut(rt, kept.receipts.as_slice(), &[])
    {
        kept.checked = kept.checked.saturating_add(cut.checked);
        kept.past = kept.past.saturating_add(cut.past);
        kept.receipts.clear();
    }
}

// The writes of a host. One that finds its channel or the board full is made again, and the host gives way before it, as a worker
// with nothing to do: while a save goes on a channel holds as many writes back as it has room for. A loss of mains ends them.
fn write_all<K, D, B, N, R>(
    rt: &R,
    alloc: Global,
    board: &Board<K, D, Meter, B, N>,
    host: &mut Host<B>,
    plan: &Plan,
) -> Result<Kept, AllocError>
where
    K: ChannelPort + Drop + Send,
    D: SaveDevice + Drop,
    B: BoardName + PartsName + Send,
    N: Notices,
    R: Threads + Wait + Clock + Sync,
{
    let mut kept = Kept {
        receipts: Vec::new(alloc),
        checked: 0,
        past: 0,
    };
    let mut made: u64 = 0;
    let mut idle = 0;
    for turn in 0..TRIES {
        if made == plan.writes {
            break;
        }
        match board.write(rt, host, plan.write(made, turn)) {
            Ok(receipt) => {
                made = made.saturating_add(1);
                idle = 0;
                kept.receipts.push(receipt)?;
                if plan.lost_at == Some(receipt.number) {
                    board.power_loss(rt, &Always);
                }
                if kept.receipts.len() >= HELD {
                    cut_off(rt, board, &mut kept, plan);
                }
            }
            Err(WriteRefusal::Full) => idle = give_way(rt, idle),
            Err(WriteRefusal::TrailFull) => {
                cut_off(rt, board, &mut kept, plan);
                thread::yield_now();
            }
            Err(_) => break,
        }
    }
    Ok(kept)
}

// The reads of a host.
fn read_all<K, D, B, N, R>(
    rt: &R,
    alloc: Global,
    board: &Board<K, D, Meter, B, N>,
    host: &mut Host<B>,
    plan: &Plan,
) -> Result<Vec<Seen>, AllocError>
where
    K: ChannelPort + Drop,
    D: SaveDevice + Drop,
    B: BoardName + PartsName,
    N: Notices,
    R: Wait,
{
    let mut answers = Vec::new(alloc);
    for _ in 0..TRIES {
        if answers.len() as u64 == plan.reads {
            break;
        }
        match board.read(rt, host, plan.line(answers.len() as u64)) {
            Ok(seen) => answers.push(seen)?,
            Err(ReadRefusal::Full) => thread::yield_now(),
            Err(_) => break,
        }
    }
    Ok(answers)
}

/// All that a host does.
pub(crate) fn busy<K, D, B, N, R>(
    rt: &R,
    alloc: Global,
    board: &Board<K, D, Meter, B, N>,
    mut host: Host<B>,
    plan: &Plan,
) -> Result<Told<B>, AllocError>
where
    K: ChannelPort + Drop + Send,
    D: SaveDevice + Drop,
    B: BoardName + PartsName + Send,
    N: Notices,
    R: Threads + Wait + Clock + Sync,
{
    thread::sleep(rt, plan.rest);
    let kept = write_all(rt, alloc, board, &mut host, plan)?;
    let answers = read_all(rt, alloc, board, &mut host, plan)?;
    Ok(Told {
        host,
        kept,
        answers,
    })
}
