// Hosts that write and read at once.
ghost use Rattle.std.specs.Prelude.{◌≡◌, ◌<◌, vec_len};
ghost use Rattle.ddr4_boards.specs.Naming.{IsNamed};

use crate::gate::UntilDone;
use crate::hosting::{Kept, Told, busy};
use crate::plans::{Cuts, Plan};
use board_hosts::{BoardName, Closed, Ended, Host, RecordedModule, Seen};
use channel_locks::PartsName;
use channel_port::ChannelPort;
use ddr4_boards::Ready;
use energy_budget::Meter;
use line_memory::History;
use notice_book::Notices;
use save_device::SaveDevice;
use split_board::{Board, Started, channel_worker, close, saver_worker};
use std::alloc::{AllocError, Global};
use std::sync::Wait;
use std::thread;
use std::thread::Threads;
use std::time::{Clock, Instant};
use thiserror::Error;

/// What a crowd came to: the device and the record of the module's writes, how many it accepted, how many receipts and answers
/// were checked, how many were past, and how long the hosts and the last cut took in nanoseconds.
#[derive(Drop)]
pub(crate) struct Outcome<D> {
    pub device: D,
    pub history: History,
    pub accepted: u64,
    pub checked: u64,
    pub past: u64,
    pub nanos: u128,
    pub cut_nanos: u128,
}

/// What a crowd never comes to.
#[derive(Clone, Copy, Debug, PartialEq, Eq, Error)]
pub(crate) enum Wrong {
    #[error("a host is missing")]
    Hosts,
    #[error("a receipt or an answer is a stranger")]
    Stranger,
}

/// What all hosts were told.
#[derive(Drop)]
struct Gathered<B: BoardName> {
    hosts: Vec<Host<B>>,
    kept: Kept,
    answers: Vec<Seen>,
}

// The hosts at once, with the workers beside them.
fn run<K, D, B, N, R>(
    rt: &R,
    alloc: Global,
    board: &Board<K, D, Meter, B, N>,
    hosts: Vec<Host<B>>,
    channels: u64,
    plan: &Plan,
) -> Result<Vec<Result<Told<B>, AllocError>>, AllocError>
where
    K: ChannelPort + Drop + Send,
    D: SaveDevice + Drop + Send,
    B: BoardName + PartsName + Send + Sync,
    N: Notices + Send,
    R: Threads + Wait + Clock + Sync,
    requires { channels ≡ B.channels }
{
    let gate = UntilDone::new();
    let (ended, told) = thread::join(
        rt,
        || -> Result<Vec<Ended>, AllocError>
            requires { channels ≡ B.channels }
        { work_all(rt, alloc, board, channels, &gate, plan) },
        || -> Result<Vec<Result<Told<B>, AllocError>>, AllocError> {
            host_all(rt, alloc, board, hosts, &gate, plan)
        },
    );
    ended?;
    told
}

// The hosts at once; then the workers may end.
fn host_all<K, D, B, N, R>(
    rt: &R,
    alloc: Global,
    board: &Board<K, D, Meter, B, N>,
    hosts: Vec<Host<B>>,
    gate: &UntilDone,
    plan: &Plan,
) -> Result<Vec<Result<Told<B>, AllocError>>, AllocError>
where
    K: ChannelPort + Drop + Send,
    D: SaveDevice + Drop + Send,
    B: BoardName + PartsName + Send + Sync,
    N: Notices + Send,
    R: Threads + Wait + Clock + Sync,
{
    let told = thread::map_vec(
        rt,
        hosts,
        &|host: Host<B>| -> Result<Told<B>, AllocError> { busy(rt, alloc, board, host, plan) },
    );
    gate.finish();
    told
}

// A channel's worker, or behind those the saver.
fn work_one<K, D, B, N, R>(
    rt: &R,
    board: &Board<K, D, Meter, B, N>,
    channels: u64,
    worker: u64,
    gate: &UntilDone,
) -> Ended
where
    K: ChannelPort + Drop,
    D: SaveDevice + Drop,
    B: BoardName + PartsName,
    N: Notices,
    R: Wait + Clock,
    requires { channels ≡ B.channels }
{
    if worker < channels {
        channel_worker(rt, board, worker, gate)
    } else {
        saver_worker(rt, board, channels, gate)
    }
}

// A worker for each channel, and a saver where the plan has one.
fn work_all<K, D, B, N, R>(
    rt: &R,
    alloc: Global,
    board: &Board<K, D, Meter, B, N>,
    channels: u64,
    gate: &UntilDone,
    plan: &Plan,
) -> Result<Vec<Ended>, AllocError>
where
    K: ChannelPort + Drop + Send,
    D: SaveDevice + Drop + Send,
    B: BoardName + PartsName + Send + Sync,
    N: Notices + Send,
    R: Threads + Wait + Clock + Sync,
    requires { channels ≡ B.channels }
{
    let workers = channels.saturating_add(u64::from(plan.saves));
    thread::map_indices(
        rt,
        alloc,
        workers as usize,
        &|worker: usize| -> Ended
            requires { channels ≡ B.channels }
        { work_one(rt, board, channels, worker as u64, gate) },
    )
}

// The hosts, and what they were told.
fn gather<B: BoardName>(
    alloc: Global,
    told: Vec<Result<Told<B>, AllocError>>,
) -> Result<Gathered<B>, AllocError> {
    let mut hosts = Vec::new(alloc);
    let mut kept = Kept {
        receipts: Vec::new(alloc),
        checked: 0,
        past: 0,
    };
    let mut answers = Vec::new(alloc);
    for one in told {
        let one = one?;
        hosts.push(one.host)?;
        kept.receipts
            .extend_from_slice(one.kept.receipts.as_slice())?;
        kept.checked = kept.checked.saturating_add(one.kept.checked);
        kept.past = kept.past.saturating_add(one.kept.past);
        answers.extend_from_slice(one.answers.as_slice())?;
    }
    Ok(Gathered {
        hosts,
        kept,
        answers,
    })
}

// How long a cut takes that nobody asks anything of, in nanoseconds; none where the plan has no such cut.
fn cut_last<K, D, B, N, R>(
    rt: &R,
    board: &Board<K, D, Meter, B, N>,
    plan: &Plan,
) -> anyhow::Result<u128>
where
    K: ChannelPort + Drop,
    D: SaveDevice + Drop,
    B: BoardName + PartsName,
    N: Notices,
    R: Wait + Clock,
{
    if plan.cuts != Cuts::Last {
        return Ok(0);
    }
    let start = Instant::now(rt)?;
    if board.cut(rt, &[], &[]).is_err() {
        return Err(Wrong::Stranger.into());
    }
    Ok(start.elapsed(rt)?.as_nanos())
}

// The end of a board: each receipt and each answer that is left is checked. The times are still to come.
fn end<K, D, B, N>(
    board: Board<K, D, Meter, B, N>,
    gathered: Gathered<B>,
) -> anyhow::Result<Outcome<D>>
where
    K: ChannelPort + Drop,
    D: SaveDevice + Drop,
    B: BoardName + PartsName,
    N: Notices + Drop,
    requires { vec_len gathered.hosts ≡ B.parts }
{
    let Gathered {
        hosts,
        kept,
        answers,
    } = gathered;
    match close(board, hosts, kept.receipts.as_slice(), answers.as_slice()) {
        Ok(
            Closed {
                recorded: RecordedModule {
                    running,
                    device,
                    history,
                    ..
                },
                checked,
                past,
                ..
            },
        ) => Ok(Outcome {
            device,
            history,
            accepted: running.accepted(),
            checked: kept.checked.saturating_add(checked),
            past: kept.past.saturating_add(past),
            nanos: 0,
            cut_nanos: 0,
        }),
        Err(_) => Err(Wrong::Stranger.into()),
    }
}

/// A crowd on the board of a module, up to its end: each receipt and each answer was checked.
pub(crate) fn crowd<K, D, B, N, R>(
    rt: &R,
    alloc: Global,
    ready: Ready<K, D, Meter>,
    notices: N,
    plan: &Plan,
) -> anyhow::Result<Outcome<D>>
where
    K: ChannelPort + Drop + Send,
    D: SaveDevice + Drop + Send,
    B: BoardName + PartsName + Send + Sync,
    N: Notices + Drop + Send,
    R: Threads + Wait + Clock + Sync,
    requires named { IsNamed K.ChannelPort B.Ledger B.BoardName.own B.PartsName.own
        ready.tables ready.recorded }
    requires hosts { B.parts ≡ plan.now.hosts }
{
    let channels = ready.channels;
    let Ok(Started { board, hosts }) = ready.board::<B, N>(alloc, notices) else {
        return Err(AllocError.into());
    };
    if plan.lost_at.is_some() {
        // refused, the loss ends the hosts all the same
        let _armed = board.arm(rt);
    }
    let start = Instant::now(rt)?;
    let told = run(rt, alloc, &board, hosts, channels, plan)?;
    let nanos = start.elapsed(rt)?.as_nanos();
    let gathered = gather(alloc, told)?;
    if gathered.hosts.len() != plan.hosts {
        return Err(Wrong::Hosts.into());
    }
    let cut_nanos = cut_last(rt, &board, plan)?;
    let ended = end(board, gathered)?;
    Ok(Outcome {
        nanos,
        cut_nanos,
        ..ended
    })
}
