// Boards with a lock for each channel that lose their mains amid what threads do.
ghost use Rattle.std.specs.Prelude.{◌≡◌, ◌<◌, length};
ghost use Rattle.ddr4_boards.specs.Naming.{IsNamed};

use crate::check::{AMPLE, CHANNELS, LINES, first_receipt, opened, same, tiny, write_of};
use crate::inside::HeldAmid;
use crate::silent::Silent;
use arm_state::{ArmReply, Loss, WriteRefusal};
use board_hosts::{Always, BoardName, Closed, Ended, Host, Receipt, RecordedModule};
use channel_locks::PartsName;
use channel_port::ChannelPort;
use ddr4_boards::{Ready, open};
use energy_budget::{Energy, Meter};
use interleave_map::{Interleaving, ReadyMap};
use line_memory::History;
use notice_book::Notices;
use save_device::SaveDevice;
use split_board::{Board, Started, channel_worker, close};
use std::alloc::{AllocError, Global};
use std::marker::Brand;
use std::process::Abort;
use std::sync::Wait;
use std::thread;
use std::thread::Threads;
use std::time::Clock;

/// How many hosts a board has.
const HOSTS: usize = 4;

/// How often a host tries its writes, all in all.
const TRIES: u64 = 1 << 20;

/// The number of the write at which mains are lost.
const LOST_AT: u64 = 100;

/// A host, and the receipts of its writes.
#[derive(Drop)]
struct Told<B: BoardName> {
    host: Host<B>,
    receipts: Vec<Receipt>,
}

/// All hosts, and the receipts of all.
#[derive(Drop)]
struct Gathered<B: BoardName> {
    hosts: Vec<Host<B>>,
    receipts: Vec<Receipt>,
}

/// What a life left: its device, the record of its writes, and how many it accepted.
#[derive(Drop)]
struct Left<D> {
    device: D,
    history: History,
    accepted: u64,
}

/// Both workers hold their channels as mains are lost: the loss waits for them, and saves the one write.
pub(crate) fn lose_beside_held<K, D, E, B, N, R>(
    rt: &R,
    board: &Board<K, D, E, B, N>,
    host: &mut Host<B>,
)
where
    K: ChannelPort + Drop + Send,
    D: SaveDevice + Drop + Send,
    E: Energy + Drop + Send,
    B: BoardName + PartsName + Send + Sync,
    N: Notices + Send,
    R: Threads + Wait + Clock + Abort + Copy + Send + Sync,
    requires { CHANNELS ≡ B.channels }
{
    same(rt, board.arm(rt), Ok(ArmReply::Armed));
    same(
        rt,
        board.write(rt, host, write_of(0, 11)),
        Ok(first_receipt(0)),
    );
    let gate = HeldAmid::new(*rt);
    let (ended, lost) = thread::join(
        rt,
        || -> (Ended, Ended)
            requires { CHANNELS ≡ B.channels }
        { work_both(rt, board, &gate) },
        || -> Loss {
            gate.begin();
            board.power_loss(rt, &Always)
        },
    );
    let saved = Loss::Saved {
        generation: 2,
        count: 1,
    };
    same(rt, (ended, lost), ((Ended::Closed, Ended::Closed), saved));
    same(rt, gate.is_late(), false);
}

// The workers of both channels.
fn work_both<K, D, E, B, N, R>(
    rt: &R,
    board: &Board<K, D, E, B, N>,
    gate: &HeldAmid<R>,
) -> (Ended, Ended)
where
    K: ChannelPort + Drop + Send,
    D: SaveDevice + Drop + Send,
    E: Energy + Drop + Send,
    B: BoardName + PartsName + Send + Sync,
    N: Notices + Send,
    R: Threads + Wait + Clock + Send + Sync,
    requires { CHANNELS ≡ B.channels }
{
    thread::join(
        rt,
        || -> Ended
            requires { CHANNELS ≡ B.channels }
        { channel_worker(rt, board, 0, gate) },
        || -> Ended
            requires { CHANNELS ≡ B.channels }
        { channel_worker(rt, board, 1, gate) },
    )
}

// The writes of a host up to a loss of mains, which comes at the write of a number.
fn write_until_lost<K, D, E, B, N, R>(
    rt: &R,
    alloc: Global,
    board: &Board<K, D, E, B, N>,
    mut host: Host<B>,
) -> Result<Told<B>, AllocError>
where
    K: ChannelPort + Drop + Send,
    D: SaveDevice + Drop,
    E: Energy + Drop,
    B: BoardName + PartsName + Send,
    N: Notices,
    R: Threads + Wait + Sync,
{
    let mut receipts = Vec::new(alloc);
    for turn in 0..TRIES {
        let write = write_of(turn % LINES, (turn % 256) as u8);
        match board.write(rt, &mut host, write) {
            Ok(receipt) => {
                receipts.push(receipt)?;
                if receipt.number == LOST_AT {
                    board.power_loss(rt, &Always);
                }
            }
            Err(WriteRefusal::Full) => thread::yield_now(),
            Err(_) => break,
        }
    }
    Ok(Told { host, receipts })
}

// The same of each of these hosts, at once.
fn write_at_once<K, D, E, B, N, R>(
    rt: &R,
    alloc: Global,
    board: &Board<K, D, E, B, N>,
    hosts: Vec<Host<B>>,
) -> Result<Vec<Result<Told<B>, AllocError>>, AllocError>
where
    K: ChannelPort + Drop + Send,
    D: SaveDevice + Drop + Send,
    E: Energy + Drop + Send,
    B: BoardName + PartsName + Send + Sync,
    N: Notices + Send + Sync,
    R: Threads + Wait + Sync,
{
    thread::map_vec(
        rt,
        hosts,
        &|host: Host<B>| -> Result<Told<B>, AllocError> {
            write_until_lost(rt, alloc, board, host)
        },
    )
}

// All hosts, and what they were told.
fn gather<B: BoardName>(
    alloc: Global,
    told: Vec<Result<Told<B>, AllocError>>,
) -> Result<Gathered<B>, AllocError> {
    let mut hosts = Vec::new(alloc);
    let mut receipts = Vec::new(alloc);
    for one in told {
        let Told {
            host,
            receipts: own,
        } = one?;
        hosts.push(host)?;
        receipts.extend_from_slice(own.as_slice())?;
    }
    Ok(Gathered { hosts, receipts })
}

// Four hosts write to an armed board until its mains are lost; what is left of it, with a receipt for each accepted write.
fn lose_amid<K, D, E, B, R>(rt: &R, alloc: Global, ready: Ready<K, D, E>) -> Left<D>
where
    K: ChannelPort + Drop + Send,
    D: SaveDevice + Drop + Send,
    E: Energy + Drop + Send,
    B: BoardName + PartsName + Send + Sync,
    R: Threads + Wait + Clock + Abort + Copy + Send + Sync,
    requires named { IsNamed K.ChannelPort B.Ledger B.BoardName.own B.PartsName.own
        ready.tables ready.recorded }
    requires hosts { B.parts ≡ HOSTS }
{
    let Ok(Started { board, hosts }) = ready.board::<B, Silent>(alloc, Silent) else {
        panic!(*rt; "memory");
    };
    same(rt, board.arm(rt), Ok(ArmReply::Armed));
    let told = write_at_once(rt, alloc, &board, hosts).expect(rt, "memory");
    let Gathered { hosts, receipts } = gather(alloc, told).expect(rt, "memory");
    if hosts.len() != HOSTS {
        panic!(*rt; "four hosts");
    }
    let Ok(
        Closed {
            recorded,
            checked,
            ..
        },
    ) = close(board, hosts, receipts.as_slice(), &[])
    else {
        panic!(*rt; "a stranger");
    };
    same(rt, checked, receipts.len() as u64);
    let RecordedModule {
        running,
        device,
        history,
        ..
    } = recorded;
    let accepted = running.accepted();
    same(rt, accepted, checked);
    Left {
        device,
        history,
        accepted,
    }
}

// How many lines of the later life differ from those of the earlier one after so many writes.
fn differing(earlier: &History, later: &History, count: u64) -> u64 {
    let mut differ: u64 = 0;
    for line in 0..LINES {
        if !earlier.knows(line, count)
            || !later.knows(line, count)
            || earlier.value_of(line, count) != later.value_of(line, count)
        {
            differ = differ.saturating_add(1);
        }
    }
    differ
}

// What a loss amid writes of four hosts leaves is restored: all accepted writes, and no other.
fn try_amid<R>(rt: &R, alloc: Global)
where
    R: Threads + Wait + Clock + Abort + Copy + Send + Sync,
{
    let profile = tiny(rt, alloc);
    let map = ReadyMap {
        interleaving: Interleaving::Lines,
        checked: profile.checked,
    };
    let ready = opened(rt, alloc, &map, &profile, AMPLE, HOSTS);
    let earlier = lose_amid::<_, _, _, Brand, R>(rt, alloc, ready);
    let Ok(later) = open(
        rt,
        alloc,
        &map,
        &profile,
        earlier.device,
        Meter::with(AMPLE, 1),
        HOSTS,
    ) else {
        panic!(*rt; "an image");
    };
    let count = later.recorded.running.accepted();
    same(rt, count, earlier.accepted);
    same(
        rt,
        differing(&earlier.history, &later.recorded.history, count),
        0,
    );
}

#[test]
fn a_loss_amid_four_hosts_is_restored(rt: HostRuntime) {
    try_amid(&rt, rt.alloc());
}
