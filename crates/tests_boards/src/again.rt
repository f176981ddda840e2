// A life that goes on at another board, with the module that its first board left.
ghost use Rattle.std.specs.Prelude.{◌≡◌, ◌≤◌};
ghost use Rattle.ddr4_boards.specs.Naming.{IsNamed};
ghost use Rattle.split_board.specs.Starting.{IsBoardOf};

use crate::check::{AMPLE, opened, same, tiny, write_of};
use crate::quiet::{Left, left_in};
use crate::silent::Silent;
use board_desk::BoardPort;
use board_hosts::{BoardName, Closed, Host, Opening, Receipt, RecordedModule, Seen};
use channel_locks::PartsName;
use channel_port::ChannelPort;
use ddr4_boards::Ready;
use energy_budget::Energy;
use interleave_map::{Interleaving, ReadyMap};
use save_device::SaveDevice;
use split_board::{Board, BoardTables, Started, close, start};
use std::alloc::Global;
use std::marker::Brand;
use std::process::Abort;
use std::sync::Wait;
use std::thread::Threads;

/// How many lines are written at each board.
const EACH: u64 = 4;

// Writes the lines from `from` on, each with its number for bytes and as the write of its number, and keeps their receipts.
fn write_lines<K, D, E, B, R>(
    rt: &R,
    board: &Board<K, D, E, B, Silent>,
    host: &mut Host<B>,
    receipts: &mut Vec<Receipt>,
    from: u64,
)
where
    K: ChannelPort + Drop,
    D: SaveDevice + Drop,
    E: Energy + Drop,
    B: BoardName + PartsName,
    R: Wait + Abort,
{
    for line in from..from.saturating_add(EACH) {
        let Ok(receipt) = board.write(rt, host, write_of(line, (line % 256) as u8)) else {
            panic!(*rt; "a refusal");
        };
        same(rt, receipt.number, line);
        receipts.push(receipt).expect(rt, "memory");
    }
}

// Goes on with a life at a board of its module: a line of the first board is read, others are written, and the receipts of both
// boards are borne out. No board issues a command as it begins or as it ends: each channel has an ACT and four WR left.
fn live_on<K, D, E, B, R>(
    rt: &R,
    alloc: Global,
    tables: BoardTables,
    recorded: RecordedModule<K, D, E>,
    mut receipts: Vec<Receipt>,
)
where
    K: ChannelPort + Drop,
    D: SaveDevice + Drop,
    E: Energy + Drop,
    B: BoardName + PartsName,
    R: Wait + Abort,
    requires name { tables.opening.name ≡ B.name }
    requires parts { tables.opening.parts ≡ B.parts }
    requires board { tables.opening.board ≡ B.board }
    requires mark { tables.opening.mark ≤ recorded.running.front.persisted }
    requires logs { tables.logs ≡ B.logs }
    requires life { IsBoardOf K.ChannelPort D.SaveDevice E.Energy B.BoardName.own B.PartsName.own
        recorded }
    requires host { B.parts ≡ 1 }
{
    let Ok(Started { board, mut hosts }) = start::<K, D, E, B, Silent>(
        alloc, tables, recorded, Silent,
    ) else {
        panic!(*rt; "memory");
    };
    let host = &mut hosts.as_mut_slice()[0];
    let seen = Seen {
        line: 3,
        data: [3; 64],
        at: EACH,
    };
    same(rt, board.read(rt, host, 3), Ok(seen));
    write_lines(rt, &board, host, &mut receipts, EACH);
    let Ok(
        Closed {
            recorded,
            checked,
            ..
        },
    ) = close(board, hosts, receipts.as_slice(), &[seen])
    else {
        panic!(*rt; "a stranger");
    };
    same(
        rt,
        (checked, recorded.running.accepted()),
        (EACH + EACH + 1, EACH + EACH),
    );
    let RecordedModule { mut running, .. } = recorded;
    same(rt, left_in(&mut running), Left { zero: 5, one: 5 });
}

// Begins a life at a board, closes that one, and goes on at another one.
fn live_twice<K, D, E, B, R>(rt: &R, alloc: Global, ready: Ready<K, D, E>)
where
    K: ChannelPort + Drop,
    D: SaveDevice + Drop,
    E: Energy + Drop,
    B: BoardName + PartsName,
    R: Wait + Abort,
    requires named { IsNamed K.ChannelPort B.Ledger B.BoardName.own B.PartsName.own
        ready.tables ready.recorded }
    requires host { B.parts ≡ 1 }
{
    let Ok(Started { board, mut hosts }) = ready.board::<B, Silent>(alloc, Silent) else {
        panic!(*rt; "memory");
    };
    let mut receipts = Vec::new(alloc);
    write_lines(rt, &board, &mut hosts.as_mut_slice()[0], &mut receipts, 0);
    let Ok(Closed { recorded, .. }) = close(board, hosts, receipts.as_slice(), &[]) else {
        panic!(*rt; "a stranger");
    };
    if recorded.history.start() != recorded.running.start() {
        panic!(*rt; "a life that was cut");
    }
    let opening = Opening::new(alloc, recorded.running.mark(), 1).expect(rt, "memory");
    let tables = BoardTables::new(alloc, opening).expect(rt, "memory");
    live_on::<BoardPort<K, B>, D, E, Brand, R>(rt, alloc, tables, recorded, receipts);
}

// Tries that on the channels of the small profile.
fn try_again<R: Wait + Abort + Threads>(rt: &R, alloc: Global) {
    let profile = tiny(rt, alloc);
    let map = ReadyMap {
        interleaving: Interleaving::Lines,
        checked: profile.checked,
    };
    let ready = opened(rt, alloc, &map, &profile, AMPLE, 1);
    live_twice::<_, _, _, Brand, R>(rt, alloc, ready);
}

#[test]
fn a_life_goes_on_at_another_board(rt: HostRuntime) {
    try_again(&rt, rt.alloc());
}
