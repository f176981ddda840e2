// Boards whose histories are cut, on one thread, with room for two writes. The expected values are worked out by hand.
ghost use Rattle.std.specs.Prelude.{◌≡◌, length};

use crate::alone::{saved, worked};
use crate::check::{CHANNELS, answer_at, first_receipt, same, write_of};
use crate::ends::{cut_of, ends};
use arm_state::{ArmReply, DisarmReply, Loss, WriteRefusal};
use board_hosts::{Always, BoardName, Ended, Host, Receipt, Seen, Stranger};
use channel_locks::PartsName;
use channel_port::ChannelPort;
use energy_budget::Energy;
use notice_book::Notices;
use nv_machine::StepReply;
use save_device::SaveDevice;
use slot_store::Step;
use split_board::Board;
use std::process::Abort;
use std::sync::Wait;
use std::thread::Threads;
use std::time::Clock;

// The write of line 0 with this number, and with the number for its bytes.
fn receipt_of(number: u64) -> Receipt {
    Receipt {
        number,
        line: 0,
        data: [(number % 256) as u8; 64],
    }
}

// The next write of line 0.
fn write_next<K, D, E, B, N, R>(
    rt: &R,
    board: &Board<K, D, E, B, N>,
    host: &mut Host<B>,
    number: u64,
)
where
    K: ChannelPort + Drop,
    D: SaveDevice + Drop,
    E: Energy + Drop,
    B: BoardName + PartsName,
    N: Notices,
    R: Wait + Abort,
{
    let write = write_of(0, (number % 256) as u8);
    same(rt, board.write(rt, host, write), Ok(receipt_of(number)));
}

// Turns in which a save is begun and ends.
fn save_all<K, D, E, B, N, R>(rt: &R, board: &Board<K, D, E, B, N>)
where
    K: ChannelPort + Drop,
    D: SaveDevice + Drop,
    E: Energy + Drop,
    B: BoardName + PartsName,
    N: Notices,
    R: Wait + Clock + Abort,
    requires { CHANNELS ≡ B.channels }
{
    let turns = (worked(rt, board, 8), saved(rt, board, 12));
    same(rt, turns, (Ended::Stopped, Ended::Stopped));
    same(rt, board.save_step(rt), StepReply::NoSave);
}

/// Ten saves, each of two writes, and a third one that finds no room before a cut: all in the room of two.
pub(crate) fn cut_behind_saves<K, D, E, B, N, R>(
    rt: &R,
    board: &Board<K, D, E, B, N>,
    host: &mut Host<B>,
)
where
    K: ChannelPort + Drop,
    D: SaveDevice + Drop,
    E: Energy + Drop,
    B: BoardName + PartsName,
    N: Notices,
    R: Wait + Clock + Abort,
    requires { CHANNELS ≡ B.channels }
{
    for round in 0..10 {
        let (first, second) = (2 * round, 2 * round + 1);
        write_next(rt, board, host, first);
        write_next(rt, board, host, second);
        let full = Err(WriteRefusal::TrailFull);
        same(rt, board.write(rt, host, write_of(0, 99)), full);
        save_all(rt, board);
        same(rt, board.write(rt, host, write_of(0, 99)), full);
        let receipts = [receipt_of(first), receipt_of(second)];
        same(
            rt,
            board.cut(rt, &receipts, &[]),
            Ok(cut_of(second + 1, 2, 0)),
        );
    }
}

/// Ends a board that was cut at number 20: receipts and answers from both sides of it, and a write behind it.
pub(crate) fn end_behind_cuts<K, D, E, B, N, R>(
    rt: &R,
    board: Board<K, D, E, B, N>,
    mut hosts: Vec<Host<B>>,
)
where
    K: ChannelPort + Drop,
    D: SaveDevice + Drop,
    E: Energy + Drop,
    B: BoardName + PartsName,
    N: Notices + Drop,
    R: Wait + Abort,
    requires hosts { length hosts.items ≡ B.parts }
    requires some { B.parts ≡ 2 }
{
    write_next(rt, &board, &mut hosts.as_mut_slice()[0], 20);
    let (early, late) = (receipt_of(19), receipt_of(20));
    let seen = Seen {
        line: 0,
        data: [19; 64],
        at: 20,
    };
    let answers = [answer_at(19), seen];
    ends(
        rt,
        board,
        hosts,
        &[early, late],
        &answers,
        (cut_of(20, 2, 2), 1),
    );
}

/// A cut that takes nothing and one that takes a write, in each mode, amid a save and twice in a row.
pub(crate) fn cut_in_each_mode<K, D, E, B, N, R>(
    rt: &R,
    board: &Board<K, D, E, B, N>,
    host: &mut Host<B>,
)
where
    K: ChannelPort + Drop,
    D: SaveDevice + Drop,
    E: Energy + Drop,
    B: BoardName + PartsName,
    N: Notices,
    R: Wait + Clock + Abort,
    requires { CHANNELS ≡ B.channels }
{
    let (first, second) = (receipt_of(0), receipt_of(1));
    write_next(rt, board, host, 0);
    same(rt, board.cut(rt, &[first], &[]), Ok(cut_of(0, 1, 0)));
    same(rt, board.save_begin(rt), Ok(()));
    same(rt, board.save_step(rt), StepReply::Did(Step::Close));
    same(rt, board.cut(rt, &[first], &[]), Ok(cut_of(0, 1, 0)));
    save_all(rt, board);
    same(rt, board.cut(rt, &[first], &[]), Ok(cut_of(1, 1, 0)));
    same(rt, board.cut(rt, &[first], &[]), Ok(cut_of(1, 0, 1)));
    same(rt, board.arm(rt), Ok(ArmReply::Armed));
    write_next(rt, board, host, 1);
    let both = [first, second];
    same(rt, board.cut(rt, &both, &[]), Ok(cut_of(1, 1, 1)));
    same(rt, board.disarm(rt), Ok(DisarmReply::Disarming));
    same(rt, board.cut(rt, &both, &[]), Ok(cut_of(1, 1, 1)));
    save_all(rt, board);
    same(rt, board.cut(rt, &both, &[]), Ok(cut_of(2, 1, 1)));
    same(rt, board.cut(rt, &[], &[]), Ok(cut_of(2, 0, 0)));
}

// A loss of mains saves a further write, and that goes too.
fn cut_behind_a_loss<K, D, E, B, N, R>(rt: &R, board: &Board<K, D, E, B, N>, host: &mut Host<B>)
where
    K: ChannelPort + Drop + Send,
    D: SaveDevice + Drop,
    E: Energy + Drop,
    B: BoardName + PartsName + Send,
    N: Notices,
    R: Threads + Wait + Abort + Sync,
{
    same(rt, board.arm(rt), Ok(ArmReply::Armed));
    write_next(rt, board, host, 1);
    let lost = Loss::Saved {
        generation: 3,
        count: 2,
    };
    same(rt, board.power_loss(rt, &Always), lost);
    same(
        rt,
        board.cut(rt, &[receipt_of(1)], &[]),
        Ok(cut_of(2, 1, 0)),
    );
    same(
        rt,
        board.cut(rt, &[receipt_of(1)], &[]),
        Ok(cut_of(2, 0, 1)),
    );
}

/// Strangers stop a cut; behind a cut the same are past, also behind a loss of mains.
pub(crate) fn cut_beside_strangers<K, D, E, B, N, R>(
    rt: &R,
    board: &Board<K, D, E, B, N>,
    host: &mut Host<B>,
)
where
    K: ChannelPort + Drop + Send,
    D: SaveDevice + Drop,
    E: Energy + Drop,
    B: BoardName + PartsName + Send,
    N: Notices,
    R: Threads + Wait + Clock + Abort + Sync,
    requires { CHANNELS ≡ B.channels }
{
    same(
        rt,
        board.write(rt, host, write_of(0, 11)),
        Ok(first_receipt(0)),
    );
    save_all(rt, board);
    let (known, other) = (first_receipt(0), first_receipt(1));
    let (answer, index) = (false, 1);
    let strange = Err(Stranger { answer, index });
    same(rt, board.cut(rt, &[known, other], &[]), strange);
    let strange = Err(Stranger {
        answer: true,
        index: 0,
    });
    same(rt, board.cut(rt, &[known], &[answer_at(0)]), strange);
    same(
        rt,
        board.cut(rt, &[known], &[answer_at(1)]),
        Ok(cut_of(1, 2, 0)),
    );
    same(
        rt,
        board.cut(rt, &[other], &[answer_at(0)]),
        Ok(cut_of(1, 0, 2)),
    );
    cut_behind_a_loss(rt, board, host);
}

/// Ends a board that was cut at number 2: what lies before is past, and nothing is stored.
pub(crate) fn end_cut_off<K, D, E, B, N, R>(
    rt: &R,
    board: Board<K, D, E, B, N>,
    hosts: Vec<Host<B>>,
)
where
    K: ChannelPort + Drop,
    D: SaveDevice + Drop,
    E: Energy + Drop,
    B: BoardName + PartsName,
    N: Notices + Drop,
    R: Abort,
    requires { length hosts.items ≡ B.parts }
{
    ends(
        rt,
        board,
        hosts,
        &[first_receipt(0)],
        &[answer_at(1)],
        (cut_of(2, 0, 2), 0),
    );
}
