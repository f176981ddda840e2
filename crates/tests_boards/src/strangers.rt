// Strangers among what hosts were told, as a board ends.
ghost use Rattle.std.specs.Prelude.{◌≡◌, length};

use crate::check::{answer_at, first_receipt, same, write_of};
use crate::ends::{cut_of, ends, is_strange};
use arm_state::{ArmReply, Loss};
use board_hosts::{Always, BoardName, Host, Stranger};
use channel_locks::PartsName;
use channel_port::ChannelPort;
use energy_budget::Energy;
use notice_book::Notices;
use save_device::SaveDevice;
use split_board::{Board, NotClosed};
use std::process::Abort;
use std::sync::Wait;
use std::thread::Threads;

/// Ends a board whose one write is that of line 0: a receipt and an answer that nobody was given are found, and the board
/// and its hosts are left.
pub(crate) fn end_with_strangers<K, D, E, B, N, R>(
    rt: &R,
    board: Board<K, D, E, B, N>,
    hosts: Vec<Host<B>>,
)
where
    K: ChannelPort + Drop,
    D: SaveDevice + Drop,
    E: Energy + Drop,
    B: BoardName + PartsName,
    N: Notices + Drop,
    R: Abort,
    requires { length hosts.items ≡ B.parts }
{
    let receipts = [first_receipt(0), first_receipt(1)];
    let answers = [answer_at(1), answer_at(0)];
    let strange = Stranger {
        answer: false,
        index: 1,
    };
    let NotClosed { board, hosts, .. } = is_strange(rt, board, hosts, &receipts, &answers, strange);
    let strange = Stranger {
        answer: true,
        index: 1,
    };
    let NotClosed { board, hosts, .. } = is_strange(
        rt,
        board,
        hosts,
        &receipts[..1],
        &answers,
        strange,
    );
    ends(
        rt,
        board,
        hosts,
        &receipts[..1],
        &answers[..1],
        (cut_of(0, 2, 0), 1),
    );
}

/// Arms, and writes line 0.
pub(crate) fn write_armed<K, D, E, B, N, R>(
    rt: &R,
    board: &Board<K, D, E, B, N>,
    host: &mut Host<B>,
)
where
    K: ChannelPort + Drop,
    D: SaveDevice + Drop,
    E: Energy + Drop,
    B: BoardName + PartsName,
    N: Notices,
    R: Wait + Abort,
{
    same(rt, board.arm(rt), Ok(ArmReply::Armed));
    let receipt = first_receipt(0);
    same(rt, board.write(rt, host, write_of(0, 11)), Ok(receipt));
}

/// Ends an armed board whose one write is that of line 0. A stranger leaves it armed, and a loss of mains saves the write.
pub(crate) fn end_armed<K, D, E, B, N, R>(rt: &R, board: Board<K, D, E, B, N>, hosts: Vec<Host<B>>)
where
    K: ChannelPort + Drop + Send,
    D: SaveDevice + Drop,
    E: Energy + Drop,
    B: BoardName + PartsName + Send,
    N: Notices + Drop,
    R: Threads + Wait + Abort + Sync,
    requires { length hosts.items ≡ B.parts }
{
    let strange = Stranger {
        answer: false,
        index: 0,
    };
    let NotClosed { board, hosts, .. } = is_strange(
        rt,
        board,
        hosts,
        &[first_receipt(1)],
        &[],
        strange,
    );
    same(rt, board.arm(rt), Ok(ArmReply::AlreadyArmed));
    let saved = Loss::Saved {
        generation: 2,
        count: 1,
    };
    same(rt, board.power_loss(rt, &Always), saved);
    ends(
        rt,
        board,
        hosts,
        &[first_receipt(0)],
        &[],
        (cut_of(0, 1, 0), 1),
    );
}
