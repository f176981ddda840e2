// How the tests end a board.
ghost use Rattle.std.specs.Prelude.{◌≡◌, length};

use crate::check::same;
use board_hosts::{BoardName, Closed, Cut, Host, Receipt, RecordedModule, Seen, Stranger};
use channel_locks::PartsName;
use channel_port::ChannelPort;
use energy_budget::Energy;
use notice_book::Notices;
use save_device::SaveDevice;
use split_board::{Board, NotClosed, close};
use std::process::Abort;

/// What was told of receipts and answers.
pub(crate) fn cut_of(from: u64, checked: u64, past: u64) -> Cut {
    Cut {
        from,
        checked,
        past,
    }
}

/// Fails where a board isn't closed with these receipts and answers: this is told of them, and so many writes are stored.
pub(crate) fn ends<K, D, E, B, N, R>(
    rt: &R,
    board: Board<K, D, E, B, N>,
    hosts: Vec<Host<B>>,
    receipts: &[Receipt],
    answers: &[Seen],
    wanted: (Cut, usize),
)
where
    K: ChannelPort + Drop,
    D: SaveDevice + Drop,
    E: Energy + Drop,
    B: BoardName + PartsName,
    N: Notices + Drop,
    R: Abort,
    requires { length hosts.items ≡ B.parts }
{
    let got = match close(board, hosts, receipts, answers) {
        Ok(closed) => (
            cut_of(closed.from, closed.checked, closed.past),
            closed.recorded.history.writes().len(),
        ),
        Err(left) => (cut_of(0, 0, 0), left.stranger.index),
    };
    same(rt, got, wanted);
}

/// Fails where a board isn't closed, or where its gauge shows another level then.
pub(crate) fn ends_at<K, D, E, B, N, R>(
    rt: &R,
    board: Board<K, D, E, B, N>,
    hosts: Vec<Host<B>>,
    level: u64,
)
where
    K: ChannelPort + Drop,
    D: SaveDevice + Drop,
    E: Energy + Drop,
    B: BoardName + PartsName,
    N: Notices + Drop,
    R: Abort,
    requires { length hosts.items ≡ B.parts }
{
    let Ok(Closed { recorded, .. }) = close(board, hosts, &[], &[]) else {
        panic!(*rt; "a stranger");
    };
    let RecordedModule { mut energy, .. } = recorded;
    same(rt, energy.sense(), level);
}

/// Fails where a board is closed, or where another than this is the stranger. The board and its hosts are left.
pub(crate) fn is_strange<K, D, E, B, N, R>(
    rt: &R,
    board: Board<K, D, E, B, N>,
    hosts: Vec<Host<B>>,
    receipts: &[Receipt],
    answers: &[Seen],
    wanted: Stranger,
) -> NotClosed<K, D, E, B, N>
where
    K: ChannelPort + Drop,
    D: SaveDevice + Drop,
    E: Energy + Drop,
    B: BoardName + PartsName,
    N: Notices + Drop,
    R: Abort,
    requires { length hosts.items ≡ B.parts }
    ensures { result.hosts ≡ hosts }
{
    match close(board, hosts, receipts, answers) {
        Ok(_) => panic!(*rt; "no stranger"),
        Err(left) => {
            same(rt, left.stranger, wanted);
            left
        }
    }
}
