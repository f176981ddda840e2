// Reads that wait on one channel.
ghost use Rattle.std.specs.Prelude.{◌≡◌, length};

use crate::check::{CHANNELS, same, write_of};
use crate::ends::{cut_of, ends};
use crate::gates::Turns;
use board_hosts::{BoardName, Ended, Host, Seen};
use channel_locks::PartsName;
use channel_port::ChannelPort;
use energy_budget::Energy;
use notice_book::Notices;
use save_device::SaveDevice;
use split_board::{Asked, Board, Claim, channel_worker};
use std::process::Abort;
use std::sync::Wait;
use std::time::Clock;

/// How many turns are enough for two writes to go to their array.
const TURNS: u64 = 64;

/// The claim to a line that waits for a command of its channel.
pub(crate) fn claim_to<K, D, E, B, N, R>(
    rt: &R,
    board: &Board<K, D, E, B, N>,
    host: &mut Host<B>,
    line: u64,
) -> Claim<B>
where
    K: ChannelPort + Drop,
    D: SaveDevice + Drop,
    E: Energy + Drop,
    B: BoardName + PartsName,
    N: Notices,
    R: Wait + Abort,
{
    match board.ask(rt, host, line) {
        Ok(Asked::Later(claim)) => claim,
        _ => panic!(*rt; "a claim"),
    }
}

// A line as it was read.
fn seen(line: u64, byte: u8, at: u64) -> Seen {
    let data = [byte; 64];
    Seen { line, data, at }
}

/// Two hosts wait for two lines of channel 1, and then one of the lines is written once more. Each host is given its own line, as it
/// was when it asked, whichever is given first.
pub(crate) fn wait_side_by_side<K, D, E, B, N, R>(
    rt: &R,
    board: &Board<K, D, E, B, N>,
    one: &mut Host<B>,
    other: &mut Host<B>,
)
where
    K: ChannelPort + Drop,
    D: SaveDevice + Drop,
    E: Energy + Drop,
    B: BoardName + PartsName,
    N: Notices,
    R: Wait + Clock + Abort,
    requires { CHANNELS ≡ B.channels }
{
    same(rt, board.write(rt, one, write_of(1, 11)).is_ok(), true);
    same(rt, board.write(rt, other, write_of(3, 33)).is_ok(), true);
    let gate = Turns {
        worker: 1,
        most: TURNS,
    };
    same(rt, channel_worker(rt, board, 1, &gate), Ended::Stopped);
    let first = claim_to(rt, board, one, 1);
    let second = claim_to(rt, board, other, 3);
    same(rt, board.write(rt, other, write_of(1, 55)).is_ok(), true);
    same(rt, board.await_line(rt, second), Ok(seen(3, 33, 2)));
    same(rt, board.await_line(rt, first), Ok(seen(1, 11, 2)));
    same(rt, board.read(rt, one, 1), Ok(seen(1, 55, 3)));
}

/// Ends that board: its history bears out each line as it was read.
pub(crate) fn end_seen<K, D, E, B, N, R>(rt: &R, board: Board<K, D, E, B, N>, hosts: Vec<Host<B>>)
where
    K: ChannelPort + Drop,
    D: SaveDevice + Drop,
    E: Energy + Drop,
    B: BoardName + PartsName,
    N: Notices + Drop,
    R: Abort,
    requires { length hosts.items ≡ B.parts }
{
    let answers = [seen(3, 33, 2), seen(1, 11, 2), seen(1, 55, 3)];
    ends(rt, board, hosts, &[], &answers, (cut_of(0, 3, 0), 3));
}
