// Calls of a board on one thread: the commands that they leave to its channels, and how often they read the gauge. The expected
// values are worked out by hand.
ghost use Rattle.std.specs.Prelude.{◌≡◌, length};

use crate::alone::saved;
use crate::check::{AMPLE, CHANNELS, first_receipt, same, write_of};
use crate::ends::{cut_of, is_strange};
use crate::gates::{EachTurn, Turns};
use arm_state::{ArmRefusal, ArmReply, DisarmReply};
use board_hosts::{BoardName, Closed, Ended, Host, RecordedModule, Stranger, Turn};
use channel_locks::PartsName;
use channel_port::ChannelPort;
use energy_budget::Energy;
use module_core::Module;
use notice_book::Notices;
use nv_machine::StepReply;
use save_device::SaveDevice;
use slot_store::Step;
use split_board::{Asked, Board, NotClosed, channel_worker, close};
use std::process::Abort;
use std::sync::Wait;
use std::time::Clock;

/// How many writes may wait in a channel of the small profile, and how many of its reads may be open.
pub(crate) const PLACES: u64 = 8;

/// More commands than any case leaves.
const MOST: u64 = 64;

/// Less energy than a closing save takes, in units.
pub(crate) const LITTLE: u64 = 100;

/// How many commands the two channels have left to issue.
#[derive(Clone, Copy, Debug, PartialEq, Eq)]
pub(crate) struct Left {
    pub zero: u64,
    pub one: u64,
}

// How many commands a channel has left to issue.
fn left_on<K: ChannelPort>(running: &mut Module<K>, channel: u64) -> u64 {
    let mut left: u64 = 0;
    for _ in 0..MOST {
        if channel >= running.channels().count() || running.work(channel).is_none() {
            break;
        }
        left = left.saturating_add(1);
    }
    left
}

// The clock of the command that a channel issues next.
fn next_on<K: ChannelPort>(running: &mut Module<K>, channel: u64) -> Option<u64> {
    if channel >= running.channels().count() {
        return None;
    }
    let done = running.work(channel)?;
    Some(done.command.clock)
}

/// How many commands the two channels of a module have left to issue.
pub(crate) fn left_in<K: ChannelPort>(running: &mut Module<K>) -> Left {
    let zero = left_on(running, 0);
    let one = left_on(running, 1);
    Left { zero, one }
}

/// Reads a line that waits for its commands, and then writes it.
pub(crate) fn read_and_write<K, D, E, B, N, R>(
    rt: &R,
    board: &Board<K, D, E, B, N>,
    host: &mut Host<B>,
)
where
    K: ChannelPort + Drop,
    D: SaveDevice + Drop,
    E: Energy + Drop,
    B: BoardName + PartsName,
    N: Notices,
    R: Wait + Abort,
{
    same(rt, board.read(rt, host, 0).is_ok(), true);
    same(rt, board.write(rt, host, write_of(0, 11)).is_ok(), true);
}

/// Ends that board. The read issued an ACT and, 16 clocks behind it, an RD, so that the WR of the write comes 10 clocks behind that.
pub(crate) fn end_read<K, D, E, B, N, R>(rt: &R, board: Board<K, D, E, B, N>, hosts: Vec<Host<B>>)
where
    K: ChannelPort + Drop,
    D: SaveDevice + Drop,
    E: Energy + Drop,
    B: BoardName + PartsName,
    N: Notices + Drop,
    R: Abort,
    requires { length hosts.items ≡ B.parts }
{
    let Ok(Closed { recorded, .. }) = close(board, hosts, &[], &[]) else {
        panic!(*rt; "a stranger");
    };
    let RecordedModule { mut running, .. } = recorded;
    same(rt, next_on(&mut running, 0), Some(26));
}

/// Ends a board, whose channels have so many commands left.
pub(crate) fn ends_with<K, D, E, B, N, R>(
    rt: &R,
    board: Board<K, D, E, B, N>,
    hosts: Vec<Host<B>>,
    wanted: Left,
)
where
    K: ChannelPort + Drop,
    D: SaveDevice + Drop,
    E: Energy + Drop,
    B: BoardName + PartsName,
    N: Notices + Drop,
    R: Abort,
    requires { length hosts.items ≡ B.parts }
{
    let Ok(Closed { recorded, .. }) = close(board, hosts, &[], &[]) else {
        panic!(*rt; "a stranger");
    };
    let RecordedModule { mut running, .. } = recorded;
    same(rt, left_in(&mut running), wanted);
}

/// A write on each channel, and then the calls of a whole module, a saver, a read and a worker that is held: none issues a command.
pub(crate) fn call_each<K, D, E, B, N, R>(rt: &R, board: &Board<K, D, E, B, N>, host: &mut Host<B>)
where
    K: ChannelPort + Drop,
    D: SaveDevice + Drop,
    E: Energy + Drop,
    B: BoardName + PartsName,
    N: Notices,
    R: Wait + Clock + Abort,
    requires { CHANNELS ≡ B.channels }
{
    for line in 0..CHANNELS {
        same(rt, board.write(rt, host, write_of(line, 11)).is_ok(), true);
    }
    same(rt, board.sense(rt), AMPLE - 1);
    same(rt, board.arm(rt), Ok(ArmReply::Armed));
    same(rt, board.disarm(rt), Ok(DisarmReply::Disarming));
    same(rt, board.save_begin(rt), Err(ArmRefusal::SaveRunning));
    same(rt, board.save_step(rt), StepReply::Did(Step::Close));
    same(rt, saved(rt, board, 8), Ended::Stopped);
    same(rt, board.save_step(rt), StepReply::Waiting);
    same(rt, board.cut(rt, &[], &[]), Ok(cut_of(0, 0, 0)));
    same(rt, board.read(rt, host, 0).is_ok(), true);
    let held = EachTurn::new(Turn::Hold, 3);
    same(rt, channel_worker(rt, board, 0, &held), Ended::Stopped);
}

/// Ends that board behind a stranger. Each channel has the ACT and the WR of its write left.
pub(crate) fn end_called<K, D, E, B, N, R>(rt: &R, board: Board<K, D, E, B, N>, hosts: Vec<Host<B>>)
where
    K: ChannelPort + Drop,
    D: SaveDevice + Drop,
    E: Energy + Drop,
    B: BoardName + PartsName,
    N: Notices + Drop,
    R: Abort,
    requires { length hosts.items ≡ B.parts }
{
    let strange = Stranger {
        answer: false,
        index: 0,
    };
    let NotClosed { board, hosts, .. } = is_strange(
        rt,
        board,
        hosts,
        &[first_receipt(1)],
        &[],
        strange,
    );
    ends_with(rt, board, hosts, Left { zero: 2, one: 2 });
}

/// So many writes of line 0, and then what else is asked while no worker of channel 0 goes.
pub(crate) fn write_line<K, D, E, B, N, R>(
    rt: &R,
    board: &Board<K, D, E, B, N>,
    host: &mut Host<B>,
    writes: u64,
)
where
    K: ChannelPort + Drop,
    D: SaveDevice + Drop,
    E: Energy + Drop,
    B: BoardName + PartsName,
    N: Notices,
    R: Wait + Clock + Abort,
    requires { CHANNELS ≡ B.channels }
{
    for _ in 0..writes {
        same(rt, board.write(rt, host, write_of(0, 11)).is_ok(), true);
    }
    let asked = board.ask(rt, host, 0);
    same(rt, matches!(asked, Ok(Asked::Now(_))), true);
    same(rt, board.read(rt, host, 0).is_ok(), true);
    let other = Turns { worker: 1, most: 4 };
    same(rt, channel_worker(rt, board, 1, &other), Ended::Stopped);
}

/// An arming that is refused for want of energy has read the gauge once, and so does a sense.
pub(crate) fn refuse_once<K, D, E, B, N, R>(rt: &R, board: &Board<K, D, E, B, N>)
where
    K: ChannelPort + Drop,
    D: SaveDevice + Drop,
    E: Energy + Drop,
    B: BoardName + PartsName,
    N: Notices,
    R: Wait + Abort,
{
    same(rt, board.arm(rt).is_err(), true);
    same(rt, board.sense(rt), LITTLE - 2);
    same(rt, board.sense(rt), LITTLE - 3);
}
