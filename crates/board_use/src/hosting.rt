// What the hosts of a board do.
ghost use Rattle.std.specs.Prelude.{◌≡◌, []};

use crate::mains::Mains;
use crate::muster::Muster;
use crate::no_notices::NoNotices;
use board_hosts::{BoardName, Host, Receipt, Seen};
use channel_locks::PartsName;
use ddr4_port::Ddr4Port;
use energy_budget::{Energy, Meter};
use interleave_map::ReadyMap;
use save_device::{MemoryDevice, SaveDevice};
use split_board::Board;
use std::alloc::Global;
use std::sync::Wait;
use std::time::Clock;

/// A board over the DDR4 channels of a profile, over a device and a gauge; `B` is its name. In the plain case it is
/// `MeteredBoard<'_, B>`.
pub type MeteredBoard<'m, B, D = MemoryDevice, E = Meter> = Board<
    Ddr4Port<'m, ReadyMap>,
    D,
    E,
    B,
    NoNotices,
>;

/// What a host comes to: a value of the caller's, and the receipts and the answers that are to be checked at the end of the board.
#[derive(Drop)]
pub struct HostEnd<T> {
    pub value: T,
    pub receipts: Vec<Receipt>,
    pub answers: Vec<Seen>,
}

impl<T> HostEnd<T> {
    /// With nothing to be checked. It takes no memory.
    pub fn unchecked(alloc: Global, value: T) -> HostEnd<T>
        ensures value { result.value ≡ value }
        ensures receipts { result.receipts.items ≡ [] }
        ensures answers { result.answers.items ≡ [] }
    {
        HostEnd {
            value,
            receipts: Vec::new(alloc),
            answers: Vec::new(alloc),
        }
    }
}

/// What a caller wants done with a board: what each host does.
pub trait BoardUse<D: SaveDevice + Drop, E: Energy + Drop> {
    /// What a host comes to.
    type Value;

    /// What the host of a seat does, in a thread of its own. The seats are counted from 0. Beside it are the other hosts, a worker for
    /// each channel and a saver; they go until the last host is done or mains are lost, which a host may do by `mains`.
    fn host<'m, B, R>(
        &self,
        rt: &R,
        alloc: Global,
        board: &MeteredBoard<'m, B, D, E>,
        mains: &Mains,
        host: &mut Host<B>,
        seat: usize,
    ) -> HostEnd<Self::Value>
    where
        B: BoardName + PartsName,
        R: Wait + Clock;
}

/// A host that is done, and what it came to; nothing where a thread was refused.
#[derive(Drop)]
pub(crate) struct Done<B: BoardName, T> {
    pub host: Host<B>,
    pub end: Option<HostEnd<T>>,
}

/// What the host of a seat does once all threads are there.
pub(crate) fn host_one<'m, D, E, U, B, R>(
    rt: &R,
    alloc: Global,
    board: &MeteredBoard<'m, B, D, E>,
    uses: &U,
    mains: &Mains,
    muster: &Muster,
    mut host: Host<B>,
    seat: usize,
) -> Done<B, U::Value>
where
    D: SaveDevice + Drop,
    E: Energy + Drop,
    U: BoardUse<D, E>,
    B: BoardName + PartsName,
    R: Wait + Clock,
{
    let end = if muster.wait(rt) {
        Some(uses.host(rt, alloc, board, mains, &mut host, seat))
    } else {
        None
    };
    muster.leave();
    Done { host, end }
}
