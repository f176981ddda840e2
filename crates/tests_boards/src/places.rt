// The places of a channel for open reads.
ghost use Rattle.std.specs.Prelude.{◌≡◌};

use crate::check::{CHANNELS, same};
use crate::claims::claim_to;
use crate::quiet::PLACES;
use arm_state::ReadRefusal;
use board_hosts::{BoardName, Host};
use channel_locks::PartsName;
use channel_port::ChannelPort;
use energy_budget::Energy;
use notice_book::Notices;
use save_device::SaveDevice;
use split_board::Board;
use std::alloc::Global;
use std::process::Abort;
use std::sync::Wait;

// Takes all places of channel 0 for open reads: each line that is asked for has one, and then there is none. All are answered.
fn take_places<K, D, E, B, N, R>(
    rt: &R,
    alloc: Global,
    board: &Board<K, D, E, B, N>,
    host: &mut Host<B>,
)
where
    K: ChannelPort + Drop,
    D: SaveDevice + Drop,
    E: Energy + Drop,
    B: BoardName + PartsName,
    N: Notices,
    R: Wait + Abort,
{
    let mut claims = Vec::new(alloc);
    for place in 0..PLACES {
        let claim = claim_to(rt, board, host, CHANNELS * place);
        claims.push(claim).expect(rt, "memory");
    }
    let next = CHANNELS * PLACES;
    same(rt, board.read(rt, host, next), Err(ReadRefusal::Full));
    same(rt, board.ask(rt, host, next).is_err(), true);
    for claim in claims {
        same(rt, board.await_line(rt, claim).is_ok(), true);
    }
}

/// More reads than there are places, each of which is served: none of them keeps its place.
pub(crate) fn read_on<K, D, E, B, N, R>(
    rt: &R,
    alloc: Global,
    board: &Board<K, D, E, B, N>,
    host: &mut Host<B>,
)
where
    K: ChannelPort + Drop,
    D: SaveDevice + Drop,
    E: Energy + Drop,
    B: BoardName + PartsName,
    N: Notices,
    R: Wait + Abort,
{
    take_places(rt, alloc, board, host);
    for place in 0..2 * PLACES {
        same(rt, board.read(rt, host, CHANNELS * place).is_ok(), true);
    }
    take_places(rt, alloc, board, host);
}
