// The board of a module, before anything is asked of it.
ghost use Rattle.std.specs.Prelude.{◌≡◌, vec_len};
ghost use Rattle.ddr4_boards.specs.Naming.{IsNamed};

use crate::silent::Silent;
use board_hosts::BoardName;
use channel_locks::PartsName;
use channel_port::ChannelPort;
use ddr4_boards::Ready;
use energy_budget::Energy;
use save_device::SaveDevice;
use split_board::Started;
use std::alloc::Global;
use std::process::Abort;

/// How many hosts a board has.
pub(crate) const HOSTS: usize = 2;

/// The board of this module, with no room for notices, and its hosts.
pub(crate) fn started<K, D, E, B, R>(
    rt: &R,
    alloc: Global,
    ready: Ready<K, D, E>,
) -> Started<K, D, E, B, Silent>
where
    K: ChannelPort + Drop,
    D: SaveDevice + Drop,
    E: Energy + Drop,
    B: BoardName + PartsName,
    R: Abort,
    requires { IsNamed K.ChannelPort B.Ledger B.BoardName.own B.PartsName.own
        ready.tables ready.recorded }
    ensures { vec_len result.hosts ≡ B.parts }
{
    let Ok(started) = ready.board::<B, Silent>(alloc, Silent) else {
        panic!(*rt; "memory");
    };
    started
}
