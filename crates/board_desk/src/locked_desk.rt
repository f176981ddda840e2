// What lies behind the board's lock.
ghost use Rattle.std.specs.Prelude.{◌≡◌, true};
ghost use Rattle.std.specs.Option.{is_some};

use crate::desk::Desk;
use board_hosts::BoardName;
use channel_locks::PartsName;
use channel_port::ChannelPort;
use energy_budget::Energy;
use save_device::SaveDevice;

/// The desk of a board, which is there whenever the board's lock is free.
#[derive(Drop)]
pub struct LockedDesk<K: ChannelPort, D: SaveDevice, E: Energy, B: BoardName + PartsName> {
    pub desk: Option<Desk<K, D, E, B>>,
    pub ghost here: { is_some desk ≡ true },
}
