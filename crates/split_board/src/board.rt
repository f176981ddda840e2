// The locks.
ghost use Rattle.std.specs.Prelude.{◌≡◌, ◌<◌};
ghost use Rattle.board_desk.specs.Answering.{IsAskedFor};
ghost use Rattle.split_board.specs.Lines.{AreLinesOfBoard};

use board_desk::{Desk, LockedDesk};
use board_hosts::BoardName;
use channel_locks::{LineChannels, LockedChannels, PartsName};
use channel_port::ChannelPort;
use energy_budget::Energy;
use notice_book::Notices;
use save_device::SaveDevice;
use std::sync::Mutex;

/// A module that threads share: the board's lock, a lock for each channel, and a book of notices behind a lock of its own. Who
/// takes the board's lock and channels' takes the board's first. No call takes the lock of the notices beside another.
#[derive(Drop)]
pub struct Board<K: ChannelPort, D: SaveDevice, E: Energy, B: BoardName + PartsName, N: Notices> {
    pub(crate) desk: Mutex<LockedDesk<K, D, E, B>>,
    pub(crate) channels: LockedChannels<K, B>,
    pub(crate) lines: LineChannels,
    pub(crate) notices: Mutex<N>,
    ghost laid: { AreLinesOfBoard B.BoardName B.PartsName lines },
}

impl<K: ChannelPort, D: SaveDevice, E: Energy, B: BoardName + PartsName, N: Notices> Board<
    K,
    D,
    E,
    B,
    N,
> {
    // Puts a desk, its channels and a book of notices behind their locks.
    pub(crate) fn new(
        desk: Desk<K, D, E, B>,
        channels: LockedChannels<K, B>,
        lines: LineChannels,
        notices: N,
    ) -> Board<K, D, E, B, N>
        requires { AreLinesOfBoard B.BoardName.own B.PartsName lines }
        ensures channels { result.channels ≡ channels }
        ensures lines { result.lines ≡ lines }
    {
        Board {
            desk: Mutex::new(LockedDesk { desk: Some(desk) }),
            channels,
            lines,
            notices: Mutex::new(notices),
        }
    }

    // The channel of a line; 0 where there is no such line.
    pub(crate) fn channel_of(&self, line: u64) -> u64
        ensures asked { IsAskedFor B.make line result }
        ensures eight { result < 8 }
    {
        self.lines.channel_of(line)
    }
}
