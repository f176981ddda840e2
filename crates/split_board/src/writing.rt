// A host's write.
ghost use Rattle.std.specs.Prelude.{◌<◌};
ghost use Rattle.board_desk.specs.Answering.{IsAskedFor};
ghost use Rattle.board_hosts.specs.Client.{SeesNoLess};
ghost use Rattle.split_board.specs.Hosts.{LentForWrite, WritesAtBoard};

use crate::board::Board;
use arm_state::WriteRefusal;
use board_hosts::{BoardName, Host, Receipt};
use channel_locks::{PartsName, take_lock};
use channel_port::ChannelPort;
use energy_budget::Energy;
use line_memory::Write;
use notice_book::Notices;
use save_device::SaveDevice;
use std::sync::Wait;

impl<K: ChannelPort, D: SaveDevice, E: Energy, B: BoardName + PartsName, N: Notices> Board<
    K,
    D,
    E,
    B,
    N,
> {
    // Takes the board's lock and then the line's channel's, and writes. The channel's lock is let go first.
    fn write_at<R: Wait>(
        &self,
        rt: &R,
        channel: u64,
        host: &mut Host<B>,
        write: Write,
    ) -> Result<Receipt, WriteRefusal>
        requires channel { channel < 8 }
        requires asked { IsAskedFor B.make write.line channel }
        ensures writes { LentForWrite K.ChannelPort D.SaveDevice E.Energy B.BoardName.own
            B.PartsName.own channel write result host.old host.new }
        ensures rises { SeesNoLess host.old host.new }
    {
        let mut locked = take_lock(rt, &self.desk);
        let Some(desk) = &mut locked.desk else {
            unreachable!();
        };
        let mut lent = self.channels.take(rt, channel);
        desk.write_in(&mut *lent, host, write)
    }

    /// Writes a line for a host. While its channel has no room the channel issues commands under its own lock alone, 64 at most;
    /// then the board's lock and the channel's are taken, and the host writes. A line that isn't there is refused at channel 0.
    pub fn write<R: Wait>(
        &self,
        rt: &R,
        host: &mut Host<B>,
        write: Write,
    ) -> Result<Receipt, WriteRefusal>
        ensures writes { WritesAtBoard K.ChannelPort D.SaveDevice E.Energy B.BoardName.own
            B.PartsName.own write result host.old host.new }
        ensures rises { SeesNoLess host.old host.new }
    {
        let channel = self.channel_of(write.line);
        self.channels.make_room(rt, channel);
        self.write_at(rt, channel, host, write)
    }
}
