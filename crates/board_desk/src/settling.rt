// A channel is settled: the desk sees what it has done under its own lock.
ghost use Rattle.std.specs.Prelude.{◌≡◌};

use crate::desk::Desk;
use crate::noting::look_at;
use board_hosts::BoardName;
use channel_locks::{LockedChannel, PartsName};
use channel_port::ChannelPort;
use energy_budget::Energy;
use save_device::SaveDevice;
use split_module::take_back;
use std::marker::Brand;

impl<K: ChannelPort, D: SaveDevice, E: Energy, B: BoardName + PartsName> Desk<K, D, E, B> {
    ghost use Rattle.board_desk.specs.Answering.{HasSettled, SameElsewhere, Settles, SettlesPart};
    ghost use Rattle.board_desk.specs.Views.{SameButCounts, desk_of};

    /// Takes all returned credits of a channel back, and notes what waits on it. A channel that the board lacks has none.
    pub fn settle(&mut self, channel: &mut LockedChannel<K, B>)
        ensures settles { Settles B.PartsName.own channel.old.number
            (desk_of K.ChannelPort D.SaveDevice E.Energy B.BoardName.own B.PartsName.own self.old)
            (desk_of K.ChannelPort D.SaveDevice E.Energy B.BoardName.own B.PartsName.own self.new) }
        ensures same { SameButCounts K.ChannelPort D.SaveDevice E.Energy B.BoardName.own
            B.PartsName.own self.old self.new }
        ensures elsewhere { SameElsewhere channel.old.number
            self.old.known.logs self.new.known.logs }
        ensures settled { HasSettled K.ChannelPort
            self.new.known.logs channel.new.part channel.new.seat.log }
        ensures part { SettlesPart K.ChannelPort channel.old.part channel.new.part }
        ensures number { channel.new.number ≡ channel.old.number }
    {
        let Some(part) = &mut channel.part else {
            return;
        };
        channel.seat.always();
        self.known.compare(&self.logs, &mut channel.seat);
        take_back(&mut self.split, part);
        look_at::<Brand, K>(&self.logs, &mut self.known, &mut channel.seat, part);
    }
}
