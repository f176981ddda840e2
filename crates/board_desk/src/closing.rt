// A board is put together for good, once all its threads were joined.
ghost use Rattle.std.specs.Prelude.{◌≡◌};
ghost use Rattle.board_desk.specs.Closing.{HaveModule};

use crate::board_port::BoardPort;
use crate::desk::Desk;
use crate::lent_desk::LentDesk;
use board_hosts::{BoardName, Held};
use channel_locks::{LockedChannel, LockedChannels, PartsName, UnlockedChannels};
use channel_port::ChannelPort;
use energy_budget::Energy;
use save_device::SaveDevice;

impl<K: ChannelPort + Drop, D: SaveDevice, E: Energy, B: BoardName + PartsName> Desk<K, D, E, B> {
    ghost use Rattle.std.specs.Prelude.{◌+◌, ◌++◌, ◌<◌, [], length, map};
    ghost use Rattle.channel_locks.specs.Numbers.{AreNumbered};
    ghost use Rattle.channel_locks.specs.Unlocked.{parts_of, ports_in};
    ghost use Rattle.board_desk.specs.Loans.{HaveLent};
    ghost use Rattle.board_desk.specs.Views.{SameButCounts, SameModule};

    // Takes the first channel out of a list, and settles it for good. It lends its port and doesn't have it back.
    fn take_channel(&mut self, channels: &mut Vec<LockedChannel<K, B>>, number: u64)
        requires some { 0 < length channels.old.items }
        requires numbered { AreNumbered K.ChannelPort B.PartsName number channels.old.items }
        requires have { ∥ HaveLent K.ChannelPort B.PartsName.own
            self.old.known.logs number self.old.room.items ∥₁ }
        ensures count { length channels.new.items + 1 ≡ length channels.old.items }
        ensures numbered { AreNumbered K.ChannelPort B.PartsName (number + 1) channels.new.items }
        ensures have { ∥ HaveLent K.ChannelPort B.PartsName.own
            self.new.known.logs (number + 1) self.new.room.items ∥₁ }
        ensures ports { self.new.room.items
            ++ ports_in K.ChannelPort (map (λ channel. channel.part) channels.new.items)
            ≡ self.old.room.items
            ++ ports_in K.ChannelPort (map (λ channel. channel.part) channels.old.items) }
        ensures same { SameModule K.ChannelPort D.SaveDevice E.Energy B.BoardName.own
            B.PartsName.own self.old self.new }
    {
        let mut channel = channels.remove(0);
        self.settle(&mut channel);
        let LockedChannel {
            mut part,
            mut seat,
            ..
        } = channel;
        self.lend(number, &mut part, &mut seat);
    }

    // Takes all channels, in order. Each lends its port and doesn't have it back.
    fn take_channels(&mut self, channels: UnlockedChannels<K, B>)
        requires { self.old.room.items ≡ [] }
        ensures have { ∥ HaveLent K.ChannelPort B.PartsName.own
            self.new.known.logs 8 self.new.room.items ∥₁ }
        ensures ports { self.new.room.items
            ≡ ports_in K.ChannelPort (parts_of K.ChannelPort B.PartsName.own channels) }
        ensures same { SameModule K.ChannelPort D.SaveDevice E.Energy B.BoardName.own
            B.PartsName.own self.old self.new }
    {
        let mut channels = channels.channels;
        for number in 0..8 {
            self.take_channel(&mut channels, number);
        }
    }

    /// What lay behind the channels' locks, once no thread shares them any more. The desk is as it was.
    pub fn unlock(&mut self, channels: LockedChannels<K, B>) -> UnlockedChannels<K, B>
        ensures split { self.new.split ≡ self.old.split }
        ensures known { self.new.known ≡ self.old.known }
        ensures same { SameButCounts K.ChannelPort D.SaveDevice E.Energy B.BoardName.own
            B.PartsName.own self.old self.new }
    {
        channels.into_inner(&self.logs, &mut self.known)
    }
}

/// Puts the module together from what lay behind the nine locks, with its record, its marks and the count of the hosts' writes.
/// Front, ports, device, gauge and record are as they lay there. It takes no memory.
pub fn gather_all<K: ChannelPort + Drop, D: SaveDevice, E: Energy, B: BoardName + PartsName>(
    mut desk: Desk<K, D, E, B>,
    channels: UnlockedChannels<K, B>,
) -> Held<BoardPort<K, B>, D, E, B>
    ensures { HaveModule K.ChannelPort D.SaveDevice E.Energy B.BoardName.own B.PartsName.own
        ⟦<BoardPort<K, B> as ChannelPort>⟧ desk channels result.recorded }
{
    desk.room.clear();
    desk.take_channels(channels);
    let LentDesk { rest, books } = desk.apart();
    Held::new(rest.gather(), books.marks, books.seat, books.tally)
}
