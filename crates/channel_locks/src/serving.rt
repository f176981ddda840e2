// A read that waits, and a write that finds no room, have their channel worked under its lock alone.
ghost use Rattle.std.specs.Prelude.{◌≡◌};

use crate::locked_channel::LockedChannel;
use crate::parts_name::PartsName;
use channel_port::{ChannelPort, Collected, Ticket};

/// How many commands a read or a write has its channel issue at most, in one hold of the lock.
const MOST_COMMANDS: u64 = 64;

impl<K: ChannelPort, B: PartsName> LockedChannel<K, B> {
    ghost use Rattle.channel_locks.specs.Alone.{MakesRoomAlone, ServesAlone, crowded_in};

    /// What there is for a ticket. While that is nothing the channel issues commands, 64 at most.
    pub fn serve(&mut self, ticket: Ticket) -> Collected
        ensures serves { ServesAlone K.ChannelPort ticket result self.old.part self.new.part }
        ensures seat { self.new.seat ≡ self.old.seat }
        ensures number { self.new.number ≡ self.old.number }
    {
        for _times in 0..MOST_COMMANDS {
            match self.collect(ticket) {
                Collected::Pending => {
                    // what was issued is told by what `collect` answers next
                    let _done = self.work();
                }
                answer => return answer,
            }
        }
        self.collect(ticket)
    }

    /// Whether the channel has no room for a further write, now and once its returned credits are taken back.
    pub fn is_crowded(&self) -> bool
        ensures { result ≡ crowded_in K.ChannelPort self.now.part }
    {
        match &self.part {
            Some(part) => part.returned() == 0 && part.is_full(),
            None => false,
        }
    }

    /// While the channel has no room for a write it issues commands, 64 at most.
    pub fn make_room(&mut self)
        ensures room { MakesRoomAlone K.ChannelPort self.old.part self.new.part }
        ensures seat { self.new.seat ≡ self.old.seat }
        ensures number { self.new.number ≡ self.old.number }
    {
        for _times in 0..MOST_COMMANDS {
            if !self.is_crowded() {
                return;
            }
            if self.work().is_none() {
                return;
            }
        }
    }
}
