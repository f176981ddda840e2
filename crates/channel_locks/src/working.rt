// What a channel does under its lock alone.
ghost use Rattle.std.specs.Prelude.{◌≡◌};

use crate::locked_channel::LockedChannel;
use crate::parts_name::PartsName;
use channel_port::{ChannelPort, Collected, Done, Ticket};

impl<K: ChannelPort, B: PartsName> LockedChannel<K, B> {
    ghost use Rattle.channel_locks.specs.Alone.{CollectsAlone, WorksAlone, lost_mains_in};

    /// Issues one command of the channel, where mains are there and it has one.
    pub fn work(&mut self) -> Option<Done>
        ensures works { WorksAlone K.ChannelPort result self.old.part self.new.part }
        ensures seat { self.new.seat ≡ self.old.seat }
        ensures number { self.new.number ≡ self.old.number }
    {
        match &mut self.part {
            Some(part) => part.work(),
            None => None,
        }
    }

    /// What there is for a ticket; `Unknown` for one of another channel, and once mains were lost.
    pub fn collect(&mut self, ticket: Ticket) -> Collected
        ensures collects { CollectsAlone K.ChannelPort ticket result self.old.part self.new.part }
        ensures seat { self.new.seat ≡ self.old.seat }
        ensures number { self.new.number ≡ self.old.number }
    {
        match &mut self.part {
            Some(part) => part.collect(ticket),
            None => Collected::Unknown,
        }
    }

    /// Were mains lost? False where the board lacks the channel.
    pub fn has_ended(&self) -> bool
        ensures { result ≡ lost_mains_in K.ChannelPort self.now.part }
    {
        match &self.part {
            Some(part) => part.has_ended(),
            None => false,
        }
    }
}
