// The hold of a part, and its end.
ghost use Rattle.std.specs.Prelude.{◌≡◌, ◌++◌, [], ◌∷◌, ℕ, List, true, false, None, Some};
ghost use Rattle.channel_log.specs.declared.entry.LogEntry.TheVariants.{HeldFrom, Released, Ended};
ghost use Rattle.channel_log.specs.Log.{LogNote, log_tells, note_of};
ghost use Rattle.channel_port.specs.Carried.{WaitFrom};
ghost use Rattle.channel_port.specs.View.{on_backup};

use crate::part::Part;
use channel_port::ChannelPort;

impl<K: ChannelPort> Part<K> {
    ghost use Rattle.channel_locks.specs.Stands.{PartStands, SameButPort, StandsNoted, queue_of, returned_of};

    /// From now on writes from this number on stay out of the channel's array. What is held is to wait: so the part stands for the
    /// log that tells of the hold where each of its writes from this number on waits.
    pub fn hold_from(&mut self, number: u64)
        requires { returned_of K.ChannelPort self.old ≡ 0 }
        ensures held { K.view self.new.port
            ≡ record (K.view self.old.port) { hold = Some number } }
        ensures cost { K.drain_cost self.new.port ≡ K.drain_cost self.old.port }
        ensures issued { K.issued self.new.port ≡ K.issued self.old.port }
        ensures same { SameButPort K.ChannelPort self.old self.new }
        ensures stands { (channel : ℕ) (base : List (List ℕ)) (log : List LogNote)
            → PartStands K.ChannelPort self.old channel base log
            → WaitFrom number (log_tells log).written (queue_of K.ChannelPort self.old)
            → PartStands K.ChannelPort self.new channel base
            (log ++ note_of (HeldFrom number) (K.view self.new.port).waits ∷ []) }
    {
        self.port.hold(Some(number));
    }

    /// From now on no write of the channel is held back.
    pub fn release(&mut self)
        requires { returned_of K.ChannelPort self.old ≡ 0 }
        ensures held { K.view self.new.port ≡ record (K.view self.old.port) { hold = None } }
        ensures cost { K.drain_cost self.new.port ≡ K.drain_cost self.old.port }
        ensures issued { K.issued self.new.port ≡ K.issued self.old.port }
        ensures same { SameButPort K.ChannelPort self.old self.new }
        ensures stands { StandsNoted K.ChannelPort Released self.old self.new }
    {
        self.port.hold(None);
    }

    /// Mains were lost: the channel's work ends, and all its reads are lost. Its credits and its hold stay as they are.
    pub fn end(&mut self)
        requires running { self.old.ended ≡ false }
        requires taken { returned_of K.ChannelPort self.old ≡ 0 }
        ensures lost { K.view self.new.port ≡ on_backup (K.view self.old.port) }
        ensures ended { self.new.ended ≡ true }
        ensures channel { self.new.channel ≡ self.old.channel }
        ensures credits { self.new.credits ≡ self.old.credits }
        ensures cost { K.drain_cost self.new.port ≡ K.drain_cost self.old.port }
        ensures issued { K.issued self.new.port ≡ K.issued self.old.port }
        ensures stands { StandsNoted K.ChannelPort Ended self.old self.new }
    {
        self.port.lose_mains();
        self.ended = true;
    }
}
