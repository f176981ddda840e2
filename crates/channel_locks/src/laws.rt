// What the credits of a part say of its channel.
ghost use Rattle.std.specs.Prelude.{◌≡◌, ◌<◌, ◌≤◌, ℕ, All, List, count_by, nat_le, true};
ghost use Rattle.std.specs.Option.{ForSome};
ghost use Rattle.line_memory.specs.Parts.{AreBefore};
ghost use Rattle.channel_log.specs.Log.{IsLog, LogNote, log_tells};
ghost use Rattle.channel_port.specs.Waits.{AllBelow};
ghost use Rattle.channel_locks.specs.declared.part.Part.{Part};
ghost use Rattle.channel_locks.specs.Queue.{waits_no_more};
ghost use Rattle.channel_locks.specs.Stands.{PartStands, queue_of};

use channel_port::ChannelPort;

/// What is known of a channel by its log, whatever its part did meanwhile. A number above those of all its writes is above those
/// that wait (`above`). At least as many credits are out as writes are held (`held`), and each write that waits no more is below
/// the hold (`below`).
pub fn credits_tell_what_waits<K: ChannelPort>()
    ensures above { (part : Part K K.ChannelPort) (channel : ℕ) (base : List (List ℕ))
        (log : List LogNote) (number : ℕ) → PartStands K.ChannelPort part channel base log
        → AreBefore number (log_tells log).written
        → AllBelow number (queue_of K.ChannelPort part) }
    ensures held { (part : Part K K.ChannelPort) (channel : ℕ) (base : List (List ℕ))
        (log : List LogNote) → PartStands K.ChannelPort part channel base log → IsLog log
        → ForSome (log_tells log).hold (λ n.
        count_by (λ w. nat_le n w.number) (log_tells log).written ≤ part.credits) }
    ensures below { (part : Part K K.ChannelPort) (channel : ℕ) (base : List (List ℕ))
        (log : List LogNote) → PartStands K.ChannelPort part channel base log
        → ForSome (log_tells log).hold (λ n.
        All (λ w. waits_no_more (queue_of K.ChannelPort part) w ≡ true → w.number < n)
        (log_tells log).written) }
{}
