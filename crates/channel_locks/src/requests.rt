// What a part is given, and its commands.
ghost use Rattle.std.specs.Prelude.{◌≡◌, ◌≢◌, ◌==◌, ◌+◌, ◌<◌, ℕ, List, true, false, None, IfNone, IfSome};
ghost use Rattle.std.specs.Option.{option_map};
ghost use Rattle.line_memory.specs.Memory.{after, line_of};
ghost use Rattle.line_memory.specs.Parts.{numbered, writes_of};
ghost use Rattle.channel_log.specs.declared.entry.LogEntry.TheVariants.{Wrote, Looked};
ghost use Rattle.channel_log.specs.Log.{LogNote, log_tells};
ghost use Rattle.channel_port.specs.declared.answers.Collected.TheVariants.{Unknown};
ghost use Rattle.channel_port.specs.Answers.{IsCollected, IsGot, IsServed};
ghost use Rattle.channel_port.specs.Issuing.{with_issued};
ghost use Rattle.channel_port.specs.View.{is_full_of_reads, with_write};
ghost use Rattle.channel_port.specs.Waits.{AllBelow};
ghost use Rattle.channel_locks.specs.Queue.{returned_by};

use crate::part::Part;
use channel_port::{ChannelPort, Collected, Done, Got, Ticket};
use ddr4_timing::place::Place;
use line_memory::Write;

impl<K: ChannelPort> Part<K> {
    ghost use Rattle.channel_locks.specs.Stands.{PartStands, SameButPort, StandsStill, StandsNoted, queue_of, returned_of};

    /// Takes all returned credits back, and says how many. What waits is noted.
    pub fn take_back(&mut self) -> u64
        ensures all { result ≡ returned_of K.ChannelPort self.old }
        ensures none { returned_of K.ChannelPort self.new ≡ 0 }
        ensures credits { self.new.credits + result ≡ self.old.credits }
        ensures port { self.new.port ≡ self.old.port }
        ensures channel { self.new.channel ≡ self.old.channel }
        ensures ended { self.new.ended ≡ self.old.ended }
        ensures stands { StandsNoted K.ChannelPort Looked self.old self.new }
    {
        let returned = self.returned();
        self.credits -= returned;
        returned
    }

    /// Takes a write of one of the channel's lines, whose number is above those of all that wait, with a credit.
    pub fn write(&mut self, number: u64, write: Write, place: Place)
        requires running { self.old.ended ≡ false }
        requires line { write.line < (K.view self.old.port).lines }
        requires place { place ≡ (K.view self.old.port).place_of write.line }
        requires here { place.channel ≡ self.old.channel }
        requires above { AllBelow number (queue_of K.ChannelPort self.old) }
        requires taken { returned_of K.ChannelPort self.old ≡ 0 }
        requires room { (self.old.credits == (K.view self.old.port).depth) ≡ false }
        ensures puts { K.view self.new.port ≡ with_write number (K.view self.old.port) }
        ensures issued { K.issued self.new.port ≡ K.issued self.old.port }
        ensures credits { self.new.credits ≡ self.old.credits + 1 }
        ensures taken { returned_of K.ChannelPort self.new ≡ 0 }
        ensures channel { self.new.channel ≡ self.old.channel }
        ensures ended { self.new.ended ≡ self.old.ended }
        ensures stands { StandsNoted K.ChannelPort (Wrote (numbered number write))
            self.old self.new }
    {
        self.port.put(number, write, place);
        self.credits = self.port.pending() as u64;
    }

    /// Answers a read of one of the channel's lines, at once or with a ticket; `at` is the number of writes accepted before it. No
    /// returned credit is left, and what waits is noted.
    pub fn read(&mut self, line: u64, place: Place, at: u64) -> Got
        requires running { self.old.ended ≡ false }
        requires line { line < (K.view self.old.port).lines }
        requires place { place ≡ (K.view self.old.port).place_of line }
        requires here { place.channel ≡ self.old.channel }
        requires taken { returned_of K.ChannelPort self.old ≡ 0 }
        requires room { is_full_of_reads (K.view self.old.port) ≡ false }
        ensures got { (channel : ℕ) (base : List (List ℕ)) (log : List LogNote)
            → PartStands K.ChannelPort self.old channel base log
            → IsGot (line_of (after base (writes_of (log_tells log).written)) line) line at channel
            result (K.view self.old.port).waits (K.view self.new.port).waits }
        ensures writes { queue_of K.ChannelPort self.new ≡ queue_of K.ChannelPort self.old }
        ensures rest { K.view self.new.port ≡ record (K.view self.old.port) {
          waits = (K.view self.new.port).waits;
        } }
        ensures issued { K.issued self.new.port ≡ K.issued self.old.port }
        ensures same { SameButPort K.ChannelPort self.old self.new }
        ensures stands { StandsNoted K.ChannelPort Looked self.old self.new }
    {
        self.port.get(line, place, at)
    }

    /// The next command of the channel, where it has one; None once mains were lost. Where the command takes a write into the
    /// array, the write's credit is a returned one from then on.
    pub fn work(&mut self) -> Option<Done>
        ensures ended { self.old.ended ≡ true → (result ≡ None) × (self.new ≡ self.old) }
        ensures next { self.old.ended ≡ false
            → K.next_command self.old.port (option_map (λ done. done.command) result) }
        ensures served { IfSome result (λ done. IsServed (K.view self.old.port).hold
            self.old.channel done.served
            (K.view self.old.port).waits (K.view self.new.port).waits) }
        ensures stays { IfNone result (K.view self.new.port ≡ K.view self.old.port) }
        ensures returned { returned_of K.ChannelPort self.new
            ≡ returned_of K.ChannelPort self.old + returned_by result }
        ensures rest { K.view self.new.port ≡ record (K.view self.old.port) {
          waits = (K.view self.new.port).waits;
          stored = (K.view self.new.port).stored;
        } }
        ensures issued { K.issued self.new.port
            ≡ with_issued (option_map (λ done. done.command) result) (K.issued self.old.port) }
        ensures same { SameButPort K.ChannelPort self.old self.new }
        ensures stands { StandsStill K.ChannelPort self.old self.new }
    {
        if self.ended {
            return None;
        }
        self.port.work()
    }

    /// What there is for a ticket; `Unknown` for one of another channel.
    pub fn collect(&mut self, ticket: Ticket) -> Collected
        ensures elsewhere { ticket.channel ≢ self.old.channel
            → (result ≡ Unknown) × (self.new ≡ self.old) }
        ensures collected { IsCollected ticket result
            (K.view self.old.port).waits (K.view self.new.port).waits }
        ensures writes { queue_of K.ChannelPort self.new ≡ queue_of K.ChannelPort self.old }
        ensures rest { K.view self.new.port ≡ record (K.view self.old.port) {
          waits = (K.view self.new.port).waits;
        } }
        ensures issued { K.issued self.new.port ≡ K.issued self.old.port }
        ensures same { SameButPort K.ChannelPort self.old self.new }
        ensures stands { StandsStill K.ChannelPort self.old self.new }
    {
        if ticket.channel != self.channel {
            return Collected::Unknown;
        }
        self.port.collect(ticket)
    }
}
