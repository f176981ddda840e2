// What a module hands to its channels.
ghost use Rattle.std.specs.Prelude.{◌≡◌, ◌==◌, ◌+◌, ◌<◌, ◌++◌, [], ◌∷◌, ℕ, List, false, length, None, Some, IfNone, IfSome};
ghost use Rattle.std.specs.Option.{option_map};
ghost use Rattle.line_memory.specs.declared.Write.{Write};
ghost use Rattle.line_memory.specs.Memory.{after, line_of};
ghost use Rattle.energy_budget.specs.declared.costs.CostNumbers.{CostNumbers};
ghost use Rattle.channel_port.specs.Answers.{IsCollected, IsGot, IsServed, Puts};
ghost use Rattle.channel_port.specs.Waits.{AllBelow, reads_on, writes_on};
ghost use Rattle.channel_port.specs.declared.stage.Stage.TheVariants.{OnMains};

use crate::ChannelSet;
use channel_port::{ChannelPort, Collected, Done, Got, Ticket};
use ddr4_timing::place::Place;
use line_memory::Write;

impl<K: ChannelPort> ChannelSet<K> {
    ghost use Rattle.channel_set.specs.Set.{AreAt, NextCommand, place_in, shape_of, view_of};
    ghost use Rattle.channel_set.specs.Carrying.{CarriesAll, KeepsAll};
    ghost use Rattle.channel_set.specs.Draining.{cost_of_drains};
    ghost use Rattle.channel_set.specs.Issuing.{IssuesNone, IssuesOn};

    /// Takes a write at the place of its line, whose number is above those of all that wait. No other channel is asked.
    pub fn put(&mut self, number: u64, write: Write, place: Place)
        requires line { write.line < (shape_of K.ChannelPort self.old).lines }
        requires place { place ≡ place_in K.ChannelPort self.old write.line }
        requires above { AllBelow number (view_of K.ChannelPort self.old).waits.writes }
        requires room { (writes_on place.channel (view_of K.ChannelPort self.old).waits.writes
            == (shape_of K.ChannelPort self.old).depth) ≡ false }
        requires mains { AreAt K.ChannelPort OnMains self.old }
        ensures puts { Puts number place.channel (view_of K.ChannelPort self.old).waits
            (view_of K.ChannelPort self.new).waits }
        ensures rest { view_of K.ChannelPort self.new ≡ record (view_of K.ChannelPort self.old) {
          waits = (view_of K.ChannelPort self.new).waits;
        } }
        ensures issued { IssuesOn K.ChannelPort place.channel None self.old self.new }
        ensures mains { AreAt K.ChannelPort OnMains self.new }
        ensures carries { (base : List (List ℕ)) (start : ℕ) (writes : List Write)
            → CarriesAll K.ChannelPort self.old base start writes
            → number ≡ start + length writes
            → CarriesAll K.ChannelPort self.new base start (writes ++ write ∷ []) }
    {
        self.ports[place.channel as usize].put(number, write, place);
    }

    /// Answers a read at the place of its line, at once or with a ticket; `at` is the number of writes put before it.
    pub fn get(&mut self, line: u64, place: Place, at: u64) -> Got
        requires line { line < (shape_of K.ChannelPort self.old).lines }
        requires place { place ≡ place_in K.ChannelPort self.old line }
        requires room { (reads_on place.channel (view_of K.ChannelPort self.old).waits.reads
            == (shape_of K.ChannelPort self.old).reads) ≡ false }
        requires mains { AreAt K.ChannelPort OnMains self.old }
        ensures got { (base : List (List ℕ)) (start : ℕ) (writes : List Write)
            → CarriesAll K.ChannelPort self.old base start writes
            → IsGot (line_of (after base writes) line) line at place.channel result
            (view_of K.ChannelPort self.old).waits (view_of K.ChannelPort self.new).waits }
        ensures rest { view_of K.ChannelPort self.new ≡ record (view_of K.ChannelPort self.old) {
          waits = (view_of K.ChannelPort self.new).waits;
        } }
        ensures writes { (view_of K.ChannelPort self.new).waits.writes
            ≡ (view_of K.ChannelPort self.old).waits.writes }
        ensures issued { IssuesOn K.ChannelPort place.channel None self.old self.new }
        ensures mains { AreAt K.ChannelPort OnMains self.new }
        ensures keeps { KeepsAll K.ChannelPort self.old self.new }
    {
        self.ports[place.channel as usize].get(line, place, at)
    }

    /// What there is for a ticket; `Unknown` for one of a channel that isn't there.
    pub fn collect(&mut self, ticket: Ticket) -> Collected
        ensures collected { IsCollected ticket result (view_of K.ChannelPort self.old).waits
            (view_of K.ChannelPort self.new).waits }
        ensures rest { view_of K.ChannelPort self.new ≡ record (view_of K.ChannelPort self.old) {
          waits = (view_of K.ChannelPort self.new).waits;
        } }
        ensures issued { IssuesOn K.ChannelPort ticket.channel None self.old self.new }
        ensures mains { AreAt K.ChannelPort OnMains self.old
            → AreAt K.ChannelPort OnMains self.new }
        ensures keeps { KeepsAll K.ChannelPort self.old self.new }
    {
        if ticket.channel >= self.ports.len() as u64 {
            return Collected::Unknown;
        }
        self.ports[ticket.channel as usize].collect(ticket)
    }

    /// Issues one command of a channel, where it has one. No other channel is asked.
    pub fn work(&mut self, channel: u64) -> Option<Done>
        requires channel { channel < (shape_of K.ChannelPort self.old).channels }
        requires mains { AreAt K.ChannelPort OnMains self.old }
        ensures served { IfSome result (λ done.
            IsServed (view_of K.ChannelPort self.old).hold channel done.served
            (view_of K.ChannelPort self.old).waits (view_of K.ChannelPort self.new).waits) }
        ensures next { NextCommand K.ChannelPort self.old channel
            (option_map (λ done. done.command) result) }
        ensures stays { IfNone result
            (view_of K.ChannelPort self.new ≡ view_of K.ChannelPort self.old) }
        ensures rest { view_of K.ChannelPort self.new ≡ record (view_of K.ChannelPort self.old) {
          waits = (view_of K.ChannelPort self.new).waits;
          array = (view_of K.ChannelPort self.new).array;
        } }
        ensures issued { IssuesOn K.ChannelPort channel (option_map (λ done. done.command) result)
            self.old self.new }
        ensures mains { AreAt K.ChannelPort OnMains self.new }
        ensures keeps { KeepsAll K.ChannelPort self.old self.new }
    {
        self.ports[channel as usize].work()
    }

    /// From now on writes from this number on stay out of the arrays; or none does. It costs the number of requests that wait.
    pub fn hold(&mut self, from: Option<u64>)
        ensures held { view_of K.ChannelPort self.new
            ≡ record (view_of K.ChannelPort self.old) { hold = from } }
        ensures cost { (numbers : CostNumbers) → cost_of_drains K.ChannelPort self.new numbers
            ≡ cost_of_drains K.ChannelPort self.old numbers }
        ensures issued { IssuesNone K.ChannelPort self.old self.new }
        ensures mains { AreAt K.ChannelPort OnMains self.old
            → AreAt K.ChannelPort OnMains self.new }
        ensures keeps { KeepsAll K.ChannelPort self.old self.new }
    {
        self.terms.hold = from;
        for port in self.ports.iter_mut() {
            port.hold(from);
        }
    }
}
