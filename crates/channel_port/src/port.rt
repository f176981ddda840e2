// One channel, as a module sees it.
ghost use Rattle.std.specs.Prelude.{◌≡◌, ◌++◌, [], ◌∷◌, ◌<◌, ◌≤◌, ℕ, List, All, Option, length, nat_lt, false, IfNone, IfSome, OnOk};
ghost use Rattle.std.specs.List.{list_any};
ghost use Rattle.std.specs.Option.{option_map};
ghost use Rattle.ddr4_timing.specs.declared.command.Stamped.{Stamped};
ghost use Rattle.line_memory.specs.declared.parts.Numbered.{Numbered};
ghost use Rattle.line_memory.specs.Memory.{after, line_of};
ghost use Rattle.line_memory.specs.Parts.{AreBefore, below, numbered, writes_of};
ghost use Rattle.energy_budget.specs.declared.costs.CostNumbers.{CostNumbers};
ghost use Rattle.energy_budget.specs.Costs.{AreReckonedFor};
ghost use Rattle.energy_budget.specs.Actions.{drain_actions, total_cost};
ghost use Rattle.channel_port.specs.View.{PortView, is_full, is_full_of_reads, on_backup, with_write};
ghost use Rattle.channel_port.specs.declared.stage.Stage.TheVariants.{OnBackup, OnMains};
ghost use Rattle.channel_port.specs.Waits.{AllBelow, emptied};
ghost use Rattle.channel_port.specs.Answers.{IsCollected, IsGot, IsServed};
ghost use Rattle.channel_port.specs.Issuing.{with_issued};
ghost use Rattle.channel_port.specs.Carried.{KeepsCarried, NoneBelow, WaitFrom};
ghost use Rattle.channel_port.specs.Draining.{PaysInTurn, TakesPaid};

use crate::{Collected, Done, Got, Ticket};
use ddr4_timing::place::Place;
use energy_budget::{Costs, Dark, Energy};
use line_memory::{Line, Write};

/// One channel of a module, as the lines of the host see it. Each write waits in it until a command takes it into the array,
/// and each read is answered as the memory is after all writes that were put before it, whatever the order of the commands.
///
/// A line's place is asked for once, and handed to the calls that need it; its channel is the port that they are asked of. No
/// call takes memory. On backup nothing is asked of a port but its drain and what it stores.
pub trait ChannelPort {
    /// What contracts see of the channel.
    ghost view: { Self → PortView };

    /// The channel's lines were those of this memory at first, and it was given these writes of them since.
    ghost carries: { Self → List (List ℕ) → List Numbered → Type 0 };

    /// The commands that it issued since it began, each with its clock, the oldest first.
    ghost issued: { Self → List Stamped };

    /// The command that it has to issue next, with its clock; none where it has nothing to issue.
    ghost next_command: { Self → Option Stamped → Type 0 };

    /// What its drain costs by these numbers: its commands, and the clocks up to its last one.
    ghost drain_cost: { Self → CostNumbers → ℕ };

    /// What its drain makes of it, once all of it was paid for.
    ghost drained: { Self → Self };

    /// Where a line lies.
    fn place(&self, line: u64) -> Place
        requires { line < (view self.now).lines }
        ensures { result ≡ (view self.now).place_of line };

    /// How many writes wait.
    fn pending(&self) -> usize
        ensures is { result ≡ length (view self.now).waits.writes }
        ensures most { result ≤ 64 };

    /// Whether there is no room for a further write.
    fn is_full(&self) -> bool
        ensures { result ≡ is_full (view self.now) };

    /// Whether there is no room for a further read.
    fn is_full_of_reads(&self) -> bool
        ensures { result ≡ is_full_of_reads (view self.now) };

    /// Whether a write below this number waits.
    fn has_below(&self, number: u64) -> bool
        ensures { result ≡ list_any (λ w. nat_lt w.number number) (view self.now).waits.writes };

    /// Takes a write of one of its lines, whose number is above those of all that wait.
    fn put(&mut self, number: u64, write: Write, place: Place)
        requires line { write.line < (view self.old).lines }
        requires place { place ≡ (view self.old).place_of write.line }
        requires here { place.channel ≡ (view self.old).number }
        requires above { AllBelow number (view self.old).waits.writes }
        requires room { is_full (view self.old) ≡ false }
        requires mains { (view self.old).stage ≡ OnMains }
        ensures puts { view self.new ≡ with_write number (view self.old) }
        ensures issued { issued self.new ≡ issued self.old }
        ensures carries { (base : List (List ℕ)) (mine : List Numbered)
            → carries self.old base mine → AreBefore number mine
            → carries self.new base (mine ++ numbered number write ∷ []) };

    /// Answers a read of one of its lines, at once or with a ticket that it never gave before; `at` is the number of writes put
    /// before it.
    fn get(&mut self, line: u64, place: Place, at: u64) -> Got
        requires line { line < (view self.old).lines }
        requires place { place ≡ (view self.old).place_of line }
        requires here { place.channel ≡ (view self.old).number }
        requires room { is_full_of_reads (view self.old) ≡ false }
        requires mains { (view self.old).stage ≡ OnMains }
        ensures got { (base : List (List ℕ)) (mine : List Numbered) → carries self.old base mine
            → IsGot (line_of (after base (writes_of mine)) line) line at (view self.old).number
            result (view self.old).waits (view self.new).waits }
        ensures writes { (view self.new).waits.writes ≡ (view self.old).waits.writes }
        ensures rest { view self.new ≡ record (view self.old) { waits = (view self.new).waits } }
        ensures issued { issued self.new ≡ issued self.old }
        ensures keeps { KeepsCarried (carries self.old) (carries self.new) };

    /// What there is for a ticket of the channel.
    fn collect(&mut self, ticket: Ticket) -> Collected
        requires here { ticket.channel ≡ (view self.old).number }
        ensures collected { IsCollected ticket result (view self.old).waits (view self.new).waits }
        ensures rest { view self.new ≡ record (view self.old) { waits = (view self.new).waits } }
        ensures issued { issued self.new ≡ issued self.old }
        ensures keeps { KeepsCarried (carries self.old) (carries self.new) };

    /// Issues one command, where there is one, and no other. The other calls on mains issue none.
    fn work(&mut self) -> Option<Done>
        requires mains { (view self.old).stage ≡ OnMains }
        ensures served { IfSome result (λ done. IsServed (view self.old).hold (view self.old).number
            done.served (view self.old).waits (view self.new).waits) }
        ensures next { next_command self.old (option_map (λ done. done.command) result) }
        ensures stays { IfNone result (view self.new ≡ view self.old) }
        ensures issued { issued self.new
            ≡ with_issued (option_map (λ done. done.command) result) (issued self.old) }
        ensures rest { view self.new ≡ record (view self.old) {
          waits = (view self.new).waits;
          stored = (view self.new).stored;
        } }
        ensures keeps { KeepsCarried (carries self.old) (carries self.new) };

    /// From now on writes from this number on stay out of the array; or none does.
    fn hold(&mut self, from: Option<u64>)
        ensures held { view self.new ≡ record (view self.old) { hold = from } }
        ensures cost { drain_cost self.new ≡ drain_cost self.old }
        ensures issued { issued self.new ≡ issued self.old }
        ensures keeps { KeepsCarried (carries self.old) (carries self.new) };

    /// A line in the array, without the writes that wait.
    fn stored(&self, line: u64, place: Place) -> Line
        requires line { line < (view self.now).lines }
        requires place { place ≡ (view self.now).place_of line }
        requires here { place.channel ≡ (view self.now).number }
        ensures { result ≡ (view self.now).stored line };

    /// Ends its work on mains, as backup begins: all reads are lost, and their tickets are unknown from now on.
    fn lose_mains(&mut self)
        requires mains { (view self.old).stage ≡ OnMains }
        ensures lost { view self.new ≡ on_backup (view self.old) }
        ensures cost { drain_cost self.new ≡ drain_cost self.old }
        ensures issued { issued self.new ≡ issued self.old }
        ensures keeps { KeepsCarried (carries self.old) (carries self.new) };

    /// On backup: pays for the close step and for the entry of each write, each before it is made, and takes the writes into
    /// the array in number order, whether they are held or not. Where a payment is refused nothing runs after it. By costs that
    /// are reckoned for its profile all these payments are no less than what its drain costs.
    fn drain<E: Energy>(&mut self, costs: &Costs, energy: &mut E) -> Result<(), Dark>
        requires backup { (view self.old).stage ≡ OnBackup }
        requires lost { (view self.old).waits.reads ≡ [] }
        ensures pays { PaysInTurn costs.now (drain_actions (length (view self.old).waits.writes))
            (E.gauge energy.old) result (E.gauge energy.new) }
        ensures takes { TakesPaid (drain_actions (length (view self.old).waits.writes))
            (view self.old).waits (E.gauge energy.old) result
            (view self.new).waits (E.gauge energy.new) }
        ensures covers { AreReckonedFor (view self.old).checked costs.now
            → drain_cost self.old costs.now.numbers
            ≤ total_cost costs.now (drain_actions (length (view self.old).waits.writes)) }
        ensures dry { OnOk result ((view self.new).waits ≡ emptied (view self.old).waits) }
        ensures drained { OnOk result (self.new ≡ drained self.old) }
        ensures rest { view self.new ≡ record (view self.old) {
          waits = (view self.new).waits;
          stage = (view self.new).stage;
          stored = (view self.new).stored;
        } }
        ensures keeps { KeepsCarried (carries self.old) (carries self.new) };

    /// The same drain on backup, where all of it was paid for before: what it leaves is what `drain` leaves. By these costs, which
    /// are reckoned for its profile, the payments of its actions are no less than what it costs.
    fn drain_paid(&mut self, costs: &Costs)
        requires backup { (view self.old).stage ≡ OnBackup }
        requires lost { (view self.old).waits.reads ≡ [] }
        requires reckoned { AreReckonedFor (view self.old).checked costs.now }
        ensures drained { self.new ≡ drained self.old }
        ensures dry { (view self.new).waits ≡ emptied (view self.old).waits }
        ensures covers { drain_cost self.old costs.now.numbers
            ≤ total_cost costs.now (drain_actions (length (view self.old).waits.writes)) }
        ensures rest { view self.new ≡ record (view self.old) {
          waits = (view self.new).waits;
          stage = (view self.new).stage;
          stored = (view self.new).stored;
        } }
        ensures keeps { KeepsCarried (carries self.old) (carries self.new) };

    /// What waits in a port is its own.
    ghost own_writes: { (port : Self) → All (λ w. w.channel ≡ (view port).number)
        (view port).waits.writes };

    ghost own_reads: { (port : Self) → All (λ r. r.ticket.channel ≡ (view port).number)
        (view port).waits.reads };

    /// Its tickets name it.
    ghost own_tickets: { (port : Self) → All (λ t. t.channel ≡ (view port).number)
        (view port).waits.given };

    /// It has one command to issue next, or none.
    ghost one_next: { (port : Self) (a b : Option Stamped)
        → next_command port a → next_command port b → a ≡ b };

    /// Once no write below n waits, and each of the channel's from n on does, its lines are those of the memory after the
    /// writes below n.
    ghost settled: { (port : Self) (base : List (List ℕ)) (mine : List Numbered) (n line : ℕ)
        → carries port base mine → NoneBelow n (view port).waits.writes
        → WaitFrom n mine (view port).waits.writes
        → line < (view port).lines → ((view port).place_of line).channel ≡ (view port).number
        → (view port).stored line ≡ line_of (after base (writes_of (below n mine))) line };
}
