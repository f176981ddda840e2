// A port of a board, wherever it is.
ghost use Rattle.std.specs.Prelude.{◌≡◌};
ghost use Rattle.channel_locks.specs.PortMakes.{make_of};

use channel_locks::PartsName;
use channel_port::{ChannelPort, Collected, Done, Got, Ticket};
use ddr4_timing::place::Place;
use energy_budget::{Costs, Dark, Energy};
use line_memory::{Line, Write};
use std::marker::{Model, PhantomData};

/// A port that has in common with the board's other ports what the board's name says, also while a whole module has it. Contracts
/// see the port.
#[derive(Drop)]
pub struct BoardPort<K: ChannelPort, B: PartsName> {
    port: K,
    of: PhantomData<B>,
}

impl<K: ChannelPort, B: PartsName> Model for BoardPort<K, B> {
    ghost use Rattle.std.specs.Prelude.{◌≡◌};
    ghost use Rattle.channel_locks.specs.PortMakes.{make_of};

    ghost Value = { K };

    ghost view = { λ p. p.port };

    ghost invariant = { λ p. ∥ make_of (K.view p.port) ≡ B.make ∥₁ };
}

impl<K: ChannelPort, B: PartsName> BoardPort<K, B> {
    /// A port of the board.
    pub fn of(port: K) -> BoardPort<K, B>
        requires { ∥ make_of (K.view port) ≡ B.make ∥₁ }
        ensures { result ≡ port }
    {
        BoardPort {
            port,
            of: PhantomData,
        }
    }

    /// It is one of the board's ports.
    pub fn always(&self)
        ensures { ∥ make_of (K.view self.now) ≡ B.make ∥₁ }
    {
        // the port keeps it by its type, so there is nothing to do
        let _ = &self.port;
    }

    /// The port, which is still one of the board's.
    pub fn into_port(self) -> K
        ensures port { result ≡ self }
        ensures made { ∥ make_of (K.view result) ≡ B.make ∥₁ }
    {
        self.port
    }
}

impl<K: ChannelPort, B: PartsName> ChannelPort for BoardPort<K, B> {
    ghost view = { K.view };

    ghost carries = { K.carries };

    ghost issued = { K.issued };

    ghost next_command = { K.next_command };

    ghost drain_cost = { K.drain_cost };

    ghost drained = { K.drained };

    ghost own_writes = { K.own_writes };

    ghost own_reads = { K.own_reads };

    ghost own_tickets = { K.own_tickets };

    ghost one_next = { K.one_next };

    ghost settled = { K.settled };

    fn place(&self, line: u64) -> Place {
        self.port.place(line)
    }

    fn pending(&self) -> usize {
        self.port.pending()
    }

    fn is_full(&self) -> bool {
        self.port.is_full()
    }

    fn is_full_of_reads(&self) -> bool {
        self.port.is_full_of_reads()
    }

    fn has_below(&self, number: u64) -> bool {
        self.port.has_below(number)
    }

    fn put(&mut self, number: u64, write: Write, place: Place) {
        self.port.put(number, write, place);
    }

    fn get(&mut self, line: u64, place: Place, at: u64) -> Got {
        self.port.get(line, place, at)
    }

    fn collect(&mut self, ticket: Ticket) -> Collected {
        self.port.collect(ticket)
    }

    fn work(&mut self) -> Option<Done> {
        self.port.work()
    }

    fn hold(&mut self, from: Option<u64>) {
        self.port.hold(from);
    }

    fn stored(&self, line: u64, place: Place) -> Line {
        self.port.stored(line, place)
    }

    fn lose_mains(&mut self) {
        self.port.lose_mains();
    }

    fn drain<E: Energy>(&mut self, costs: &Costs, energy: &mut E) -> Result<(), Dark> {
        self.port.drain(costs, energy)
    }

    fn drain_paid(&mut self, costs: &Costs) {
        self.port.drain_paid(costs);
    }
}
