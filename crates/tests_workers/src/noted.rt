// Ports that note when they are asked for commands, and a gate that looks whether they were.
use channel_port::{ChannelPort, Collected, Done, Got, Ticket};
use ddr4_timing::place::Place;
use energy_budget::{Costs, Dark, Energy};
use line_memory::{Line, Write};
use std::marker::Model;
use std::sync::atomic::{AtomicBool, AtomicU64, Ordering};
use worker_turns::{Gate, Turn};

/// How often each of two ports was asked to issue commands.
#[derive(Drop)]
pub(crate) struct Asked {
    zero: AtomicU64,
    one: AtomicU64,
}

impl Asked {
    /// Before any port is asked.
    pub(crate) fn new() -> Asked {
        Asked {
            zero: AtomicU64::new(0),
            one: AtomicU64::new(0),
        }
    }

    fn of(&self, channel: u64) -> &AtomicU64 {
        if channel == 0 { &self.zero } else { &self.one }
    }

    /// How often the port of a channel was asked.
    pub(crate) fn times(&self, channel: u64) -> u64 {
        self.of(channel).load(Ordering::SeqCst)
    }
}

/// The port of a channel, which notes each time that it is asked to issue commands. Contracts see the port.
#[derive(Drop)]
pub(crate) struct NotedPort<'a, K: ChannelPort> {
    pub port: K,
    pub channel: u64,
    pub asked: &'a Asked,
}

impl<K: ChannelPort> NotedPort<'_, K> {
    fn note(&self) {
        self.asked.of(self.channel).fetch_add(1, Ordering::SeqCst);
    }
}

impl<'a, K: ChannelPort> Model for NotedPort<'a, K> {
    ghost Value = { K };

    ghost view = { λ p. p.port };
}

impl<K: ChannelPort> ChannelPort for NotedPort<'_, K> {
    ghost view = { K.view };

    ghost carries = { K.carries };

    ghost issued = { K.issued };

    ghost next_command = { K.next_command };

    ghost drain_cost = { K.drain_cost };

    ghost drained = { K.drained };

    ghost own_writes = { K.own_writes };

    ghost own_reads = { K.own_reads };

    ghost own_tickets = { K.own_tickets };

    ghost one_next = { K.one_next };

    ghost settled = { K.settled };

    fn place(&self, line: u64) -> Place {
        self.port.place(line)
    }

    fn pending(&self) -> usize {
        self.port.pending()
    }

    fn is_full(&self) -> bool {
        self.port.is_full()
    }

    fn is_full_of_reads(&self) -> bool {
        self.port.is_full_of_reads()
    }

    fn has_below(&self, number: u64) -> bool {
        self.port.has_below(number)
    }

    fn put(&mut self, number: u64, write: Write, place: Place) {
        self.port.put(number, write, place);
    }

    fn get(&mut self, line: u64, place: Place, at: u64) -> Got {
        self.port.get(line, place, at)
    }

    fn collect(&mut self, ticket: Ticket) -> Collected {
        self.port.collect(ticket)
    }

    fn work(&mut self) -> Option<Done> {
        self.note();
        self.port.work()
    }

    fn hold(&mut self, from: Option<u64>) {
        self.port.hold(from);
    }

    fn stored(&self, line: u64, place: Place) -> Line {
        self.port.stored(line, place)
    }

    fn lose_mains(&mut self) {
        self.port.lose_mains();
    }

    fn drain<E: Energy>(&mut self, costs: &Costs, energy: &mut E) -> Result<(), Dark> {
        self.note();
        self.port.drain(costs, energy)
    }

    fn drain_paid(&mut self, costs: &Costs) {
        self.note();
        self.port.drain_paid(costs);
    }
}

/// Holds each worker for three questions, and then lets it go. It keeps how often it was asked, and whether a worker's port had been
/// asked for commands by then.
#[derive(Drop)]
pub(crate) struct Ahead<'a> {
    ports: &'a Asked,
    questions: AtomicU64,
    late: AtomicBool,
}

/// What such a gate saw.
#[derive(Clone, Copy, Debug, PartialEq, Eq)]
pub(crate) struct Seen {
    pub questions: u64,
    pub late: bool,
}

impl Ahead<'_> {
    /// Before any question.
    pub(crate) fn of(ports: &Asked) -> Ahead<'_> {
        Ahead {
            ports,
            questions: AtomicU64::new(0),
            late: AtomicBool::new(false),
        }
    }

    /// What it saw so far.
    pub(crate) fn seen(&self) -> Seen {
        Seen {
            questions: self.questions.load(Ordering::SeqCst),
            late: self.late.load(Ordering::SeqCst),
        }
    }

    fn told(&self, worker: u64, turn: u64) -> Turn {
        self.questions.fetch_add(1, Ordering::SeqCst);
        if self.ports.times(worker) > 0 {
            self.late.store(true, Ordering::SeqCst);
        }
        if turn < 3 { Turn::Hold } else { Turn::Go }
    }
}

impl Gate for Ahead<'_> {
    ghost use Rattle.std.specs.Prelude.{⊤};

    // Any answer may come at any turn.
    ghost says = { λ _ _ _ _. ⊤ };

    ghost says_inside = { λ _ _ _ _. ⊤ };

    fn pass(&self, worker: u64, turn: u64) -> Turn {
        self.told(worker, turn)
    }

    fn inside(&self, worker: u64, turn: u64) -> Turn {
        self.told(worker, turn)
    }
}
