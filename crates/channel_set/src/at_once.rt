// Backup: the channels are drained at once.
ghost use Rattle.std.specs.Prelude.{◌≡◌, ◌<◌, ◌≤◌, ℕ, [], All, OnErr, OnOk, length, slice_index_or};
ghost use Rattle.channel_port.specs.declared.stage.Stage.TheVariants.{OnBackup};
ghost use Rattle.channel_port.specs.Draining.{at_once};
ghost use Rattle.channel_set.specs.Paid.{AwaitsPaidDrain, DrainsPaid};
ghost use Rattle.worker_turns.specs.Waiting.{AreAwaited, AwaitsTurn};

use crate::ChannelSet;
use channel_port::ChannelPort;
use energy_budget::{Action, Costs, Dark, Energy};
use std::thread::{Threads, for_each_mut};
use worker_turns::{Gate, await_turn};

// Drains a port once the gate lets it go.
fn drain_port<K: ChannelPort, G: Gate>(port: &mut K, number: usize, costs: &Costs, gate: &G)
    requires { AwaitsPaidDrain K.ChannelPort costs.now port.old }
    ensures drains { DrainsPaid K.ChannelPort costs.now port.old port.new }
    ensures asked { AwaitsTurn G.Gate number gate.now }
{
    await_turn(gate, number as u64);
    port.drain_paid(costs);
}

// Drains ports at once, each in a thread of its own where one is to be had.
fn drain_ports<K: ChannelPort + Send, G: Gate + Sync, R: Threads + Sync>(
    rt: &R,
    ports: &mut [K],
    costs: &Costs,
    gate: &G,
)
    requires { All (AwaitsPaidDrain K.ChannelPort costs.now) ports.old }
    ensures drains { (i : ℕ) (d : K) → i < length ports.old → DrainsPaid K.ChannelPort costs.now
        (slice_index_or ports.old i d) (slice_index_or ports.new i d) }
    ensures asked { AreAwaited G.Gate gate.now 0 (length ports.old) }
{
    for_each_mut(
        rt,
        ports,
        8,
        &|number: usize, port: &mut K|
            requires { AwaitsPaidDrain K.ChannelPort costs.now port.now }
            ensures { DrainsPaid K.ChannelPort costs.entry.now port.entry.now port.exit.now
                × AwaitsTurn G.Gate number gate.entry.now }
        { drain_port(port, number, costs, gate) },
    );
}

impl<K: ChannelPort> ChannelSet<K> {
    ghost use Rattle.channel_set.specs.Set.{AreAt, view_of};
    ghost use Rattle.channel_set.specs.Carrying.{KeepsAll};
    ghost use Rattle.channel_set.specs.Draining.{DrainsAll, DrainsEach, cost_of_drains, paid_for_drains};

    // What is paid for the drains of all channels. It costs the number of channels.
    fn cost_at_once(&self) -> u64
        ensures { result ≡ paid_for_drains (view_of K.ChannelPort self.now) }
    {
        let close_steps = self.ports.len() as u64 * self.costs.cost(Action::CloseStep);
        close_steps + self.pending() * self.costs.cost(Action::EntryStep)
    }

    /// Pays once for the drains of all channels, and then drains them at once, each as `drain` does, where no read is open any
    /// more: whether or not a thread is to be had for each, they are left as `drain` leaves them. The gate is asked before each
    /// drain, by the channel's number, and again while it says Hold; Stop counts as Go. Where the payment is refused no channel
    /// is drained.
    pub fn drain_at_once<E: Energy, G: Gate + Sync, R: Threads + Sync>(
        &mut self,
        rt: &R,
        energy: &mut E,
        gate: &G,
    ) -> Result<(), Dark>
    where
        K: Send,
        requires backup { AreAt K.ChannelPort OnBackup self.old }
        requires lost { (view_of K.ChannelPort self.old).waits.reads ≡ [] }
        ensures drains { DrainsAll at_once (view_of K.ChannelPort self.old) (E.gauge energy.old)
            result (view_of K.ChannelPort self.new) (E.gauge energy.new) }
        ensures each { OnOk result (DrainsEach K.ChannelPort self.old self.new) }
        ensures asked { OnOk result (AreAwaited G.Gate gate.now 0 (length self.old.ports.items)) }
        ensures dark { OnErr result (self.new ≡ self.old) }
        ensures covers { OnOk result (cost_of_drains K.ChannelPort self.old self.old.costs.numbers
            ≤ paid_for_drains (view_of K.ChannelPort self.old)) }
        ensures keeps { KeepsAll K.ChannelPort self.old self.new }
    {
        energy.pay(self.cost_at_once())?;
        drain_ports(rt, &mut self.ports, &self.costs, gate);
        Ok(())
    }
}
