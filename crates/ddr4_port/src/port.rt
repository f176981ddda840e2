// A channel with its map.
ghost use Rattle.std.specs.Prelude.{◌≡◌, refl};

use chan_core::Channel;
use channel_port::{ChannelPort, Collected, Done, Got, Stage, Ticket};
use ddr4_timing::place::Place;
use drain_core::{drain, drain_paying};
use energy_budget::{Costs, Dark, Energy};
use interleave_map::line_map::LineMap;
use line_memory::{Line, Write};
use std::marker::Model;

/// A DDR4 channel, and the map that says where each line of the host lies. The channel stays where it is as its port goes from place to
/// place.
#[derive(Drop)]
pub struct Ddr4Port<'m, M: LineMap> {
    pub(crate) channel: Box<Channel>,
    pub(crate) map: &'m M,
    pub(crate) stage: Stage,
}

impl<'m, M: LineMap> Model for Ddr4Port<'m, M> {
    ghost use Rattle.std.specs.Prelude.{◌≡◌, box_value};
    ghost use Rattle.ddr4_port.specs.Port.{HasMap, IsRightPort, PortState, port_state};

    ghost Value = { PortState };

    ghost view = { λ p. port_state (M.place_of p.map.now) p.stage (box_value p.channel) };

    ghost invariant = { λ p.
        HasMap (M.is_lawful p.map.now) (M.geometry_of p.map.now)
        (box_value p.channel).checked.geometry
        × IsRightPort (port_state (M.place_of p.map.now) p.stage (box_value p.channel)) };
}

impl<'m, M: LineMap> Ddr4Port<'m, M> {
    /// The channel, to be looked at.
    pub fn channel(&self) -> &Channel
        ensures { result.now ≡ self.now.channel }
    {
        &*self.channel
    }
}

impl<'m, M: LineMap> ChannelPort for Ddr4Port<'m, M> {
    ghost use Rattle.std.proofs.lemmas.List.Elements.{All-map};
    ghost use Rattle.std.specs.List.{range_with_len};
    ghost use Rattle.drain_core.specs.Steps.{spent_by};
    ghost use Rattle.ddr4_port.specs.Carrying.{Carries};
    ghost use Rattle.ddr4_port.specs.Port.{SendsOnly, drained_port, open_on, listed_place, port_view, ticket_on, waiting_on};

    ghost view = { port_view };

    ghost carries = { λ port. Carries (listed_place port.places) port.channel };

    ghost issued = { λ port. port.channel.commands };

    ghost next_command = { λ port. SendsOnly port.channel };

    ghost drain_cost = { λ port numbers. spent_by numbers port.channel };

    ghost drained = { drained_port };

    fn place(&self, line: u64) -> Place {
        self.map.place(line)
    }

    fn pending(&self) -> usize {
        self.channel.pending()
    }

    fn is_full(&self) -> bool {
        self.channel.is_full()
    }

    fn is_full_of_reads(&self) -> bool {
        self.channel.is_full_of_reads()
    }

    fn has_below(&self, number: u64) -> bool {
        self.channel.below(number) > 0
    }

    fn put(&mut self, number: u64, write: Write, place: Place) {
        let Ok(()) = self.channel.put_at(number, write, place) else {
            unreachable!()
        };
        self.channel.always();
    }

    fn get(&mut self, line: u64, place: Place, at: u64) -> Got {
        let Ok(got) = self.channel.get_at(line, place, at) else {
            unreachable!()
        };
        self.channel.always();
        got
    }

    fn collect(&mut self, ticket: Ticket) -> Collected {
        let collected = self.channel.collect(ticket);
        self.channel.always();
        collected
    }

    fn work(&mut self) -> Option<Done> {
        let done = self.channel.work();
        self.channel.always();
        done
    }

    fn hold(&mut self, from: Option<u64>) {
        match from {
            Some(number) => self.channel.hold_from(number),
            None => self.channel.release(),
        }
        self.channel.always();
    }

    fn stored(&self, _line: u64, place: Place) -> Line {
        self.channel.stored_at(place)
    }

    fn lose_mains(&mut self) {
        self.channel.begin_steps();
        self.stage = Stage::OnBackup;
        self.channel.always();
    }

    fn drain<E: Energy>(&mut self, costs: &Costs, energy: &mut E) -> Result<(), Dark> {
        self.stage = Stage::Drained;
        let drained = drain_paying(&mut *self.channel, costs, energy);
        self.channel.always();
        match drained {
            Ok(_) => Ok(()),
            Err(dark) => Err(dark),
        }
    }

    fn drain_paid(&mut self, costs: &Costs) {
        self.stage = Stage::Drained;
        drain(&mut *self.channel, costs);
        self.channel.always();
    }

    ghost own_writes = { λ port. All-map (λ w. w.channel ≡ port.channel.channel)
        (waiting_on port.channel.channel) port.channel.writes (λ k d less. refl) };

    ghost own_reads = { λ port. All-map (λ r. r.ticket.channel ≡ port.channel.channel)
        (open_on port.channel.channel) port.channel.tickets (λ k d less. refl) };

    ghost own_tickets = { λ port. All-map (λ t. t.channel ≡ port.channel.channel)
        (ticket_on port.channel.channel) (range_with_len 0 port.channel.serial)
        (λ k d less. refl) };

    ghost one_next = { λ port a b sends other. other.only a sends.sends };

    ghost settled = { λ port base mine n line carries none waits less here.
        carries.settles n line none waits (record { below = less; here = here }) };
}
