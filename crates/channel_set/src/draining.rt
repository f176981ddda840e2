// Backup: mains and the reads are lost, and the channels are drained.
ghost use Rattle.std.specs.Prelude.{◌≡◌, ◌≤◌, ℕ, [], OnOk};
ghost use Rattle.energy_budget.specs.declared.costs.CostNumbers.{CostNumbers};
ghost use Rattle.channel_port.specs.declared.stage.Stage.TheVariants.{OnBackup, OnMains};
ghost use Rattle.channel_port.specs.Draining.{in_turn};

use crate::ChannelSet;
use channel_port::ChannelPort;
use energy_budget::{Dark, Energy};

impl<K: ChannelPort> ChannelSet<K> {
    ghost use Rattle.channel_set.specs.Set.{AreAt, view_of};
    ghost use Rattle.channel_set.specs.Carrying.{KeepsAll};
    ghost use Rattle.channel_set.specs.Draining.{DrainsAll, DrainsEach, cost_of_drains, paid_for_drains};
    ghost use Rattle.channel_set.specs.Issuing.{IssuesNone};

    /// Ends the work on mains, as backup begins: all reads are lost, and their tickets are unknown from now on.
    pub fn lose_mains(&mut self)
        requires { AreAt K.ChannelPort OnMains self.old }
        ensures reads { (view_of K.ChannelPort self.new).waits
            ≡ record (view_of K.ChannelPort self.old).waits { reads = [] } }
        ensures rest { view_of K.ChannelPort self.new ≡ record (view_of K.ChannelPort self.old) {
          waits = (view_of K.ChannelPort self.new).waits;
        } }
        ensures cost { (numbers : CostNumbers) → cost_of_drains K.ChannelPort self.new numbers
            ≡ cost_of_drains K.ChannelPort self.old numbers }
        ensures issued { IssuesNone K.ChannelPort self.old self.new }
        ensures backup { AreAt K.ChannelPort OnBackup self.new }
        ensures keeps { KeepsAll K.ChannelPort self.old self.new }
    {
        for port in self.ports.iter_mut() {
            port.lose_mains();
        }
    }

    /// Drains all channels in rising order, each action of it paid for before it is made, where no read is open any more. Where
    /// a payment is refused nothing runs after it. Once all are drained nothing waits, and what was paid is no less than what
    /// their drains cost.
    pub fn drain<E: Energy>(&mut self, energy: &mut E) -> Result<(), Dark>
        requires backup { AreAt K.ChannelPort OnBackup self.old }
        requires lost { (view_of K.ChannelPort self.old).waits.reads ≡ [] }
        ensures drains { DrainsAll in_turn (view_of K.ChannelPort self.old) (E.gauge energy.old)
            result (view_of K.ChannelPort self.new) (E.gauge energy.new) }
        ensures each { OnOk result (DrainsEach K.ChannelPort self.old self.new) }
        ensures covers { OnOk result (cost_of_drains K.ChannelPort self.old self.old.costs.numbers
            ≤ paid_for_drains (view_of K.ChannelPort self.old)) }
        ensures keeps { KeepsAll K.ChannelPort self.old self.new }
    {
        for port in self.ports.iter_mut() {
            port.drain(&self.costs, energy)?;
        }
        Ok(())
    }
}
