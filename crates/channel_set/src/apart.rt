// Ports that were side by side, and what they have in common.
ghost use Rattle.std.specs.Prelude.{◌≡◌};

use crate::{ChannelSet, PortTerms};
use channel_port::ChannelPort;
use energy_budget::Costs;

/// The ports of a set, from the first to the last one, what they have in common, and what a closing save of them costs.
#[derive(Drop)]
pub struct SetApart<K: ChannelPort> {
    pub ports: Vec<K>,
    pub terms: PortTerms,
    pub costs: Costs,
}

impl<K: ChannelPort> ChannelSet<K> {
    /// Takes the set apart, without taking memory. `new` is the way back.
    pub fn take_apart(self) -> SetApart<K>
        ensures ports { result.ports ≡ self.ports }
        ensures terms { result.terms ≡ self.terms }
        ensures costs { result.costs ≡ self.costs }
    {
        SetApart {
            ports: self.ports,
            terms: self.terms,
            costs: self.costs,
        }
    }
}
