// Ports side by side.
ghost use Rattle.std.specs.Prelude.{◌≡◌, ◌<◌, ◌≤◌, ℕ, List, [], length, slice_get, true, Some, IfNone, IfSome};
ghost use Rattle.line_memory.specs.Memory.{IsMemory};
ghost use Rattle.energy_budget.specs.Costs.{AreReckonedFor};
ghost use Rattle.channel_port.specs.Shape.{IsShape};
ghost use Rattle.channel_port.specs.Waits.{nothing};
ghost use Rattle.channel_set.specs.Ports.{ArePorts, shape_with, waits_in};
ghost use Rattle.channel_port.specs.declared.stage.Stage.TheVariants.{OnMains};

use crate::PortTerms;
use channel_port::ChannelPort;
use ddr4_timing::place::Place;
use energy_budget::Costs;

/// The channels of a memory, from the first to the last one. No call takes memory. From the first drain on nothing is asked of
/// them but what they store.
#[derive(Drop)]
pub struct ChannelSet<K: ChannelPort> {
    pub(crate) ports: Vec<K>,
    pub(crate) terms: PortTerms,
    pub(crate) costs: Costs,
    ghost are: { ArePorts K.ChannelPort terms ports.items },
    ghost shaped: { IsShape (shape_with K.ChannelPort terms costs ports.items) },
    ghost reckoned: { AreReckonedFor terms.checked costs },
}

impl<K: ChannelPort> ChannelSet<K> {
    ghost use Rattle.channel_set.specs.Set.{AreAt, place_in, shape_of, view_of};
    ghost use Rattle.channel_set.specs.Carrying.{CarriesAll};

    /// Ports side by side, from number 0 on, on which nothing waits.
    pub fn new(ports: Vec<K>, terms: PortTerms, costs: Costs) -> ChannelSet<K>
        requires ports { ArePorts K.ChannelPort terms ports.items }
        requires shape { IsShape
            (shape_with K.ChannelPort terms costs ports.items) }
        requires costs { AreReckonedFor terms.checked costs }
        ensures ports { result.ports ≡ ports }
        ensures terms { result.terms ≡ terms }
        ensures costs { result.costs ≡ costs }
        ensures shape { shape_of K.ChannelPort result
            ≡ shape_with K.ChannelPort terms costs ports.items }
        ensures hold { (view_of K.ChannelPort result).hold ≡ terms.hold }
        ensures waits { (view_of K.ChannelPort result).waits ≡ waits_in K.ChannelPort ports.items }
        ensures mains { ((number : ℕ) (port : K) → slice_get ports.items number ≡ Some port
            → (K.view port).stage ≡ OnMains) → AreAt K.ChannelPort OnMains result }
        ensures carries { (base : List (List ℕ)) (start : ℕ) → IsMemory terms.lines base
            → waits_in K.ChannelPort ports.items ≡ nothing
            → ((number : ℕ) (port : K) → slice_get ports.items number ≡ Some port
            → K.carries port base []) → CarriesAll K.ChannelPort result base start [] }
    {
        ChannelSet {
            ports,
            terms,
            costs,
        }
    }

    /// How many lines the memory has, from 64 to 65,536, in whole pages of 64.
    pub fn lines(&self) -> usize
        ensures { result ≡ (shape_of K.ChannelPort self.now).lines }
    {
        self.terms.lines as usize
    }

    /// How many channels there are.
    pub fn count(&self) -> u64
        ensures { result ≡ (shape_of K.ChannelPort self.now).channels }
    {
        self.ports.len() as u64
    }

    /// What a closing save of them costs.
    pub fn costs(&self) -> &Costs
        ensures { result.now ≡ (shape_of K.ChannelPort self.now).costs }
    {
        &self.costs
    }

    /// Where a line lies; None exactly where there is no such line.
    pub fn locate(&self, line: u64) -> Option<Place>
        ensures some { IfSome result (λ place. (line < (shape_of K.ChannelPort self.now).lines)
            × (place ≡ place_in K.ChannelPort self.now line)) }
        ensures none { IfNone result ((shape_of K.ChannelPort self.now).lines ≤ line) }
    {
        if line >= self.terms.lines {
            return None;
        }
        Some(self.ports[0].place(line))
    }
}
