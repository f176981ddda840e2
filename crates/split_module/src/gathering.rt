// A module taken apart to its front and its ports, and put together again.
ghost use Rattle.channel_set.specs.Ports.{shape_with};
ghost use Rattle.split_module.specs.Gathering.{FitAsModule, IsMadeOf, StandsGathered, StandsSplit};

use crate::SplitFront;
use channel_port::ChannelPort;
use channel_set::{ChannelSet, PortTerms, SetApart};
use module_core::{Module, TakenApart};

/// A module in pieces: its front, its ports from the first channel to the last one, and what the ports have in common.
#[derive(Drop)]
pub struct SplitModule<K: ChannelPort> {
    pub front: SplitFront,
    pub ports: Vec<K>,
    pub terms: PortTerms,
}

impl<K: ChannelPort> SplitModule<K> {
    /// Takes a module apart, without taking memory. As many credits are out as writes wait, so none is a returned one. Whichever
    /// machine the module stood for, the front stands for it, and each port for its channel.
    pub fn of(whole: Module<K>) -> SplitModule<K>
        ensures pieces { IsMadeOf K.ChannelPort whole result }
        ensures fit { FitAsModule K.ChannelPort result }
        ensures stands { StandsSplit K.ChannelPort whole result }
    {
        let TakenApart { front, channels } = whole.split();
        let out = channels.pending();
        let lines = channels.lines();
        let SetApart {
            ports,
            terms,
            costs,
        } = channels.take_apart();
        SplitModule {
            front: SplitFront {
                front,
                out,
                lines: lines as u64,
                costs,
            },
            ports,
            terms,
        }
    }

    /// Puts the module together again, without taking memory. No returned credit is left. The module stands for whichever machine
    /// the front stood for, where each port stands for its channel.
    pub fn gather(self) -> Module<K>
        requires { FitAsModule K.ChannelPort self }
        ensures pieces { IsMadeOf K.ChannelPort result self }
        ensures stands { StandsGathered K.ChannelPort self result }
    {
        let SplitFront { front, costs, .. } = self.front;
        Module::gather(front, ChannelSet::new(self.ports, self.terms, costs))
    }
}
