// A module taken apart, and put together again.
ghost use Rattle.std.specs.Prelude.{◌≡◌};
ghost use Rattle.channel_set.specs.Set.{shape_of};
ghost use Rattle.line_memory.specs.Memory.{IsMemory};
ghost use Rattle.nv_machine.specs.State.{Machine, memory_of};

use crate::{Front, Module};
use channel_port::ChannelPort;
use channel_set::ChannelSet;

/// A module taken apart.
#[derive(Drop)]
pub struct TakenApart<K: ChannelPort> {
    pub front: Front,
    pub channels: ChannelSet<K>,
}

impl<K: ChannelPort> Module<K> {
    ghost use Rattle.module_core.specs.Fronts.{FrontMatches};
    ghost use Rattle.module_core.specs.Parts.{FitTogether};
    ghost use Rattle.module_core.specs.Stands.{IsCarried, Matches};

    /// Takes the module apart, without taking memory.
    pub fn split(self) -> TakenApart<K>
        ensures front { result.front ≡ self.front }
        ensures channels { result.channels ≡ self.channels }
        ensures fit { FitTogether K.ChannelPort result.front result.channels }
    {
        TakenApart {
            front: self.front,
            channels: self.channels,
        }
    }

    /// Puts a front and the channels together that fit it, without taking memory. It is the way back from `split`.
    pub fn gather(front: Front, channels: ChannelSet<K>) -> Module<K>
        requires { FitTogether K.ChannelPort front channels }
        ensures front { result.front ≡ front }
        ensures channels { result.channels ≡ channels }
        ensures matches { (m : Machine) → FrontMatches front m
            → IsMemory (shape_of K.ChannelPort channels).lines (memory_of m)
            → IsCarried K.ChannelPort channels m → Matches K.ChannelPort result m }
    {
        Module { front, channels }
    }
}
