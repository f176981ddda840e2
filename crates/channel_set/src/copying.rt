// Channels of the same values.
ghost use Rattle.std.specs.Prelude.{◌≡◌, IfOk};

use crate::ChannelSet;
use channel_port::ChannelPort;
use same_values::{CopyValue, copy_each};
use std::alloc::{AllocError, Global};

impl<K: ChannelPort + CopyValue + Drop> ChannelSet<K> {
    ghost use Rattle.channel_set.specs.Copies.{SameChannels};

    /// Channels of the same values, in the same order. Refused only where there is no memory.
    pub fn copy(&self, alloc: Global) -> Result<ChannelSet<K>, AllocError>
        ensures { IfOk result (SameChannels K.ChannelPort self.now) }
    {
        let ports = copy_each(alloc, &self.ports)?;
        Ok(ChannelSet {
            ports,
            terms: self.terms,
            costs: self.costs,
        })
    }
}
