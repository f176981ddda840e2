// Modules of the same value.
ghost use Rattle.std.specs.Prelude.{◌≡◌, IfOk};

use crate::{Front, Module};
use channel_port::ChannelPort;
use same_values::CopyValue;
use std::alloc::{AllocError, Global};

impl Front {
    // The same front.
    fn copy(&self) -> Front
        ensures { result ≡ self.now }
    {
        let saves = self.saves.copy();
        Front {
            terms: self.terms,
            accepted: self.accepted,
            persisted: self.persisted,
            saved: self.saved,
            mode: self.mode,
            reading: self.reading,
            saves,
        }
    }
}

impl<K: ChannelPort + CopyValue + Drop> Module<K> {
    ghost use Rattle.module_core.specs.Copies.{IsCopyOf};

    /// A module that has lived as this one has, over channels of the same values, and stands for the same machines. Refused only
    /// where there is no memory.
    pub fn copy(&self, alloc: Global) -> Result<Module<K>, AllocError>
        ensures { IfOk result (IsCopyOf K.ChannelPort self.now) }
    {
        let front = self.front.copy();
        let channels = self.channels.copy(alloc)?;
        Ok(Module { front, channels })
    }
}
