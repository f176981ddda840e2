// Sessions of the same value.
ghost use Rattle.std.specs.Prelude.{IfOk};
ghost use Rattle.save_device.specs.Copies.{AreAlike};
ghost use Rattle.nv_session.specs.Copies.{AreLivesAlike};
ghost use Rattle.nv_session.specs.Living.{innermost};

use crate::session::Session;
use crate::wires::Wires;
use channel_port::ChannelPort;
use module_core::Module;
use same_values::CopyValue;
use save_device::MemoryDevice;
use std::alloc::{AllocError, Global};

// A copy of the life that runs, if one does.
fn copy_of_life<K: ChannelPort + CopyValue + Drop>(
    alloc: Global,
    life: &Option<Module<K>>,
) -> Result<Option<Module<K>>, AllocError>
    ensures { IfOk result (AreLivesAlike K.ChannelPort life.now) }
{
    match life {
        Some(life) => Ok(Some(life.copy(alloc)?)),
        None => Ok(None),
    }
}

impl<K: ChannelPort + CopyValue + Drop, A: Wires<K> + CopyValue + Drop> Session<K, A> {
    ghost use Rattle.nv_session.specs.Copies.{AreSessionsAlike};

    /// A session with a copy of the life that runs, if one does, whose device and gauge show the same and fail in the same calls.
    /// Refused only where there is no memory.
    pub fn copy(&self, alloc: Global) -> Result<Session<K, A>, AllocError>
        ensures { IfOk result (AreSessionsAlike self.now) }
    {
        let device = self.device.copy(alloc)?;
        let gauge = self.gauge.copy();
        let wires = self.wires.copy(alloc)?;
        let life = copy_of_life(alloc, &self.life)?;
        Ok(Session {
            device,
            gauge,
            profile: self.profile,
            wires,
            life,
        })
    }

    /// A copy of the device in memory. Refused only where there is no memory.
    pub fn copy_of_device(&self, alloc: Global) -> Result<MemoryDevice, AllocError>
        ensures { IfOk result (AreAlike (innermost self.now.device)) }
    {
        self.device.device.device.copy(alloc)
    }
}
