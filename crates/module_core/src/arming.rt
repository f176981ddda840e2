// Arming.
ghost use Rattle.std.specs.Prelude.{◌≡◌};

use crate::Module;
use arm_state::{ArmRefusal, ArmReply, Mode, energy_refusal};
use channel_port::ChannelPort;
use energy_budget::Energy;
use nv_machine::{Event, Reply};
use save_device::SaveDevice;
use slot_store::mark_armed;

impl<K: ChannelPort> Module<K> {
    ghost use Rattle.module_core.specs.Stands.{Answers, HasDevice, KeepsStored, setup_of, assembly};

    /// Arms: from then on each accepted write is persistent at once, since the gauge has the energy for its save. The newest
    /// image is marked first, which a stop may leave done or not done; a fault of the device leaves the module disarmed.
    pub fn arm<D: SaveDevice, E: Energy>(
        &mut self,
        device: &mut D,
        energy: &mut E,
    ) -> Result<ArmReply, ArmRefusal>
        requires { HasDevice K.ChannelPort self.old (D.state device.old) }
        ensures answers { Answers K.ChannelPort Event.Arm (Reply.Arm result)
            (assembly self.old (D.state device.old) (E.gauge energy.old))
            (assembly self.new (D.state device.new) (E.gauge energy.new)) }
        ensures stored { KeepsStored K.ChannelPort (Reply.Arm result) self.old self.new }
        ensures setup { setup_of K.ChannelPort self.new ≡ setup_of K.ChannelPort self.old }
        ensures size { HasDevice K.ChannelPort self.new (D.state device.new) }
    {
        if self.front.mode.is_armed() {
            return Ok(ArmReply::AlreadyArmed);
        }
        if let Some(refusal) = self.front.mode.arm_refusal(self.save_state()) {
            return Err(refusal);
        }
        self.front.reading = energy.sense();
        let need = self.need_for(self.channels.pending());
        if let Some(refusal) = energy_refusal(need, self.front.reading) {
            return Err(refusal);
        }
        let Ok(()) = mark_armed(device, self.front.saves.newest.slot) else {
            self.front.saves.unsettled = true;
            return Err(ArmRefusal::Device);
        };
        self.front.persisted = self.front.accepted;
        self.front.mode = Mode::Armed;
        Ok(ArmReply::Armed)
    }
}
