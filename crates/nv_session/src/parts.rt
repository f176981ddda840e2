// A session on a device that its caller has.
ghost use Rattle.std.specs.Prelude.{◌≡◌, None};
ghost use Rattle.ddr4_timing.specs.Limits.{lines_of};
ghost use Rattle.interleave_map.specs.declared.ready.Interleaving.{Interleaving};
ghost use Rattle.save_device.specs.Memory.{state_of};
ghost use Rattle.slot_store.specs.Slots.{HasSize};
ghost use Rattle.energy_budget.specs.Meter.{level_of, leak_of, lie_of};
ghost use Rattle.nv_session.specs.Living.{IsShapeFor, PassesAll, innermost};

use crate::session::{Session, passing};
use crate::wires::Wires;
use channel_port::ChannelPort;
use energy_budget::Meter;
use nv_profile::Profile;
use save_device::MemoryDevice;

impl<K: ChannelPort + Drop, A: Wires<K> + Drop> Session<K, A> {
    /// A session with no life on this device, which has the size for the profile's lines, with a gauge that shows 0 and tells no lie.
    pub fn over(device: MemoryDevice, profile: &Profile, wires: A) -> Session<K, A>
        requires fits { (map : Interleaving) → IsShapeFor profile.now (A.shape wires map) }
        requires checked { A.checked wires ≡ profile.now.checked }
        requires size { HasSize (lines_of profile.now.checked.geometry) (state_of device) }
        ensures profile { result.profile ≡ profile.now }
        ensures wires { result.wires ≡ wires }
        ensures life { result.life ≡ None }
        ensures device { innermost result.device ≡ device }
        ensures passes { PassesAll result.device }
        ensures gauge { level_of result.gauge ≡ 0 }
        ensures leak { leak_of result.gauge ≡ 0 }
        ensures lie { lie_of result.gauge ≡ None }
    {
        Session {
            device: passing(device),
            gauge: Meter::with(0, 0),
            profile: *profile,
            wires,
            life: None,
        }
    }
}
