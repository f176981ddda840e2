// What a script talks to.
ghost use Rattle.std.specs.Prelude.{◌≡◌, ◌≤◌, replicate, None, IfOk};
ghost use Rattle.std.specs.Option.{option_map};
ghost use Rattle.ddr4_timing.specs.Limits.{lines_of};
ghost use Rattle.ddr4_timing.specs.declared.timing.TheConstants.{MOST_LINES};
ghost use Rattle.interleave_map.specs.declared.ready.Interleaving.{Interleaving};
ghost use Rattle.save_device.specs.Device.{IsSettled, MayLeave, present};
ghost use Rattle.save_device.specs.Memory.{state_of, IsPicked};
ghost use Rattle.slot_store.specs.Slots.{device_size};
ghost use Rattle.energy_budget.specs.Meter.{meter_gauge, level_of, leak_of, lie_of};
ghost use Rattle.nv_session.specs.Living.{IsShapeFor, IsLiving, PassesAll, device_state, innermost, session_at};

use crate::wires::Wires;
use channel_port::ChannelPort;
use energy_budget::Meter;
use interleave_map::Interleaving;
use interleave_map::cells::line_count;
use module_core::Module;
use nv_profile::Profile;
use save_device::{Fuse, MemoryDevice, OneFault, Pick, SaveDevice};
use slot_store::device_size;
use std::alloc::{AllocError, Global};

/// A device in memory, a gauge, and the life that runs, if one does: `wires` opened its module.
#[derive(Drop)]
pub struct Session<K: ChannelPort, A: Wires<K>> {
    pub(crate) device: OneFault<Fuse<MemoryDevice>>,
    pub(crate) gauge: Meter,
    pub(crate) profile: Profile,
    pub(crate) wires: A,
    pub(crate) life: Option<Module<K>>,
    ghost fits: { (map : Interleaving) → IsShapeFor profile (A.shape wires map) },
    ghost wired: { A.checked wires ≡ profile.checked },
    ghost living: { IsLiving K.ChannelPort profile
        (session_at life (device_state device) (meter_gauge gauge)) },
}

/// The calls that a device passes where it passes all.
pub(crate) const ALL_CALLS: u64 = u64::MAX;

// A device around this one, of which no call is to fail.
pub(crate) fn passing(device: MemoryDevice) -> OneFault<Fuse<MemoryDevice>>
    ensures device { innermost result ≡ device }
    ensures passes { PassesAll result }
{
    let mut passing = OneFault::new(Fuse::new(device, ALL_CALLS), 0);
    passing.before = None;
    passing
}

impl<K: ChannelPort + Drop, A: Wires<K> + Drop> Session<K, A> {
    /// A session with no life, on a device of zero bytes, with a gauge that shows 0 and tells no lie. It refuses only where there is
    /// no memory for the device.
    pub fn new(alloc: Global, profile: &Profile, wires: A) -> Result<Session<K, A>, AllocError>
        requires fits { (map : Interleaving) → IsShapeFor profile.now (A.shape wires map) }
        requires checked { A.checked wires ≡ profile.now.checked }
        ensures profile { IfOk result (λ session. session.profile ≡ profile.now) }
        ensures wires { IfOk result (λ session. session.wires ≡ wires) }
        ensures life { IfOk result (λ session. session.life ≡ None) }
        ensures device { IfOk result (λ session. (state_of (innermost session.device)).bytes
            ≡ replicate (device_size (lines_of profile.now.checked.geometry)) 0) }
        ensures settled { IfOk result
            (λ session. IsSettled (state_of (innermost session.device))) }
        ensures passes { IfOk result (λ session. PassesAll session.device) }
        ensures gauge { IfOk result (λ session. level_of session.gauge ≡ 0) }
        ensures leak { IfOk result (λ session. leak_of session.gauge ≡ 0) }
        ensures lie { IfOk result (λ session. lie_of session.gauge ≡ None) }
    {
        let size = device_size(line_count(&profile.checked) as usize);
        let bytes = Vec::from_elem(alloc, 0, size)?;
        Ok(Session {
            device: passing(MemoryDevice::new(alloc, bytes)?),
            gauge: Meter::with(0, 0),
            profile: *profile,
            wires,
            life: None,
        })
    }

    /// The device, at the end of the session.
    pub fn into_device(self) -> MemoryDevice
        ensures { result ≡ innermost self.device }
    {
        let fuse = self.device.device;
        fuse.device
    }

    /// The life that runs, if one does, to be looked at.
    pub fn life(&self) -> Option<&Module<K>>
        ensures { option_map (λ life. life.now) result ≡ self.now.life }
    {
        self.life.as_ref()
    }

    /// How many lines the memory has.
    pub(crate) fn lines(&self) -> u64
        ensures is { result ≡ lines_of self.now.profile.checked.geometry }
        ensures few { result ≤ MOST_LINES }
    {
        line_count(&self.profile.checked)
    }

    /// Ends the life that runs, as a loss of power does, any lie, and what was to fail of the device.
    pub(crate) fn stop(&mut self, pick: Pick)
        ensures life { self.new.life ≡ None }
        ensures passes { PassesAll self.new.device }
        ensures lie { lie_of self.new.gauge ≡ None }
        ensures gauge { meter_gauge self.new.gauge ≡ meter_gauge self.old.gauge }
        ensures left { MayLeave (present (state_of (innermost self.old.device)))
            (state_of (innermost self.new.device)).bytes }
        ensures picked { IsPicked pick (innermost self.old.device)
            (state_of (innermost self.new.device)).bytes }
        ensures settled { IsSettled (state_of (innermost self.new.device)) }
        ensures calls { (device_state self.new.device).calls
            ≡ (device_state self.old.device).calls }
        ensures profile { self.new.profile ≡ self.old.profile }
        ensures wires { self.new.wires ≡ self.old.wires }
    {
        self.life = None;
        self.device.before = None;
        self.device.device.left = ALL_CALLS;
        self.gauge.end_lie();
        self.device.device.device.stop(pick);
    }
}
