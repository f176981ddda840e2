// How a session's lives begin: a format, and a restore.
ghost use Rattle.std.specs.Prelude.{◌≡◌, ◌≢◌, ℕ, unwrap_or, None, Some, IfErr, IfOk, OnOk};
ghost use Rattle.line_memory.specs.Memory.{IsMemory};
ghost use Rattle.save_image.specs.Header.{Fits};
ghost use Rattle.save_device.specs.Device.{DeviceState, LeavesOnly, MayLeave, StopsWithin, present};
ghost use Rattle.save_device.specs.Memory.{state_of, IsPicked};
ghost use Rattle.slot_store.specs.Formatted.{first_head};
ghost use Rattle.slot_store.specs.Outcomes.{first_image};
ghost use Rattle.slot_store.specs.Rest.{IsAtRestOn};
ghost use Rattle.slot_store.specs.Told.{Refuses, IsFailure, image_of_restored, is_fault};
ghost use Rattle.energy_budget.specs.Meter.{meter_gauge, lie_of};
ghost use Rattle.channel_set.specs.Issuing.{HaveIssuedNone};
ghost use Rattle.module_core.specs.Opening.{opened_with};
ghost use Rattle.module_core.specs.Stands.{ModuleStands, assembly, setup_of};
ghost use Rattle.nv_session.specs.Faults.{CountsFault, HadOneFormat, HadOneRestore, RestoresOnce, is_format_fault};
ghost use Rattle.nv_session.specs.Living.{HasLife, IsCutToSaved, PassesAll, RunsUnissued, RunsWith, device_state, innermost};

use crate::session::Session;
use crate::wires::Wires;
use channel_port::ChannelPort;
use interleave_map::Interleaving;
use line_memory::zero_memory;
use module_core::Module;
use save_device::Pick;
use save_image::Version;
use slot_store::{Head, RestoreError, Restored, format, restore};
use std::alloc::{AllocError, Global};

/// Why a format began no life.
#[derive(Clone, Copy, Debug, PartialEq, Eq)]
pub enum FormatError {
    Device,
    Memory,
}

impl<K: ChannelPort + Drop, A: Wires<K> + Drop> Session<K, A> {
    ghost use Rattle.nv_session.specs.Restoring.{Revives, FindsPrefixOf, KeepsPrefixOf};
    ghost use Rattle.nv_session.specs.Sessions.{line_count_in, moment_in, restored_in, setup_over};

    // A life with what was restored, over a map. It refuses only where there is no memory for the channels, and then hands back what
    // was restored.
    fn open(
        &self,
        alloc: Global,
        map: Interleaving,
        restored: Restored,
    ) -> Result<Module<K>, (Restored, AllocError)>
        requires memory { IsMemory (line_count_in self.now) restored.lines.items }
        requires numbers { Fits restored.head.newest.generation restored.head.count }
        ensures begins { IfOk result (λ it. (arm : ℕ) (device : DeviceState)
            → IsAtRestOn restored.head.newest.slot (image_of_restored restored arm)
            (line_count_in self.now) restored.head.closed device
            → ModuleStands K.ChannelPort it device
            (opened_with restored.head (image_of_restored restored arm))) }
        ensures setup { IfOk result
            (λ life. setup_of K.ChannelPort life ≡ setup_over self.now map) }
        ensures checked { IfOk result
            (λ life. life.channels.terms.checked ≡ self.now.profile.checked) }
        ensures issued { IfOk result (λ life. HaveIssuedNone K.ChannelPort life.channels) }
        ensures back { IfErr result (λ back. back.0 ≡ restored) }
    {
        let trail = self.profile.sizes.trail;
        self.wires.open(alloc, map, restored, trail)
    }

    // From now on this life runs, over a map.
    fn begin(&mut self, life: Module<K>, map: Interleaving)
        requires over { setup_of K.ChannelPort life ≡ setup_over self.old map }
        requires cut { IsCutToSaved K.ChannelPort life }
        requires lives { HasLife K.ChannelPort
            (assembly life (device_state self.old.device) (meter_gauge self.old.gauge)) }
        ensures life { self.new.life ≡ Some life }
        ensures device { device_state self.new.device ≡ device_state self.old.device }
        ensures gauge { self.new.gauge ≡ self.old.gauge }
        ensures profile { self.new.profile ≡ self.old.profile }
        ensures wires { self.new.wires ≡ self.old.wires }
    {
        self.life = Some(life);
    }

    // Makes the device, which passes all calls, a store of zero lines, and begins a life on it over the profile's map.
    fn create(&mut self, alloc: Global) -> Result<(), FormatError>
        requires none { self.old.life ≡ None }
        requires passes { PassesAll self.old.device }
        ensures begins { OnOk result (RunsWith K.ChannelPort
            (setup_over self.old self.old.profile.map)
            (λ life. ModuleStands K.ChannelPort life (device_state self.new.device)
            (opened_with first_head (first_image (line_count_in self.old)))) self.new.life) }
        ensures issued { OnOk result
            (RunsUnissued K.ChannelPort self.old.profile.checked self.new.life) }
        ensures none { IfErr result (λ error. self.new.life ≡ None) }
        ensures faults { CountsFault (is_format_fault result)
            (device_state self.old.device) (device_state self.new.device) }
        ensures calls { HadOneFormat (line_count_in self.old) result
            (device_state self.old.device).calls (device_state self.new.device).calls }
        ensures gauge { self.new.gauge ≡ self.old.gauge }
        ensures profile { self.new.profile ≡ self.old.profile }
        ensures wires { self.new.wires ≡ self.old.wires }
    {
        let lines = self.lines() as usize;
        let Ok(memory) = zero_memory(alloc, lines) else {
            return Err(FormatError::Memory);
        };
        let Ok(head) = format(&mut self.device, lines) else {
            return Err(FormatError::Device);
        };
        let restored = Restored {
            head,
            version: Version::Two,
            lines: memory,
        };
        let map = self.profile.map;
        let Ok(life) = self.open(alloc, map, restored) else {
            return Err(FormatError::Memory);
        };
        self.begin(life, map);
        Ok(())
    }

    /// Makes the device a store of zero lines, and begins a life on it over the profile's map, whose channels have issued no
    /// command. First it ends what runs, any lie, and what was to fail of the device, which has the calls of one format. `Device` comes
    /// only where one of them failed.
    pub fn format(&mut self, alloc: Global) -> Result<(), FormatError>
        ensures begins { OnOk result (RunsWith K.ChannelPort
            (setup_over self.old self.old.profile.map)
            (λ life. ModuleStands K.ChannelPort life (device_state self.new.device)
            (opened_with first_head (first_image (line_count_in self.old)))) self.new.life) }
        ensures issued { OnOk result
            (RunsUnissued K.ChannelPort self.old.profile.checked self.new.life) }
        ensures none { IfErr result (λ error. self.new.life ≡ None) }
        ensures faults { CountsFault (is_format_fault result)
            (device_state self.old.device) (device_state self.new.device) }
        ensures calls { HadOneFormat (line_count_in self.old) result
            (device_state self.old.device).calls (device_state self.new.device).calls }
        ensures lie { lie_of self.new.gauge ≡ None }
        ensures gauge { meter_gauge self.new.gauge ≡ meter_gauge self.old.gauge }
        ensures profile { self.new.profile ≡ self.old.profile }
        ensures wires { self.new.wires ≡ self.old.wires }
    {
        self.stop(Pick::Old);
        self.create(alloc)
    }

    // Begins a life with the newest image of the device, which passes all calls, over a map, and answers its head. `Memory` comes
    // also where there is none for the channels.
    fn revive(&mut self, alloc: Global, map: Interleaving) -> Result<Head, RestoreError>
        requires none { self.old.life ≡ None }
        requires passes { PassesAll self.old.device }
        ensures revives { IfOk result (λ found. RunsWith K.ChannelPort (setup_over self.old map)
            (λ life. Revives K.ChannelPort (restored_in self.old) found
            life (device_state self.new.device)) self.new.life) }
        ensures refused { IfErr result (λ error. Refuses error (restored_in self.old)) }
        ensures issued { OnOk result
            (RunsUnissued K.ChannelPort self.old.profile.checked self.new.life) }
        ensures none { IfErr result (λ error. self.new.life ≡ None) }
        ensures faults { CountsFault (is_fault result)
            (device_state self.old.device) (device_state self.new.device) }
        ensures calls { HadOneRestore (line_count_in self.old) result
            (device_state self.old.device) (device_state self.new.device) }
        ensures same { (state_of (innermost self.new.device)).bytes
            ≡ (state_of (innermost self.old.device)).bytes }
        ensures any_moment { LeavesOnly
            (device_state self.old.device) (device_state self.new.device)
            (MayLeave (present (state_of (innermost self.old.device)))) }
        ensures gauge { self.new.gauge ≡ self.old.gauge }
        ensures profile { self.new.profile ≡ self.old.profile }
        ensures wires { self.new.wires ≡ self.old.wires }
    {
        let lines = self.lines() as usize;
        let restored = restore(alloc, &mut self.device, lines)?;
        let head = restored.head;
        let Ok(life) = self.open(alloc, map, restored) else {
            return Err(RestoreError::Memory);
        };
        self.begin(life, map);
        Ok(head)
    }

    /// A stop, which leaves of the unsettled bytes what the pick says and ends any lie and what was to fail of the device; and a
    /// life on the newest image, over a map or the profile's: the memory after a prefix of the writes that the life before had
    /// accepted, and told Complete one that holds every write that was persistent. Where a life ran, nothing but a fault of the
    /// device or want of memory refuses it. A refused restore leaves no life, and the next one finds such a prefix too. The device
    /// keeps the bytes that the stop left, and a stop right behind leaves the same. `Device` comes only where a call of the device
    /// failed. The device has the calls of one restore. It answers the newest image's head.
    pub fn restore(
        &mut self,
        alloc: Global,
        pick: Pick,
        map: Option<Interleaving>,
    ) -> Result<Head, RestoreError>
        ensures left { MayLeave (present (state_of (innermost self.old.device)))
            (state_of (innermost self.new.device)).bytes }
        ensures picked { IsPicked pick (innermost self.old.device)
            (state_of (innermost self.new.device)).bytes }
        ensures revives { IfOk result (λ found. RunsWith K.ChannelPort
            (setup_over self.old (unwrap_or map self.old.profile.map))
            (λ life. Revives K.ChannelPort (restored_in self.new) found
            life (device_state self.new.device)) self.new.life) }
        ensures finds { IfOk result (λ found. FindsPrefixOf K.ChannelPort (line_count_in self.old)
            (setup_over self.old (unwrap_or map self.old.profile.map))
            (moment_in self.old) found (moment_in self.new)) }
        ensures refused { IfErr result (λ error. Refuses error (restored_in self.new)) }
        ensures fails { IfErr result (λ error. self.old.life ≢ None → IsFailure error) }
        ensures keeps { IfErr result (λ error. KeepsPrefixOf K.ChannelPort (line_count_in self.old)
            (moment_in self.old) error (moment_in self.new)) }
        ensures issued { OnOk result
            (RunsUnissued K.ChannelPort self.old.profile.checked self.new.life) }
        ensures none { IfErr result (λ error. self.new.life ≡ None) }
        ensures again { StopsWithin (λ bytes. bytes ≡ (state_of (innermost self.new.device)).bytes)
            (present (state_of (innermost self.new.device))) }
        ensures faults { CountsFault (is_fault result)
            (device_state self.old.device) (device_state self.new.device) }
        ensures calls { RestoresOnce (line_count_in self.old) result
            (device_state self.old.device) (device_state self.new.device) }
        ensures lie { lie_of self.new.gauge ≡ None }
        ensures gauge { meter_gauge self.new.gauge ≡ meter_gauge self.old.gauge }
        ensures profile { self.new.profile ≡ self.old.profile }
        ensures wires { self.new.wires ≡ self.old.wires }
    {
        self.stop(pick);
        self.revive(alloc, map.unwrap_or(self.profile.map))
    }
}
