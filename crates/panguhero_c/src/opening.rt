// How a module is opened: on a device in memory, new or with given bytes, and on one whose changes are noted.
ghost use Rattle.std.specs.Prelude.{◌≡◌, ◌≢◌, ℕ, List, IfErr, IfOk, IfSome, length};
ghost use Rattle.ddr4_timing.specs.Limits.{lines_of};
ghost use Rattle.energy_budget.specs.Costs.{AreReckonedFor};
ghost use Rattle.interleave_map.specs.declared.ready.Interleaving.{Interleaving};
ghost use Rattle.nv_profile.specs.Profile.{IsNoProfile, IsProfileText};
ghost use Rattle.nv_session.specs.Living.{IsShapeFor};
ghost use Rattle.save_device.specs.Memory.{state_of};
ghost use Rattle.slot_store.specs.Slots.{device_size};
ghost use Rattle.panguhero_c.specs.Calls.{OpensNew, OpensStore};
ghost use Rattle.reply_codes.specs.Codes.{IsRefusal};
ghost use Rattle.panguhero_c.specs.Wiring.{wired_shape};

use crate::opened::{OpenModule, StoreDevice};
use crate::wiring::ProfileWires;
use interleave_map::ReadyMap;
use interleave_map::cells::line_count;
use interleave_map::line_map::LineMap;
use noted_device::NotedDevice;
use nv_profile::{Profile, read_profile};
use open_life::{EitherDevice, open, open_new};
use reply_codes::{NO_MEMORY, SIZE, Told, found_told, open_code, profile_code};
use save_device::{Fuse, MemoryDevice, SaveDevice};
use slot_store::device_size;
use std::alloc::Global;

/// A module that was opened on a store, and what is told of that.
#[derive(Drop)]
pub(crate) struct OpenStore {
    pub(crate) opened: OpenModule,
    pub(crate) told: Told,
}

// What makes the modules of a profile, over a map that stays in memory until the program ends.
fn wires_of(alloc: Global, profile: &Profile) -> Option<ProfileWires<'static>>
    ensures profile { IfSome result (λ wires. wires.profile ≡ profile.now) }
    ensures map { IfSome result (λ wires. wires.map
        ≡ record { interleaving = profile.now.map; checked = profile.now.checked }) }
    ensures fits { IfSome result (λ wires. (interleaving : Interleaving)
        → IsShapeFor profile.now (wired_shape wires interleaving)) }
    ensures costs { IfSome result (λ wires. AreReckonedFor profile.now.checked wires.costs) }
{
    let map = ReadyMap {
        interleaving: profile.map,
        checked: profile.checked,
    };
    match Box::new(alloc, map) {
        Ok(map) => Some(ProfileWires::new(Box::leak(map), profile)),
        Err(_) => None,
    }
}

// How many bytes the device of a profile has.
fn store_size(profile: &Profile) -> usize
    ensures { result ≡ device_size (lines_of profile.now.checked.geometry) }
{
    device_size(line_count(&profile.checked) as usize)
}

// A device that passes all calls.
fn passing(device: EitherDevice<MemoryDevice, NotedDevice>) -> StoreDevice
    ensures device { result.device ≡ device }
    ensures bytes { (⟦<StoreDevice as SaveDevice>⟧.state result).bytes
        ≡ (⟦<EitherDevice<MemoryDevice, NotedDevice> as SaveDevice>⟧.state
        device).bytes }
{
    Fuse::new(device, u64::MAX)
}

// A device in memory of zeros.
fn blank_device(alloc: Global, size: usize) -> Option<MemoryDevice>
    ensures { IfSome result (λ device. length (state_of device).bytes ≡ size) }
{
    let Ok(bytes) = Vec::from_elem(alloc, 0, size) else {
        return None;
    };
    MemoryDevice::new(alloc, bytes).ok()
}

// A device in memory with these bytes.
fn device_of(alloc: Global, bytes: &[u8]) -> Option<MemoryDevice>
    ensures { IfSome result (λ device. (state_of device).bytes ≡ bytes.now) }
{
    let Ok(bytes) = bytes.to_vec(alloc) else {
        return None;
    };
    MemoryDevice::new(alloc, bytes).ok()
}

// A device with these bytes, whose changes are noted.
fn noted_device_of(alloc: Global, bytes: &[u8]) -> Option<NotedDevice>
    ensures { IfSome result (λ device.
        (⟦<NotedDevice as SaveDevice>⟧.state device).bytes ≡ bytes.now) }
{
    let Ok(bytes) = bytes.to_vec(alloc) else {
        return None;
    };
    NotedDevice::new(alloc, bytes).ok()
}

// A module on a device, which it restores; or formats where nothing is saved there and 1 is said.
fn open_on(
    alloc: Global,
    profile: &Profile,
    device: EitherDevice<MemoryDevice, NotedDevice>,
    format: u32,
) -> Result<OpenStore, Told>
    ensures opens { IfOk result (λ store. (text : List ℕ) → IsProfileText text profile.now
        → OpensStore text (⟦<EitherDevice<MemoryDevice, NotedDevice> as SaveDevice>⟧.state
        device).bytes format store.told store.opened.life) }
    ensures refused { IfErr result (λ told. IsRefusal told.code) }
{
    let Some(wires) = wires_of(alloc, profile) else {
        return Err(Told::code(NO_MEMORY));
    };
    let formats = format == 1;
    match open(alloc, profile, &wires, passing(device), formats) {
        Ok(opened) => {
            let told = found_told(opened.found);
            Ok(OpenStore {
                opened: OpenModule { life: opened.life },
                told,
            })
        }
        Err(fault) => Err(Told::code(open_code(fault))),
    }
}

impl OpenModule {
    /// A module of the profile of a text, with a new life of zero lines on a device in memory and with a gauge that shows 0; or the
    /// code that says why there is none.
    pub(crate) fn on_memory(alloc: Global, text: &[u8]) -> Result<OpenModule, u32>
        ensures opens { IfOk result (λ opened. OpensNew text.now opened.life) }
        ensures refused { IfErr result (λ code. code ≢ 0) }
        ensures no_profile { IfErr result (λ code. code ≡ 2 → IsNoProfile text.now) }
    {
        let profile = match read_profile(alloc, text) {
            Ok(profile) => profile,
            Err(fault) => return Err(profile_code(fault)),
        };
        let Some(wires) = wires_of(alloc, &profile) else {
            return Err(NO_MEMORY);
        };
        let Some(device) = blank_device(alloc, store_size(&profile)) else {
            return Err(NO_MEMORY);
        };
        match open_new(
            alloc,
            &profile,
            &wires,
            passing(EitherDevice::First(device)),
        ) {
            Ok(life) => Ok(OpenModule { life }),
            Err(fault) => Err(open_code(fault)),
        }
    }

    /// A module of the profile of a text on a device in memory with these bytes, which it restores; or formats where nothing is saved
    /// there and 1 is said. Or what is told where there is none.
    pub(crate) fn on_store(
        alloc: Global,
        text: &[u8],
        bytes: &[u8],
        format: u32,
    ) -> Result<OpenStore, Told>
        ensures opens { IfOk result
            (λ store. OpensStore text.now bytes.now format store.told store.opened.life) }
        ensures refused { IfErr result (λ told. (told.code ≢ 0) × (told.code ≢ 10)) }
        ensures no_profile { IfErr result (λ told. told.code ≡ 2 → IsNoProfile text.now) }
    {
        let profile = match read_profile(alloc, text) {
            Ok(profile) => profile,
            Err(fault) => return Err(Told::code(profile_code(fault))),
        };
        let size = store_size(&profile);
        if bytes.len() != size {
            return Err(Told::with(SIZE, size as u64, 0));
        }
        let Some(device) = device_of(alloc, bytes) else {
            return Err(Told::code(NO_MEMORY));
        };
        match open_on(alloc, &profile, EitherDevice::First(device), format) {
            Ok(store) => Ok(store),
            Err(told) => Err(told),
        }
    }

    /// The same on a device whose changes are noted, so that they can be made on a store elsewhere that holds these bytes.
    pub(crate) fn on_noted(
        alloc: Global,
        text: &[u8],
        bytes: &[u8],
        format: u32,
    ) -> Result<OpenStore, Told>
        ensures opens { IfOk result
            (λ store. OpensStore text.now bytes.now format store.told store.opened.life) }
        ensures refused { IfErr result (λ told. (told.code ≢ 0) × (told.code ≢ 10)) }
        ensures no_profile { IfErr result (λ told. told.code ≡ 2 → IsNoProfile text.now) }
    {
        let profile = match read_profile(alloc, text) {
            Ok(profile) => profile,
            Err(fault) => return Err(Told::code(profile_code(fault))),
        };
        let size = store_size(&profile);
        if bytes.len() != size {
            return Err(Told::with(SIZE, size as u64, 0));
        }
        let Some(device) = noted_device_of(alloc, bytes) else {
            return Err(Told::code(NO_MEMORY));
        };
        match open_on(alloc, &profile, EitherDevice::Second(device), format) {
            Ok(store) => Ok(store),
            Err(told) => Err(told),
        }
    }
}
