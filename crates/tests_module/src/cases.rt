// The cases, each on a module over the channels of the small profile.
use crate::check::same;
use crate::cuts::cut_in_each_mode;
use crate::load::Load;
use crate::notices::{notify_of_a_save, write_behind_its_back};
use crate::runs::{lose_at_once, save_at_once, turn_at_once};
use board_hosts::RecordedModule;
use channel_port::ChannelPort;
use ddr4_boards::{NotOpened, Ready, formatted, open};
use energy_budget::{Energy, Meter};
use interleave_map::cells::line_count;
use interleave_map::{Interleaving, ReadyMap};
use nv_profile::{Profile, TINY, read_profile};
use save_device::{MemoryDevice, SaveDevice};
use slot_store::{RestoreError, device_size};
use std::alloc::{AllocError, Global};
use std::process::Abort;
use std::thread::Threads;

/// What is tried of a module.
#[derive(Clone, Copy)]
enum Case {
    Save,
    Loss,
    Turn,
    Notices,
    SecondWriter,
    Cuts,
}

/// The module of two channels that is ready, with its device and its gauge.
pub(crate) fn load_of<K: ChannelPort + Drop, D: SaveDevice + Drop, R: Abort>(
    rt: &R,
    ready: Ready<K, D, Meter>,
) -> Load<K, D> {
    let Ready {
        recorded,
        channels,
        ..
    } = ready;
    if channels != 2 {
        panic!(*rt; "two channels");
    }
    let RecordedModule {
        running,
        device,
        energy: gauge,
        ..
    } = recorded;
    Load {
        running,
        device,
        gauge,
    }
}

// Tries a case on a module of two channels.
fn try_module<K: ChannelPort + Drop, R: Abort>(
    rt: &R,
    alloc: Global,
    ready: Ready<K, MemoryDevice, Meter>,
    case: Case,
) {
    let mut load = load_of(rt, ready);
    match case {
        Case::Save => save_at_once(rt, alloc, &mut load),
        Case::Loss => lose_at_once(rt, alloc, &mut load),
        Case::Turn => turn_at_once(rt, alloc, &mut load),
        Case::Notices => notify_of_a_save(rt, alloc, &mut load),
        Case::SecondWriter => write_behind_its_back(rt, alloc, &mut load),
        Case::Cuts => cut_in_each_mode(rt, &mut load),
    }
}

/// The profile `tiny`.
pub(crate) fn tiny<R: Abort>(rt: &R, alloc: Global) -> Profile {
    match read_profile(alloc, TINY.as_bytes()) {
        Ok(profile) => profile,
        Err(_) => panic!(*rt; "a profile"),
    }
}

// A device in memory of zero bytes, as many as a store of the profile's lines has.
fn unformatted(alloc: Global, profile: &Profile) -> Result<MemoryDevice, AllocError> {
    let lines = line_count(&profile.checked) as usize;
    MemoryDevice::new(alloc, Vec::from_elem(alloc, 0, device_size(lines))?)
}

// Tries a case on a module over the map `lines` of the small profile.
fn try_case<R: Abort + Threads>(rt: &R, alloc: Global, case: Case) {
    let profile = tiny(rt, alloc);
    let map = ReadyMap {
        interleaving: Interleaving::Lines,
        checked: profile.checked,
    };
    let Ok(device) = formatted(alloc, &profile) else {
        panic!(*rt; "a device");
    };
    let Ok(ready) = open(rt, alloc, &map, &profile, device, Meter::with(0, 0), 1) else {
        panic!(*rt; "a module");
    };
    try_module(rt, alloc, ready, case);
}

// A device with no image is given back with the gauge, and the reason is a restore's.
#[test]
fn a_device_with_no_image_is_given_back(rt: HostRuntime) {
    let alloc = rt.alloc();
    let profile = tiny(&rt, alloc);
    let map = ReadyMap {
        interleaving: Interleaving::Lines,
        checked: profile.checked,
    };
    let Ok(device) = unformatted(alloc, &profile) else {
        panic!(rt; "a device");
    };
    let Err(none) = open(&rt, alloc, &map, &profile, device, Meter::with(7, 0), 1) else {
        panic!(rt; "no module");
    };
    let NotOpened {
        why,
        device,
        mut energy,
    } = none;
    same(&rt, why, RestoreError::NoImage);
    same(&rt, device.len(), 24_576);
    same(&rt, energy.sense(), 7);
}

#[test]
fn a_save_as_one_run(rt: HostRuntime) {
    try_case(&rt, rt.alloc(), Case::Save);
}

#[test]
fn a_loss_as_one_run(rt: HostRuntime) {
    try_case(&rt, rt.alloc(), Case::Loss);
}

#[test]
fn a_low_reading_before_a_step(rt: HostRuntime) {
    try_case(&rt, rt.alloc(), Case::Turn);
}

#[test]
fn notices_after_a_save(rt: HostRuntime) {
    try_case(&rt, rt.alloc(), Case::Notices);
}

#[test]
fn a_second_writer(rt: HostRuntime) {
    try_case(&rt, rt.alloc(), Case::SecondWriter);
}

#[test]
fn cuts_in_each_mode(rt: HostRuntime) {
    try_case(&rt, rt.alloc(), Case::Cuts);
}
