// A loss of mains over a device of which one call fails, and is made again: it is paid for once more, to the unit. On the small
// profile the drains take 1,391 units, and the steps of the save 2,450.
ghost use Rattle.std.specs.Prelude.{◌≡◌};

use crate::cases::{load_of, tiny};
use crate::check::same;
use crate::load::{Image, Load, restores_to};
use arm_state::Loss;
use ddr4_boards::{formatted, open};
use ddr4_port::Ddr4Port;
use energy_budget::Meter;
use interleave_map::{Interleaving, ReadyMap};
use nv_profile::{Profile, TINY, read_profile};
use save_device::{MemoryDevice, OneFault};
use slot_store::Verdict;
use std::alloc::Global;
use std::process::Abort;
use std::thread::Threads;

/// What is enough to arm, and to accept a write.
const ENOUGH: u64 = 9_000;

/// The drains and the save, each action of them once.
const ONCE: u64 = 3_841;

/// What each step of the save takes.
const STEPS: [u64; 8] = [50, 100, 1_000, 1_000, 50, 100, 50, 100];

const SAVED: Loss = Loss::Saved {
    generation: 2,
    count: 1,
};

// The profile `tiny`, with two device calls that may be made again.
fn tiny_with_retries<R: Abort>(rt: &R, alloc: Global) -> Profile {
    let text = TINY
        .replace(alloc, "notices = 64\n", "notices = 64\nretries = 2\n")
        .expect(rt, "memory");
    match read_profile(alloc, text.as_bytes()) {
        Ok(profile) => profile,
        Err(_) => panic!(*rt; "a profile"),
    }
}

// An armed module on which one write waits, over a device that passes so many calls before the one that fails.
fn armed<'m, R: Abort + Threads>(
    rt: &R,
    alloc: Global,
    map: &'m ReadyMap,
    profile: &Profile,
    before: u64,
) -> Load<Ddr4Port<'m, ReadyMap>, OneFault<MemoryDevice>>
    requires { map.now.checked.geometry ≡ profile.now.checked.geometry }
{
    let Ok(device) = formatted(alloc, profile) else {
        panic!(*rt; "a device");
    };
    let device = OneFault::new(device, before);
    let Ok(ready) = open(rt, alloc, map, profile, device, Meter::with(ENOUGH, 0), 1) else {
        panic!(*rt; "a module");
    };
    let mut load = load_of(rt, ready);
    load.arm_with_a_write(rt);
    load
}

fn lines_map(profile: &Profile) -> ReadyMap
    ensures { result.checked ≡ profile.now.checked }
{
    ReadyMap {
        interleaving: Interleaving::Lines,
        checked: profile.checked,
    }
}

// How many calls of the device are made until it is armed.
fn calls_until_armed<R: Abort + Threads>(rt: &R, alloc: Global, profile: &Profile) -> u64 {
    let map = lines_map(profile);
    let load = armed(rt, alloc, &map, profile, u64::MAX);
    u64::MAX.saturating_sub(load.device.before.unwrap_or(0))
}

// What mains that are lost come to, with so many units on backup.
fn loses<R: Abort + Threads>(
    rt: &R,
    alloc: Global,
    profile: &Profile,
    before: u64,
    units: u64,
) -> Loss {
    let map = lines_map(profile);
    let mut load = armed(rt, alloc, &map, profile, before);
    load.gauge.lie(units);
    let lost = load.lose();
    if lost == SAVED {
        let image = Image {
            generation: 2,
            count: 1,
            verdict: Verdict::Complete,
            first: 0x44,
            last: 0,
        };
        restores_to(rt, alloc, &mut load.device, image);
    }
    lost
}

// Whichever step fails, the units for all steps and for that one once more are enough, and one unit less isn't.
#[test]
fn a_step_made_again_is_paid_for_once_more(rt: HostRuntime) {
    let alloc = rt.alloc();
    let profile = tiny_with_retries(&rt, alloc);
    let mut before = calls_until_armed(&rt, alloc, &profile);
    for cost in STEPS {
        let enough = loses(&rt, alloc, &profile, before, ONCE + cost);
        same(&rt, (cost, enough), (cost, SAVED));
        let dark = loses(&rt, alloc, &profile, before, ONCE + cost - 1);
        same(&rt, (cost, dark), (cost, Loss::Dark));
        before = before.saturating_add(1);
    }
}

// With no repeats the first failure ends the save, whichever it is, and the units for all steps once are enough where none fails.
#[test]
fn no_step_is_made_again(rt: HostRuntime) {
    let alloc = rt.alloc();
    let profile = tiny(&rt, alloc);
    let mut before = calls_until_armed(&rt, alloc, &profile);
    for _step in STEPS {
        let lost = loses(&rt, alloc, &profile, before, ENOUGH);
        same(&rt, lost, Loss::Fault);
        before = before.saturating_add(1);
    }
    same(&rt, loses(&rt, alloc, &profile, u64::MAX, ONCE), SAVED);
}
