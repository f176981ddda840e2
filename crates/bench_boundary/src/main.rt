//! The loop of `tools/c_trials/speed.c` on the same module, called without the boundary to C: how many writes and reads a second of
//! processor time, in pseudo-random order. A write that finds its channel full works the channels until it isn't.
//!
//!     bench_boundary PROFILE ROUNDS EACH
#![tactic(auto)]

mod load;

use crate::load::{Load, RoundTimes};
use ddr4_port::Ddr4Port;
use interleave_map::cells::line_count;
use interleave_map::{Interleaving, ReadyMap};
use noted_device::NotedDevice;
use nv_profile::{Profile, read_profile};
use open_life::{EitherDevice, open_new};
use save_device::{Fuse, MemoryDevice};
use script_runner::Wiring;
use slot_store::device_size;
use std::alloc::Global;
use std::{env, fs};
use whole_lives::{Answer, Ask, format_store, live};

// The device of the library's module.
type StoreDevice = Fuse<EitherDevice<MemoryDevice, NotedDevice>>;

// How many a second.
fn rate(count: u64, nanos: u128) -> u128 {
    (count as u128).saturating_mul(1_000_000_000) / nanos.max(1)
}

// One event of a whole life on a store of the profile of a text. The library has such lives, and what they share with an open one is
// compiled otherwise where there is but one caller.
fn live_once(alloc: Global, text: &[u8], size: usize, kind: u64) -> anyhow::Result<u32> {
    let mut store = Vec::from_elem(alloc, 0, size)?;
    let _formatted = format_store(alloc, text, &mut store);
    let ask = Ask {
        kind,
        first: 0,
        second: 0,
        data: [0; 64],
    };
    let mut answers = [Answer {
        code: 0,
        first: 0,
        second: 0,
        data: [0; 64],
    }];
    Ok(live(alloc, text, &mut store, 0, &[ask], &mut answers).code)
}

// What the rounds on a profile took.
fn measure(
    rt: &HostRuntime,
    profile: &Profile,
    rounds: u64,
    each: u64,
) -> anyhow::Result<RoundTimes> {
    let lines = ReadyMap {
        interleaving: Interleaving::Lines,
        checked: profile.checked,
    };
    let xor = ReadyMap {
        interleaving: Interleaving::Xor,
        checked: profile.checked,
    };
    let wiring = Wiring::new(&lines, &xor, profile);
    let bytes = Vec::from_elem(
        rt.alloc(),
        0,
        device_size(line_count(&profile.checked) as usize),
    )?;
    let device = EitherDevice::First(MemoryDevice::new(rt.alloc(), bytes)?);
    let Ok(life) = open_new::<Ddr4Port<'_, ReadyMap>, Wiring<'_, ReadyMap>, StoreDevice>(
        rt.alloc(),
        profile,
        &wiring,
        Fuse::new(device, u64::MAX),
    ) else {
        anyhow::bail!("no life was opened");
    };
    let mut load = Load::new(life);
    let mut tally = RoundTimes::default();
    for _ in 0..rounds {
        load.round(rt, each, &mut tally)?;
    }
    load.end();
    Ok(tally)
}

fn main(rt: HostRuntime) -> anyhow::Result<()> {
    let words: Vec<String> = env::args(&rt)?.collect(rt.alloc())?;
    let [_, path, rounds, each] = words.as_slice() else {
        println!(rt; "bench_boundary PROFILE ROUNDS EACH")?;
        return Ok(());
    };
    let text = fs::read_to_string(&rt, path.as_str())?;
    let Ok(profile) = read_profile(rt.alloc(), text.as_bytes()) else {
        anyhow::bail!("{path} is no profile");
    };
    let rounds: u64 = rounds.parse()?;
    let each: u64 = each.parse()?;
    let tally = measure(&rt, &profile, rounds, each)?;
    let size = device_size(line_count(&profile.checked) as usize);
    let _code = live_once(rt.alloc(), text.as_bytes(), size, rounds)?;
    let calls = rounds.saturating_mul(each);
    let writes = rate(calls, tally.writes);
    let reads = rate(calls, tally.reads);
    let saved = rate(
        rounds.saturating_mul(line_count(&profile.checked)),
        tally.saves,
    );
    println!(rt;
        "{writes} writes, {reads} reads, {saved} lines saved a second ({})",
        tally.sum
    )?;
    Ok(())
}
