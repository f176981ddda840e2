//! How fast a module is on the channels of a profile, beside a plain array of lines.
//!
//!     bench_module         what each answers, in short
//!     bench_module time    and how much of it a second, at the largest size
//!
//! Lines are written and read in a pseudo-random order. A write that finds its channel full works the channel until it isn't, and
//! a read that has to wait works its channel until it has its bytes. A save writes a whole image to a device in memory, and a
//! restore begins a memory with it. An armed module writes as much again, and loses the mains with full queues. A device of two
//! images is restored in turn and at once, beside what the digest of as many lines takes alone.
#![tactic(auto)]

mod armed;
mod digests;
mod load;
mod measured;
mod opening;
mod picks;
mod plain;
mod restores;
mod rounds;

use crate::armed::{Armed, armed_life};
use crate::restores::{Restores, restore_rounds};
use crate::rounds::{Amount, Nanos, RoundResults, module_rounds, plain_rounds};
use ddr4_timing::profiles::{SMALL, TINY, WIDEST};
use ddr4_timing::timing::{Checked, Geometry};
use interleave_map::cells::line_count;
use interleave_map::{Interleaving, ReadyMap};
use std::alloc::Global;
use std::env;
use std::thread::Threads;
use std::time::Clock;

// The rounds of a module over the map `lines`, and an armed life of one.
fn by_lines(
    rt: &HostRuntime,
    checked: Checked,
    amount: Amount,
) -> anyhow::Result<(RoundResults, Armed)> {
    let map = ReadyMap {
        interleaving: Interleaving::Lines,
        checked,
    };
    let tally = module_rounds(rt, &map, amount)?;
    let armed = armed_life(rt, &map, amount.each)?;
    Ok((tally, armed))
}

// How many a second.
fn rate(count: u64, nanos: u128) -> u128 {
    (count as u128).saturating_mul(1_000_000_000) / nanos.max(1)
}

// How much of each a second, where so many lines are saved and restored in a round.
fn show_rates(rt: &HostRuntime, nanos: &Nanos, amount: Amount, lines: u64) -> anyhow::Result<()> {
    let Amount { rounds, each } = amount;
    let calls = rounds.saturating_mul(each);
    let saved = rounds.saturating_mul(lines);
    let writes = rate(calls, nanos.writes);
    let reads = rate(calls, nanos.reads);
    println!(rt; "    {writes} writes and {reads} reads a second")?;
    let saves = rate(saved, nanos.saves);
    let restores = rate(saved, nanos.restores);
    println!(rt; "    {saves} lines saved and {restores} lines restored a second")?;
    Ok(())
}

/// A geometry, and what is measured of it.
#[derive(Drop)]
struct Trial<'a> {
    name: &'a str,
    geometry: Geometry,
    amount: Amount,
    timed: bool,
}

// What a memory answered, and where it is wanted how much of it a second.
fn show(
    rt: &HostRuntime,
    trial: &Trial<'_>,
    memory: &str,
    tally: &RoundResults,
    lines: u64,
) -> anyhow::Result<()> {
    let RoundResults {
        sum,
        generation,
        ..
    } = tally;
    println!(rt;
        "{} {memory}: read {sum:016x}, saved generation {generation}",
        trial.name
    )?;
    if trial.timed {
        show_rates(rt, &tally.nanos, trial.amount, lines)?;
    }
    Ok(())
}

// What an armed life saved at its end, and where it is wanted how fast it was.
fn show_armed(rt: &HostRuntime, trial: &Trial<'_>, armed: &Armed) -> anyhow::Result<()> {
    let Armed {
        waiting,
        generation,
        count,
        ..
    } = armed;
    println!(rt;
        "{} armed: {waiting} writes waited, saved generation {generation} of {count} writes",
        trial.name
    )?;
    if trial.timed {
        let writes = rate(trial.amount.each, armed.writes);
        println!(rt;
            "    {writes} writes a second, a loss in {} nanoseconds",
            armed.loss
        )?;
    }
    Ok(())
}

// What a device restored to, in turn and at once, and where it is wanted how fast.
fn show_restores(
    rt: &HostRuntime,
    trial: &Trial<'_>,
    restores: &Restores,
    lines: u64,
) -> anyhow::Result<()> {
    let Restores {
        in_turn,
        at_once,
        digests,
        generation,
        first,
    } = *restores;
    println!(rt;
        "{} restored in turn and at once: generation {generation}, digest {first:02x}..",
        trial.name
    )?;
    if trial.timed {
        let restored = trial.amount.rounds.saturating_mul(lines);
        let turn = rate(restored, in_turn);
        let once = rate(restored, at_once);
        let digested = rate(restored, digests);
        println!(rt; "    {turn} lines restored a second in turn, {once} at once")?;
        println!(rt; "    {digested} lines digested a second")?;
    }
    Ok(())
}

// A module and a plain array of one geometry, and these restores.
fn compare(rt: &HostRuntime, trial: &Trial<'_>, restores: &Restores) -> anyhow::Result<()> {
    let checked = TINY.check(&trial.geometry)?;
    let lines = line_count(&checked);
    let (module, armed) = by_lines(rt, checked, trial.amount)?;
    show(rt, trial, "module", &module, lines)?;
    show_armed(rt, trial, &armed)?;
    let plain = plain_rounds(rt, &checked, trial.amount)?;
    show(rt, trial, "plain", &plain, lines)?;
    show_restores(rt, trial, restores, lines)
}

// The restores of a trial.
fn restores_of<R: Threads + Clock>(
    rt: &R,
    alloc: Global,
    trial: &Trial<'_>,
) -> anyhow::Result<Restores> {
    let checked = TINY.check(&trial.geometry)?;
    restore_rounds(rt, alloc, &checked, trial.amount.rounds)
}

fn trial_of(name: &str, geometry: Geometry, rounds: u64, each: u64, timed: bool) -> Trial<'_> {
    Trial {
        name,
        geometry,
        amount: Amount { rounds, each },
        timed,
    }
}

fn main(rt: HostRuntime) -> anyhow::Result<()> {
    let words: Vec<String> = env::args(&rt)?.collect(rt.alloc())?;
    match words.as_slice() {
        [_] => {
            for trial in [
                trial_of("tiny", SMALL, 3, 1_000, false),
                trial_of("largest", WIDEST, 1, 2_000, false),
            ] {
                let restores = restores_of(&rt, rt.alloc(), &trial)?;
                compare(&rt, &trial, &restores)?;
            }
            Ok(())
        }
        [_, word] if word.as_str() == "time" => {
            let trial = trial_of("largest", WIDEST, 16, 65_536, true);
            let restores = restores_of(&rt, rt.alloc(), &trial)?;
            compare(&rt, &trial, &restores)
        }
        _ => anyhow::bail!("no word, or time"),
    }
}
