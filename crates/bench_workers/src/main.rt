//! How fast hosts write and read at a board, beside one host alone, and a board that loses its mains amid its writes.
//!
//!     bench_workers         a small board, with a saver, with cuts, and with its mains lost at last: the same each time
//!     bench_workers time    writes and reads a second of 1, 2, 4 and 8 hosts on the largest profile, and writes beside a saver
//!     bench_workers idle    how long an idle board of that profile and its saver hold processors in ten seconds
//!     bench_workers loss    10,000 writes of four hosts on the largest profile, the mains lost amid them
//!     bench_workers cut     a million writes of four hosts on that profile in the room of 1,024, saved and cut meanwhile, and
//!                           how long a cut of 1,000, 10,000 and 60,000 writes takes
//!
//! Each host writes and reads in a pseudo-random order, with a worker for each channel beside the hosts. At the end each receipt
//! and each answer is checked against the history; after a saver or a loss the device is restored, and its lines are compared with
//! the history's.
//!
//! `rt run -- time` and `rt run -- idle` in this crate's folder run it proved. How fast threads are hangs on what else runs: look at
//! `uptime` before, and take each figure again beside four busy loops, as those of
//!
//!     for i in 1 2 3 4; do timeout 600 sh -c 'while :; do :; done' & done
#![tactic(auto)]

ghost use Rattle.nv_profile.specs.Limits.{AreSizes};

mod crowd;
mod gate;
mod hosting;
mod life;
mod plans;
mod processor;

use crate::life::{Back, Lived, life_over};
use crate::plans::{Cuts, Plan};
use crate::processor::{held_millis, peak_kib};
use ddr4_timing::profiles::{SMALL, TINY, WIDEST};
use ddr4_timing::timing::Checked;
use energy_budget::TINY_COSTS;
use interleave_map::{Interleaving, ReadyMap};
use nv_profile::{ModuleSizes, Profile};
use std::alloc::Global;
use std::env;
use std::sync::Wait;
use std::thread::Threads;
use std::time::{Clock, Duration};

/// How many writes the hosts make together, where they are timed.
const ALL_WRITES: u64 = 32_000;

/// How many reads each of them makes then: so many that the start of the threads doesn't count.
const READS_EACH: u64 = 20_000;

/// The room of a board's module: for 60,000 writes, or where it is cut along for as many as most modules have.
fn sizes_for(plan: &Plan) -> ModuleSizes
    ensures { AreSizes result }
{
    let trail = if plan.cuts == Cuts::Along {
        1_024
    } else {
        60_000
    };
    ModuleSizes {
        depth: 8,
        reads: 8,
        trail,
        notices: 64,
        retries: 0,
    }
}

// A life over the map `lines`.
fn by_lines<R: Threads + Wait + Clock + Sync>(
    rt: &R,
    alloc: Global,
    checked: Checked,
    plan: &Plan,
) -> anyhow::Result<Lived> {
    let map = ReadyMap {
        interleaving: Interleaving::Lines,
        checked,
    };
    let profile = Profile {
        checked,
        costs: TINY_COSTS,
        sizes: sizes_for(plan),
        map: Interleaving::Lines,
    };
    life_over(rt, alloc, &map, &profile, plan)
}

// A plan of so many hosts, without a saver.
fn plan_of(hosts: usize, writes: u64, reads: u64, lost_at: Option<u64>) -> Plan {
    Plan {
        hosts,
        rest: Duration::ZERO,
        writes,
        reads,
        lines: 128,
        saves: false,
        lost_at,
        cuts: Cuts::Never,
    }
}

// What a life came to.
fn show(rt: &HostRuntime, name: &str, plan: &Plan, lived: &Lived) -> anyhow::Result<()> {
    let Plan { hosts, .. } = plan;
    let Lived {
        accepted,
        checked,
        past,
        ..
    } = lived;
    println!(rt;
        "{name}: {hosts} hosts, {accepted} writes accepted, {checked} receipts and answers checked"
    )?;
    if plan.cuts == Cuts::Along {
        println!(rt; "{name}: {past} receipts and answers past")?;
    }
    if let Some(Back { count, differ }) = lived.back {
        if plan.lost_at.is_some() {
            println!(rt; "{name}: restored {count} writes, {differ} lines differ")?;
        } else {
            println!(rt; "{name}: restored, {differ} lines differ")?;
        }
    }
    Ok(())
}

// How many a second.
fn rate(lived: &Lived) -> u128 {
    (lived.checked as u128).saturating_mul(1_000_000_000) / lived.nanos.max(1)
}

// A plan of so many hosts with a saver, which cut along.
fn cut_along(hosts: usize, writes: u64) -> Plan {
    let mut plan = plan_of(hosts, writes, 0, None);
    plan.saves = true;
    plan.cuts = Cuts::Along;
    plan
}

// A small board, one that is saved meanwhile, one that is cut too, and one whose mains are lost at last.
fn small_plans() -> [(&'static str, Plan); 4] {
    let mut saved = plan_of(4, 100, 50, None);
    saved.saves = true;
    [
        ("small", plan_of(4, 100, 50, None)),
        ("small, saved", saved),
        ("small, cut", cut_along(1, 5_000)),
        ("small, lost", plan_of(1, 100, 0, Some(39))),
    ]
}

// How much memory lives of more and more writes take at most, which are cut along; then how long single cuts take.
fn time_cuts<R: Threads + Wait + Clock + Sync>(
    rt: &HostRuntime,
    threads: &R,
    alloc: Global,
) -> anyhow::Result<()> {
    for each in [2_500, 25_000, 250_000] {
        let plan = cut_along(4, each);
        let lived = by_lines(threads, alloc, TINY.check(&WIDEST)?, &plan)?;
        show(rt, "largest, cut", &plan, &lived)?;
        let most = peak_kib(rt).unwrap_or(0);
        println!(rt; "largest, cut: {most} KiB of memory at most")?;
    }
    for writes in [1_000, 10_000, 60_000] {
        let mut plan = plan_of(1, writes, 0, writes.checked_sub(1));
        plan.cuts = Cuts::Last;
        let lived = by_lines(threads, alloc, TINY.check(&WIDEST)?, &plan)?;
        let nanos = lived.cut_nanos;
        println!(rt; "largest: a cut of {writes} writes in {nanos} nanoseconds")?;
    }
    Ok(())
}

// How many milliseconds of a processor a life takes in which the one host rests so long and does no more, beside a saver.
fn held_through<R: Threads + Wait + Clock + Sync>(
    rt: &HostRuntime,
    threads: &R,
    alloc: Global,
    rest: Duration,
) -> anyhow::Result<u64> {
    let mut plan = plan_of(1, 0, 0, None);
    plan.saves = true;
    plan.rest = rest;
    let before = held_millis(rt).unwrap_or(0);
    by_lines(threads, alloc, TINY.check(&WIDEST)?, &plan)?;
    Ok(held_millis(rt).unwrap_or(0).saturating_sub(before))
}

fn main(rt: HostRuntime) -> anyhow::Result<()> {
    let alloc = rt.alloc();
    let words: Vec<String> = env::args(&rt)?.collect(alloc)?;
    match words.get(1).map(|word| word.as_str()) {
        None => {
            for (name, plan) in small_plans() {
                let lived = by_lines(&rt, alloc, TINY.check(&SMALL)?, &plan)?;
                show(&rt, name, &plan, &lived)?;
            }
        }
        Some("time") => {
            for hosts in [1, 2, 4, 8] {
                let checked = TINY.check(&WIDEST)?;
                let each = ALL_WRITES / hosts as u64;
                let written = by_lines(&rt, alloc, checked, &plan_of(hosts, each, 0, None))?;
                let read = by_lines(&rt, alloc, checked, &plan_of(hosts, 0, READS_EACH, None))?;
                let mut beside = plan_of(hosts, each, 0, None);
                beside.saves = true;
                let saved = by_lines(&rt, alloc, checked, &beside)?;
                let (writes, reads, saved) = (rate(&written), rate(&read), rate(&saved));
                println!(rt;
                    "largest: {hosts} hosts, {writes} writes, {reads} reads a second; {saved} writes beside a saver"
                )?;
            }
        }
        Some("cut") => time_cuts(&rt, &rt, alloc)?,
        Some("idle") => {
            let begun = held_through(&rt, &rt, alloc, Duration::ZERO)?;
            let idle = held_through(&rt, &rt, alloc, Duration::from_secs(10))?;
            let millis = idle.saturating_sub(begun);
            println!(rt; "largest: {millis} milliseconds of a processor in ten idle seconds")?;
        }
        Some(_) => {
            let plan = plan_of(4, 2_500, 0, Some(4_999));
            let lived = by_lines(&rt, alloc, TINY.check(&WIDEST)?, &plan)?;
            show(&rt, "largest, lost", &plan, &lived)?;
        }
    }
    Ok(())
}
