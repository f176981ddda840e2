//! A journal's calls, stopped at each call of the device, restored, and compared with a plain list.
//!
//!     journal_trials
//!
//! Each script is run over a device of which all calls fail from one on, for each such call, up to the first that it doesn't make; then
//! the power is lost, and the bytes that weren't settled are the old ones, the new ones, or torn. What a restore finds must be the plain
//! list behind a first part of the script's calls; told Complete, with each call that was told stored. The last line counts what was
//! wrong.
#![tactic(auto)]

mod ledger;
mod script;
mod trial;

use crate::script::{SCRIPTS, Script};
use crate::trial::{Judged, try_once};
use ddr4_timing::profiles::{SMALL, TINY};
use interleave_map::{Interleaving, ReadyMap};
use save_device::Pick;

/// What becomes of bytes that weren't settled.
const PICKS: [Pick; 4] = [Pick::Old, Pick::New, Pick::Torn(0), Pick::Torn(0xa5)];

/// No script makes more calls of the device.
const MOST_CALLS: u64 = 4_096;

/// How many trials there were, and what they came to.
#[derive(Clone, Copy)]
struct RestoreCounts {
    stops: u64,
    restores: u64,
    complete: u64,
    records: u64,
    wrong: u64,
}

impl RestoreCounts {
    const NONE: RestoreCounts = RestoreCounts {
        stops: 0,
        restores: 0,
        complete: 0,
        records: 0,
        wrong: 0,
    };

    fn add(&mut self, judged: Judged) {
        self.restores = self.restores.saturating_add(1);
        self.records = self.records.saturating_add(judged.records);
        if judged.is_complete {
            self.complete = self.complete.saturating_add(1);
        }
        if !judged.is_right {
            self.wrong = self.wrong.saturating_add(1);
        }
    }

    fn join(&mut self, other: RestoreCounts) {
        self.stops = self.stops.saturating_add(other.stops);
        self.restores = self.restores.saturating_add(other.restores);
        self.complete = self.complete.saturating_add(other.complete);
        self.records = self.records.saturating_add(other.records);
        self.wrong = self.wrong.saturating_add(other.wrong);
    }
}

// A stop at one call of the device, with each kind of unsettled bytes; whether the script makes that call.
fn try_stop(
    rt: &HostRuntime,
    map: &ReadyMap,
    script: &Script,
    passes: u64,
    tally: &mut RestoreCounts,
) -> anyhow::Result<bool> {
    let mut reached = false;
    for pick in PICKS {
        let judged = try_once(rt.alloc(), map, script, passes, pick)?;
        reached = judged.is_stopped;
        tally.add(judged);
    }
    tally.stops = tally.stops.saturating_add(1);
    Ok(reached)
}

// All stops of a script.
fn try_script(rt: &HostRuntime, map: &ReadyMap, script: &Script) -> anyhow::Result<RestoreCounts> {
    let mut tally = RestoreCounts::NONE;
    for passes in 0..MOST_CALLS {
        if !try_stop(rt, map, script, passes, &mut tally)? {
            break;
        }
    }
    Ok(tally)
}

fn show(rt: &HostRuntime, name: &str, tally: RestoreCounts) -> anyhow::Result<()> {
    println!(rt;
        "{name}: {} stops, {} restores, {} complete, {} records compared, {} wrong",
        tally.stops, tally.restores, tally.complete, tally.records, tally.wrong
    )?;
    Ok(())
}

fn main(rt: HostRuntime) -> anyhow::Result<()> {
    let checked = TINY.check(&SMALL)?;
    let map = ReadyMap {
        interleaving: Interleaving::Lines,
        checked,
    };
    let mut all = RestoreCounts::NONE;
    for script in SCRIPTS {
        let tally = try_script(&rt, &map, &script)?;
        show(&rt, script.name, tally)?;
        all.join(tally);
    }
    show(&rt, "all", all)
}
