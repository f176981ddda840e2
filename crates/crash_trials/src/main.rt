//! Scripts that are broken off at each moment, restored, and judged by the list of their writes.
//!
//!     crash_trials           a stop at each device call, one call that fails, both at once, and a loss of mains after each line;
//!                            and lives whose gauge answers any words, over a device that fails at will, drawn from seeds
//!     crash_trials all       the same, with each pair of calls, each number of units that a gauge may have left, up to 4,000,
//!                            and 20 times as many seeds
//!     crash_trials seed N    the lives that are drawn from this seed alone
//!
//! A trial is wrong, and its script is shown, where the restore is refused, holds lines that no prefix of the accepted writes
//! gives, is told Complete and lacks a write that was told persistent, or lacks one though the gauge told the truth and the device
//! failed nowhere. It is also wrong where the table that `nvctl crash` prints has another restore for the same stop.
#![tactic(auto)]

mod draws;
mod events;
mod extent;
mod judging;
mod ledger;
mod longest;
mod scripts;
mod settings;
mod show;
mod tally;
mod trials;
mod wild;

use crate::extent::Extent;
use crate::scripts::SCRIPTS;
use crate::settings::{SETTINGS, Setting};
use crate::show::Show;
use crate::trials::Trials;
use nv_profile::Profile;
use std::env;

// A script of as many lines as a script may have.
fn show_longest(rt: &HostRuntime, profile: &Profile) -> anyhow::Result<()> {
    let script = longest::script(rt.alloc())?;
    let answers = Trials::new(rt.alloc(), profile).answers(&script)?;
    let right = longest::right_reads(rt.alloc(), &answers)?;
    println!(*rt;
        "{} lines: {right} of {} reads right",
        script.split('\n').count() - 1,
        longest::ROUNDS
    )?;
    Ok(())
}

// The trials of each script.
fn try_scripts(show: &mut Show<'_>, setting: &Setting, extent: Extent) -> anyhow::Result<()> {
    let alloc = show.rt.alloc();
    let profile = setting.profile(alloc)?;
    if extent.has_stops {
        show_longest(show.rt, &profile)?;
    }
    let trials = Trials::new(alloc, &profile);
    for script in SCRIPTS {
        println!(*show.rt; "{}, {}", script.name, setting.name)?;
        let text = setting.script(alloc, script.text)?;
        if extent.has_stops {
            try_faults(show, &trials, &text, setting, extent)?;
            try_losses(show, &trials, &text, setting, extent)?;
        }
        let lives = trials.wild_lives(&text, extent.first_seed, extent.seeds)?;
        show.tally("a gauge at will", &lives)?;
    }
    Ok(())
}

// The trials of one script over a device that fails.
fn try_faults(
    show: &mut Show<'_>,
    trials: &Trials<'_>,
    text: &str,
    setting: &Setting,
    extent: Extent,
) -> anyhow::Result<()> {
    let repeats = setting.retries > 0;
    show.tally("a device that fails", &trials.stops(text)?)?;
    show.tally(
        "one call that fails",
        &trials.one_faults(text, repeats, extent)?,
    )?;
    show.tally(
        "one call, and then the device",
        &trials.both(text, extent.calls)?,
    )
}

// The trials of one script under a loss of mains.
fn try_losses(
    show: &mut Show<'_>,
    trials: &Trials<'_>,
    text: &str,
    setting: &Setting,
    extent: Extent,
) -> anyhow::Result<()> {
    let repeats = setting.retries > 0;
    show.tally("mains lost", &trials.losses(text)?)?;
    show.tally(
        "mains lost, and one call that fails",
        &trials.one_fault_losses(text, repeats, extent)?,
    )?;
    if repeats {
        return Ok(());
    }
    show.tally(
        "mains lost under a lie",
        &trials.lies(text, setting.unit, extent.lies)?,
    )
}

// What these words ask for.
fn extent_of(words: &[String]) -> anyhow::Result<Extent> {
    match words {
        [_] => Ok(Extent::SHORT),
        [_, word] if word.as_str() == "all" => Ok(Extent::ALL),
        [_, word, seed] if word.as_str() == "seed" => Ok(Extent::of_seed(seed.parse::<u64>()?)),
        _ => anyhow::bail!("no word, all, or seed and a number"),
    }
}

fn main(rt: HostRuntime) -> anyhow::Result<()> {
    let words: Vec<String> = env::args(&rt)?.collect(rt.alloc())?;
    let extent = extent_of(&words)?;
    let mut show = Show::new(&rt);
    for setting in &SETTINGS {
        if extent.has_all_settings || setting.is_short {
            try_scripts(&mut show, setting, extent)?;
        }
    }
    show.end()
}
