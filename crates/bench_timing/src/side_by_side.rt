// How long the drains of eight channels with full write queues take, in turn and at once.
ghost use Rattle.std.specs.Prelude.{IsTrue};
ghost use Rattle.energy_budget.specs.Costs.{AreReckonedFor};
ghost use Rattle.drain_core.specs.AtOnce.{CanAllDrain};
ghost use Rattle.drain_core.specs.Standing.{CanDrain};

use crate::load::{DEPTH, Load};
use chan_core::{Channel, Phase};
use ddr4_timing::profiles::{TINY, WIDEST};
use ddr4_timing::timing::Checked;
use drain_core::laws::running_channel_may_drain;
use drain_core::{Always, DrainReport, drain, drain_all};
use energy_budget::{Costs, TINY_COSTS};
use interleave_map::{Interleaving, ReadyMap};
use std::alloc::Global;
use std::fmt::Write;
use std::thread::Threads;
use std::time::{Clock, Instant};

// The costs are reckoned for the channel.
fn is_reckoned(channel: &Channel, costs: &Costs) -> bool
    ensures { IsTrue result → AreReckonedFor channel.now.checked costs.now }
{
    if !TINY_COSTS.is_in_limits() {
        return false;
    }
    let own = Costs::of(channel.checked(), &TINY_COSTS);
    if own.channels != costs.channels || own.ranks != costs.ranks || own.pages != costs.pages {
        return false;
    }
    if own.close != costs.close || own.entry != costs.entry {
        return false;
    }
    true
}

fn can_drain(channel: &Channel) -> bool
    ensures { IsTrue result → CanDrain channel.now.checked channel.now.commands }
{
    if !matches!(channel.phase(), Phase::Running) || channel.clock() >= 1 << 62 {
        return false;
    }
    channel.always();
    running_channel_may_drain();
    true
}

fn can_all_drain(channels: &[Channel], costs: &Costs) -> bool
    ensures { IsTrue result → CanAllDrain costs.now channels.now }
{
    for channel in channels {
        if !is_reckoned(channel, costs) || !can_drain(channel) {
            return false;
        }
    }
    true
}

// Every channel of the profile, with a full queue, and where it is busy about to owe eight refreshes a rank.
fn channels(alloc: Global, checked: &Checked, busy: bool) -> anyhow::Result<Vec<Channel>> {
    let map = ReadyMap {
        interleaving: Interleaving::Lines,
        checked: *checked,
    };
    let lead = checked.timing.t_refi.saturating_mul(8);
    let mut channels = Vec::new(alloc);
    for number in 0..checked.geometry.channels {
        let mut load = Load::new(alloc, &map, checked, number)?;
        if busy {
            load.work_until(lead.saturating_sub(60))?;
        }
        channels.push(load.into_channel())?;
    }
    Ok(channels)
}

// Drains one channel after another.
fn drain_in_turn(
    channels: &mut [Channel],
    costs: &Costs,
) -> anyhow::Result<[Option<DrainReport>; 8]> {
    let mut reports = [None; 8];
    for (channel, report) in channels.iter_mut().zip(reports.iter_mut()) {
        if !is_reckoned(channel, costs) || !can_drain(channel) {
            anyhow::bail!("may not drain");
        }
        *report = Some(drain(channel, costs));
    }
    Ok(reports)
}

// Drains all channels at once.
fn drain_at_once<R: Threads + Sync>(
    rt: &R,
    channels: &mut [Channel],
    costs: &Costs,
) -> anyhow::Result<[Option<DrainReport>; 8]> {
    if channels.len() > 8 || !can_all_drain(channels, costs) {
        anyhow::bail!("may not drain");
    }
    Ok(drain_all(rt, channels, costs, &Always))
}

// The drains of all channels, and how many nanoseconds they took.
fn drain_once<R: Threads + Clock + Sync>(
    rt: &R,
    alloc: Global,
    busy: bool,
    at_once: bool,
) -> anyhow::Result<([Option<DrainReport>; 8], u128)> {
    if !TINY_COSTS.is_in_limits() {
        anyhow::bail!("no such costs");
    }
    let checked = TINY.check(&WIDEST)?;
    let costs = Costs::of(&checked, &TINY_COSTS);
    let mut channels = channels(alloc, &checked, busy)?;
    let start = Instant::now(rt)?;
    let reports = if at_once {
        drain_at_once(rt, channels.as_mut_slice(), &costs)?
    } else {
        drain_in_turn(channels.as_mut_slice(), &costs)?
    };
    Ok((reports, start.elapsed(rt)?.as_nanos()))
}

// The mean of so many drains of all channels, in nanoseconds.
fn mean<R: Threads + Clock + Sync>(
    rt: &R,
    alloc: Global,
    busy: bool,
    at_once: bool,
    count: u64,
) -> anyhow::Result<u128> {
    let mut sum: u128 = 0;
    for _ in 0..count {
        let (_, nanos) = drain_once(rt, alloc, busy, at_once)?;
        sum = sum.saturating_add(nanos);
    }
    Ok(sum / (count as u128).max(1))
}

// How many channels were drained, and the most clocks that one of them took.
fn summed(reports: &[Option<DrainReport>]) -> (u64, u64) {
    let mut drained: u64 = 0;
    let mut most = 0;
    for report in reports.iter().flatten() {
        drained = drained.saturating_add(1);
        most = report.clocks.max(most);
    }
    (drained, most)
}

// What the drains of all channels at once take, and whether those in turn take the same.
fn line<R: Threads + Clock + Sync>(rt: &R, alloc: Global, busy: bool) -> anyhow::Result<String> {
    let (in_turn, _) = drain_once(rt, alloc, busy, false)?;
    let (at_once, _) = drain_once(rt, alloc, busy, true)?;
    let (drained, most) = summed(&at_once);
    let word = if busy { "busy" } else { "rested" };
    let same = if at_once == in_turn {
        "as"
    } else {
        "other than"
    };
    Ok(format!(in alloc;
        "{drained} channels {word}: at most {most} clocks for {DEPTH} writes each, {same} in turn"
    )?)
}

/// What the drains of all channels take, and nanoseconds in turn and at once, the mean of so many, where a count is given.
pub(crate) fn text<R: Threads + Clock + Sync>(
    rt: &R,
    alloc: Global,
    count: Option<u64>,
) -> anyhow::Result<String> {
    let mut text = String::new(alloc);
    for busy in [false, true] {
        write!(text, "{}", line(rt, alloc, busy)?)?;
        if let Some(count) = count {
            let in_turn = mean(rt, alloc, busy, false, count)?;
            let at_once = mean(rt, alloc, busy, true, count)?;
            write!(text, ", {in_turn} nanoseconds in turn, {at_once} at once")?;
        }
        writeln!(text)?;
    }
    Ok(text)
}
