// Drains side by side.
ghost use Rattle.std.specs.Prelude.{◌≡◌, ◌-◌, ◌<◌, ◌≤◌, ℕ, length, map, slice_index_or, None};
ghost use Rattle.std.specs.Thread.{IsSync};
ghost use Rattle.drain_core.specs.AtOnce.{AreDrained, AreReports, CanAllDrain, CanDrainFrom};
ghost use Rattle.drain_core.specs.Steps.{drained};
ghost use Rattle.worker_turns.specs.Waiting.{AreAwaited};

use crate::channel_drain::drain;
use crate::report::DrainReport;
use chan_core::Channel;
use energy_budget::Costs;
use std::thread::{Threads, join_mut};
use worker_turns::{Gate, await_turn};

// The first reports of one, and then those of the other.
fn joined(
    one: &[Option<DrainReport>; 8],
    other: &[Option<DrainReport>; 8],
    half: usize,
) -> [Option<DrainReport>; 8]
    requires { half ≤ 8 }
    ensures first { (i : ℕ) → i < half
        → slice_index_or result i None ≡ slice_index_or one.now i None }
    ensures then { (i : ℕ) → half ≤ i → i < 8
        → slice_index_or result i None ≡ slice_index_or other.now (i - half) None }
{
    let mut reports = *one;
    for i in half..8 {
        reports[i] = other[i - half];
    }
    reports
}

// Drains channels by halves, each half in a thread of its own. The number is that of the first of them.
fn drain_from<G: Gate + Sync, R: Threads + Sync>(
    rt: &R,
    channels: &mut [Channel],
    costs: &Costs,
    gate: &G,
    first: u64,
) -> [Option<DrainReport>; 8]
    requires { CanDrainFrom costs.now first channels.old }
    ensures drains { AreDrained costs.now channels.old result channels.new }
    ensures asked { AreAwaited G.Gate gate.now first (length channels.old) }
{
    let mut reports = [None; 8];
    if channels.is_empty() {
        return reports;
    }
    if channels.len() == 1 {
        await_turn(gate, first);
        reports[0] = Some(drain(&mut channels[0], costs));
        return reports;
    }
    let half = channels.len() / 2;
    let next = first + half as u64;
    let (left, right) = channels.split_at_mut(half);
    let (one, other) = join_mut(
        rt,
        &mut || -> [Option<DrainReport>; 8]
            requires { IsSync R.row × CanDrainFrom costs.now first left.now }
            ensures { AreDrained costs.entry.now left.entry.now result left.exit.now
                × AreAwaited G.Gate gate.entry.now first (length left.entry.now) }
        { drain_from(rt, left, costs, gate, first) },
        &mut || -> [Option<DrainReport>; 8]
            requires { IsSync R.row × CanDrainFrom costs.now next right.now }
            ensures { AreDrained costs.entry.now right.entry.now result right.exit.now
                × AreAwaited G.Gate gate.entry.now next (length right.entry.now) }
        { drain_from(rt, right, costs, gate, next) },
    );
    joined(&one, &other, half)
}

/// Drains channels at once, eight at most, each as `drain` does: what they leave and report is what `drain` of one after another
/// leaves and reports, whether or not a thread is to be had for each; without one they are drained in turn. A report stands at its
/// channel's place, and behind the last one there is none.
///
/// The gate is asked before each drain, by the channel's place, and again while it says Hold; Stop counts as Go. It takes no
/// memory of the caller's.
pub fn drain_all<G: Gate + Sync, R: Threads + Sync>(
    rt: &R,
    channels: &mut [Channel],
    costs: &Costs,
    gate: &G,
) -> [Option<DrainReport>; 8]
    requires few { length channels.old ≤ 8 }
    requires can { CanAllDrain costs.now channels.old }
    ensures drains { channels.new ≡ map drained channels.old }
    ensures reports { AreReports costs.now.numbers channels.old result }
    ensures asked { AreAwaited G.Gate gate.now 0 (length channels.old) }
{
    drain_from(rt, channels, costs, gate, 0)
}
