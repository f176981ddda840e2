// Channels that are drained at once, beside the same ones drained in turn.
ghost use Rattle.std.specs.Prelude.{IsTrue};
ghost use Rattle.energy_budget.specs.Costs.{AreReckonedFor};
ghost use Rattle.drain_core.specs.AtOnce.{CanAllDrain};
ghost use Rattle.drain_core.specs.Standing.{CanDrain};

use crate::tests::check::same;
use crate::tests::fixture::Fixture;
use crate::tests::run::{Run, refreshes};
use chan_core::{Channel, Phase, RECENT};
use ddr4_timing::profiles::{SHORT_ROWS, TIGHT};
use drain_core::laws::running_channel_may_drain;
use drain_core::{DrainReport, Gate, Turn, drain_all};
use energy_budget::{Costs, TINY_COSTS};
use interleave_map::{Interleaving, ReadyMap};
use line_memory::Line;
use std::process::Abort;
use std::sync::atomic::{AtomicBool, AtomicU64, Ordering};
use std::thread;
use std::thread::Threads;
use std::time::{Clock, Duration};

// A channel with a full queue, of which each rank owes eight refreshes.
fn owing<R: Abort + AllocGlobal>(rt: &R, salt: u64) -> Run {
    let mut run = Run::new(rt, &TIGHT, &SHORT_ROWS, salt, 4);
    run.busy_until(rt, 8 * 184 - 20);
    run.fill(rt);
    run
}

// So many such channels.
fn channels<R: Abort + AllocGlobal>(rt: &R, count: u64) -> Vec<Channel> {
    let mut channels = Vec::new(rt.alloc());
    for salt in 0..count {
        let channel = owing(rt, salt).into_channel();
        channels.push(channel).expect(rt, "memory");
    }
    channels
}

// The costs are reckoned for the channel.
fn is_reckoned(channel: &Channel, costs: &Costs) -> bool
    ensures { IsTrue result → AreReckonedFor channel.now.checked costs.now }
{
    if !TINY_COSTS.is_in_limits() {
        return false;
    }
    let own = Costs::of(channel.checked(), &TINY_COSTS);
    if own.channels != costs.channels || own.ranks != costs.ranks || own.pages != costs.pages {
        return false;
    }
    if own.close != costs.close || own.entry != costs.entry {
        return false;
    }
    true
}

fn can_drain(channel: &Channel) -> bool
    ensures { IsTrue result → CanDrain channel.now.checked channel.now.commands }
{
    if !matches!(channel.phase(), Phase::Running) || channel.clock() >= 1 << 62 {
        return false;
    }
    channel.always();
    running_channel_may_drain();
    true
}

fn can_all_drain(channels: &[Channel], costs: &Costs) -> bool
    ensures { IsTrue result → CanAllDrain costs.now channels.now }
{
    for channel in channels {
        if !is_reckoned(channel, costs) || !can_drain(channel) {
            return false;
        }
    }
    true
}

// Drains the channels at once.
fn drained<R: Abort + Threads + Sync, G: Gate + Sync>(
    rt: &R,
    channels: &mut [Channel],
    gate: &G,
) -> [Option<DrainReport>; 8] {
    assert!(*rt; TINY_COSTS.is_in_limits());
    let checked = TIGHT.check(&SHORT_ROWS).expect(rt, "a profile");
    let costs = Costs::of(&checked, &TINY_COSTS);
    assert!(*rt; channels.len() <= 8 && can_all_drain(channels, &costs));
    drain_all(rt, channels, &costs, gate)
}

// A line of the channel's array.
fn stored<R: Abort>(rt: &R, channel: &Channel, line: u64) -> Line {
    let map = ReadyMap {
        interleaving: Interleaving::Lines,
        checked: *channel.checked(),
    };
    assert!(*rt; channel.has_line(&map, line));
    channel.stored(&map, line)
}

// The array is that of the other.
fn same_array<R: Abort>(rt: &R, channel: &Channel, other: &Fixture) {
    for index in 0..other.lines() {
        let line = other.line(index);
        same(rt, stored(rt, channel, line), other.stored(rt, line));
    }
}

// The last commands are those of the other, and nothing is pending.
fn same_commands<R: Abort>(rt: &R, channel: &Channel, other: &Fixture) {
    for i in 0..RECENT {
        same(rt, channel.recent(i), other.channel().recent(i));
    }
    same(rt, channel.clock(), other.channel().clock());
    same(rt, channel.phase(), Phase::Asleep);
    same(rt, channel.pending(), 0);
}

// A channel was drained at once as it is in turn, where `Run::drain` looks at each command.
fn as_in_turn<R: Abort + AllocGlobal>(
    rt: &R,
    salt: u64,
    channel: &Channel,
    report: Option<DrainReport>,
) {
    let mut run = owing(rt, salt);
    let drained = run.drain(rt);
    same(rt, refreshes(&drained.commands), 32);
    same(rt, report, Some(drained.report));
    same_commands(rt, channel, &run.fixture);
    same_array(rt, channel, &run.fixture);
}

// All of them were, and no report stands behind the last.
fn all_as_in_turn<R: Abort + AllocGlobal>(
    rt: &R,
    channels: &[Channel],
    reports: &[Option<DrainReport>],
) {
    for (i, report) in reports.iter().enumerate() {
        match channels.get(i) {
            Some(channel) => as_in_turn(rt, i as u64, channel, *report),
            None => same(rt, *report, None),
        }
    }
}

// Holds each channel for two turns, and then says Stop.
#[derive(Drop)]
struct HeldTwice {
    asked: AtomicU64,
}

impl Gate for HeldTwice {
    ghost use Rattle.std.specs.Prelude.{⊤};

    // Any answer may come at any turn.
    ghost says = { λ _ _ _ _. ⊤ };

    ghost says_inside = { λ _ _ _ _. ⊤ };

    fn pass(&self, _worker: u64, turn: u64) -> Turn {
        self.asked.fetch_add(1, Ordering::SeqCst);
        if turn < 2 { Turn::Hold } else { Turn::Stop }
    }

    fn inside(&self, _worker: u64, _turn: u64) -> Turn {
        Turn::Go
    }
}

#[test]
fn eight_drains_at_once(rt: HostRuntime) {
    let gate = HeldTwice {
        asked: AtomicU64::new(0),
    };
    let mut channels = channels(&rt, 8);
    let reports = drained(&rt, channels.as_mut_slice(), &gate);
    same(&rt, gate.asked.load(Ordering::SeqCst), 8 * 3);
    all_as_in_turn(&rt, channels.as_slice(), &reports);
}

// How often a channel is asked for before its drain goes on: it waits for what doesn't come.
const LIMIT: u64 = 10_000;

// Holds each of two channels until the other was asked for.
#[derive(Drop)]
struct BothAsked<C: Clock> {
    clock: C,
    first: AtomicBool,
    second: AtomicBool,
    late: AtomicBool,
}

impl<C: Clock> Gate for BothAsked<C> {
    ghost use Rattle.std.specs.Prelude.{⊤};

    // Any answer may come at any turn.
    ghost says = { λ _ _ _ _. ⊤ };

    ghost says_inside = { λ _ _ _ _. ⊤ };

    fn pass(&self, worker: u64, turn: u64) -> Turn {
        let (own, other) = if worker == 0 {
            (&self.first, &self.second)
        } else {
            (&self.second, &self.first)
        };
        own.store(true, Ordering::SeqCst);
        if other.load(Ordering::SeqCst) {
            return Turn::Go;
        }
        if turn >= LIMIT {
            self.late.store(true, Ordering::SeqCst);
            return Turn::Stop;
        }
        thread::sleep(&self.clock, Duration::from_millis(1));
        Turn::Hold
    }

    fn inside(&self, _worker: u64, _turn: u64) -> Turn {
        Turn::Go
    }
}

// One thread alone would wait for the other channel until it is late.
#[test]
fn two_drains_wait_for_each_other(rt: HostRuntime) {
    let gate = BothAsked {
        clock: rt,
        first: AtomicBool::new(false),
        second: AtomicBool::new(false),
        late: AtomicBool::new(false),
    };
    let mut channels = channels(&rt, 2);
    let reports = drained(&rt, channels.as_mut_slice(), &gate);
    same(&rt, gate.late.load(Ordering::SeqCst), false);
    all_as_in_turn(&rt, channels.as_slice(), &reports);
}
