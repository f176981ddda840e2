// A loss of mains whose channels are drained at once. Both drains are paid for before the first of them: 439 units for each close
// step and 513 for the one entry, 1,391 in all.
use crate::cases::tiny;
use crate::check::same;
use crate::dark::{
    ASLEEP, DRAINED, Left, OPEN, UNTOUCHED, are_left, armed_with, map_of, restores_to_the_old,
};
use crate::load::{Image, Load, restores_to};
use arm_state::Loss;
use ddr4_port::Ddr4Port;
use interleave_map::ReadyMap;
use save_device::MemoryDevice;
use slot_store::Verdict;
use std::alloc::Global;
use std::process::Abort;
use std::sync::atomic::{AtomicBool, AtomicU64, Ordering};
use std::thread;
use std::thread::Threads;
use std::time::{Clock, Duration};
use worker_turns::{Gate, Turn};

// Tells each drain the same, and counts how often it was asked.
#[derive(Drop)]
struct Told {
    told: Turn,
    asked: AtomicU64,
}

impl Told {
    fn new(told: Turn) -> Told {
        Told {
            told,
            asked: AtomicU64::new(0),
        }
    }
}

impl Gate for Told {
    ghost use Rattle.std.specs.Prelude.{⊤};

    // Any answer may come at any turn.
    ghost says = { λ _ _ _ _. ⊤ };

    ghost says_inside = { λ _ _ _ _. ⊤ };

    fn pass(&self, _worker: u64, _turn: u64) -> Turn {
        self.asked.fetch_add(1, Ordering::SeqCst);
        self.told
    }

    fn inside(&self, _worker: u64, _turn: u64) -> Turn {
        Turn::Go
    }
}

// Loses mains at once.
fn lose<R: Threads + Sync, G: Gate + Sync>(
    rt: &R,
    load: &mut Load<Ddr4Port<'_, ReadyMap>, MemoryDevice>,
    gate: &G,
) -> Loss {
    load.running
        .power_loss_with(rt, &mut load.device, &mut load.gauge, gate)
}

// A loss with so many units, which one write waits for, goes dark. The two channels are left so, and the gate was asked so often.
fn goes_dark<R: Abort + Threads + Sync>(
    rt: &R,
    alloc: Global,
    units: u64,
    first: Left,
    second: Left,
    asked: u64,
) {
    let profile = tiny(rt, alloc);
    let map = map_of(&profile);
    let mut load = armed_with(rt, alloc, &profile, &map, &[], units);
    let gate = Told::new(Turn::Go);
    same(rt, lose(rt, &mut load, &gate), Loss::Dark);
    are_left(rt, &load.running, first, second);
    same(rt, gate.asked.load(Ordering::SeqCst), asked);
    restores_to_the_old(rt, alloc, &mut load.device);
}

// A loss with ample energy saves the one write that waits.
fn saves<R: Abort + Threads + Sync, G: Gate + Sync>(rt: &R, alloc: Global, gate: &G) {
    let profile = tiny(rt, alloc);
    let map = map_of(&profile);
    let mut load = armed_with(rt, alloc, &profile, &map, &[], 9_000);
    let saved = Loss::Saved {
        generation: 2,
        count: 1,
    };
    same(rt, lose(rt, &mut load, gate), saved);
    are_left(rt, &load.running, DRAINED, ASLEEP);
    let image = Image {
        generation: 2,
        count: 1,
        verdict: Verdict::Complete,
        first: 0x44,
        last: 0,
    };
    restores_to(rt, alloc, &mut load.device, image);
}

#[test]
fn dark_before_any_drain(rt: HostRuntime) {
    goes_dark(&rt, rt.alloc(), 0, OPEN, UNTOUCHED, 0);
    goes_dark(&rt, rt.alloc(), 1_390, OPEN, UNTOUCHED, 0);
}

// The gate of the save's slot is the first thing that isn't paid for.
#[test]
fn dark_behind_all_drains(rt: HostRuntime) {
    goes_dark(&rt, rt.alloc(), 1_391, DRAINED, ASLEEP, 2);
}

#[test]
fn stop_counts_as_go(rt: HostRuntime) {
    let gate = Told::new(Turn::Stop);
    saves(&rt, rt.alloc(), &gate);
    same(&rt, gate.asked.load(Ordering::SeqCst), 2);
}

// How often a drain is asked for before it goes on: it waits for what doesn't come.
const LIMIT: u64 = 10_000;

// Holds the drain of each of two channels until that of the other was asked for.
#[derive(Drop)]
struct BothAsked<C: Clock> {
    clock: C,
    first: AtomicBool,
    second: AtomicBool,
    late: AtomicBool,
}

impl<C: Clock> Gate for BothAsked<C> {
    ghost use Rattle.std.specs.Prelude.{⊤};

    // Any answer may come at any turn.
    ghost says = { λ _ _ _ _. ⊤ };

    ghost says_inside = { λ _ _ _ _. ⊤ };

    fn pass(&self, worker: u64, turn: u64) -> Turn {
        let (own, other) = if worker == 0 {
            (&self.first, &self.second)
        } else {
            (&self.second, &self.first)
        };
        own.store(true, Ordering::SeqCst);
        if other.load(Ordering::SeqCst) {
            return Turn::Go;
        }
        if turn >= LIMIT {
            self.late.store(true, Ordering::SeqCst);
            return Turn::Stop;
        }
        thread::sleep(&self.clock, Duration::from_millis(1));
        Turn::Hold
    }

    fn inside(&self, _worker: u64, _turn: u64) -> Turn {
        Turn::Go
    }
}

// One thread alone would wait for the other channel until it is late.
#[test]
fn drains_wait_for_each_other(rt: HostRuntime) {
    let gate = BothAsked {
        clock: rt,
        first: AtomicBool::new(false),
        second: AtomicBool::new(false),
        late: AtomicBool::new(false),
    };
    saves(&rt, rt.alloc(), &gate);
    same(&rt, gate.late.load(Ordering::SeqCst), false);
}
