// Gates that hold a worker while it has its channel's lock.
use std::sync::atomic::{AtomicBool, AtomicU64, Ordering};
use std::thread;
use std::time::{Clock, Duration};
use worker_turns::{Gate, Turn};

/// How often a gate is asked before it lets a worker go: it waits for what doesn't come.
pub(crate) const LIMIT: u64 = 10_000;

/// Holds a worker's first turn until a host's calls were answered, or for so many questions. Its second turn is refused.
#[derive(Drop)]
pub struct InsideUntil<C: Clock> {
    clock: C,
    most: u64,
    entered: AtomicBool,
    answered: AtomicBool,
    late: AtomicBool,
}

impl<C: Clock> InsideUntil<C> {
    /// Before any question.
    pub(crate) fn new(clock: C, most: u64) -> InsideUntil<C> {
        InsideUntil {
            clock,
            most,
            entered: AtomicBool::new(false),
            answered: AtomicBool::new(false),
            late: AtomicBool::new(false),
        }
    }

    /// Waits until a worker has its channel's lock; it may not come.
    pub(crate) fn await_entry(&self) -> bool {
        for _ in 0..LIMIT {
            if self.entered.load(Ordering::SeqCst) {
                return true;
            }
            thread::sleep(&self.clock, Duration::from_millis(1));
        }
        false
    }

    /// The calls were answered.
    pub(crate) fn answer(&self) {
        self.answered.store(true, Ordering::SeqCst);
    }

    /// Was the worker let go while it waited?
    pub(crate) fn is_late(&self) -> bool {
        self.late.load(Ordering::SeqCst)
    }
}

impl<C: Clock> Gate for InsideUntil<C> {
    ghost use Rattle.std.specs.Prelude.{⊤};

    // Any answer may come at any turn.
    ghost says = { λ _ _ _ _. ⊤ };

    ghost says_inside = { λ _ _ _ _. ⊤ };

    fn pass(&self, _worker: u64, turn: u64) -> Turn {
        if turn == 0 { Turn::Go } else { Turn::Stop }
    }

    fn inside(&self, _worker: u64, turn: u64) -> Turn {
        self.entered.store(true, Ordering::SeqCst);
        if self.answered.load(Ordering::SeqCst) {
            return Turn::Go;
        }
        if turn >= self.most {
            self.late.store(true, Ordering::SeqCst);
            return Turn::Go;
        }
        thread::sleep(&self.clock, Duration::from_millis(1));
        Turn::Hold
    }
}

/// Never lets a worker go that has its channel's lock: it is held for so many questions, and then stopped. Its second turn is
/// refused.
#[derive(Drop)]
pub struct NeverInside {
    asked: AtomicU64,
}

impl NeverInside {
    /// Before any question.
    pub(crate) fn new() -> NeverInside {
        NeverInside {
            asked: AtomicU64::new(0),
        }
    }

    /// How often it was asked with the lock held.
    pub(crate) fn asked(&self) -> u64 {
        self.asked.load(Ordering::SeqCst)
    }
}

impl Gate for NeverInside {
    ghost use Rattle.std.specs.Prelude.{⊤};

    // Any answer may come at any turn.
    ghost says = { λ _ _ _ _. ⊤ };

    ghost says_inside = { λ _ _ _ _. ⊤ };

    fn pass(&self, _worker: u64, turn: u64) -> Turn {
        if turn == 0 { Turn::Go } else { Turn::Stop }
    }

    fn inside(&self, _worker: u64, turn: u64) -> Turn {
        self.asked.fetch_add(1, Ordering::SeqCst);
        if turn < LIMIT { Turn::Hold } else { Turn::Stop }
    }
}

/// Holds each worker that has its channel's lock until mains are about to be lost, and then for some questions more.
#[derive(Drop)]
pub struct HeldAmid<C: Clock> {
    clock: C,
    entered: AtomicU64,
    begun: AtomicBool,
    late: AtomicBool,
}

impl<C: Clock> HeldAmid<C> {
    /// Before any question.
    pub(crate) fn new(clock: C) -> HeldAmid<C> {
        HeldAmid {
            clock,
            entered: AtomicU64::new(0),
            begun: AtomicBool::new(false),
            late: AtomicBool::new(false),
        }
    }

    /// Mains are about to be lost: two workers have their channels' locks by then.
    pub(crate) fn begin(&self) {
        for _ in 0..LIMIT {
            if self.entered.load(Ordering::SeqCst) >= 2 {
                break;
            }
            thread::sleep(&self.clock, Duration::from_millis(1));
        }
        self.begun.store(true, Ordering::SeqCst);
    }

    /// Was a worker let go before?
    pub(crate) fn is_late(&self) -> bool {
        self.late.load(Ordering::SeqCst)
    }
}

impl<C: Clock> Gate for HeldAmid<C> {
    ghost use Rattle.std.specs.Prelude.{⊤};

    // Any answer may come at any turn.
    ghost says = { λ _ _ _ _. ⊤ };

    ghost says_inside = { λ _ _ _ _. ⊤ };

    fn pass(&self, _worker: u64, turn: u64) -> Turn {
        if turn < LIMIT { Turn::Go } else { Turn::Stop }
    }

    fn inside(&self, _worker: u64, turn: u64) -> Turn {
        if turn == 0 {
            self.entered.fetch_add(1, Ordering::SeqCst);
        }
        if self.begun.load(Ordering::SeqCst) {
            return if turn % 16 == 15 {
                Turn::Go
            } else {
                Turn::Hold
            };
        }
        if turn >= LIMIT {
            self.late.store(true, Ordering::SeqCst);
            return Turn::Go;
        }
        thread::sleep(&self.clock, Duration::from_millis(1));
        Turn::Hold
    }
}
