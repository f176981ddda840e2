// Gates of the tests.
use board_hosts::{Gate, Turn};
use std::sync::atomic::{AtomicBool, Ordering};
use std::thread;
use std::time::{Clock, Duration};

/// Lets one worker go so many turns, and then stops it. Any other is stopped at once.
#[derive(Drop)]
pub struct Turns {
    pub worker: u64,
    pub most: u64,
}

impl Gate for Turns {
    ghost use Rattle.std.specs.Prelude.{⊤};

    // Any answer may come at any turn.
    ghost says = { λ _ _ _ _. ⊤ };

    ghost says_inside = { λ _ _ _ _. ⊤ };

    fn pass(&self, worker: u64, turn: u64) -> Turn {
        if worker == self.worker && turn < self.most {
            Turn::Go
        } else {
            Turn::Stop
        }
    }

    fn inside(&self, _worker: u64, _turn: u64) -> Turn {
        Turn::Go
    }
}

/// How often a worker asks before it is told to stop: it waits for what doesn't come.
const LIMIT: u64 = 10_000;

/// Holds each worker until a read was answered.
#[derive(Drop)]
pub struct HeldUntil<C: Clock> {
    clock: C,
    answered: AtomicBool,
    late: AtomicBool,
}

impl<C: Clock> HeldUntil<C> {
    /// Before any read.
    pub(crate) fn new(clock: C) -> HeldUntil<C> {
        HeldUntil {
            clock,
            answered: AtomicBool::new(false),
            late: AtomicBool::new(false),
        }
    }

    /// The read was answered.
    pub(crate) fn finish(&self) {
        self.answered.store(true, Ordering::SeqCst);
    }

    /// Was a worker stopped while it waited?
    pub(crate) fn is_late(&self) -> bool {
        self.late.load(Ordering::SeqCst)
    }
}

impl<C: Clock> Gate for HeldUntil<C> {
    ghost use Rattle.std.specs.Prelude.{⊤};

    // Any answer may come at any turn.
    ghost says = { λ _ _ _ _. ⊤ };

    ghost says_inside = { λ _ _ _ _. ⊤ };

    fn pass(&self, _worker: u64, turn: u64) -> Turn {
        if self.answered.load(Ordering::SeqCst) {
            return Turn::Stop;
        }
        if turn >= LIMIT {
            self.late.store(true, Ordering::SeqCst);
            return Turn::Stop;
        }
        thread::sleep(&self.clock, Duration::from_millis(1));
        Turn::Hold
    }

    fn inside(&self, _worker: u64, _turn: u64) -> Turn {
        Turn::Go
    }
}

/// Holds channel 0 until a write on channel 1 was answered and worker 1 has made one work.
#[derive(Drop)]
pub struct OtherFirst<C: Clock> {
    clock: C,
    answered: AtomicBool,
    worked: AtomicBool,
    late: AtomicBool,
}

impl<C: Clock> OtherFirst<C> {
    /// Before any write.
    pub(crate) fn new(clock: C) -> OtherFirst<C> {
        OtherFirst {
            clock,
            answered: AtomicBool::new(false),
            worked: AtomicBool::new(false),
            late: AtomicBool::new(false),
        }
    }

    /// The write on channel 1 was answered.
    pub(crate) fn answer(&self) {
        self.answered.store(true, Ordering::SeqCst);
    }

    /// Was a worker stopped while it waited?
    pub(crate) fn is_late(&self) -> bool {
        self.late.load(Ordering::SeqCst)
    }

    fn hold(&self, turn: u64) -> Turn {
        if turn >= LIMIT {
            self.late.store(true, Ordering::SeqCst);
            return Turn::Stop;
        }
        thread::sleep(&self.clock, Duration::from_millis(1));
        Turn::Hold
    }
}

impl<C: Clock> Gate for OtherFirst<C> {
    ghost use Rattle.std.specs.Prelude.{⊤};

    // Any answer may come at any turn.
    ghost says = { λ _ _ _ _. ⊤ };

    ghost says_inside = { λ _ _ _ _. ⊤ };

    fn pass(&self, worker: u64, turn: u64) -> Turn {
        let answered = self.answered.load(Ordering::SeqCst);
        if worker == 0 {
            if answered && self.worked.load(Ordering::SeqCst) {
                return Turn::Stop;
            }
            return self.hold(turn);
        }
        if !answered {
            return self.hold(turn);
        }
        // The first turn behind the answer works, and the next question says that it did.
        if self.worked.swap(true, Ordering::SeqCst) {
            return Turn::Stop;
        }
        Turn::Go
    }

    fn inside(&self, _worker: u64, _turn: u64) -> Turn {
        Turn::Go
    }
}
