// Gates of the tests.
use board_hosts::{Gate, Turn};
use std::sync::atomic::{AtomicBool, AtomicU64, Ordering};

/// Lets one worker go so many turns, and then stops it. Any other is stopped at once.
#[derive(Drop)]
pub struct Turns {
    pub worker: u64,
    pub most: u64,
}

impl Gate for Turns {
    ghost use Rattle.std.specs.Prelude.{⊤};

    // Any answer may come at any turn.
    ghost says = { λ _ _ _ _. ⊤ };

    ghost says_inside = { λ _ _ _ _. ⊤ };

    fn pass(&self, worker: u64, turn: u64) -> Turn {
        if worker == self.worker && turn < self.most {
            Turn::Go
        } else {
            Turn::Stop
        }
    }

    fn inside(&self, _worker: u64, _turn: u64) -> Turn {
        Turn::Go
    }
}

/// Tells a worker the same so many turns, and then stops it.
#[derive(Drop)]
pub struct EachTurn {
    told: Turn,
    most: u64,
    asked: AtomicU64,
    astray: AtomicBool,
}

impl EachTurn {
    /// Before any question.
    pub(crate) fn new(told: Turn, most: u64) -> EachTurn {
        EachTurn {
            told,
            most,
            asked: AtomicU64::new(0),
            astray: AtomicBool::new(false),
        }
    }

    /// How often it was asked, by all workers.
    pub(crate) fn asked(&self) -> u64 {
        self.asked.load(Ordering::SeqCst)
    }

    /// How often it was asked, if the turns were 0, 1, 2 and so on.
    pub(crate) fn asked_in_order(&self) -> Option<u64> {
        if self.astray.load(Ordering::SeqCst) {
            return None;
        }
        Some(self.asked())
    }
}

impl Gate for EachTurn {
    ghost use Rattle.std.specs.Prelude.{⊤};

    // Any answer may come at any turn.
    ghost says = { λ _ _ _ _. ⊤ };

    ghost says_inside = { λ _ _ _ _. ⊤ };

    fn pass(&self, _worker: u64, turn: u64) -> Turn {
        if self.asked.fetch_add(1, Ordering::SeqCst) != turn {
            self.astray.store(true, Ordering::SeqCst);
        }
        if turn < self.most {
            self.told
        } else {
            Turn::Stop
        }
    }

    fn inside(&self, _worker: u64, _turn: u64) -> Turn {
        Turn::Go
    }
}
