// The mains of a board.
use std::sync::Wait;
use std::sync::atomic::{AtomicBool, Ordering};
use std::time::Clock;
use worker_turns::give_way;

/// The mains of a board, which any of its hosts may lose.
#[derive(Drop)]
pub struct Mains {
    asked: AtomicBool,
    lost: AtomicBool,
}

impl Mains {
    /// They are there.
    pub(crate) fn new() -> Mains {
        Mains {
            asked: AtomicBool::new(false),
            lost: AtomicBool::new(false),
        }
    }

    /// Whether a host loses them.
    pub(crate) fn are_asked(&self) -> bool {
        self.asked.load(Ordering::SeqCst)
    }

    /// They were lost, and what is done then is done.
    pub(crate) fn tell_lost(&self) {
        self.lost.store(true, Ordering::SeqCst);
    }

    /// Loses them, and returns once that is done: the channels are drained and all accepted writes saved, where they are to be. What
    /// it came to is told at the end of the board (`BoardEnd::loss`).
    pub fn lose<R: Wait + Clock>(&self, rt: &R) {
        self.asked.store(true, Ordering::SeqCst);
        let mut idle = 0;
        for _ in rt.forever() {
            if self.lost.load(Ordering::SeqCst) {
                return;
            }
            idle = give_way(rt, idle);
        }
    }
}
