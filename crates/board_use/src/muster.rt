// How far the threads of a board are.
use board_hosts::{Gate, Turn};
use std::sync::Wait;
use std::sync::atomic::{AtomicBool, AtomicU64, Ordering};
use std::time::Clock;
use worker_turns::give_way;

/// Whether all threads of a board are there, how many of its hosts are done, and whether all are or a thread was refused. Workers go
/// between the first and the last.
#[derive(Drop)]
pub(crate) struct Muster {
    all_there: AtomicBool,
    done: AtomicU64,
    over: AtomicBool,
}

impl Muster {
    /// Before any thread is there.
    pub(crate) fn new() -> Muster {
        Muster {
            all_there: AtomicBool::new(false),
            done: AtomicU64::new(0),
            over: AtomicBool::new(false),
        }
    }

    /// All threads are there.
    pub(crate) fn complete(&self) {
        self.all_there.store(true, Ordering::SeqCst);
    }

    /// A host is done.
    pub(crate) fn leave(&self) {
        self.done.fetch_add(1, Ordering::SeqCst);
    }

    /// Whether so many hosts are done.
    pub(crate) fn have_left(&self, hosts: usize) -> bool {
        self.done.load(Ordering::SeqCst) >= hosts as u64
    }

    /// The hosts are done, or a thread was refused.
    pub(crate) fn end(&self) {
        self.over.store(true, Ordering::SeqCst);
    }

    /// Waits until all threads are there; false where one was refused.
    pub(crate) fn wait<R: Wait + Clock>(&self, rt: &R) -> bool {
        let mut idle = 0;
        for _ in rt.forever() {
            if self.over.load(Ordering::SeqCst) {
                return false;
            }
            if self.all_there.load(Ordering::SeqCst) {
                return true;
            }
            idle = give_way(rt, idle);
        }
        unreachable!()
    }
}

impl Gate for Muster {
    ghost use Rattle.std.specs.Prelude.{⊤};

    // Any answer may come at any turn.
    ghost says = { λ _ _ _ _. ⊤ };

    ghost says_inside = { λ _ _ _ _. ⊤ };

    fn pass(&self, _worker: u64, _turn: u64) -> Turn {
        if self.over.load(Ordering::SeqCst) {
            Turn::Stop
        } else if self.all_there.load(Ordering::SeqCst) {
            Turn::Go
        } else {
            Turn::Hold
        }
    }

    fn inside(&self, _worker: u64, _turn: u64) -> Turn {
        Turn::Go
    }
}
