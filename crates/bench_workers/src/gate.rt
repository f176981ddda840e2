// The gate of the workers.
use board_hosts::{Gate, Turn};
use std::sync::atomic::{AtomicBool, Ordering};

/// How many turns a worker has: where no thread is to be had, the hosts wait for its end.
const TURNS: u64 = 1 << 28;

/// Lets workers go until the hosts are done.
#[derive(Drop)]
pub(crate) struct UntilDone {
    done: AtomicBool,
}

impl UntilDone {
    /// While the hosts work.
    pub(crate) fn new() -> UntilDone {
        UntilDone {
            done: AtomicBool::new(false),
        }
    }

    /// The hosts are done.
    pub(crate) fn finish(&self) {
        self.done.store(true, Ordering::SeqCst);
    }
}

impl Gate for UntilDone {
    ghost use Rattle.std.specs.Prelude.{⊤};

    // Any answer may come at any turn.
    ghost says = { λ _ _ _ _. ⊤ };

    ghost says_inside = { λ _ _ _ _. ⊤ };

    fn pass(&self, _worker: u64, turn: u64) -> Turn {
        if turn >= TURNS || self.done.load(Ordering::SeqCst) {
            Turn::Stop
        } else {
            Turn::Go
        }
    }

    fn inside(&self, _worker: u64, _turn: u64) -> Turn {
        Turn::Go
    }
}
