// A wait at a gate while a lock is held.
ghost use Rattle.worker_turns.specs.Inside.{AwaitsInside};

use crate::{Gate, Turn};
use std::thread;

/// Asks the gate for a worker that holds its channel's lock, until it says Go or Stop. Behind each Hold it gives its processor away,
/// and keeps the lock.
pub fn await_inside<G: Gate>(gate: &G, worker: u64)
    ensures { AwaitsInside G.Gate worker gate.now }
{
    for turn in 0..u64::MAX {
        match gate.inside(worker, turn) {
            Turn::Go | Turn::Stop => return,
            Turn::Hold => thread::yield_now(),
        }
    }
}
