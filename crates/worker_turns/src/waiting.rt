// A wait at a gate.
ghost use Rattle.worker_turns.specs.Waiting.{AwaitsTurn};

use crate::{Gate, Turn};
use std::thread;

/// Asks the gate for a worker, turn by turn from 0 on, until it says Go or Stop. Behind each Hold it gives its processor away.
pub fn await_turn<G: Gate>(gate: &G, worker: u64)
    ensures { AwaitsTurn G.Gate worker gate.now }
{
    for turn in 0..u64::MAX {
        match gate.pass(worker, turn) {
            Turn::Go | Turn::Stop => return,
            Turn::Hold => thread::yield_now(),
        }
    }
}
