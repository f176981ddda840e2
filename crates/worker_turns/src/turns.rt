// The turns of a worker.
ghost use Rattle.worker_turns.specs.Shifts.{WorksUntil};

use crate::Turn;
use crate::shift::{Shift, Working};

/// What ended a worker.
#[derive(Clone, Copy, Debug, PartialEq, Eq)]
pub enum Ended {
    /// The gate said so.
    Stopped,
    /// Mains were lost.
    Closed,
}

/// Asks the gate before each turn, counted from 0, and takes one turn at each `Go`, until the gate says stop or mains were lost.
/// Behind a turn that was held, or in which there was nothing to do, it gives way.
pub fn take_turns<S: Shift>(shift: &mut S, worker: u64) -> Ended
    requires { S.is_of worker }
    ensures { WorksUntil S.Shift worker result shift.old shift.new }
{
    let mut idle = 0;
    for turn in 0..u64::MAX {
        match shift.ask(worker, turn) {
            Turn::Go => match shift.work(worker) {
                Working::Worked => idle = 0,
                Working::Rested => idle = shift.give_way(idle),
                Working::Closed => return Ended::Closed,
            },
            Turn::Hold => idle = shift.give_way(idle),
            Turn::Stop => return Ended::Stopped,
        }
    }
    Ended::Stopped
}
