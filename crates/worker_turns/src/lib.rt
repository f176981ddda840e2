//! The turns of whoever works at once with others: the gate that is asked before each (`Gate`), their loop over what a worker is lent
//! (`take_turns`, lent a `Shift`), and how a thread gives way between two. A read that waits has a loop of its own (`await_read`,
//! lent a `Lookout`).
#![tactic(auto)]

mod awaiting;
mod idle;
mod inside;
mod lookout;
mod shift;
mod turns;
mod waiting;

pub use awaiting::{Seen, await_read};
pub use idle::give_way;
pub use inside::await_inside;
pub use lookout::Lookout;
pub use shift::{Shift, Working};
pub use turns::{Ended, take_turns};
pub use waiting::await_turn;

/// What a worker is told at its turn: to take it, to ask again, or to return.
#[derive(Clone, Copy, Debug, PartialEq, Eq)]
pub enum Turn {
    Go,
    Hold,
    Stop,
}

/// Asked before each turn of a worker, while no lock is held, and before each drain of channels that are drained at once; a board
/// that loses mains holds its lock then.
pub trait Gate {
    ghost use Rattle.std.specs.Prelude.{ℕ};
    ghost use Rattle.worker_turns.specs.declared.Turn.{Turn};

    /// A worker was told so at this turn.
    ghost says: { ℕ → ℕ → Turn → Self → Type 0 };

    /// A worker was told so at this question, while it held its channel's lock.
    ghost says_inside: { ℕ → ℕ → Turn → Self → Type 0 };

    /// `worker` is the channel's number, and the number of channels for the saver; `turn` counts from 0 for each worker, one
    /// more at each question.
    fn pass(&self, worker: u64, turn: u64) -> Turn
        ensures { says worker turn result self.now };

    /// Asked once more by a channel's worker, while it holds its channel's lock. `worker` is the channel's number; `turn` counts the
    /// questions in one hold of the lock, from 0 on. At Hold it is asked again with the lock held; Stop counts as Go.
    fn inside(&self, worker: u64, turn: u64) -> Turn
        ensures { says_inside worker turn result self.now };
}

/// Lets each go, at every turn.
pub struct Always;

impl Gate for Always {
    ghost use Rattle.std.specs.Prelude.{◌≡◌};
    ghost use Rattle.worker_turns.specs.declared.Turn.TheVariants.{Go};

    ghost says = { λ _ _ told _. told ≡ Go };

    ghost says_inside = { λ _ _ told _. told ≡ Go };

    fn pass(&self, _worker: u64, _turn: u64) -> Turn {
        Turn::Go
    }

    fn inside(&self, worker: u64, turn: u64) -> Turn {
        self.pass(worker, turn)
    }
}
