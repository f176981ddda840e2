// What a worker is lent.
use crate::Turn;

/// What a worker did at its turn.
#[derive(Clone, Copy, Debug, PartialEq, Eq)]
pub enum Working {
    /// Something, and it goes on at once.
    Worked,
    /// Nothing: there was nothing to do, or it has to wait.
    Rested,
    /// Nothing any more: mains were lost.
    Closed,
}

/// What a worker is lent: a gate to ask, its turns, and what it does behind one in which there was nothing to do. Its members say
/// what each call comes to, so whatever is lent, the turns of a worker are known by them.
pub trait Shift {
    ghost use Rattle.std.specs.Prelude.{◌≡◌, ℕ, ◌+◌, ◌-◌, ◌^◌, min};
    ghost use Rattle.worker_turns.specs.declared.Turn.{Turn};
    ghost use Rattle.worker_turns.specs.declared.shift.Working.{Working};

    /// It may be lent to the worker of this number.
    ghost is_of: { ℕ → Type 0 };

    /// A worker asked the gate at this turn, and was told so.
    ghost asks: { ℕ → ℕ → Turn → Self → Self → Type 0 };

    /// A worker took its turn, and did this.
    ghost works: { ℕ → Working → Self → Self → Type 0 };

    /// A worker gave way behind so many idle turns in a row.
    ghost rests: { ℕ → Self → Self → Type 0 };

    /// Asks the gate, while no lock is held.
    fn ask(&mut self, worker: u64, turn: u64) -> Turn
        ensures { asks worker turn result self.old self.new };

    /// Takes the worker's turn.
    fn work(&mut self, worker: u64) -> Working
        requires { is_of worker }
        ensures { works worker result self.old self.new };

    /// Gives way behind an idle turn, after so many idle ones in a row. It answers how many they are now.
    fn give_way(&mut self, idle: u64) -> u64
        ensures rests { rests idle self.old self.new }
        ensures more { result ≡ min (idle + 1) (2 ^ 64 - 1) };
}
