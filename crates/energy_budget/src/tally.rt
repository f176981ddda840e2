// A count that has no largest number where clauses read it.
ghost use Rattle.std.specs.Prelude.{◌≡◌, ◌+◌, ◌-◌, ◌^◌, min, length};

use ghost_trace::Trace;

/// A count; it is shown as the largest number where it is more.
#[derive(Drop)]
pub(crate) struct Tally {
    shown: u64,
    counted: Trace<()>,
    ghost is_shown: { shown ≡ min (length counted.items) (2 ^ 64 - 1) },
}

impl Tally {
    ghost use Rattle.energy_budget.specs.Tally.{count_of};

    pub(crate) fn new() -> Tally
        ensures { count_of result ≡ 0 }
    {
        Tally {
            shown: 0,
            counted: Trace::new(),
        }
    }

    pub(crate) fn copy(&self) -> Tally
        ensures { count_of result ≡ count_of self.now }
    {
        Tally {
            shown: self.shown,
            counted: self.counted.copy(),
        }
    }

    pub(crate) fn add(&mut self)
        ensures { count_of self.new ≡ count_of self.old + 1 }
    {
        self.counted.note(&());
        self.shown = self.shown.saturating_add(1);
    }

    pub(crate) fn shown(&self) -> u64
        ensures { result ≡ min (count_of self.now) (2 ^ 64 - 1) }
    {
        self.shown
    }
}
