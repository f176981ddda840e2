// How much was tried, and what was missing then.
ghost use Rattle.std.specs.Prelude.{List, [], ◌∷◌, ◌++◌};
ghost use Rattle.crash_table.specs.declared.tried.Tried.{Tried};
ghost use Rattle.crash_table.specs.Counting.{IsCountOf};

use crate::tried::Tried;
use std::fmt;

/// How many stops were tried, and what is missing then.
#[derive(Clone, Copy, Debug, PartialEq, Eq)]
pub struct Counts {
    /// Stops, each with one pick, as far as 64 bits count.
    pub stops: u64,
    /// The most acknowledged writes that an image lacks which is told to be complete.
    pub complete: u64,
    /// The same of one that is told to have lost some, and of none.
    pub possible: u64,
}

impl Counts {
    /// Of nothing.
    pub fn new() -> Counts
        ensures { IsCountOf [] result }
    {
        Counts {
            stops: 0,
            complete: 0,
            possible: 0,
        }
    }

    /// Of all that was tried.
    pub fn of(tried: &[Tried]) -> Counts
        ensures { IsCountOf tried.now result }
    {
        let mut counts = Counts::new();
        counts.count_all(tried);
        counts
    }

    /// Counts some more.
    pub fn count_all(&mut self, more: &[Tried])
        ensures { (tried : List Tried) → IsCountOf tried self.old
            → IsCountOf (tried ++ more.now) self.new }
    {
        for one in more {
            self.count(one);
        }
    }

    /// Counts one more.
    pub fn count(&mut self, one: &Tried)
        ensures { (tried : List Tried) → IsCountOf tried self.old
            → IsCountOf (tried ++ one.now ∷ []) self.new }
    {
        self.stops = self.stops.saturating_add(1);
        let missing = one.outcome.missing();
        if one.outcome.found.is_complete() {
            self.complete = self.complete.max(missing);
        } else {
            self.possible = self.possible.max(missing);
        }
    }
}

impl fmt::Display for Counts {
    fn fmt<W: fmt::Write>(&self, f: &mut fmt::Formatter<W>) -> fmt::Result {
        write!(
            f,
            "stops {}, acknowledged writes missing: with Complete {}, with PossibleLoss {}",
            self.stops, self.complete, self.possible
        )
    }
}
