// The requests of a queue that may have their commands first.
ghost use Rattle.std.specs.Prelude.{List, All};
ghost use Rattle.ddr4_timing.specs.Places.{LiesIn};
ghost use Rattle.ddr4_timing.specs.declared.command.Stamped.{Stamped};
ghost use Rattle.bank_core.specs.Stands.{Stands};
ghost use Rattle.frfcfs.specs.Search.{AreAllBestInTurn, AreFoundInTurn, TellsEligible};

use crate::noted_look::find_noted;
use crate::queue::Queue;
use crate::scan::{Soonest, find_soonest};
use bank_core::banks::Banks;

impl Queue {
    /// The requests that may have their commands first in a span. It looks at each bank that has a request once, and at each
    /// request where other rows are open than those that it was told of.
    pub(crate) fn soonest(&self, banks: &Banks, now: u64, last: u64) -> Soonest
        requires { All (λ p. LiesIn banks.now.checked.geometry p.place) self.now.requests }
        ensures any { TellsEligible banks.now.checked.geometry self.now.requests result.any }
        ensures found { AreFoundInTurn banks.now.checked.geometry self.now.requests now last
            result.bests }
        ensures best { (list : List Stamped) → Stands banks.now list →
            AreAllBestInTurn banks.now.checked list self.now.requests now last result.bests }
    {
        let (pending, keys) = (self.pending.as_slice(), self.keys.as_slice());
        match find_noted(banks, keys, &self.book, now, last) {
            Some(soonest) => soonest,
            None => find_soonest(banks, pending, keys, now, last),
        }
    }
}
