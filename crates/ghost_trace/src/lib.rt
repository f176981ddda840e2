//! A trace of values that only clauses read. It takes no memory, and its methods do nothing at run time.
//!
//! Its four facts (that a new one is empty, that `note` adds a value, that a copy has the same values, and that it may go to
//! any thread) are the only ones of this repository that are proved by hand over a field which no code can reach: nothing else
//! may be, since such a proof could give that field any value.
#![tactic(auto)]

ghost use Rattle.std.specs.Prelude.{◌≡◌, List, [], ◌∷◌, ◌++◌};
ghost use Rattle.std.specs.Borrow.{ftrue};

mod copying;

use std::marker::{Model, PhantomData};

/// The values that were noted, the oldest first: a clause reads them as `items`.
#[derive(Drop)]
pub struct Trace<X> {
    of: PhantomData<X>,
    pub ghost items: { List X },
}

impl<X> Model for Trace<X> {
    ghost also_owns = { λ _. ftrue };
}

// It has no bytes and owns nothing.
unsafe impl<X> Send for Trace<X> {}

unsafe impl<X> Sync for Trace<X> {}

impl<X> Trace<X> {
    /// A trace in which nothing was noted.
    pub fn new() -> Trace<X>
        ensures { result.items ≡ [] }
    {
        Trace { of: PhantomData }
    }

    /// Adds the value as it is now. It is not copied: at run time nothing happens.
    pub fn note(&mut self, _now: &X)
        ensures { self.new.items ≡ self.old.items ++ _now.now ∷ [] }
    {}
}
