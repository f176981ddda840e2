//! A trace of values that clauses read, and that a program can read too where it asked for that before the first one. Where it
//! didn't ask, the trace takes no memory.
#![tactic(auto)]

ghost use Rattle.std.specs.Prelude.{◌≡◌, ◌≢◌, ◌↔◌, List, [], ◌∷◌, ◌++◌, IfSome, IsSome, true, false};

mod copying;

use ghost_trace::Trace;
use std::alloc::Global;
use std::marker::Model;

/// The values that were noted, the oldest first: a clause reads them as `items`, and `is_kept` whether `kept` gives them.
#[derive(Drop)]
pub struct KeptTrace<X> {
    noted: Trace<X>,
    kept: Option<Vec<X>>,
}

impl<X> Model for KeptTrace<X> {
    ghost use Rattle.std.specs.Prelude.{◌≡◌, IfSome, is_some};
    ghost use Rattle.kept_trace.specs.Noted.{Noted};

    ghost Value = { Noted X };

    ghost view = { λ t. record { items = t.noted.items; is_kept = is_some t.kept } };

    ghost invariant = { λ t. IfSome t.kept (λ kept. kept.items ≡ t.noted.items) };
}

impl<X: Copy> KeptTrace<X> {
    /// A trace in which nothing was noted, and which isn't kept.
    pub fn new() -> KeptTrace<X>
        ensures { result ≡ record { items = []; is_kept = false } }
    {
        KeptTrace {
            noted: Trace::new(),
            kept: None,
        }
    }

    /// Keeps the values that are noted from now on, all that there are.
    pub fn keep(&mut self, alloc: Global)
        requires { self.old.items ≡ [] }
        ensures { self.new ≡ record self.old { is_kept = true } }
    {
        self.kept = Some(Vec::new(alloc));
    }

    /// Adds the value. It takes memory where the trace is kept; where there is none, the trace is kept no longer, and no value of
    /// it can be read.
    pub fn note(&mut self, now: X)
        ensures noted { self.new.items ≡ self.old.items ++ now ∷ [] }
        ensures kept { self.old.is_kept ≡ false → self.new.is_kept ≡ false }
    {
        self.noted.note(&now);
        let Some(kept) = &mut self.kept else {
            return;
        };
        if kept.push(now).is_err() {
            self.kept = None;
        }
    }

    /// The values that were noted, all that there are; None where nobody asked for them, or memory gave out.
    pub fn kept(&self) -> Option<&[X]>
        ensures all { IfSome result (λ kept. kept.now ≡ self.now.items) }
        ensures some { IsSome result ↔ (self.now.is_kept ≡ true) }
    {
        match &self.kept {
            Some(kept) => Some(kept),
            None => None,
        }
    }
}
