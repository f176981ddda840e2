// The ready-made maps, as values.
ghost use Rattle.std.specs.Prelude.{◌≡◌, IfSome, IsNone, Some};

use crate::line_map::{LineMap, Names};
use crate::{lines, xor};
use ddr4_timing::place::Place;
use ddr4_timing::timing::Checked;
use std::fmt;

/// The ready-made ways to spread lines over channels.
#[derive(Clone, Copy, Debug, PartialEq, Eq)]
pub enum Interleaving {
    /// Lines that follow one another go to the channels in turn.
    Lines,
    /// The same, with the channel exchanged by the row, so that the lines of a column spread over the channels too.
    Xor,
}

impl Interleaving {
    ghost use Rattle.interleave_map.specs.Ready.{text_of};

    /// The one of a word, `lines` or `xor`; None for any other.
    pub fn named(word: &str) -> Option<Interleaving>
        ensures some { IfSome result (λ named. word.now ≡ text_of named) }
        ensures none { IsNone result → (named : Interleaving) → ¬ (word.now ≡ text_of named) }
    {
        match word {
            "lines" => Some(Interleaving::Lines),
            "xor" => Some(Interleaving::Xor),
            _ => None,
        }
    }
}

impl fmt::Display for Interleaving {
    ghost use Rattle.interleave_map.specs.Ready.{text_of};

    ghost output = { λ interleaving. Some (text_of interleaving) };

    fn fmt<W: fmt::Write>(&self, f: &mut fmt::Formatter<W>) -> fmt::Result {
        match self {
            Interleaving::Lines => f.write_str("lines"),
            Interleaving::Xor => f.write_str("xor"),
        }
    }
}

/// A ready-made map of a checked geometry: both ways between its lines and its places.
#[derive(Clone, Copy, Debug)]
pub struct ReadyMap {
    pub interleaving: Interleaving,
    pub checked: Checked,
}

impl LineMap for ReadyMap {
    ghost use Rattle.interleave_map.specs.Ready.{place_by};

    ghost geometry_of = { λ ready. ready.checked.geometry };

    ghost place_of = { λ ready. place_by ready.interleaving ready.checked.geometry };

    ghost is_lawful = { λ ready. Unit {0} };

    fn place(&self, line: u64) -> Place {
        match self.interleaving {
            Interleaving::Lines => lines::split(&self.checked, line),
            Interleaving::Xor => xor::split(&self.checked, line),
        }
    }

    fn line(&self, place: Place) -> u64 {
        match self.interleaving {
            Interleaving::Lines => lines::join(&self.checked, place),
            Interleaving::Xor => xor::join(&self.checked, place),
        }
    }

    fn interleaves(&self) {}
}

impl Names for ReadyMap {
    ghost use Rattle.interleave_map.specs.Ready.{place_by};

    ghost place_of = { λ ready. place_by ready.interleaving ready.checked.geometry };
}
