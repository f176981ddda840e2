// What a restore finds behind a stop.
ghost use Rattle.std.specs.Prelude.{◌≡◌, min};
ghost use Rattle.crash_table.specs.Counting.{writes_found, missing};
ghost use Rattle.crash_table.specs.Outcomes.{found_by};

use nv_script::Answer;
use slot_store::{RestoreError, Verdict};
use std::fmt;

/// What a restore answered.
#[derive(Clone, Copy, Debug, PartialEq, Eq)]
pub enum Found {
    Image {
        generation: u64,
        count: u64,
        verdict: Verdict,
    },
    Refused(RestoreError),
}

/// What a restore found, and what was told before the stop.
#[derive(Clone, Copy, Debug, PartialEq, Eq)]
pub struct Outcome {
    pub found: Found,
    /// How many writes were told to be persistent; none where no format is known to have made the store.
    pub told: u64,
}

impl Found {
    /// By the answer to a restore.
    pub(crate) fn by(answer: &Answer) -> Found
        ensures { result ≡ found_by answer.now }
    {
        match *answer {
            Answer::Restored {
                generation,
                count,
                verdict,
            } => Found::Image {
                generation,
                count,
                verdict,
            },
            Answer::RestoreRefused(error) => Found::Refused(error),
            // a restore has no other answer
            _ => Found::Refused(RestoreError::NoImage),
        }
    }

    /// How many writes it holds, 0 where there is no image.
    pub fn count(&self) -> u64
        ensures { result ≡ writes_found self.now }
    {
        match *self {
            Found::Image { count, .. } => count,
            Found::Refused(_) => 0,
        }
    }

    /// Whether it is an image that is told to be complete.
    pub fn is_complete(&self) -> bool
        ensures { result ≡ Rattle.crash_table.specs.Counting.is_complete self.now }
    {
        match *self {
            Found::Image {
                verdict: Verdict::Complete,
                ..
            } => true,
            _ => false,
        }
    }
}

impl Outcome {
    /// How many of the writes that were told to be persistent it holds.
    pub fn held(&self) -> u64
        ensures { result ≡ min self.now.told (writes_found self.now.found) }
    {
        self.told.min(self.found.count())
    }

    /// How many of them it lacks.
    pub fn missing(&self) -> u64
        ensures { result ≡ Rattle.crash_table.specs.Counting.missing self.now }
    {
        self.told.saturating_sub(self.found.count())
    }
}

impl fmt::Display for Outcome {
    fn fmt<W: fmt::Write>(&self, f: &mut fmt::Formatter<W>) -> fmt::Result {
        match self.found {
            Found::Image {
                generation,
                count,
                verdict,
            } => write!(f, "generation {generation}, writes {count}, {verdict}")?,
            Found::Refused(error) => write!(f, "refused {error}")?,
        }
        write!(f, ", acknowledged {} of {}", self.held(), self.told)
    }
}
