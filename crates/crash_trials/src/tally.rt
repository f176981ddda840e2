// What trials came to.
use crate::judging::{Restored, Wrong};
use std::alloc::{AllocError, Global};

/// So many stops are remembered.
const MOST_SEEN: usize = 64;

/// What a stop leaves to be judged.
#[derive(Drop, PartialEq, Eq)]
pub(crate) struct Left {
    /// The writes that were accepted, and the answers, but for those that say how the device or the gauge is to fail.
    pub account: String,
    /// What the device reads.
    pub bytes: Vec<u8>,
    /// The same with another byte at each place that isn't synced.
    pub torn: Vec<u8>,
    /// Nothing but what was never told persistent may be lost.
    pub honest: bool,
}

impl Left {
    /// All is synced, so that each pick leaves the same.
    pub(crate) fn is_settled(&self) -> bool {
        self.bytes == self.torn
    }
}

/// How many restores found an image, by what it is told.
#[derive(Clone, Copy, Drop)]
pub(crate) struct Counts {
    pub complete: u64,
    pub possible_loss: u64,
}

impl Counts {
    pub(crate) const NONE: Counts = Counts {
        complete: 0,
        possible_loss: 0,
    };

    /// Counts one more.
    pub(crate) fn count(&mut self, restored: Restored) {
        if restored.is_complete {
            self.complete = self.complete.saturating_add(1);
        } else {
            self.possible_loss = self.possible_loss.saturating_add(1);
        }
    }

    fn add(&mut self, more: Counts) {
        self.complete = self.complete.saturating_add(more.complete);
        self.possible_loss = self.possible_loss.saturating_add(more.possible_loss);
    }
}

/// What a stop left, and what restores by each pick found behind it.
#[derive(Drop)]
struct Remembered {
    left: Left,
    counts: Counts,
}

/// What was found, how often, and of each trial that was wrong why, with its script.
#[derive(Drop)]
pub(crate) struct Findings {
    pub counts: Counts,
    pub wrong: Vec<String>,
    seen: Vec<Remembered>,
}

impl Findings {
    pub(crate) fn new(alloc: Global) -> Findings {
        Findings {
            counts: Counts::NONE,
            wrong: Vec::new(alloc),
            seen: Vec::new(alloc),
        }
    }

    // What restores found behind one of the last stops that left the same.
    fn seen_behind(&self, left: &Left) -> Option<Counts> {
        self.seen
            .iter()
            .rev()
            .find(|seen| seen.left == *left)
            .map(|seen| seen.counts)
    }

    /// Counts what restores found behind one of the last stops, where that left the same; whether one did.
    pub(crate) fn counts_as_before(&mut self, left: &Left) -> bool {
        match self.seen_behind(left) {
            Some(counts) => {
                self.counts.add(counts);
                true
            }
            None => false,
        }
    }

    /// Counts what restores found behind a stop, and remembers it where nothing was wrong.
    pub(crate) fn remember(
        &mut self,
        left: Left,
        counts: Counts,
        is_right: bool,
    ) -> Result<(), AllocError> {
        self.counts.add(counts);
        if self.seen.len() >= MOST_SEEN {
            self.seen.clear();
        }
        if is_right {
            self.seen.push(Remembered { left, counts })?;
        }
        Ok(())
    }

    /// Keeps what is wrong of a trial, with its script as `printf` takes it.
    pub(crate) fn blame(
        &mut self,
        alloc: Global,
        script: &str,
        wrong: Wrong,
    ) -> Result<(), AllocError> {
        let lines = script.replace(alloc, "\n", "\\n")?;
        self.wrong.push(format!(in alloc; "{wrong:?}: printf '{}' | nvctl run", lines.as_str())?)?;
        Ok(())
    }
}
