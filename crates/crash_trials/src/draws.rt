// What a trial draws from its seed.
use crash_table::PICKS;
use rand_core::{Rng, SeedableRng};
use rand_xoshiro::SplitMix64;
use save_device::Pick;
use std::alloc::{AllocError, Global};

/// One of so many words of a gauge is low.
const RARITIES: [u64; 8] = [1, 4, 16, 64, 256, 1_024, 4_096, 65_536];

/// A low word is below this.
const LOW: u64 = 8_192;

/// A gauge has fewer words than this; behind them it is dark.
const MOST_WORDS: u64 = 2_048;

/// A device that fails does so behind fewer calls than this.
const MOST_CALLS: u64 = 64;

/// Numbers that follow from a seed.
#[derive(Drop)]
pub(crate) struct Draws {
    rng: SplitMix64,
}

impl Draws {
    /// Those of this seed.
    pub(crate) fn of(seed: u64) -> Draws {
        Draws {
            rng: SplitMix64::seed_from_u64(seed),
        }
    }

    /// A number below a limit, or 0 where that is 0.
    pub(crate) fn below(&mut self, limit: u64) -> u64 {
        self.rng.next_u64().checked_rem(limit).unwrap_or(0)
    }

    fn word(&mut self, rarity: u64) -> u64 {
        if self.below(rarity) == 0 {
            self.below(LOW)
        } else {
            u64::MAX
        }
    }

    /// The words of a gauge: low ones, and among them some that suffice for everything.
    pub(crate) fn words(&mut self, alloc: Global) -> Result<Vec<u64>, AllocError> {
        let rarity = self.below(RARITIES.len() as u64) as usize;
        let rarity = RARITIES.get(rarity).copied().unwrap_or(1);
        let mut words = Vec::new(alloc);
        for _word in 0..self.below(MOST_WORDS) {
            words.push(self.word(rarity))?;
        }
        Ok(words)
    }

    /// Behind how many calls something fails; none for half of the seeds.
    pub(crate) fn calls(&mut self) -> Option<u64> {
        if self.below(2) == 0 {
            Some(self.below(MOST_CALLS))
        } else {
            None
        }
    }

    /// What becomes of unsettled bytes.
    pub(crate) fn pick(&mut self) -> Pick {
        let place = self.below(PICKS.len() as u64) as usize;
        PICKS.get(place).copied().unwrap_or(Pick::Old)
    }
}
