// The lines of busy runs.
use bench_load::Random;

/// Picks lines of a channel, so many apart, one after another.
#[derive(Drop)]
pub struct Picks {
    pub random: Random,
    pub apart: u64,
}

impl Picks {
    pub(crate) fn next(&mut self) -> u64 {
        self.random.next().wrapping_mul(self.apart)
    }
}
