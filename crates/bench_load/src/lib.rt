//! What benches and tests of long loads share: pseudo-random numbers, the same in each run.
#![tactic(auto)]

/// Numbers below 2^31, one after another, by a linear congruential generator with the constants of Knuth's MMIX.
#[derive(Clone, Copy)]
pub struct Random {
    state: u64,
}

impl Random {
    ghost use Rattle.std.specs.Prelude.{◌≡◌, ◌+◌, ◌*◌, ◌/◌, ◌%◌, ◌<◌, ◌^◌};

    /// The numbers that begin with a seed.
    pub fn with_seed(seed: u64) -> Random
        ensures { result.state ≡ seed }
    {
        Random { state: seed }
    }

    /// The next number: the upper 31 bits of the next state.
    pub fn next(&mut self) -> u64
        ensures state { self.new.state
            ≡ (self.old.state * 6364136223846793005 + 1442695040888963407) % 2 ^ 64 }
        ensures upper { result ≡ self.new.state / 2 ^ 33 }
        ensures small { result < 2 ^ 31 }
    {
        self.state = self
            .state
            .wrapping_mul(6_364_136_223_846_793_005)
            .wrapping_add(1_442_695_040_888_963_407);
        self.state >> 33
    }
}
