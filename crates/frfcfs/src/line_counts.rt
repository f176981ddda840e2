// How many lines of a queue have the same low bits, so that a look for a line is mostly spared.
ghost use Rattle.std.specs.Prelude.{◌≡◌, ◌≢◌, ◌+◌, ◌<◌, ◌^◌, ◌++◌, ◌∷◌, [], ℕ, List, Some, All, IsTrue, remove, slice_get, slice_index};
ghost use Rattle.frfcfs.specs.LineCounts.{AreCounts, low_bits};

/// Of each pattern of nine low bits, how many of a queue's lines have it.
#[derive(Clone, Copy)]
pub(crate) struct LineCounts {
    counts: [usize; 512],
}

// The nine low bits of a line.
fn low_bits(line: u64) -> usize
    ensures { result ≡ low_bits line }
{
    (line % 512) as usize
}

impl LineCounts {
    /// Of no line.
    pub(crate) fn none() -> LineCounts
        ensures { AreCounts [] result }
    {
        LineCounts { counts: [0; 512] }
    }

    /// Whether the low bits of a line show that it is none of those counted.
    pub(crate) fn lack(&self, line: u64) -> bool
        ensures { (lines : List ℕ) → AreCounts lines self.now → IsTrue result →
            All (λ other. other ≢ line) lines }
    {
        self.counts[low_bits(line)] == 0
    }

    /// Counts one line more.
    pub(crate) fn add(&mut self, line: u64)
        requires { slice_index self.old.counts (low_bits line) + 1 < 2 ^ 64 }
        ensures { (lines : List ℕ) → AreCounts lines self.old →
            AreCounts (lines ++ line ∷ []) self.new }
    {
        self.counts[low_bits(line)] += 1;
    }

    /// Counts a line no more, which is one of those counted.
    pub(crate) fn forget(&mut self, line: u64)
        requires { 0 < slice_index self.old.counts (low_bits line) }
        ensures { (lines : List ℕ) (place : ℕ) → slice_get lines place ≡ Some line →
            AreCounts lines self.old → AreCounts (remove lines place) self.new }
    {
        self.counts[low_bits(line)] -= 1;
    }
}
