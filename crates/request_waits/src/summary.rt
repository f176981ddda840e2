// The numbers of a list of waits.
ghost use Rattle.std.specs.Prelude.{◌≡◌, ◌<◌, ◌≤◌, [], IfOk, MatchOption, length};
ghost use Rattle.std.specs.List.Sorted.{IsNonDecreasing};
ghost use Rattle.request_waits.specs.Summary.{AreOf, IsPercentile};

use std::alloc::AllocError;

/// What a list of waits comes to, in clocks: how many they are, the least, the median, the 99th percentile and the most. A percentile
/// is by the nearest rank: the least number that at least so many of a hundred don't exceed.
#[derive(Clone, Copy, Debug, PartialEq, Eq)]
pub struct Waits {
    pub count: usize,
    pub least: u64,
    pub median: u64,
    pub p99: u64,
    pub most: u64,
}

// The percentile of a list that doesn't fall.
fn percentile(rising: &[u64], percent: u8) -> u64
    requires some { 0 < length rising.now }
    requires positive { 0 < percent }
    requires share { percent ≤ 100 }
    requires rising { IsNonDecreasing rising.now }
    ensures { IsPercentile percent rising.now result }
{
    let rank = (rising.len() as u128 * u128::from(percent) - 1) / 100;
    rising[rank as usize]
}

impl Waits {
    /// The numbers of a list of waits; None where there is none. It refuses only where there is no memory to sort them.
    pub fn of(mut waits: Vec<u64>) -> Result<Option<Waits>, AllocError>
        ensures { IfOk result (λ told. MatchOption told (waits.items ≡ []) (AreOf waits.items)) }
    {
        waits.sort()?;
        let rising = waits.as_slice();
        if rising.is_empty() {
            return Ok(None);
        }
        Ok(Some(Waits {
            count: rising.len(),
            least: rising[0],
            median: percentile(rising, 50),
            p99: percentile(rising, 99),
            most: rising[rising.len() - 1],
        }))
    }
}
