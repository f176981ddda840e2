// How much is tried.
use crate::trials::FEW;
use save_device::Pick;

/// Four kinds.
const FOUR: [Pick; 4] = [Pick::Old, Pick::New, Pick::Torn(0x00), Pick::Torn(0xa5)];

/// How much is tried.
#[derive(Clone, Copy, Drop)]
pub struct Extent {
    pub has_all_settings: bool,
    /// More than the lives that are drawn from seeds.
    pub has_stops: bool,
    has_four_picks: bool,
    /// Those from the first on and below this one.
    pub first_seed: u64,
    pub seeds: u64,
    /// So many units are between lies.
    pub lies: u64,
    /// So many calls are between those from which on the device fails, beside one that does.
    pub calls: u64,
}

impl Extent {
    /// What takes a few seconds.
    pub const SHORT: Extent = Extent {
        has_all_settings: false,
        has_stops: true,
        has_four_picks: false,
        first_seed: 0,
        seeds: 50,
        lies: 125,
        calls: 16,
    };

    /// All that is tried.
    pub const ALL: Extent = Extent {
        has_all_settings: true,
        has_stops: true,
        has_four_picks: true,
        first_seed: 0,
        seeds: 1_000,
        lies: 1,
        calls: 1,
    };

    /// The lives of one seed.
    pub(crate) fn of_seed(seed: u64) -> Extent {
        Extent {
            has_stops: false,
            first_seed: seed,
            seeds: seed.saturating_add(1),
            ..Extent::ALL
        }
    }

    /// What may become of unsettled bytes where one call fails.
    pub(crate) fn picks(self) -> &'static [Pick] {
        if self.has_four_picks { &FOUR } else { &FEW }
    }
}
