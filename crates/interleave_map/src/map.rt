// A line's place, by two closures of the caller.
ghost use Rattle.std.specs.Prelude.{◌≡◌};
ghost use Rattle.ddr4_timing.specs.declared.place.Place.{Place};

use crate::line_map::{LineMap, Names};
use ddr4_timing::place::Place;
use ddr4_timing::timing::{Checked, Geometry};

/// A map of two closures that the caller made: from a line to its place, and back. The caller's `names` say in contracts which
/// place the first one gives.
#[derive(Drop)]
pub struct Map<F, G, N> {
    split: F,
    join: G,
    names: N,
    geometry: Geometry,
}

impl<F: Fn(u64) -> Place, G: Fn(Place) -> u64, N: Names> Map<F, G, N> {
    ghost use Rattle.interleave_map.specs.Map.{map_of, IsLawfulMap};

    /// A map of a checked geometry. For each line below the number of lines, `split` must give a place of the geometry, the one
    /// that `names` has, and `join` of that place the line again; that the other way round each place comes back follows. In
    /// constant time.
    pub fn new(split: F, join: G, names: N, checked: &Checked) -> Map<F, G, N>
        requires { IsLawfulMap F.Fn G.Fn N.place_of
            (map_of split join names checked.now.geometry) }
        ensures is { result ≡ map_of split join names checked.now.geometry }
        ensures lawful { IsLawfulMap F.Fn G.Fn N.place_of result }
    {
        Map {
            split,
            join,
            names,
            geometry: checked.geometry,
        }
    }
}

impl<F: Fn(u64) -> Place, G: Fn(Place) -> u64, N: Names> LineMap for Map<F, G, N> {
    ghost use Rattle.interleave_map.specs.Map.{IsLawfulMap};

    ghost geometry_of = { λ m. m.geometry };

    ghost place_of = { λ m. N.place_of m.names };

    ghost is_lawful = { λ m. IsLawfulMap F.Fn G.Fn N.place_of m };

    fn place(&self, line: u64) -> Place {
        (self.split)(line)
    }

    fn line(&self, place: Place) -> u64 {
        (self.join)(place)
    }

    fn interleaves(&self) {}
}
