// What a map gives, whatever it is made of.
ghost use Rattle.std.specs.Prelude.{◌≡◌, ℕ, ◌<◌};
ghost use Rattle.ddr4_timing.specs.Limits.{lines_of};
ghost use Rattle.ddr4_timing.specs.Places.{LiesIn};
ghost use Rattle.ddr4_timing.specs.declared.place.Place.{Place};
ghost use Rattle.ddr4_timing.specs.declared.timing.Geometry.{Geometry};
ghost use Rattle.interleave_map.specs.Inverse.{IsInterleaving};

use ddr4_timing::place::Place;

/// A map between the lines of a host and the places of a geometry. Each line lies at one place, no two lines share a place,
/// and each place is one line's.
///
/// What stands on a map is generic in this trait and not in the map's closures: its types may keep facts about the trait's
/// members, so that a value behind a lock brings with it that its map is lawful.
pub trait LineMap {
    /// The geometry that the map is of.
    ghost geometry_of: { Self → Geometry };

    /// The place of each line below the number of lines.
    ghost place_of: { Self → ℕ → Place };

    /// Holds of the maps that may be asked.
    ghost is_lawful: { Self → Type 0 };

    /// Where the line lies. In constant time, as far as the map's own computation is.
    fn place(&self, line: u64) -> Place
        requires lawful { is_lawful self.now }
        requires line { line < lines_of (geometry_of self.now) }
        ensures { result ≡ place_of self.now line };

    /// Which line lies at the place. In constant time, as far as the map's own computation is.
    fn line(&self, place: Place) -> u64
        requires lawful { is_lawful self.now }
        requires place { LiesIn (geometry_of self.now) place }
        ensures below { result < lines_of (geometry_of self.now) }
        ensures back { place_of self.now result ≡ place };

    /// A law: what is true of each lawful map. It does nothing.
    fn interleaves(&self)
        requires { is_lawful self.now }
        ensures { IsInterleaving (geometry_of self.now) (place_of self.now) };
}

/// Names the place of each line for a map of closures: what a closure answers is known by a relation alone, and a type or a
/// contract has to speak of the place of a line that no call was asked for. A ready-made map names its own places.
pub trait Names {
    /// The place of each line below the number of lines.
    ghost place_of: { Self → ℕ → Place };
}
