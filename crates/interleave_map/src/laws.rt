// What the definitions say in other words.
ghost use Rattle.std.specs.Prelude.{◌≡◌, ℕ, ◌<◌};
ghost use Rattle.ddr4_timing.specs.Limits.{lines_of};
ghost use Rattle.ddr4_timing.specs.Places.{LiesIn};
ghost use Rattle.ddr4_timing.specs.declared.place.Place.{Place};
ghost use Rattle.ddr4_timing.specs.declared.timing.Checked.{Checked};
ghost use Rattle.ddr4_timing.specs.declared.timing.Geometry.{Geometry};
ghost use Rattle.interleave_map.specs.Interleaving.{place_by_lines, line_by_lines, place_by_xor, line_by_xor};
ghost use Rattle.interleave_map.specs.declared.ready.Interleaving.{Interleaving};
ghost use Rattle.interleave_map.specs.Inverse.{IsInverse, IsInterleaving};
ghost use Rattle.interleave_map.specs.Ready.{place_by, line_by};

/// `lines` is a map of every checked geometry.
pub fn lines_is_inverse()
    ensures { (c : Checked) → let g = c.geometry in
        IsInverse g (place_by_lines g) (line_by_lines g) }
{}

/// `xor` is a map of every checked geometry.
pub fn xor_is_inverse()
    ensures { (c : Checked) → let g = c.geometry in
        IsInverse g (place_by_xor g) (line_by_xor g) }
{}

/// So a ready-made map is one, whichever it is.
pub fn ready_is_inverse()
    ensures { (c : Checked) (interleaving : Interleaving) → let g = c.geometry in
        IsInverse g (place_by interleaving g) (line_by interleaving g) }
{}

/// The second way: where each line comes back from its place, each place comes back from its line. The geometry has as many
/// places as lines.
pub fn places_come_back()
    ensures { (g : Geometry) (split : ℕ → Place) (join : Place → ℕ) → IsInverse g split join
        → (place : Place) → LiesIn g place
        → (join place < lines_of g) × (split (join place) ≡ place) }
{}

/// Of inverse functions each line's place lies in the geometry, no two lines share a place, and each place is one line's.
pub fn inverse_interleaves()
    ensures { (g : Geometry) (split : ℕ → Place) (join : Place → ℕ) → IsInverse g split join
        → IsInterleaving g split }
{}
