// The map `xor`.
ghost use Rattle.std.specs.Prelude.{◌≡◌, ◌<◌};
ghost use Rattle.ddr4_timing.specs.Limits.{lines_of};
ghost use Rattle.ddr4_timing.specs.Places.{LiesIn};
ghost use Rattle.interleave_map.specs.Interleaving.{exchanged_place, place_by_xor, line_by_xor};

use crate::lines;
use ddr4_timing::place::Place;
use ddr4_timing::timing::Checked;

/// The place with its channel replaced by channel xor (row mod channels); twice, it is the place again.
fn exchanged_place(checked: &Checked, place: Place) -> Place
    ensures { result ≡ exchanged_place checked.now.geometry place }
{
    Place {
        channel: place.channel ^ (place.row % checked.geometry.channels),
        ..place
    }
}

/// The place of a line by the map `xor`: that of `lines`, with the channel replaced by channel xor (row mod channels).
///
/// So the lines of a column that differ in their row alone lie on channels in turn, as they lie in banks in turn by
/// permutation-based interleaving (Zhang, Zhu and Zhang, MICRO 2000). In constant time.
pub fn split(checked: &Checked, line: u64) -> Place
    requires { line < lines_of checked.now.geometry }
    ensures { result ≡ place_by_xor checked.now.geometry line }
{
    exchanged_place(checked, lines::split(checked, line))
}

/// The line at a place by the map `xor`. In constant time.
pub fn join(checked: &Checked, place: Place) -> u64
    requires { LiesIn checked.now.geometry place }
    ensures { result ≡ line_by_xor checked.now.geometry place }
{
    lines::join(checked, exchanged_place(checked, place))
}
