// The map `lines`.
ghost use Rattle.std.specs.Prelude.{◌≡◌, ◌<◌, ◌/◌, ◌%◌, IsTrue};
ghost use Rattle.std.specs.Int.{is_power_of_two};
ghost use Rattle.ddr4_timing.specs.Limits.{lines_of};
ghost use Rattle.ddr4_timing.specs.Places.{LiesIn};
ghost use Rattle.interleave_map.specs.Interleaving.{place_by_lines, line_by_lines};

use crate::cells::cell_of;
use ddr4_timing::place::Place;
use ddr4_timing::timing::Checked;

// A number's quotient and its remainder by a power of two: a division would take longer than all else that a map does.
fn parts_by(number: u64, size: u64) -> (u64, u64)
    requires { IsTrue (is_power_of_two size) }
    ensures { result ≡ (number / size, number % size) }
{
    (number >> size.trailing_zeros(), number & (size - 1))
}

/// The place of a line by the map `lines`.
///
/// The low part of the line names the channel; then come the column, the bank group, the bank, the rank and the row. So
/// lines that follow one another go to the channels in turn, and on each they fill an open row before they go to the next
/// group. In constant time.
pub fn split(checked: &Checked, line: u64) -> Place
    requires { line < lines_of checked.now.geometry }
    ensures { result ≡ place_by_lines checked.now.geometry line }
{
    let geometry = checked.geometry;
    let (cell, channel) = parts_by(line, geometry.channels);
    let (groups, column) = parts_by(cell, geometry.columns);
    let (banks, group) = parts_by(groups, geometry.groups);
    let (ranks, bank) = parts_by(banks, geometry.banks);
    let (row, rank) = parts_by(ranks, geometry.ranks);
    Place {
        channel,
        rank,
        group,
        bank,
        row,
        column,
    }
}

/// The line at a place by the map `lines`. In constant time.
pub fn join(checked: &Checked, place: Place) -> u64
    requires { LiesIn checked.now.geometry place }
    ensures { result ≡ line_by_lines checked.now.geometry place }
{
    let cell = cell_of(checked, &place) as u64;
    cell * checked.geometry.channels + place.channel
}
