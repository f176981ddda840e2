// How many lines there are, and the cells of a channel's array: where each place of the channel stands in it.
ghost use Rattle.std.specs.Prelude.{◌≡◌, ◌*◌, ◌<◌, ◌≤◌};
ghost use Rattle.ddr4_timing.specs.Limits.{lines_of};
ghost use Rattle.ddr4_timing.specs.Places.{LiesIn};
ghost use Rattle.ddr4_timing.specs.declared.place.Place.{Place};
ghost use Rattle.ddr4_timing.specs.declared.timing.Geometry.{Geometry};
ghost use Rattle.ddr4_timing.specs.declared.timing.TheConstants.{FEWEST_LINES, MOST_LINES};
ghost use Rattle.interleave_map.specs.Cells.{cells_of, cell_of};

use ddr4_timing::place::Place;
use ddr4_timing::timing::Checked;

/// How many lines the geometry has, from 64 to 65,536. In constant time.
pub fn line_count(checked: &Checked) -> u64
    ensures is { result ≡ lines_of checked.now.geometry }
    ensures some { FEWEST_LINES ≤ result }
    ensures few { result ≤ MOST_LINES }
{
    let geometry = checked.geometry;
    let banks = geometry.channels * geometry.ranks * geometry.groups * geometry.banks;
    let rows = banks * geometry.rows;
    rows * geometry.columns
}

/// How many lines each channel has, from 8 to 65,536. In constant time.
pub fn cells(checked: &Checked) -> usize
    ensures is { result ≡ cells_of checked.now.geometry }
    ensures some { 8 ≤ result }
    ensures few { result ≤ MOST_LINES }
{
    let geometry = checked.geometry;
    let banks = geometry.ranks * geometry.groups * geometry.banks;
    let cells = banks * geometry.rows * geometry.columns;
    cells as usize
}

/// Where a place stands in the array of its channel, in lines, from 0: the row counts most, then the rank, the bank, the
/// bank group and the column. In constant time.
pub fn cell_of(checked: &Checked, place: &Place) -> usize
    requires { LiesIn checked.now.geometry place.now }
    ensures is { result ≡ cell_of checked.now.geometry place.now }
    ensures within { result < cells_of checked.now.geometry }
{
    let geometry = checked.geometry;
    let rank = place.row * geometry.ranks + place.rank;
    let bank = rank * geometry.banks + place.bank;
    let group = bank * geometry.groups + place.group;
    let cell = group * geometry.columns + place.column;
    cell as usize
}

/// Each place has a cell (`have`), and places of one channel with the same cell are the same place (`tell`). The channels have
/// as many lines together as the geometry (`make`).
pub fn cells_of_places()
    ensures have { (g : Geometry) (place : Place) → LiesIn g place → cell_of g place < cells_of g }
    ensures tell { (g : Geometry) (p q : Place) → LiesIn g p → LiesIn g q → p.channel ≡ q.channel
        → cell_of g p ≡ cell_of g q → p ≡ q }
    ensures make { (g : Geometry) → g.channels * cells_of g ≡ lines_of g }
{}
