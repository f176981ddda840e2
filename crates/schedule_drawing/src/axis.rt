// Where a clock stands across a picture.
ghost use Rattle.std.specs.Prelude.{◌≡◌, ◌≤◌, ◌-◌, false, true, filter, flat_map, length, nat_le, slice_get, ◌++◌, IfOk, OnOk};
ghost use Rattle.std.specs.List.Sorted.{IsNonDecreasingBy, IsPartitionPoint};
ghost use Rattle.schedule_drawing.specs.Axes.{AreInOrder, AreKnotsOf, clocks_of_shape, clocks_shown, edge_at, knot_behind, knots_from, place_of_last, x_at};
ghost use Rattle.schedule_drawing.specs.Range.{is_within};

use crate::schedule::Schedule;
use crate::shapes::Shape;
use std::alloc::{AllocError, Global};

/// Pixels of a clock.
const CLOCK_WIDTH: u64 = 6;

/// A longer time in which nothing begins or ends is cut to this many clocks.
const MOST_CLOCKS: u64 = 24;

/// A clock that is shown, and where it stands across the picture. Where the time before it is cut, its width isn't that of its
/// clocks.
#[derive(Clone, Copy, Debug, PartialEq, Eq)]
pub struct Knot {
    pub clock: u64,
    pub x: u64,
    pub is_cut: bool,
}

/// The clocks of a schedule from left to right. Long times in which nothing begins or ends are cut.
#[derive(Drop)]
pub struct Axis {
    pub(crate) knots: Vec<Knot>,
    ghost rise: { IsNonDecreasingBy (λ knot. knot.clock) knots.items },
}

// The next clock's place behind this one.
fn next_knot(last: Knot, clock: u64) -> Knot
    ensures { result ≡ knot_behind last clock }
{
    let passed = clock.saturating_sub(last.clock);
    let width = passed.min(MOST_CLOCKS) * CLOCK_WIDTH;
    Knot {
        clock,
        x: last.x.saturating_add(width),
        is_cut: passed > MOST_CLOCKS,
    }
}

// The clocks that are shown at which a life begins.
fn begins_shown(alloc: Global, schedule: &Schedule) -> Result<Vec<u64>, AllocError>
    ensures { IfOk result (λ begins. begins.items
        ≡ filter (is_within schedule.now.first schedule.now.last) schedule.now.begins.items) }
{
    schedule
        .begins
        .iter()
        .copied()
        .filter(|begin| schedule.shows(*begin))
        .collect(alloc)
}

// Takes in the clocks at which shapes begin and end.
fn add_clocks(clocks: &mut Vec<u64>, shapes: &[Shape]) -> Result<(), AllocError>
    ensures { OnOk result (clocks.new.items
        ≡ clocks.old.items ++ flat_map clocks_of_shape shapes.now) }
{
    let mut left = shapes;
    while let [shape, behind @ ..] = left {
        clocks.push(shape.from())?;
        clocks.push(shape.to())?;
        left = behind;
    }
    Ok(())
}

// The same numbers, each once, in their order.
fn in_order(mut numbers: Vec<u64>) -> Result<Vec<u64>, AllocError>
    ensures { IfOk result (λ ordered. AreInOrder numbers.items ordered.items) }
{
    numbers.sort()?;
    numbers.dedup();
    Ok(numbers)
}

// The clocks that a picture shows, in their order, each once.
fn clocks_of(alloc: Global, schedule: &Schedule) -> Result<Vec<u64>, AllocError>
    ensures { IfOk result (λ clocks. AreInOrder (clocks_shown schedule.now) clocks.items) }
{
    let mut clocks = begins_shown(alloc, schedule)?;
    add_clocks(&mut clocks, &schedule.shapes)?;
    in_order(clocks)
}

// The knots of clocks, from the left edge on.
fn knots_of(alloc: Global, first: u64, clocks: &[u64]) -> Result<Vec<Knot>, AllocError>
    ensures { IfOk result (λ knots. knots.items ≡ knots_from (edge_at first) clocks.now) }
{
    let mut last = Knot {
        clock: first,
        x: 0,
        is_cut: false,
    };
    let mut knots = Vec::new(alloc);
    let mut left = clocks;
    while let [clock, behind @ ..] = left {
        last = next_knot(last, *clock);
        knots.push(last)?;
        left = behind;
    }
    Ok(knots)
}

// How many knots stand up to a clock.
fn knots_up_to(knots: &[Knot], clock: u64) -> usize
    requires { IsNonDecreasingBy (λ knot. knot.clock) knots.now }
    ensures within { result ≤ length knots.now }
    ensures up_to { IsPartitionPoint (λ knot. nat_le knot.clock clock ≡ true)
        (λ knot. nat_le knot.clock clock ≡ false) knots.now result }
{
    knots.partition_point(
        |knot: &Knot| -> bool
            ensures { result ≡ nat_le knot.now.clock clock }
        { knot.clock <= clock },
    )
}

// Where a clock stands among knots.
fn place_among(knots: &[Knot], clock: u64) -> u64
    requires { IsNonDecreasingBy (λ knot. knot.clock) knots.now }
    ensures { result ≡ x_at knots.now clock }
{
    let count = knots_up_to(knots, clock);
    if count == 0 {
        return 0;
    }
    knots[count - 1].x
}

impl Axis {
    /// Of a schedule, from the first clock on that it shows.
    pub fn of(alloc: Global, schedule: &Schedule) -> Result<Axis, AllocError>
        ensures { IfOk result (λ axis. AreKnotsOf schedule.now axis.knots.items) }
    {
        let clocks = clocks_of(alloc, schedule)?;
        let knots = knots_of(alloc, schedule.first, &clocks)?;
        Ok(Axis { knots })
    }

    /// Where a clock stands. One that isn't shown stands with the last one before it.
    pub fn x(&self, clock: u64) -> u64
        ensures { result ≡ x_at self.now.knots.items clock }
    {
        place_among(&self.knots, clock)
    }

    /// Where it ends.
    pub fn width(&self) -> u64
        ensures { result ≡ place_of_last (slice_get self.now.knots.items
            (length self.now.knots.items - 1)) }
    {
        match self.knots.last() {
            Some(knot) => knot.x,
            None => 0,
        }
    }
}
