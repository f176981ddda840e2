// Drains after long busy runs, and where the time for refreshes is short.
use crate::tests::check::same;
use crate::tests::profiles::FOUR_RANKS;
use crate::tests::run::{Drained, Run, refreshes};
use ddr4_timing::profiles::{SHORT_ROWS, SMALL, TIGHT, TINY};
use ddr4_timing::timing::{Geometry, Timing};
use std::process::Abort;

// A drain of a channel that has worked with full queues up to a clock.
fn drained_after<R: Abort + AllocGlobal>(
    rt: &R,
    timing: &Timing,
    geometry: &Geometry,
    salt: u64,
    until: u64,
) -> Drained {
    let mut run = Run::new(rt, timing, geometry, salt, 4);
    run.busy_until(rt, until);
    run.fill(rt);
    run.drain(rt)
}

#[test]
fn a_drain_after_twenty_intervals(rt: HostRuntime) {
    for geometry in [SMALL, FOUR_RANKS] {
        let drained = drained_after(&rt, &TINY, &geometry, 7, 21 * 9_360);
        same(&rt, drained.start > 20 * 9_360, true);
    }
}

// Just before the rank would be in lead, and with it a refresh of each rank in each of eight entries.
#[test]
fn a_drain_with_eight_refreshes_owed(rt: HostRuntime) {
    for (geometry, owed) in [(SMALL, 8), (FOUR_RANKS, 32)] {
        let drained = drained_after(&rt, &TINY, &geometry, 7, 8 * 9_360 - 60);
        same(&rt, drained.start <= 8 * 9_360, true);
        same(&rt, refreshes(&drained.commands), owed);
    }
}

// At each of many clocks around the one from which the refreshes may wait no longer, on a profile whose interval is as short
// as its checks let it be.
#[test]
fn drains_where_refreshes_are_due(rt: HostRuntime) {
    for late in 0..80 {
        drained_after(&rt, &TIGHT, &SHORT_ROWS, late, 8 * 184 - 20 + late);
    }
}
