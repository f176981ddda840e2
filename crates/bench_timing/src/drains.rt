// How long a channel's drain of 64 writes takes.
//
// A channel is rested where no command went before, and busy where it worked with a full queue until each of its ranks owed
// nearly eight refreshes.
ghost use Rattle.std.specs.Prelude.{◌≡◌};

use crate::load::{DEPTH, Load};
use ddr4_timing::profiles::{SMALL, TINY, WIDEST};
use ddr4_timing::timing::Checked;
use drain_core::DrainReport;
use interleave_map::line_map::LineMap;
use interleave_map::{Interleaving, ReadyMap};
use std::time::Instant;

// One drain, and how many nanoseconds it took.
fn drain_once<M: LineMap>(
    rt: &HostRuntime,
    map: &M,
    checked: &Checked,
    busy: bool,
) -> anyhow::Result<(DrainReport, u128)>
    requires lawful { M.is_lawful map.now }
    requires geometry { M.geometry_of map.now ≡ checked.now.geometry }
{
    let mut load = Load::new(rt.alloc(), map, checked, 0)?;
    if busy {
        let lead = checked.timing.t_refi.saturating_mul(8);
        load.work_until(lead.saturating_sub(60))?;
    }
    let start = Instant::now(rt)?;
    let report = load.drain()?;
    Ok((report, start.elapsed(rt)?.as_nanos()))
}

fn time(rt: &HostRuntime, checked: Checked, busy: bool) -> anyhow::Result<(DrainReport, u128)> {
    let map = ReadyMap {
        interleaving: Interleaving::Lines,
        checked,
    };
    drain_once(rt, &map, &checked, busy)
}

// The mean of so many drains, in nanoseconds.
fn mean(rt: &HostRuntime, checked: Checked, busy: bool, count: u64) -> anyhow::Result<u128> {
    let mut sum: u128 = 0;
    for _ in 0..count {
        let (_, nanos) = time(rt, checked, busy)?;
        sum = sum.saturating_add(nanos);
    }
    Ok(sum / (count as u128).max(1))
}

// Prints the clocks of each drain and what it spends, and nanoseconds, the mean of so many, where a count is given.
pub(crate) fn show(rt: &HostRuntime, count: Option<u64>) -> anyhow::Result<()> {
    for (name, geometry) in [("tiny", SMALL), ("largest", WIDEST)] {
        let checked = TINY.check(&geometry)?;
        for (word, busy) in [("rested", false), ("busy", true)] {
            let (DrainReport { clocks, spent }, _) = time(rt, checked, busy)?;
            print!(rt; "{name} {word}: {clocks} clocks for {DEPTH} writes, {spent} spent")?;
            if let Some(count) = count {
                print!(rt; ", {} nanoseconds", mean(rt, checked, busy, count)?)?;
            }
            println!(rt;)?;
        }
    }
    Ok(())
}
