// How long a line takes to its place and back, by both maps.
ghost use Rattle.std.specs.Prelude.{◌≡◌};

use ddr4_timing::profiles::{SMALL, TINY, WIDEST};
use ddr4_timing::timing::Checked;
use interleave_map::cells::line_count;
use interleave_map::line_map::LineMap;
use interleave_map::{Interleaving, ReadyMap};
use std::time::Instant;

// How many lines lie on channel 0 and come back.
fn walk<M: LineMap>(map: &M, checked: &Checked) -> u64
    requires lawful { M.is_lawful map.now }
    requires geometry { M.geometry_of map.now ≡ checked.now.geometry }
{
    map.interleaves();
    let mut found: u64 = 0;
    for line in 0..line_count(checked) {
        let place = map.place(line);
        if place.channel == 0 && map.line(place) == line {
            found += 1;
        }
    }
    found
}

// Walks a map, so many times where it is timed, and prints what was found.
fn measure(rt: &HostRuntime, map: &ReadyMap, timed: bool) -> anyhow::Result<()> {
    let lines = line_count(&map.checked);
    let rounds: u64 = if timed { 100 } else { 1 };
    let start = Instant::now(rt)?;
    let mut found = 0;
    for _ in 0..rounds {
        found = walk(map, &map.checked);
    }
    let nanos = start.elapsed(rt)?.as_nanos();
    println!(rt;
        "{}: {found} of {lines} lines on channel 0",
        map.interleaving
    )?;
    if timed {
        let tenths = 10 * nanos / (rounds as u128 * lines as u128);
        println!(rt; "    {}.{} nanoseconds a line", tenths / 10, tenths % 10)?;
    }
    Ok(())
}

// Takes each line there and back, prints how many lie on channel 0, and nanoseconds a line where it is timed.
pub(crate) fn show(rt: &HostRuntime, timed: bool) -> anyhow::Result<()> {
    for geometry in [SMALL, WIDEST] {
        let checked = TINY.check(&geometry)?;
        for interleaving in [Interleaving::Lines, Interleaving::Xor] {
            let map = ReadyMap {
                interleaving,
                checked,
            };
            measure(rt, &map, timed)?;
        }
    }
    Ok(())
}
