//! How long a channel takes for a command, with all that is pending replaced as it is served.
//!
//!     bench_channel                                      the last clock of each stream by each map, after 1,000 commands
//!     bench_channel GEOMETRY DEPTH STREAM COUNT [MAP]    nanoseconds a command of one stream
//!
//! GEOMETRY is tiny or largest, DEPTH how many writes and how many reads are pending, STREAM hits, conflicts or random, and MAP
//! lines, where none is given, or xor. A stream names places, so both maps give the same commands.
#![tactic(auto)]

ghost use Rattle.std.specs.Prelude.{◌≡◌};

mod load;
mod trial;

use crate::load::Load;
use crate::trial::Trial;
use anyhow::Context;
use interleave_map::line_map::LineMap;
use interleave_map::{Interleaving, ReadyMap};
use std::env;
use std::time::Instant;

// The last clock of a stream, and how many nanoseconds it took.
fn time<M: LineMap>(rt: &HostRuntime, map: &M, trial: &Trial) -> anyhow::Result<(u64, u128)>
    requires lawful { M.is_lawful map.now }
    requires geometry { M.geometry_of map.now ≡ trial.now.checked.geometry }
{
    let mut load = Load::new(rt.alloc(), map, trial)?;
    let start = Instant::now(rt)?;
    let last = load.run(trial.commands).context("no further command")?;
    Ok((last, start.elapsed(rt)?.as_nanos()))
}

// The same by a map of this name.
fn time_by(rt: &HostRuntime, map: &str, trial: &Trial) -> anyhow::Result<(u64, u128)> {
    let interleaving = Interleaving::named(map).context("the map is lines or xor")?;
    let map = ReadyMap {
        interleaving,
        checked: trial.checked,
    };
    time(rt, &map, trial)
}

fn main(rt: HostRuntime) -> anyhow::Result<()> {
    let words: Vec<String> = env::args(&rt)?.collect(rt.alloc())?;
    if let [_, geometry, depth, stream, count, rest @ ..] = words.as_slice() {
        let (depth, commands) = (depth.as_str().parse()?, count.as_str().parse()?);
        let trial = Trial::named(geometry.as_str(), depth, stream.as_str(), commands)?;
        let map = rest.first().map_or("lines", |word| word.as_str());
        let (last, nanos) = time_by(&rt, map, &trial)?;
        let each = nanos / (commands as u128).max(1);
        println!(rt;
            "{geometry} {depth} {stream}: {each} nanoseconds a command, last clock {last}"
        )?;
        return Ok(());
    }
    for name in ["tiny", "largest"] {
        for depth in [4, 64] {
            for stream in ["hits", "conflicts", "random"] {
                let trial = Trial::named(name, depth, stream, 1_000)?;
                let (lines, _) = time_by(&rt, "lines", &trial)?;
                let (xor, _) = time_by(&rt, "xor", &trial)?;
                println!(rt; "{name} {depth} {stream}: last clock {lines} by lines, {xor} by xor")?;
            }
        }
    }
    Ok(())
}
