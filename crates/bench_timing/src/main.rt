//! How long the parts of a channel take: its banks, the maps from lines to places, a drain of 64 writes, and the check of a trace;
//! and drains of eight channels, in turn and at once.
//!
//!     bench_timing                what each part answers
//!     bench_timing time COUNT     and nanoseconds, a drain's the mean of so many
#![tactic(auto)]

mod banks;
mod drains;
mod load;
mod maps;
mod side_by_side;
mod traces;

use std::env;

fn main(rt: HostRuntime) -> anyhow::Result<()> {
    let words: Vec<String> = env::args(&rt)?.collect(rt.alloc())?;
    let count: Option<u64> = match words.as_slice() {
        [_] => None,
        [_, word, count] if word.as_str() == "time" => Some(count.as_str().parse()?),
        _ => anyhow::bail!("no word, or time and a count"),
    };
    banks::show(&rt, count.is_some())?;
    maps::show(&rt, count.is_some())?;
    drains::show(&rt, count)?;
    traces::show(&rt, count.is_some())?;
    print!(rt; "{}", side_by_side::text(&rt, rt.alloc(), count)?)?;
    Ok(())
}
