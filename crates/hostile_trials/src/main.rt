//! What a careful adversary would give to the program, each against a second reading of its format that is written down here.
//!
//!     hostile_trials         stores with some bytes of their headers turned, and of each length; lines of any two words; profiles
//!                            of which each key is missing, written twice, or has a value at its limits and past them
//!     hostile_trials all     the same with each byte of the headers
//!
//! It counts what it tried, and writes a line for each trial that is answered otherwise than the second reading says.
#![tactic(auto)]

mod format;
mod lengths;
mod lines;
mod profiles;
mod stores;
mod table;
mod tally;

use crate::stores::VERSIONS;
use std::env;

fn main(rt: HostRuntime) -> anyhow::Result<()> {
    let words: Vec<String> = env::args(&rt)?.collect(rt.alloc())?;
    let apart = match words.as_slice() {
        [_] => 257,
        [_, word] if word.as_str() == "all" => 1,
        _ => anyhow::bail!("no word, or all"),
    };
    for versions in VERSIONS {
        stores::turn_headers(&rt, versions, apart)?;
    }
    lengths::try_lengths(&rt)?;
    lines::try_lines(&rt)?;
    profiles::try_profiles(&rt)
}
