//! How fast a journal is in a module on the channels of the largest profile, beside the same writes made by hand on the module, and
//! beside a plain file.
//!
//!     bench_journal               what each comes to, in short
//!     bench_journal time FILE     appends and puts a second of processor time, armed and disarmed, and appends into this file
//!
//! A thousand records are appended, then the module is saved where it is disarmed, and the records are truncated; so it goes on round
//! the ring. By hand the same writes are made from a list, a write that finds its channel full after a command of that channel. Into
//! the file each record is written behind the others, and `fdatasync` called. Into a table each of a thousand keys is put in a round,
//! and the table is compacted behind each sixteenth, for which no time is taken. The time is that of sixteen rounds at once, since it
//! is known to ten milliseconds alone.
#![tactic(auto)]

mod hand;
mod plain;
mod processor;
mod puts;
mod rounds;

use crate::plain::file_rounds;
use crate::puts::{PUT_SIZE, put_rounds};
use crate::rounds::{Amount, Spent, hand_rounds, journal_rounds};
use ddr4_timing::profiles::{TINY, WIDEST};
use interleave_map::{Interleaving, ReadyMap};
use std::env;

/// How many bytes a record has.
const SIZES: [usize; 3] = [16, 100, 1_000];

// How many a second.
fn rate(count: u64, millis: u64) -> u64 {
    count.saturating_mul(1_000) / millis.max(1)
}

// What some rounds came to.
fn show(
    rt: &HostRuntime,
    name: &str,
    size: usize,
    amount: Amount,
    spent: Spent,
) -> anyhow::Result<()> {
    println!(rt;
        "{name}, {size} bytes: {} records, {} writes",
        spent.records, spent.writes
    )?;
    if amount.timed {
        println!(rt;
            "    {} records a second",
            rate(spent.records, spent.millis)
        )?;
    }
    Ok(())
}

// A journal and its writes by hand, armed or disarmed.
fn compare(rt: &HostRuntime, map: &ReadyMap, armed: bool, amount: Amount) -> anyhow::Result<()> {
    let (journal, hand, table) = if armed {
        ("armed journal", "armed by hand", "armed table")
    } else {
        ("disarmed journal", "disarmed by hand", "disarmed table")
    };
    for size in SIZES {
        let spent = journal_rounds(rt, map, armed, size, amount)?;
        show(rt, journal, size, amount, spent)?;
        let spent = hand_rounds(rt, map, armed, size, amount)?;
        show(rt, hand, size, amount, spent)?;
    }
    let spent = put_rounds(rt, map, armed, amount)?;
    show(rt, table, PUT_SIZE, amount, spent)?;
    let spent = hand_rounds(rt, map, armed, PUT_SIZE, amount)?;
    show(rt, hand, PUT_SIZE, amount, spent)?;
    Ok(())
}

// All of it, and the file where there is one.
fn measure(rt: &HostRuntime, amount: Amount, path: Option<&str>) -> anyhow::Result<()> {
    let checked = TINY.check(&WIDEST)?;
    let map = ReadyMap {
        interleaving: Interleaving::Lines,
        checked,
    };
    compare(rt, &map, true, amount)?;
    compare(rt, &map, false, amount)?;
    let Some(path) = path else {
        return Ok(());
    };
    for size in SIZES {
        let spent = file_rounds(rt, path, size)?;
        show(rt, "plain file by the clock", size, amount, spent)?;
    }
    Ok(())
}

fn main(rt: HostRuntime) -> anyhow::Result<()> {
    let words: Vec<String> = env::args(&rt)?.collect(rt.alloc())?;
    match words.as_slice() {
        [_] => measure(
            &rt,
            Amount {
                groups: 1,
                rounds: 1,
                timed: false,
            },
            None,
        ),
        [_, word, path] if word.as_str() == "time" => {
            measure(
                &rt,
                Amount {
                    groups: 10,
                    rounds: 16,
                    timed: true,
                },
                Some(path.as_str()),
            )
        }
        _ => anyhow::bail!("no word, or time and a file"),
    }
}
