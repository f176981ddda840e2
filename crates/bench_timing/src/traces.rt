// How long the check of a trace takes, beside `first_fault` alone on its commands.
ghost use Rattle.std.specs.Prelude.{◌≡◌};

use crate::load::Load;
use command_trace::{Form, TraceReader, check_trace};
use ddr4_timing::command::Stamped;
use ddr4_timing::fault::first_fault;
use ddr4_timing::profiles::{LARGEST, SMALL, TINY, WIDEST};
use ddr4_timing::timing::Checked;
use interleave_map::{Interleaving, ReadyMap};
use std::alloc::Global;
use std::io::Write;
use std::time::Instant;

// So many commands of a channel with a full queue.
fn commands(alloc: Global, checked: Checked, count: u64) -> anyhow::Result<Vec<Stamped>> {
    let map = ReadyMap {
        interleaving: Interleaving::Lines,
        checked,
    };
    let mut load = Load::new(alloc, &map, &checked, 0)?;
    load.commands(alloc, count)
}

// The commands as lines of channel 0.
fn lines(alloc: Global, commands: &[Stamped]) -> anyhow::Result<Vec<u8>> {
    let mut text = Vec::new(alloc);
    for command in commands {
        writeln!(text, "0 {command}")?;
    }
    Ok(text)
}

// Are the lines lawful?
fn is_lawful(alloc: Global, checked: &Checked, text: &[u8]) -> anyhow::Result<bool> {
    let form = Form::Lines { others: false };
    let mut reader = TraceReader::new(alloc, text, form, 1);
    let check = check_trace(&checked.rules(), &mut reader)?;
    Ok(check.is_lawful(&checked.rules(), 0))
}

// How many a second.
fn rate(count: u64, nanos: u128) -> u128 {
    (count as u128 * 1_000_000_000) / nanos.max(1)
}

// Checks a channel's commands, and prints how many a second where they are timed.
fn measure(rt: &HostRuntime, name: &str, checked: &Checked, timed: bool) -> anyhow::Result<()> {
    let count = if timed { 1_000_000 } else { 1_000 };
    let commands = commands(rt.alloc(), *checked, count)?;
    let text = lines(rt.alloc(), &commands)?;
    let start = Instant::now(rt)?;
    let lawful = is_lawful(rt.alloc(), checked, &text)?;
    let checked_in = start.elapsed(rt)?.as_nanos();
    let start = Instant::now(rt)?;
    let fault = first_fault(&checked.rules(), &commands);
    let found_in = start.elapsed(rt)?.as_nanos();
    let last = commands.last().map_or(0, |command| command.clock);
    println!(rt;
        "{name}: {count} commands up to clock {last}, lawful {lawful}, first fault {fault:?}"
    )?;
    if timed {
        let checks = rate(count, checked_in);
        let faults = rate(count, found_in);
        println!(rt; "    {checks} a second checked as lines, {faults} by first_fault alone")?;
    }
    Ok(())
}

// Checks the commands that channels of three geometries issue.
pub(crate) fn show(rt: &HostRuntime, timed: bool) -> anyhow::Result<()> {
    for (name, geometry) in [
        ("tiny", SMALL),
        ("one channel", LARGEST),
        ("largest", WIDEST),
    ] {
        measure(rt, name, &TINY.check(&geometry)?, timed)?;
    }
    Ok(())
}
