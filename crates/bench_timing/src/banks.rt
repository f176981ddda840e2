// How long the banks of a channel take for a command, and how long a list of commands takes to check.
use bank_core::banks::Banks;
use ddr4_timing::command::{Command, Stamped};
use ddr4_timing::fault::first_fault;
use ddr4_timing::place::BankAddress;
use ddr4_timing::profiles::{SMALL, TINY};
use ddr4_timing::timing::{Checked, Geometry};
use std::alloc::Global;
use std::time::Instant;

// Issues a command at its least clock, where there is one.
fn step(banks: &mut Banks, cmd: Command) -> Option<Stamped> {
    let clock = banks.earliest(cmd)?;
    let last = banks.deadline(cmd.rank());
    if clock > last || clock >= 1 << 63 {
        return None;
    }
    banks.issue(cmd, clock);
    Some(Stamped { clock, cmd })
}

// The commands of one round: each bank is opened, read, written; each rank is closed and refreshed.
fn round(alloc: Global, g: &Geometry) -> anyhow::Result<Vec<Command>> {
    let mut commands = Vec::new(alloc);
    for rank in 0..g.ranks {
        for group in 0..g.groups {
            for bank in 0..g.banks {
                let at = BankAddress { rank, group, bank };
                commands.push(Command::Act { at, row: 0 })?;
                commands.push(Command::Rd { at, column: 0 })?;
                commands.push(Command::Wr { at, column: 0 })?;
            }
        }
        commands.push(Command::PreAll { rank })?;
        commands.push(Command::Ref { rank })?;
    }
    Ok(commands)
}

// Runs rounds, and answers the last clock.
fn run(banks: &mut Banks, commands: &[Command], rounds: u64) -> u64 {
    let mut last = 0;
    for _ in 0..rounds {
        for cmd in commands {
            if let Some(x) = step(banks, *cmd) {
                last = x.clock;
            }
        }
    }
    last
}

// A lawful list of at least so many commands.
fn lawful(
    alloc: Global,
    checked: &Checked,
    commands: &[Command],
    length: usize,
) -> anyhow::Result<Vec<Stamped>> {
    let mut banks = Banks::new(checked);
    let mut list = Vec::new(alloc);
    for _ in 0..length {
        if list.len() >= length {
            break;
        }
        for cmd in commands {
            if let Some(x) = step(&mut banks, *cmd) {
                list.push(x)?;
            }
        }
    }
    Ok(list)
}

// Prints how long lists of a thousand to a hundred thousand lawful commands take to check.
fn time_lists(rt: &HostRuntime, checked: &Checked, commands: &[Command]) -> anyhow::Result<()> {
    for length in [1_000, 10_000, 100_000] {
        let list = lawful(rt.alloc(), checked, commands, length)?;
        let start = Instant::now(rt)?;
        let fault = first_fault(&checked.rules(), &list);
        let micros = start.elapsed(rt)?.as_micros();
        println!(rt;
            "{} commands, fault {}: {micros} microseconds",
            list.len(),
            fault.is_some()
        )?;
    }
    Ok(())
}

// Prints the last clock of rounds on three geometries, and nanoseconds where it is timed.
pub(crate) fn show(rt: &HostRuntime, timed: bool) -> anyhow::Result<()> {
    for (ranks, groups) in [(1, 2), (2, 4), (4, 4)] {
        let g = Geometry {
            ranks,
            groups,
            ..SMALL
        };
        let checked = TINY.check(&g)?;
        let commands = round(rt.alloc(), &g)?;
        let mut banks = Banks::new(&checked);
        let rounds = if timed { 10_000 } else { 10 };
        let start = Instant::now(rt)?;
        let last = run(&mut banks, &commands, rounds);
        let nanos = start.elapsed(rt)?.as_nanos();
        println!(rt; "ranks {ranks}, groups {groups}: last clock {last}")?;
        if timed {
            let each = nanos / (rounds as u128 * commands.len().max(1) as u128);
            println!(rt; "{each} nanoseconds a command")?;
            time_lists(&rt, &checked, commands.as_slice())?;
        }
    }
    Ok(())
}
