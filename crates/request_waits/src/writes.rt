// How long writes waited for their WR.
ghost use Rattle.std.specs.Prelude.{◌≡◌, IfOk, count_by, map, slice_get};
ghost use Rattle.ddr4_timing.specs.Lawful.{row_after};
ghost use Rattle.ddr4_timing.specs.Places.{bank_at};
ghost use Rattle.request_waits.specs.Writes.{channel_waits_of, clock_after, is_place, is_write_to, write_clocks, write_waits_of, writes_on};

use ddr4_timing::command::{Command, Stamped};
use ddr4_timing::place::{BankAddress, Place};
use std::alloc::{AllocError, Global};

/// A write that a channel accepted: the place of its line, and the clock of the channel's last command then, 0 where there was none.
#[derive(Clone, Copy, Debug, PartialEq, Eq)]
pub struct AcceptedWrite {
    pub place: Place,
    pub clock: u64,
}

// The bank in which a place lies.
fn bank_at(place: Place) -> BankAddress
    ensures { result ≡ bank_at place }
{
    BankAddress {
        rank: place.rank,
        group: place.group,
        bank: place.bank,
    }
}

// Are the two places of one line?
fn is_place(a: Place, b: Place) -> bool
    ensures { result ≡ is_place a b }
{
    bank_at(a) == bank_at(b) && a.row == b.row && a.column == b.column
}

// Is it a WR that goes to the place, where this row is open in the place's bank?
fn is_write_to(place: Place, row: Option<u64>, cmd: Command) -> bool
    ensures { result ≡ is_write_to place row cmd }
{
    match cmd {
        Command::Wr { at, column } => {
            at == bank_at(place) && column == place.column && row == Some(place.row)
        }
        _ => false,
    }
}

// The row that a command leaves open in a bank.
fn row_behind(bank: BankAddress, row: Option<u64>, cmd: Command) -> Option<u64>
    ensures { result ≡ row_after bank row cmd }
{
    match cmd {
        Command::Act { at, row } if at == bank => Some(row),
        Command::Pre { at } if at == bank => None,
        Command::PreAll { rank } if rank == bank.rank => None,
        _ => row,
    }
}

// The clock of the WR of a place behind so many others of it.
fn clock_behind(commands: &[Stamped], place: Place, others: usize) -> Option<u64>
    ensures { result ≡ slice_get (write_clocks place commands.now) others }
{
    let bank = bank_at(place);
    let mut row = None;
    let mut left = others;
    for command in commands {
        if is_write_to(place, row, command.cmd) {
            if left == 0 {
                return Some(command.clock);
            }
            left -= 1;
        }
        row = row_behind(bank, row, command.cmd);
    }
    None
}

/// The clock of a channel behind the first of its commands, so many: that of the last one of them, 0 where there is none.
pub fn clock_after(commands: &[Stamped], count: usize) -> u64
    ensures { result ≡ clock_after commands.now count }
{
    match commands[..count.min(commands.len())].last() {
        Some(command) => command.clock,
        None => 0,
    }
}

// How many writes are of the place's line.
fn count_at(writes: &[AcceptedWrite], place: Place) -> usize
    ensures { result ≡ count_by (λ w. is_place w.place place) writes.now }
{
    writes
        .iter()
        .filter(|write| is_place(write.place, place))
        .count()
}

// How long the writes of a channel waited, each one whose WR went.
fn channel_waits(
    alloc: Global,
    commands: &[Stamped],
    writes: &[AcceptedWrite],
) -> Result<Vec<u64>, AllocError>
    ensures { IfOk result (λ waits. waits.items ≡ channel_waits_of commands.now writes.now) }
{
    let mut waits = Vec::new(alloc);
    for (index, write) in writes.iter().enumerate() {
        let others = count_at(&writes[..index], write.place);
        if let Some(clock) = clock_behind(commands, write.place, others) {
            waits.push(clock.saturating_sub(write.clock))?;
        }
    }
    Ok(waits)
}

// The writes that a channel accepted.
fn writes_on(
    alloc: Global,
    channel: u64,
    writes: &[AcceptedWrite],
) -> Result<Vec<AcceptedWrite>, AllocError>
    ensures { IfOk result (λ on. on.items ≡ writes_on channel writes.now) }
{
    let mut on = Vec::new(alloc);
    for write in writes {
        if write.place.channel == channel {
            on.push(*write)?;
        }
    }
    Ok(on)
}

/// How long the writes of a life waited, in clocks from their acceptance to their WR, by all that the life accepted and all commands of
/// each of its channels; of each one whose WR went, channel by channel, in their order. It refuses only where there is no memory for
/// them. It costs the number of writes times that of commands.
pub fn write_waits(
    alloc: Global,
    channels: &[Vec<Stamped>],
    writes: &[AcceptedWrite],
) -> Result<Vec<u64>, AllocError>
    ensures { IfOk result (λ waits. waits.items
        ≡ write_waits_of (map (λ commands. commands.items) channels.now) writes.now) }
{
    let mut waits = Vec::new(alloc);
    for (channel, commands) in channels.iter().enumerate() {
        let on = writes_on(alloc, channel as u64, writes)?;
        waits.extend_from_slice(&channel_waits(alloc, commands, &on)?)?;
    }
    Ok(waits)
}
