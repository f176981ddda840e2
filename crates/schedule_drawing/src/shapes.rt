// The shapes of a picture.
ghost use Rattle.std.specs.Prelude.{◌≡◌, ◌++◌, ◌∷◌, Option, IfOk, OnOk, filter, find, map};
ghost use Rattle.std.specs.Option.{option_copied, option_to_list};
ghost use Rattle.ddr4_timing.specs.Places.{is_bank};
ghost use Rattle.schedule_drawing.specs.Drawing.{burst, closes, drawn, is_mark, mark_of, row_bar, shape_from, shape_lane, shape_to, span_of};
ghost use Rattle.schedule_drawing.specs.Lanes.{bank_lane};
ghost use Rattle.schedule_drawing.specs.OpenRows.{ShowsRow};

use crate::lanes::Lane;
use command_trace::ChannelCommand;
use ddr4_timing::command::Command;
use ddr4_timing::place::BankAddress;
use ddr4_timing::timing::Timing;
use std::alloc::{AllocError, Global};

/// Clocks of a burst of data.
const BURST: u64 = 4;

/// A shape of a picture, at a clock of its lane or from one to another.
#[derive(Clone, Copy, Debug, PartialEq, Eq)]
pub enum Shape {
    /// A command, where it goes.
    Mark {
        lane: Lane,
        clock: u64,
        command: Command,
    },
    /// An open row: from its activate to the command that closes its bank, or to the end where none does.
    Row {
        lane: Lane,
        row: u64,
        from: u64,
        to: u64,
        is_closed: bool,
    },
    /// The data of a read or of a write on the bus.
    Data {
        lane: Lane,
        from: u64,
        to: u64,
        command: Command,
    },
    /// A refresh of a rank.
    Refresh {
        lane: Lane,
        from: u64,
        to: u64,
    },
}

impl Shape {
    /// The lane in which it stands.
    pub fn lane(&self) -> Lane
        ensures { result ≡ shape_lane self.now }
    {
        match *self {
            Shape::Mark { lane, .. } => lane,
            Shape::Row { lane, .. } => lane,
            Shape::Data { lane, .. } => lane,
            Shape::Refresh { lane, .. } => lane,
        }
    }

    /// The clock at which it begins.
    pub fn from(&self) -> u64
        ensures { result ≡ shape_from self.now }
    {
        match *self {
            Shape::Mark { clock, .. } => clock,
            Shape::Row { from, .. } => from,
            Shape::Data { from, .. } => from,
            Shape::Refresh { from, .. } => from,
        }
    }

    /// The clock at which it ends.
    pub fn to(&self) -> u64
        ensures { result ≡ shape_to self.now }
    {
        match *self {
            Shape::Mark { clock, .. } => clock,
            Shape::Row { to, .. } => to,
            Shape::Data { to, .. } => to,
            Shape::Refresh { to, .. } => to,
        }
    }
}

// Are the two one bank?
fn is_same(a: BankAddress, b: BankAddress) -> bool
    ensures { result ≡ is_bank a b }
{
    a.rank == b.rank && a.group == b.group && a.bank == b.bank
}

// Does the command close a bank of the channel in which a row is open?
fn is_closing(channel: u64, bank: BankAddress, entry: &ChannelCommand) -> bool
    ensures { result ≡ closes channel bank entry.now }
{
    if entry.channel != channel {
        return false;
    }
    match entry.command.cmd {
        Command::Act { at, .. } => is_same(at, bank),
        Command::Pre { at } => is_same(at, bank),
        Command::PreAll { rank } => rank == bank.rank,
        _ => false,
    }
}

// The first command that closes a bank of the channel.
fn closing(channel: u64, bank: BankAddress, behind: &[ChannelCommand]) -> Option<ChannelCommand>
    ensures { result ≡ find (closes channel bank) behind.now }
{
    behind
        .iter()
        .copied()
        .find(|entry| is_closing(channel, bank, entry))
}

// The bar of a row, by the command that closes its bank.
fn bar_of(lane: Lane, row: u64, from: u64, end: u64, close: Option<ChannelCommand>) -> Shape
    ensures { result ≡ row_bar lane row from end close }
{
    match close {
        Some(close) => Shape::Row {
            lane,
            row,
            from,
            to: close.command.clock,
            is_closed: true,
        },
        None => Shape::Row {
            lane,
            row,
            from,
            to: end,
            is_closed: false,
        },
    }
}

/// The bar of a row from its ACT on. It ends with the first of the commands behind that closes the bank, or with the end where
/// none does: up to there the row is the one that is open by the timing rules, and behind a precharge none is (`shows`).
pub fn bar_of_row(
    channel: u64,
    bank: BankAddress,
    row: u64,
    from: u64,
    end: u64,
    behind: &[ChannelCommand],
) -> Shape
    ensures first { result ≡ row_bar (bank_lane channel bank) row from end
        (find (closes channel bank) behind.now) }
    ensures shows { ShowsRow channel bank row from end behind.now result }
{
    bar_of(
        Lane::of_bank(channel, bank),
        row,
        from,
        end,
        closing(channel, bank, behind),
    )
}

// The data of a command on the bus.
fn data_of(channel: u64, from: u64, command: Command) -> Shape
    ensures { result ≡ burst channel from command }
{
    Shape::Data {
        lane: Lane::of_bus(channel),
        from,
        to: from.saturating_add(BURST),
        command,
    }
}

// What is drawn from a command on, of those behind it and the end.
fn span_from(
    t: &Timing,
    end: u64,
    entry: &ChannelCommand,
    behind: &[ChannelCommand],
) -> Option<Shape>
    ensures { result ≡ span_of t.now end entry.now behind.now }
{
    let channel = entry.channel;
    let clock = entry.command.clock;
    let command = entry.command.cmd;
    match command {
        Command::Act { at, row } => Some(bar_of_row(channel, at, row, clock, end, behind)),
        Command::Rd { .. } => Some(data_of(channel, clock.saturating_add(t.cl), command)),
        Command::Wr { .. } => Some(data_of(channel, clock.saturating_add(t.cwl), command)),
        Command::Ref { rank } => Some(Shape::Refresh {
            lane: Lane::of_rank(channel, rank),
            from: clock,
            to: clock.saturating_add(t.t_rfc),
        }),
        _ => None,
    }
}

// Takes in a command, and what is drawn from it on.
fn push_shapes(
    shapes: &mut Vec<Shape>,
    t: &Timing,
    end: u64,
    entry: &ChannelCommand,
    behind: &[ChannelCommand],
) -> Result<(), AllocError>
    ensures { OnOk result (shapes.new.items ≡ shapes.old.items
        ++ mark_of entry.now ∷ option_to_list (span_of t.now end entry.now behind.now)) }
{
    shapes.push(Shape::Mark {
        lane: Lane::of(entry),
        clock: entry.command.clock,
        command: entry.command.cmd,
    })?;
    if let Some(span) = span_from(t, end, entry, behind) {
        shapes.push(span)?;
    }
    Ok(())
}

/// The shapes of commands that end at a clock, each channel's in its order: each command once, at its clock, in its bank's lane
/// or in its rank's; each row from its activate to the command that closes its bank; the data of each read and write; each
/// refresh. Nothing else.
pub fn shapes_of(
    alloc: Global,
    t: &Timing,
    entries: &[ChannelCommand],
    end: u64,
) -> Result<Vec<Shape>, AllocError>
    ensures drawn { IfOk result (λ shapes. shapes.items ≡ drawn t.now end entries.now) }
    ensures marks { IfOk result (λ shapes.
        filter is_mark shapes.items ≡ map mark_of entries.now) }
{
    let mut shapes = Vec::new(alloc);
    let mut left = entries;
    while let [entry, behind @ ..] = left {
        push_shapes(&mut shapes, t, end, entry, behind)?;
        left = behind;
    }
    Ok(shapes)
}
