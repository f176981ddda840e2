// The statistics of a trace, written as objects.
ghost use Rattle.std.specs.Prelude.{◌≡◌, ◌<◌, ℕ, List, OnOk, [], if◌then◌else◌, false};
ghost use Rattle.std.specs.Io.KnownBytes.{Appends};
ghost use Rattle.auto_precharge.specs.declared.issued.Issued.{Issued};
ghost use Rattle.command_trace.specs.Channels.{issued_to};
ghost use Rattle.serde_json.specs.View.{view};
ghost use Rattle.serde_json.specs.Written.{has_float};
ghost use Rattle.statistics_report.specs.Objects.{channel_data, shared_data};
ghost use Rattle.statistics_report.specs.Telling.{AreObjectsOf, TellsObjects, object_line, told_bank, told_rank};
ghost use Rattle.trace_statistics.specs.Numbers.{is_none};
ghost use Rattle.trace_statistics.specs.Standing.{ChannelStands};
ghost use Rattle.trace_statistics.specs.Telling.{IsMeasured, TellsBelow, TellsNumbered, TellsRank};

use crate::objects::{bank_object, channel_object, rank_object, shared_object};
use answer_json::write_object;
use command_trace::{MOST_CHANNELS, TraceFault};
use ddr4_timing::place::BankAddress;
use ddr4_timing::timing::CommandRules;
use nv_script::ScriptFault;
use serde_json::Value;
use std::alloc::Global;
use std::io::Write;
use trace_statistics::{
    BankNumbers, Channel, Margins, Measured, RankNumbers, TraceStatistics, bank_numbered,
};

/// Writes the objects of each channel whose commands are lawful, each as a line: that of the channel, that of its ranks together, one
/// of each rank, and one of each bank that had a command.
pub fn write_statistics<W: Write>(
    alloc: Global,
    rules: &CommandRules,
    measured: &Measured,
    writer: &mut W,
) -> Result<(), TraceFault>
    ensures { IsMeasured rules.now measured.now → OnOk result ((text : List ℕ)
        × TellsObjects rules.now measured.now.check.given.items text
        × Appends (W.contents writer.old) (W.contents writer.new) text) }
{
    for channel in 0..rules.geometry.channels {
        if measured.check.is_lawful(rules, channel) {
            write_objects(alloc, rules, channel, &measured.statistics, writer)?;
        }
    }
    Ok(())
}

// Writes the objects of a channel.
fn write_objects<W: Write>(
    alloc: Global,
    rules: &CommandRules,
    channel: u64,
    statistics: &TraceStatistics,
    writer: &mut W,
) -> Result<(), TraceFault>
    requires { channel < MOST_CHANNELS }
    ensures { statistics.now.rules ≡ rules.now → OnOk result ((text : List ℕ)
        × AreObjectsOf rules.now channel (issued_to channel statistics.now.given.items) text
        × Appends (W.contents writer.old) (W.contents writer.new) text) }
{
    let of = statistics.channel(channel);
    write_channel(alloc, channel, of.last(), &of.total(), writer)?;
    write_shared(alloc, channel, &of.shared(), writer)?;
    write_ranks(alloc, rules, channel, statistics, writer)?;
    write_banks(alloc, rules, channel, of, writer)
}

// Writes an object as a line.
fn write_line<W: Write>(alloc: Global, object: &Value, writer: &mut W) -> Result<(), TraceFault>
    ensures { has_float (view object.now) ≡ false → OnOk result (Appends
        (W.contents writer.old) (W.contents writer.new) (object_line (view object.now))) }
{
    match write_object(alloc, object, writer) {
        Ok(()) => Ok(()),
        Err(ScriptFault::Memory) => Err(TraceFault::Memory),
        Err(_) => Err(TraceFault::Writer),
    }
}

// Writes the object of a channel.
fn write_channel<W: Write>(
    alloc: Global,
    channel: u64,
    last: u64,
    total: &BankNumbers,
    writer: &mut W,
) -> Result<(), TraceFault>
    ensures { OnOk result (Appends (W.contents writer.old) (W.contents writer.new)
        (object_line (channel_data channel last total.now))) }
{
    let object = channel_object(alloc, channel, last, total)?;
    write_line(alloc, &object, writer)
}

// Writes the object of the commands that went to whole ranks of a channel.
fn write_shared<W: Write>(
    alloc: Global,
    channel: u64,
    shared: &RankNumbers,
    writer: &mut W,
) -> Result<(), TraceFault>
    ensures { OnOk result (Appends (W.contents writer.old) (W.contents writer.new)
        (object_line (shared_data channel shared.now))) }
{
    let object = shared_object(alloc, channel, shared)?;
    write_line(alloc, &object, writer)
}

// Writes the object of each rank of a channel.
fn write_ranks<W: Write>(
    alloc: Global,
    rules: &CommandRules,
    channel: u64,
    statistics: &TraceStatistics,
    writer: &mut W,
) -> Result<(), TraceFault>
    requires { channel < MOST_CHANNELS }
    ensures { statistics.now.rules ≡ rules.now → OnOk result ((text : List ℕ)
        × TellsBelow (TellsRank (told_rank channel) rules.now
        (issued_to channel statistics.now.given.items)) rules.now.geometry.ranks text
        × Appends (W.contents writer.old) (W.contents writer.new) text) }
{
    for rank in 0..rules.geometry.ranks {
        let margins = statistics.margins(channel, rank);
        write_rank(alloc, channel, rank, &margins, writer)?;
    }
    Ok(())
}

// Writes the object of a rank.
fn write_rank<W: Write>(
    alloc: Global,
    channel: u64,
    rank: u64,
    margins: &Margins,
    writer: &mut W,
) -> Result<(), TraceFault>
    ensures { OnOk result (Appends (W.contents writer.old) (W.contents writer.new)
        (told_rank channel rank margins.now)) }
{
    let object = rank_object(alloc, channel, rank, margins)?;
    write_line(alloc, &object, writer)
}

// Writes the object of each bank of a channel that had a command.
fn write_banks<W: Write>(
    alloc: Global,
    rules: &CommandRules,
    channel: u64,
    of: &Channel,
    writer: &mut W,
) -> Result<(), TraceFault>
    ensures { (list : List Issued) → ChannelStands of.now list → OnOk result ((text : List ℕ)
        × TellsBelow (TellsNumbered (told_bank channel) rules.now list) 128 text
        × Appends (W.contents writer.old) (W.contents writer.new) text) }
{
    for number in 0..128 {
        let at = bank_numbered(number);
        if at.lies_in(&rules.geometry) {
            let numbers = of.bank(rules, at);
            write_bank(alloc, channel, at, &numbers, writer)?;
        }
    }
    Ok(())
}

// Writes the object of a bank, where it had a command.
fn write_bank<W: Write>(
    alloc: Global,
    channel: u64,
    at: BankAddress,
    numbers: &BankNumbers,
    writer: &mut W,
) -> Result<(), TraceFault>
    ensures { OnOk result (Appends (W.contents writer.old) (W.contents writer.new)
        (if is_none numbers.now then [] else told_bank channel at numbers.now)) }
{
    if numbers.is_none() {
        return Ok(());
    }
    let object = bank_object(alloc, channel, at, numbers)?;
    write_line(alloc, &object, writer)
}
