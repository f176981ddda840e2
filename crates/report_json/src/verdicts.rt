// What a check tells of a channel.
ghost use Rattle.std.specs.Prelude.{◌≡◌, ℕ, IfOk, IfSome, List, None, OnOk, codes};
ghost use Rattle.std.specs.Io.KnownBytes.{Appends};
ghost use Rattle.command_trace.specs.Channels.{FollowsAll};
ghost use Rattle.command_trace.specs.Sources.{bytes_of};
ghost use Rattle.report_fields.specs.Fields.{tells};
ghost use Rattle.report_fields.specs.Parts.{IsTold, data_of_told, text_of_told};
ghost use Rattle.report_json.specs.Checked.{TellsAllFaults, TellsEachTally, TellsVerdicts};
ghost use Rattle.report_json.specs.Verdicts.{fault_fields, fault_in, first_of, lawful_fields, lawful_in, tally_fields, tally_in};

use crate::commands::tell_numbered;
use command_trace::{BrokenRule, Diagnosis, Form, Source, TraceCheck, TraceFault};
use ddr4_timing::timing::CommandRules;
use report_fields::{Part, Told, tell};
use statistics_report::write_of_trace;
use std::alloc::{AllocError, Global};
use std::io::Write;
use std::rt::Files;

// What is told of a channel whose commands are lawful: the channel, and how many they are.
fn tell_lawful(alloc: Global, channel: u64, count: u64) -> Result<Told, AllocError>
    ensures { IfOk result (IsTold (codes "lawful") (lawful_fields channel count)) }
{
    let parts = [
        Part::Number("channel", channel),
        Part::Word(" lawful "),
        Part::Number("commands", count),
    ];
    tell(alloc, "lawful", &parts)
}

// What is told of a channel's fault: the channel, the rule by its number, why in these words, the command at which it is, and the one
// before it that the rule is on, where that is another one.
fn tell_fault(alloc: Global, channel: u64, found: &Diagnosis, why: &str) -> Result<Told, AllocError>
    ensures { IfOk result (IsTold (codes "fault") (fault_fields channel found.now why.now)) }
{
    let rule = found.fault.rule as u64;
    let second = tell_numbered(alloc, &found.second)?;
    if found.fault.first == found.fault.second {
        let parts = [
            Part::Number("channel", channel),
            Part::Word(" fault "),
            Part::Number("rule", rule),
            Part::Word(", "),
            Part::Name("why", why),
            Part::Word("; "),
            Part::Within("second", &second),
        ];
        return tell(alloc, "fault", &parts);
    }
    let first = tell_numbered(alloc, &found.first)?;
    let parts = [
        Part::Number("channel", channel),
        Part::Word(" fault "),
        Part::Number("rule", rule),
        Part::Word(", "),
        Part::Name("why", why),
        Part::Word("; "),
        Part::Within("first", &first),
        Part::Word("; "),
        Part::Within("second", &second),
    ];
    tell(alloc, "fault", &parts)
}

// What is told of a rule that the commands of a channel break: its first fault, and how many commands break it.
fn tell_tally(
    alloc: Global,
    channel: u64,
    tally: &BrokenRule,
    why: &str,
) -> Result<Told, AllocError>
    ensures { IfOk result (IsTold (codes "faults") (tally_fields channel tally.now why.now)) }
{
    let first = tell_fault(alloc, channel, &tally.first, why)?;
    tell_count(alloc, &first, tally.count as u64)
}

// What is told of a first fault, and of how many commands break its rule.
fn tell_count(alloc: Global, first: &Told, count: u64) -> Result<Told, AllocError>
    ensures { IfOk result (IsTold (codes "faults") (first_of (tells (codes "first")
        (text_of_told first.now) (data_of_told first.now)) count)) }
{
    let parts = [
        Part::Within("first", first),
        Part::Word("; the first of "),
        Part::Number("commands", count),
    ];
    tell(alloc, "faults", &parts)
}

/// Writes that the commands of a channel are lawful, and how many they are: a line, or its object.
pub fn write_lawful<W: Write>(
    alloc: Global,
    channel: u64,
    count: u64,
    is_json: bool,
    writer: &mut W,
) -> Result<(), TraceFault>
    ensures { OnOk result (Appends (W.contents writer.old) (W.contents writer.new)
        (lawful_in is_json channel count)) }
{
    write_of_trace(alloc, &tell_lawful(alloc, channel, count)?, is_json, writer)
}

/// Writes a channel's fault, with why in these words: a line, or its object.
pub fn write_fault<W: Write>(
    alloc: Global,
    channel: u64,
    found: &Diagnosis,
    why: &str,
    is_json: bool,
    writer: &mut W,
) -> Result<(), TraceFault>
    ensures { OnOk result (Appends (W.contents writer.old) (W.contents writer.new)
        (fault_in is_json channel found.now why.now)) }
{
    let told = tell_fault(alloc, channel, found, why)?;
    write_of_trace(alloc, &told, is_json, writer)
}

/// Writes a rule that the commands of a channel break, with why in these words: a line, or its object.
pub fn write_tally<W: Write>(
    alloc: Global,
    channel: u64,
    tally: &BrokenRule,
    why: &str,
    is_json: bool,
    writer: &mut W,
) -> Result<(), TraceFault>
    ensures { OnOk result (Appends (W.contents writer.old) (W.contents writer.new)
        (tally_in is_json channel tally.now why.now)) }
{
    let told = tell_tally(alloc, channel, tally, why)?;
    write_of_trace(alloc, &told, is_json, writer)
}

// Writes what is told of a channel: its fault, or how many commands it has.
fn write_verdict<W: Write>(
    alloc: Global,
    channel: u64,
    count: u64,
    found: Option<Diagnosis>,
    is_json: bool,
    writer: &mut W,
) -> Result<(), TraceFault>
    ensures lawful { found ≡ None → OnOk result (Appends (W.contents writer.old)
        (W.contents writer.new) (lawful_in is_json channel count)) }
    ensures fault { IfSome found (λ found. OnOk result ((why : List ℕ) × Appends
        (W.contents writer.old) (W.contents writer.new) (fault_in is_json channel found why))) }
{
    match found {
        None => write_lawful(alloc, channel, count, is_json, writer),
        Some(found) => {
            let why = found.reason.to_string(alloc)?;
            write_fault(alloc, channel, &found, &why, is_json, writer)
        }
    }
}

/// Writes what the check of a trace tells of each channel: that its commands are lawful, or its least fault.
pub fn write_verdicts<R: Files + AllocGlobal, W: Write>(
    rt: &R,
    source: &Source<'_>,
    form: Form,
    rules: &CommandRules,
    check: &TraceCheck,
    is_json: bool,
    writer: &mut W,
) -> Result<(), TraceFault>
    ensures { FollowsAll rules.now check.now → OnOk result ((text : List ℕ)
        × TellsVerdicts rules.now form (bytes_of source.now) check.now is_json text
        × Appends (W.contents writer.old) (W.contents writer.new) text) }
{
    for channel in 0..rules.geometry.channels {
        let found = source.diagnosis(rt, form, rules, check, channel)?;
        let count = check.count(channel);
        write_verdict(rt.alloc(), channel, count, found, is_json, writer)?;
    }
    Ok(())
}

/// The same with every fault: in place of a channel's least one each rule that its commands break.
pub fn write_tallies<R: Files + AllocGlobal, W: Write>(
    rt: &R,
    source: &Source<'_>,
    form: Form,
    rules: &CommandRules,
    check: &TraceCheck,
    is_json: bool,
    writer: &mut W,
) -> Result<(), TraceFault>
    ensures { FollowsAll rules.now check.now → OnOk result ((text : List ℕ)
        × TellsAllFaults rules.now form (bytes_of source.now) check.now is_json text
        × Appends (W.contents writer.old) (W.contents writer.new) text) }
{
    let alloc = rt.alloc();
    for channel in 0..rules.geometry.channels {
        if check.is_lawful(rules, channel) {
            write_lawful(alloc, channel, check.count(channel), is_json, writer)?;
        } else {
            let tallies = source.tallies(rt, form, rules, channel)?;
            write_channel(alloc, channel, &tallies, is_json, writer)?;
        }
    }
    Ok(())
}

// Writes each rule that the commands of a channel break.
fn write_channel<W: Write>(
    alloc: Global,
    channel: u64,
    tallies: &[BrokenRule],
    is_json: bool,
    writer: &mut W,
) -> Result<(), TraceFault>
    ensures { OnOk result ((text : List ℕ) × TellsEachTally is_json channel tallies.now text
        × Appends (W.contents writer.old) (W.contents writer.new) text) }
{
    for tally in tallies {
        let why = tally.first.reason.to_string(alloc)?;
        write_tally(alloc, channel, tally, &why, is_json, writer)?;
    }
    Ok(())
}
