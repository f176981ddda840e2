// A trace, checked.
ghost use Rattle.std.specs.Prelude.{◌≡◌, ◌↔◌, ℕ, List, [], Err, false, true, IfErr, IfOk, OnOk};
ghost use Rattle.std.specs.Io.KnownBytes.{Appends};
ghost use Rattle.std.specs.Process.{exit_status};
ghost use Rattle.command_trace.specs.Channels.{AreLawful, FollowsAll};
ghost use Rattle.command_trace.specs.Sources.{bytes_of};
ghost use Rattle.command_faults.specs.declared.fault.ProgramFault.TheVariants.{EmptyTrace};
ghost use Rattle.command_line.specs.Check.{HasVerdict, HasVerdictBy, IsJudged, IsOfTrace, IsReadAs, IsSourceNamed, TellsChannels, TellsCounts};
ghost use Rattle.trace_statistics.specs.Telling.{IsMeasured};

use crate::command::{status_by, word_or};
use crate::forms::form_asked;
use clap::ArgMatches;
use command_faults::{Failure, FileHost, ProgramFault, Reason, flush, is_file, rules_of};
use command_trace::{Form, Source, TraceCheck, TraceFault};
use ddr4_timing::timing::CommandRules;
use report_json::{write_tallies, write_verdicts};
use std::alloc::Global;
use std::io::Write;
use std::process::ExitCode;
use std::rt::Files;
use trace_statistics::{Measured, measure};

/// Checks the trace that the words name. The exit status is 1 where the commands of a channel aren't lawful, and where there is
/// none and the words don't allow that.
pub(crate) fn check<'a, R, W>(
    rt: &R,
    matches: &ArgMatches<'a>,
    writer: &mut W,
) -> Result<ExitCode, Failure<'a>>
where
    R: Files + FileHost + AllocGlobal,
    W: Write,
    ensures { IfOk result (λ code. HasVerdictBy (R.gives rt.now) matches.now code
        (W.contents writer.old) (W.contents writer.new)) }
{
    let rules = rules_of(rt, word_or(matches, "PROFILE", "tiny"))?;
    let form = form_asked(rt.alloc(), matches)?;
    let name = word_or(matches, "TRACE", "-");
    let source = source_of(rt, name)?;
    let asked = Asked {
        form,
        others: matches.get_flag("answers"),
        allows_empty: matches.get_flag("allow-empty"),
        is_json: matches.get_flag("json"),
        all: matches.get_flag("all"),
        stats: matches.get_flag("stats"),
    };
    match write_check(rt, &source, asked, &rules, writer) {
        Ok(checked) => {
            let code = checked?;
            flush(writer)?;
            Ok(code)
        }
        Err(fault) => Err(of_trace(rt.alloc(), name, fault)),
    }
}

// The trace of this name: a file that can be read again is read as it is checked, and all else before.
fn source_of<'a, R: Files + FileHost>(rt: &R, name: &'a str) -> Result<Source<'a>, Failure<'a>>
    ensures { IfOk result (IsSourceNamed (R.gives rt.now) name.entry.now) }
{
    if name != "-" && is_file(rt, name)? {
        return Ok(Source::File(name));
    }
    Ok(Source::Bytes(rt.bytes_of(name, u64::MAX)?))
}

// What is asked of a check.
#[derive(Clone, Copy)]
struct Asked {
    // the form of the trace, where it isn't to be found in it
    form: Option<Form>,
    // whether other answers of a run are passed over
    others: bool,
    allows_empty: bool,
    is_json: bool,
    // whether every fault counts
    all: bool,
    // whether the commands are counted
    stats: bool,
}

// The form in which a trace is read: the one that is asked for, or where none is, the trace's own.
fn form_read<R: Files + AllocGlobal>(
    rt: &R,
    source: &Source<'_>,
    asked: Asked,
) -> Result<Form, TraceFault>
    ensures { IfOk result (IsReadAs asked.form asked.others) }
{
    match asked.form {
        Some(form) => Ok(form),
        None => source.form(rt, asked.others),
    }
}

// Checks a trace and writes what that tells, where the trace isn't one without a command that is to have some.
fn write_check<R: Files + AllocGlobal, W: Write>(
    rt: &R,
    source: &Source<'_>,
    asked: Asked,
    rules: &CommandRules,
    writer: &mut W,
) -> Result<Result<ExitCode, Failure<'static>>, TraceFault>
    ensures { IfOk result (λ checked. IfOk checked (λ code. HasVerdict rules.now source.now
        asked code (W.contents writer.old) (W.contents writer.new))) }
{
    let form = form_read(rt, source, asked)?;
    if !asked.stats {
        let check = source.check(rt, form, rules)?;
        return write_checked(rt, source, form, asked, rules, &check, writer);
    }
    let measured = measure(rt, source, form, rules)?;
    match write_checked(rt, source, form, asked, rules, &measured.check, writer)? {
        Ok(code) => {
            write_counts(rt.alloc(), rules, &measured, asked.is_json, writer)?;
            Ok(Ok(code))
        }
        Err(failure) => Ok(Err(failure)),
    }
}

// Writes what the commands of a trace come to, as objects or as lines.
fn write_counts<W: Write>(
    alloc: Global,
    rules: &CommandRules,
    measured: &Measured,
    is_json: bool,
    writer: &mut W,
) -> Result<(), TraceFault>
    ensures { IsMeasured rules.now measured.now → OnOk result ((text : List ℕ)
        × TellsCounts true is_json rules.now measured.now.check.given.items text
        × Appends (W.contents writer.old) (W.contents writer.new) text) }
{
    if is_json {
        statistics_report::write_statistics(alloc, rules, measured, writer)
    } else {
        trace_statistics::write_statistics(rules, measured, writer)
    }
}

// Writes what the check of a trace tells.
fn write_checked<R: Files + AllocGlobal, W: Write>(
    rt: &R,
    source: &Source<'_>,
    form: Form,
    asked: Asked,
    rules: &CommandRules,
    check: &TraceCheck,
    writer: &mut W,
) -> Result<Result<ExitCode, Failure<'static>>, TraceFault>
    ensures { FollowsAll rules.now check.now → IfOk result (λ checked. IfOk checked
        (λ code. (text : List ℕ)
        × IsJudged rules.now form (bytes_of source.now) check.now asked code text
        × Appends (W.contents writer.old) (W.contents writer.new) text)) }
{
    match verdict(check, rules, asked.allows_empty) {
        Ok(code) => {
            write_channels(rt, source, form, asked, rules, check, writer)?;
            Ok(Ok(code))
        }
        Err(fault) => Ok(Err(Failure {
            fault,
            reason: Some(Reason::Known(
                "no command stands in it; --allow-empty takes that for lawful",
            )),
        })),
    }
}

// Writes what is told of each channel.
fn write_channels<R: Files + AllocGlobal, W: Write>(
    rt: &R,
    source: &Source<'_>,
    form: Form,
    asked: Asked,
    rules: &CommandRules,
    check: &TraceCheck,
    writer: &mut W,
) -> Result<(), TraceFault>
    ensures { FollowsAll rules.now check.now → OnOk result ((text : List ℕ)
        × TellsChannels asked.all rules.now form (bytes_of source.now) check.now asked.is_json text
        × Appends (W.contents writer.old) (W.contents writer.new) text) }
{
    if asked.all {
        write_tallies(rt, source, form, rules, check, asked.is_json, writer)
    } else {
        write_verdicts(rt, source, form, rules, check, asked.is_json, writer)
    }
}

/// The exit status of a check that was made: 0 where the commands of every channel are lawful, and else 1. A trace without a
/// command is a fault, unless that is allowed.
pub fn verdict(
    check: &TraceCheck,
    rules: &CommandRules,
    allows_empty: bool,
) -> Result<ExitCode, ProgramFault<'static>>
    ensures status { FollowsAll rules.now check.now → IfOk result (λ code.
        (exit_status code ≡ 0) ↔ AreLawful rules.now check.now) }
    ensures some { check.now.given.items ≡ [] → allows_empty ≡ false
        → result ≡ Err EmptyTrace }
    ensures empty { IfErr result (λ fault. (fault ≡ EmptyTrace)
        × (check.now.given.items ≡ []) × (allows_empty ≡ false)) }
{
    if check.is_empty() && !allows_empty {
        return Err(ProgramFault::EmptyTrace);
    }
    Ok(status_by(check.are_lawful(rules)))
}

/// Why a trace of this name isn't read.
pub(crate) fn of_trace(alloc: Global, name: &str, fault: TraceFault) -> Failure<'_>
    ensures { IsOfTrace name.now fault result.fault }
{
    match fault {
        TraceFault::Line { line, why } => Failure {
            fault: ProgramFault::Trace(line),
            reason: why.to_string(alloc).ok().map(Reason::Told),
        },
        TraceFault::Reader => Failure::from(ProgramFault::File(name)),
        TraceFault::Writer => Failure::from(ProgramFault::File("-")),
        TraceFault::Memory => Failure::from(ProgramFault::Memory),
    }
}
