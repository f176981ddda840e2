// What a crash may leave of a script, told.
ghost use Rattle.std.specs.Prelude.{◌≡◌, ℕ, List, IfOk, OnOk};
ghost use Rattle.std.specs.Io.KnownBytes.{Appends};
ghost use Rattle.std.specs.Process.{exit_status};
ghost use Rattle.command_faults.specs.Named.{OfScriptNamed};
ghost use Rattle.command_faults.specs.declared.fault.ProgramFault.TheVariants as fault;
ghost use Rattle.command_line.specs.Crash.{IsCrashTold, IsCrashUntold, TellsCrash, TellsLine, TellsTable};
ghost use Rattle.command_line.specs.Verbs.{profile_word, script_word};

use crate::asked::{AskedScript, script_asked};
use clap::ArgMatches;
use command_faults::{Failure, FileHost, ProgramFault, Reason, flush};
use crash_table::{AtStop, Counts, PICKS, Progress, Script, Trials, Tried};
use nv_script::ScriptFault;
use report_json::{write_counts, write_stop, write_table};
use std::alloc::{AllocError, Global};
use std::io::{Eprint, Write};
use std::process::ExitCode;
use std::time::{Clock, Duration, Instant};

// How it is told what a crash may leave.
#[derive(Clone, Copy)]
struct Form {
    is_watched: bool,
    is_json: bool,
}

/// Tells how far trials are, on standard error where someone looks at that.
#[derive(Drop)]
struct Watch<'r, R> {
    rt: &'r R,
    // none where nobody looks
    begun: Option<Instant>,
    is_shown: bool,
}

impl<'r, R: Clock + Eprint> Watch<'r, R> {
    fn begin(rt: &'r R, is_watched: bool) -> Watch<'r, R> {
        let begun = if is_watched {
            Instant::now(rt).ok()
        } else {
            None
        };
        Watch {
            rt,
            begun,
            is_shown: false,
        }
    }

    // How long it has taken, where that is longer than a second.
    fn passed(&self) -> Option<Duration> {
        let passed = self.begun?.elapsed(self.rt).ok()?;
        if passed >= Duration::from_secs(1) {
            Some(passed)
        } else {
            None
        }
    }

    fn end(&self) {
        if self.is_shown {
            let _told = eprint!(self.rt; "\r                                                  \r");
        }
    }
}

impl<R: Clock + Eprint> Progress for Watch<'_, R> {
    fn tell(&mut self, done: usize, lines: usize) {
        let Some(passed) = self.passed() else {
            return;
        };
        self.is_shown = true;
        let share = share_done(done, lines);
        let left = seconds_left(passed, share);
        // who looks loses a line that can't be written, and nothing else
        let _told = eprint!(self.rt;
            "\r{done} of {lines} lines, {} %, {left} s left   ",
            share / 10
        );
    }
}

// How many parts of a thousand of the trials are done. Those of a line take as long wherever it stands.
fn share_done(done: usize, lines: usize) -> u64 {
    (done as u64).saturating_mul(1000) / (lines as u64).max(1)
}

// How many seconds the rest takes at the same pace.
fn seconds_left(passed: Duration, share: u64) -> u64 {
    let whole = passed.as_secs().saturating_mul(1000) / share.max(1);
    whole.saturating_sub(passed.as_secs())
}

// Why it isn't told what a crash may leave.
#[derive(Clone, Copy, Debug)]
enum Untold {
    /// The script isn't read, or its trials or the answers come to no end.
    Script(ScriptFault),
    /// No line of this number is run.
    NoLine(u64),
}

impl From<ScriptFault> for Untold {
    fn from(fault: ScriptFault) -> Untold {
        Untold::Script(fault)
    }
}

impl From<AllocError> for Untold {
    fn from(_: AllocError) -> Untold {
        Untold::Script(ScriptFault::Memory)
    }
}

/// Tells what a crash may leave of the script that the words name, or of one of its lines.
pub(crate) fn crash<'a, R, W>(
    rt: &R,
    matches: &ArgMatches<'a>,
    is_watched: bool,
    writer: &mut W,
) -> Result<ExitCode, Failure<'a>>
where
    R: FileHost + Eprint + Clock + AllocGlobal,
    W: Write,
    ensures { IfOk result (λ code. (exit_status code ≡ 0)
        × OfScriptNamed (R.gives rt.now) (profile_word matches.now) (script_word matches.now)
        (λ profile script. IsCrashTold profile script
        (W.contents writer.old) (W.contents writer.new))) }
{
    let asked = script_asked(rt, matches)?;
    let number = matches.get_one::<u64>("line");
    let form = Form {
        is_watched,
        is_json: matches.get_flag("json"),
    };
    match write_asked(rt, form, &asked, number, writer) {
        Ok(()) => {
            flush(writer)?;
            Ok(ExitCode::SUCCESS)
        }
        Err(untold) => Err(why_untold(rt.alloc(), &asked, untold)),
    }
}

// Writes what a crash may leave of a script, or of its line with a number.
fn write_asked<R, W>(
    rt: &R,
    form: Form,
    asked: &AskedScript,
    number: Option<u64>,
    writer: &mut W,
) -> Result<(), Untold>
where
    R: Clock + Eprint + AllocGlobal,
    W: Write,
    ensures { OnOk result (TellsCrash asked.now.profile asked.now.script.items number form.is_json
        (W.contents writer.old) (W.contents writer.new)) }
{
    match number {
        Some(number) => write_line(rt.alloc(), form, asked, number, writer),
        None => Ok(write_crash(rt, form, asked, writer)?),
    }
}

// Why that isn't told, with the reason.
fn why_untold<'a>(alloc: Global, asked: &AskedScript, untold: Untold) -> Failure<'a>
    ensures { IsCrashUntold untold result.fault }
{
    match untold {
        Untold::Script(fault) => {
            Failure::of_script(alloc, fault, &asked.script, &asked.profile.checked.geometry)
        }
        Untold::NoLine(number) => no_line(number),
    }
}

// No line of this number is run.
fn no_line<'a>(number: u64) -> Failure<'a>
    ensures { result.fault ≡ fault.NoLine number }
{
    Failure {
        fault: ProgramFault::NoLine(number),
        reason: Some(Reason::Known(
            "lines are counted from 1, with those that are empty or comments, which aren't run",
        )),
    }
}

// Writes what restores find at each stop of a script, line by line, and the counts.
fn write_crash<R, W>(
    rt: &R,
    form: Form,
    asked: &AskedScript,
    writer: &mut W,
) -> Result<(), ScriptFault>
where
    R: Clock + Eprint + AllocGlobal,
    W: Write,
    ensures { OnOk result (TellsTable asked.now.profile asked.now.script.items form.is_json
        (W.contents writer.old) (W.contents writer.new)) }
{
    let script = Script::read(rt.alloc(), &asked.script, &asked.profile.checked.geometry)?;
    let mut watch = Watch::begin(rt, form.is_watched);
    let tried = Trials::new(rt.alloc(), &asked.profile).table(&script, &mut watch);
    watch.end();
    let table = tried?;
    write_table(rt.alloc(), &table, form.is_json, writer)
}

// Writes what restores find at each stop of one line, by its number, and the counts.
fn write_line<W: Write>(
    alloc: Global,
    form: Form,
    asked: &AskedScript,
    number: u64,
    writer: &mut W,
) -> Result<(), Untold>
    ensures { OnOk result (TellsLine asked.now.profile asked.now.script.items number form.is_json
        (W.contents writer.old) (W.contents writer.new)) }
{
    let script = Script::read(alloc, &asked.script, &asked.profile.checked.geometry)?;
    let Some(place) = script.place(number) else {
        return Err(Untold::NoLine(number));
    };
    let trials = Trials::new(alloc, &asked.profile);
    let tried = trials.tried(&script.lines[..place], script.lines[place])?;
    write_stops(alloc, number, &tried, form.is_json, writer)?;
    write_counts(alloc, &Counts::of(&tried), form.is_json, writer)?;
    Ok(())
}

// Writes what was found at each stop of a line, by its number.
fn write_stops<W: Write>(
    alloc: Global,
    number: u64,
    tried: &[Tried],
    is_json: bool,
    writer: &mut W,
) -> Result<(), ScriptFault>
    ensures { OnOk result ((stops : List ℕ)
        × Appends (W.contents writer.old) (W.contents writer.new) stops) }
{
    for at_stop in tried.chunks(PICKS.len()) {
        if let Some(told) = AtStop::of(alloc, number, at_stop)? {
            write_stop(alloc, &told, is_json, writer)?;
        }
    }
    Ok(())
}
