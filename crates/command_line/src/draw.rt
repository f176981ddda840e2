// A schedule drawn: of a trace, or of all commands of a script.
ghost use Rattle.std.specs.Prelude.{◌≡◌, false, IfErr, IfOk, IfSome, IsSome, OnOk};
ghost use Rattle.std.specs.Process.{exit_status};
ghost use Rattle.command_faults.specs.Exit.{IsOfFile, status_of};
ghost use Rattle.command_line.specs.Check.{IsReadAs};
ghost use Rattle.command_line.specs.Drawn.{ArePicturesOf, DrawsCommands, DrawsScript, DrawsScriptBy, DrawsTraceBy, HasSchedule, IsDrawnBy, IsRangeShown, IsReadBy, IsScheduleNamed};

use crate::check::of_trace;
use crate::command::word_or;
use crate::forms::form_asked;
use crate::outlet::{Outlet, explained};
use crate::whole::told_whole;
use clap::ArgMatches;
use command_faults::{Failure, FileHost, ProgramFault, is_one_file, profile_of, rules_of};
use command_trace::{Form, TraceFault, TraceReader, form_of};
use crash_table::Trials;
use ddr4_timing::timing::CommandRules;
use nv_profile::Profile;
use nv_script::{ScriptFault, read_script};
use schedule_drawing::{DrawFault, Schedule, told_schedule, trace_schedule, write_svg, write_vcd};
use script_runner::CommandBook;
use std::alloc::{AllocError, Global};
use std::fs::File;
use std::io::{BufWriter, Write};
use std::process::ExitCode;
use std::rt::Files;

// The form of a picture.
#[derive(Clone, Copy, Debug, PartialEq, Eq)]
enum PictureForm {
    Svg,
    Vcd,
}

// The files of the pictures that the words ask for.
#[derive(Clone, Copy, Drop)]
struct Pictures<'a> {
    svg: Option<&'a str>,
    vcd: Option<&'a str>,
}

/// Draws the trace or the script that the words name, as each picture that they ask for: into a file, or to standard output.
pub(crate) fn draw<'a, R, W>(
    rt: &R,
    matches: &ArgMatches<'a>,
    writer: &mut W,
) -> Result<ExitCode, Failure<'a>>
where
    R: Files + FileHost + AllocGlobal,
    W: Write,
    ensures { IfOk result (λ code. (exit_status code ≡ 0)
        × HasSchedule (R.gives rt.now) matches.now) }
{
    let pictures = pictures_asked(rt, matches)?;
    let mut schedule = schedule_asked(rt, matches)?;
    show_range(rt.alloc(), matches, &mut schedule)?;
    if let Some(name) = pictures.svg {
        put_picture(rt, &schedule, PictureForm::Svg, name, writer)?;
    }
    if let Some(name) = pictures.vcd {
        put_picture(rt, &schedule, PictureForm::Vcd, name, writer)?;
    }
    Ok(ExitCode::SUCCESS)
}

// The pictures that the words ask for. Each is refused where it would be written over what is read, the second where it would be
// written over the first.
fn pictures_asked<'a, R: Files>(
    rt: &R,
    matches: &ArgMatches<'a>,
) -> Result<Pictures<'a>, ProgramFault<'static>>
    ensures asked { IfOk result (ArePicturesOf matches.now) }
    ensures fault { IfErr result (λ fault. status_of fault ≡ 2) }
{
    let svg = matches.get_str("svg");
    let vcd = matches.get_str("vcd");
    if let Some(why) = why_undrawn(rt, matches, svg) {
        return Err(ProgramFault::Svg(why));
    }
    if let Some(why) = why_undrawn(rt, matches, vcd) {
        return Err(ProgramFault::Vcd(why));
    }
    match (svg, vcd) {
        (Some(one), Some(other)) if is_one_file(rt, one, other) => {
            Err(ProgramFault::Vcd("names the picture of --svg"))
        }
        _ => Ok(Pictures { svg, vcd }),
    }
}

// Why no picture is written to a file of this name, if there is one: the words have it for what is read. - is another for each.
fn why_undrawn<R: Files>(
    rt: &R,
    matches: &ArgMatches<'_>,
    name: Option<&str>,
) -> Option<&'static str>
    ensures { IfSome name.entry (λ name. IsReadBy matches.now name.now → IsSome result) }
{
    let name = name?;
    if name == "-" {
        None
    } else if is_one_file(rt, name, word_or(matches, "PROFILE", "tiny")) {
        Some("names the profile")
    } else if is_one_file(rt, name, word_or(matches, "SCHEDULE", "-")) {
        Some("names what is drawn")
    } else {
        None
    }
}

// The schedule that the words name.
fn schedule_asked<'a, R: FileHost + AllocGlobal>(
    rt: &R,
    matches: &ArgMatches<'a>,
) -> Result<Schedule, Failure<'a>>
    ensures { IfOk result (IsScheduleNamed (R.gives rt.now) matches.now) }
{
    let form = form_asked(rt.alloc(), matches)?;
    let name = word_or(matches, "SCHEDULE", "-");
    let bytes = rt.bytes_of(name, u64::MAX)?;
    schedule_of(rt, word_or(matches, "PROFILE", "tiny"), name, form, &bytes)
}

// Leaves of a schedule the clocks that the words name, where they name some.
fn show_range(
    alloc: Global,
    matches: &ArgMatches<'_>,
    schedule: &mut Schedule,
) -> Result<(), AllocError>
    ensures { OnOk result (IsRangeShown schedule.old schedule.new) }
{
    let first = matches.get_one::<u64>("from");
    let last = matches.get_one::<u64>("to");
    if first.is_none() && last.is_none() {
        return Ok(());
    }
    schedule.show(alloc, first.unwrap_or(0), last.unwrap_or(u64::MAX))
}

// The schedule of a trace or of a script. Where the words name no form, the first line of a trace that is neither empty nor a
// comment begins with a digit or has a comma. A trace is drawn by the numbers for commands alone, a script by those of a profile.
fn schedule_of<'a, R: FileHost + AllocGlobal>(
    rt: &R,
    word: &'a str,
    name: &'a str,
    form: Option<Form>,
    bytes: &[u8],
) -> Result<Schedule, Failure<'a>>
    ensures { IfOk result (IsDrawnBy (R.gives rt.now) word.entry.now form bytes.now) }
{
    if form.is_some() || is_trace(bytes) {
        trace_drawn(rt, word, name, form, bytes)
    } else {
        script_drawn(rt, word, bytes)
    }
}

// That of a trace, by the rules of the profile's word.
fn trace_drawn<'a, R: FileHost + AllocGlobal>(
    rt: &R,
    word: &'a str,
    name: &'a str,
    form: Option<Form>,
    bytes: &[u8],
) -> Result<Schedule, Failure<'a>>
    ensures { IfOk result (DrawsTraceBy (R.gives rt.now) word.entry.now form bytes.now) }
{
    let rules = rules_of(rt, word)?;
    match schedule_drawn(rt.alloc(), &rules, form, bytes) {
        Ok(schedule) => Ok(schedule),
        Err(fault) => Err(of_trace(rt.alloc(), name, fault)),
    }
}

// That of a script, by the profile of its word.
fn script_drawn<'a, R: FileHost + AllocGlobal>(
    rt: &R,
    word: &'a str,
    bytes: &[u8],
) -> Result<Schedule, Failure<'a>>
    ensures { IfOk result (DrawsScriptBy (R.gives rt.now) word.entry.now bytes.now) }
{
    let profile = profile_of(rt, word)?;
    match script_schedule(rt.alloc(), &profile, bytes) {
        Ok(schedule) => Ok(schedule),
        Err(fault) => {
            let geometry = &profile.checked.geometry;
            Err(Failure::of_script(rt.alloc(), fault, bytes, geometry))
        }
    }
}

fn is_trace(bytes: &[u8]) -> bool {
    for line in bytes.split(|byte| *byte == b'\n') {
        let is_blank = line.is_empty() || line == b"\r".as_slice();
        if !is_blank && line[0] != b'#' {
            return line[0].is_ascii_digit() || line.contains(&b',');
        }
    }
    false
}

// The form in which a trace is drawn.
fn form_drawn(alloc: Global, asked: Option<Form>, bytes: &[u8]) -> Result<Form, TraceFault>
    ensures { IfOk result (IsReadAs asked false) }
{
    match asked {
        Some(form) => Ok(form),
        None => form_of(alloc, bytes, false),
    }
}

fn schedule_drawn(
    alloc: Global,
    rules: &CommandRules,
    asked: Option<Form>,
    bytes: &[u8],
) -> Result<Schedule, TraceFault>
    ensures { IfOk result (DrawsCommands rules.now asked bytes.now) }
{
    let form = form_drawn(alloc, asked, bytes)?;
    let mut reader = TraceReader::new(alloc, bytes, form, rules.geometry.channels);
    trace_schedule(alloc, rules, &mut reader)
}

fn script_schedule(alloc: Global, profile: &Profile, bytes: &[u8]) -> Result<Schedule, ScriptFault>
    ensures { IfOk result (DrawsScript profile.now bytes.now) }
{
    let lines = read_script(alloc, bytes, &profile.checked.geometry)?;
    let mut book = CommandBook::open(alloc);
    let answers = Trials::new(alloc, profile).answers_kept(&lines, &mut book)?;
    let Some(lives) = book.into_lives() else {
        return Err(ScriptFault::Memory);
    };
    let answers = told_whole(alloc, &answers, &lives)?;
    Ok(told_schedule(alloc, &profile.checked.timing, &answers)?)
}

// Writes a schedule as a picture to a file, or for - to standard output.
fn put_picture<'a, R: Files + AllocGlobal, W: Write>(
    rt: &R,
    schedule: &Schedule,
    picture: PictureForm,
    name: &'a str,
    writer: &mut W,
) -> Result<(), Failure<'a>>
    ensures { IfErr result (λ failure. IsOfFile name.entry failure.fault) }
{
    if name == "-" {
        return write_picture(rt.alloc(), schedule, picture, name, writer);
    }
    let file = match File::create(rt, name) {
        Ok(file) => file,
        Err(error) => return Err(Failure::of_file(name, &error)),
    };
    let Ok(mut writer) = BufWriter::new(rt.alloc(), Outlet::new(file)) else {
        return Err(Failure::from(ProgramFault::Memory));
    };
    match write_picture(rt.alloc(), schedule, picture, name, &mut writer) {
        Ok(()) => Ok(()),
        Err(failure) => Err(explained(failure, &writer)),
    }
}

// Writes a schedule as a picture to a writer, which has this name.
fn write_picture<'a, W: Write>(
    alloc: Global,
    schedule: &Schedule,
    picture: PictureForm,
    name: &'a str,
    writer: &mut W,
) -> Result<(), Failure<'a>>
    ensures { IfErr result (λ failure. IsOfFile name.entry failure.fault) }
{
    let written = match picture {
        PictureForm::Svg => write_svg(alloc, schedule, writer),
        PictureForm::Vcd => write_vcd(alloc, schedule, writer),
    };
    match written {
        Ok(()) => {}
        Err(DrawFault::Writer) => return Err(Failure::from(ProgramFault::File(name))),
        Err(DrawFault::Memory) => return Err(Failure::from(ProgramFault::Memory)),
    }
    match writer.flush() {
        Ok(()) => Ok(()),
        Err(error) => Err(Failure::of_file(name, &error)),
    }
}
