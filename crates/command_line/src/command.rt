// The command line: its words, and which verb they ask for.
ghost use Rattle.std.specs.Prelude.{◌≡◌, ◌≢◌, ◌⊎◌, IfErr, IfOk, if◌then◌else◌};
ghost use Rattle.std.specs.Process.{exit_status};
ghost use Rattle.clap.specs.Words.{kind_of};
ghost use Rattle.clap.specs.declared.error.kind.ErrorKind.TheVariants.{DisplayHelp, DisplayVersion};
ghost use Rattle.command_faults.specs.Exit.{IsOfOutput, IsOfWords};
ghost use Rattle.command_faults.specs.declared.fault.ProgramFault.TheVariants.{Memory};
ghost use Rattle.command_line.specs.Done.{IsDone};
ghost use Rattle.command_line.specs.Verbs.{word_of};

use crate::check::check;
use crate::crash::crash;
use crate::draw::draw;
use crate::help::{complete, explain_word, tell_version};
use crate::lint::lint;
use crate::live::live;
use crate::outlet::{Outgoing, explained};
use crate::profile::explain;
use crate::script::answer;
use crate::store::show;
use clap::error::ErrorKind;
use clap::{ArgMatches, Error as UsageError};
use command_faults::{Failure, FileHost, ProgramFault};
use command_help::known_terms;
use command_words::parser;
use live_store::Host;
use nv_script::ScriptFault;
use std::env::{self, Env};
use std::io::{self, Eprint, Input, Print, Write};
use std::process::ExitCode;
use std::rt::Files;
use std::time::Clock;
use store_file::StoreHost;

/// The program's version.
const VERSION: &str = "0.1.0";

/// The words that the program was called with, its name first. `Words` where one of them isn't UTF-8.
pub fn words_of<R: Env + AllocGlobal>(rt: &R) -> Result<Vec<String>, ProgramFault<'static>>
    ensures { IfErr result IsOfWords }
{
    match env::args(rt) {
        Ok(words) => Ok(words.collect(rt.alloc())?),
        Err(error) if error.kind() == io::ErrorKind::OutOfMemory => Err(ProgramFault::Memory),
        Err(_) => Err(ProgramFault::Words),
    }
}

/// Does what the words say, with the answers to `writer`. Where they aren't the program's usage, clap's text tells it on
/// standard error, and the exit status is 2; help goes to standard output, and the status is 0. A failure has its reason only
/// where someone looks at standard error, or where the words ask for it; why standard output takes no more, its writer tells.
///
/// Faults are found in this order: of the words, of the profile, of the script or the trace, of the run. Nothing is written
/// before the last of these.
pub fn run<'a, R, W>(
    rt: &R,
    words: &'a [String],
    is_watched: bool,
    writer: &mut W,
) -> Result<ExitCode, Failure<'a>>
where
    R: Files + FileHost + Host + StoreHost + Input + Print + Eprint + Clock + AllocGlobal,
    W: Outgoing,
{
    let parser = parser(rt.alloc(), VERSION)?;
    let matches = match parser.try_get_matches_from(words) {
        Ok(matches) => matches,
        Err(error) => {
            return match usage(rt, &error, writer) {
                Ok(code) => Ok(code),
                Err(failure) => Err(told(failure, is_watched, writer)),
            };
        }
    };
    let Some((verb, found)) = matches.subcommand() else {
        return Ok(ExitCode::SUCCESS);
    };
    match done(rt, verb, found, is_watched, writer) {
        Ok(code) => Ok(code),
        Err(failure) => {
            let is_asked = is_watched || found.get_flag("why");
            Err(told(failure, is_asked, writer))
        }
    }
}

// The failure with its reason where that is asked for. Where standard output takes no more, the writer has it.
fn told<'a, W: Outgoing>(failure: Failure<'a>, is_asked: bool, writer: &W) -> Failure<'a>
    ensures { result.fault ≡ failure.entry.fault }
{
    if !is_asked {
        return Failure::from(failure.fault);
    }
    let is_of_output = match &failure.fault {
        ProgramFault::File("-") | ProgramFault::Script(ScriptFault::Writer) => true,
        _ => false,
    };
    if is_of_output {
        explained(failure, writer)
    } else {
        failure
    }
}

// Does what a verb asks for by the words behind it.
fn done<'a, R, W>(
    rt: &R,
    verb: &str,
    matches: &ArgMatches<'a>,
    is_watched: bool,
    writer: &mut W,
) -> Result<ExitCode, Failure<'a>>
where
    R: Files + FileHost + Host + StoreHost + Input + Eprint + Clock + AllocGlobal,
    W: Write,
    ensures { IfOk result (λ code. IsDone (R.gives rt.now) verb.now matches.now code
        (W.contents writer.old) (W.contents writer.new)) }
{
    match verb {
        "run" => answer(rt, matches, writer),
        "live" => live(rt, matches, writer),
        "show" => show(rt, matches, writer),
        "lint" => lint(rt, matches, writer),
        "crash" => crash(rt, matches, is_watched, writer),
        "check" => check(rt, matches, writer),
        "draw" => draw(rt, matches, writer),
        "explain" => explain_word(rt, known_terms(), matches, writer),
        "completions" => complete(matches, writer),
        _ => explain(rt, matches, writer),
    }
}

/// The word of this name, or where the words have none, another one.
pub(crate) fn word_or<'a>(matches: &ArgMatches<'a>, name: &str, other: &'a str) -> &'a str
    ensures { result.now ≡ word_of matches.now name.now other.now }
{
    matches.get_str(name).unwrap_or(other)
}

/// The exit status of a yes or a no.
pub(crate) fn status_by(test: bool) -> ExitCode
    ensures { exit_status result ≡ (if test then 0 else 1) }
{
    if test {
        ExitCode::SUCCESS
    } else {
        ExitCode::FAILURE
    }
}

// Tells why the words were refused, or gives the help that they ask for.
fn usage<'a, R, W>(rt: &R, error: &UsageError, writer: &mut W) -> Result<ExitCode, Failure<'a>>
where
    R: Files + Print + Eprint + AllocGlobal,
    W: Write,
    ensures help { kind_of error.now ≡ DisplayHelp → IfOk result (λ code. exit_status code ≡ 0) }
    ensures mistake { kind_of error.now ≢ DisplayHelp → kind_of error.now ≢ DisplayVersion
        → IfOk result (λ code. exit_status code ≡ 2) }
    ensures fault { IfErr result (λ failure. IsOfOutput failure.fault
        ⊎ (failure.fault ≡ Memory)) }
{
    if error.kind() == ErrorKind::OutOfMemory {
        return Err(Failure::from(ProgramFault::Memory));
    }
    if error.kind() == ErrorKind::DisplayVersion {
        return tell_version(rt, VERSION, writer);
    }
    match error.print(rt) {
        Ok(()) => Ok(ExitCode::from(error.exit_code() as u8)),
        Err(error) => Err(Failure::of_file("-", &error)),
    }
}
