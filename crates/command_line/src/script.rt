// A script, run.
ghost use Rattle.std.specs.Prelude.{◌≡◌, IfOk};
ghost use Rattle.std.specs.Process.{exit_status};
ghost use Rattle.command_faults.specs.Named.{OfScriptNamed};
ghost use Rattle.command_line.specs.Verbs.{profile_word, script_word};
ghost use Rattle.run_command.specs.Whole.{IsToldRun};

use crate::command::word_or;
use clap::ArgMatches;
use command_faults::{Failure, FileHost, ProgramFault};
use run_command::{RunWords, StoreWord, run_named};
use std::io::Write;
use std::process::ExitCode;
use std::rt::Files;
use store_file::StoreHost;

/// Runs the script that the words name.
pub(crate) fn answer<'a, R, W>(
    rt: &R,
    matches: &ArgMatches<'a>,
    writer: &mut W,
) -> Result<ExitCode, Failure<'a>>
where
    R: Files + FileHost + StoreHost + AllocGlobal,
    W: Write,
    ensures { IfOk result (λ code. (exit_status code ≡ 0) × OfScriptNamed (R.gives rt.now)
        (profile_word matches.now) (script_word matches.now)
        (IsToldRun (W.contents writer.old) (W.contents writer.new))) }
{
    let words = words_asked(matches)?;
    run_named(rt, words, writer)?;
    Ok(ExitCode::SUCCESS)
}

// What the words of a run name.
fn words_asked<'a>(matches: &ArgMatches<'a>) -> Result<RunWords<'a>, ProgramFault<'static>>
    ensures profile { IfOk result (λ words. words.profile.now ≡ profile_word matches.now) }
    ensures script { IfOk result (λ words. words.script.now ≡ script_word matches.now) }
{
    Ok(RunWords {
        profile: word_or(matches, "PROFILE", "tiny"),
        script: word_or(matches, "SCRIPT", "-"),
        store: store_word(matches)?,
        is_json: matches.get_flag("json"),
        stats: matches.get_flag("stats"),
        commands: matches.get_str("commands"),
    })
}

// The file of the run's store, which one of two words may name.
fn store_word<'a>(
    matches: &ArgMatches<'a>,
) -> Result<Option<StoreWord<'a>>, ProgramFault<'static>> {
    match (matches.get_str("out"), matches.get_str("store")) {
        (Some(_), Some(_)) => Err(ProgramFault::Kept("stands beside --out")),
        (Some(name), None) => Ok(Some(StoreWord::Out(name))),
        (None, Some(name)) => Ok(Some(StoreWord::Kept(name))),
        (None, None) => Ok(None),
    }
}
