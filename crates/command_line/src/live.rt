// A life on a file.
ghost use Rattle.std.specs.Prelude.{◌≡◌, IfErr, IfOk};
ghost use Rattle.std.specs.Process.{exit_status};
ghost use Rattle.command_faults.specs.Exit.{status_of};
ghost use Rattle.command_faults.specs.Named.{HasProfile};
ghost use Rattle.command_line.specs.Verbs.{profile_word};

use crate::command::word_or;
use clap::ArgMatches;
use command_faults::{Failure, FileHost};
use live_command::{LiveWords, live_named};
use live_store::Host;
use std::io::{Input, Write};
use std::process::ExitCode;

/// Lives on the file that the words name, until standard input ends.
pub(crate) fn live<'a, R, W>(
    rt: &R,
    matches: &ArgMatches<'a>,
    writer: &mut W,
) -> Result<ExitCode, Failure<'a>>
where
    R: FileHost + Host + Input + AllocGlobal,
    W: Write,
    ensures ended { IfOk result (λ code. exit_status code ≡ 0) }
    ensures named { IfOk result (λ code. HasProfile (R.gives rt.now) (profile_word matches.now)) }
    ensures fault { IfErr result (λ failure. status_of failure.fault ≡ 1) }
{
    let words = LiveWords {
        profile: word_or(matches, "PROFILE", "tiny"),
        store: word_or(matches, "STORE", "-"),
    };
    live_named(rt, words, writer)?;
    Ok(ExitCode::SUCCESS)
}
