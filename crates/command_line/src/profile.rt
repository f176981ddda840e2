// The numbers of a text, explained.
ghost use Rattle.std.specs.Prelude.{◌≡◌, IfOk, OnOk};
ghost use Rattle.std.specs.Process.{exit_status};
ghost use Rattle.command_line.specs.Profile.{ExplainsProfile, TellsNumbers};
ghost use Rattle.command_line.specs.Verbs.{profile_word};

use crate::command::word_or;
use clap::ArgMatches;
use command_faults::{Failure, FileHost, asked_numbers, flush};
use nv_profile::Numbers;
use nv_script::ScriptFault;
use profile_report::{CommandMeaning, Meaning};
use report_json::{write_command_meaning, write_meaning};
use std::alloc::Global;
use std::io::Write;
use std::process::ExitCode;

/// Tells what the numbers come to that the words name, those of a profile or those by which commands alone are checked, or each
/// reason why there are none.
pub(crate) fn explain<'a, R, W>(
    rt: &R,
    matches: &ArgMatches<'a>,
    writer: &mut W,
) -> Result<ExitCode, Failure<'a>>
where
    R: FileHost + AllocGlobal,
    W: Write,
    ensures { IfOk result (λ code. (exit_status code ≡ 0) × ExplainsProfile (R.gives rt.now)
        (profile_word matches.now) (W.contents writer.old) (W.contents writer.new)) }
{
    let numbers = asked_numbers(rt, word_or(matches, "PROFILE", "tiny"))?;
    write_numbers(rt.alloc(), &numbers, matches.get_flag("json"), writer)?;
    flush(writer)?;
    Ok(ExitCode::SUCCESS)
}

// Writes what numbers come to.
fn write_numbers<W: Write>(
    alloc: Global,
    numbers: &Numbers,
    is_json: bool,
    writer: &mut W,
) -> Result<(), ScriptFault>
    ensures { OnOk result (TellsNumbers is_json numbers.now
        (W.contents writer.old) (W.contents writer.new)) }
{
    match numbers {
        Numbers::Module(profile) => write_meaning(alloc, &Meaning::of(profile), is_json, writer),
        Numbers::Commands(rules) => {
            write_command_meaning(alloc, &CommandMeaning::of(rules), is_json, writer)
        }
    }
}
