// The bad lines of a script, told.
ghost use Rattle.std.specs.Prelude.{◌≡◌, ◌⊎◌, IfErr, IfOk};
ghost use Rattle.command_faults.specs.Exit.{IsOfOutput};
ghost use Rattle.command_faults.specs.Named.{OfScriptNamed};
ghost use Rattle.command_faults.specs.declared.fault.ProgramFault.TheVariants.{Memory};
ghost use Rattle.command_line.specs.Lint.{IsUnlinted, TellsBadLines};
ghost use Rattle.command_line.specs.Verbs.{profile_word, script_word};

use crate::asked::script_asked;
use crate::command::status_by;
use clap::ArgMatches;
use command_faults::{Failure, FileHost, ProgramFault, flush};
use ddr4_timing::timing::Geometry;
use script_report::{bad_lines, tell_bad_lines};
use std::alloc::Global;
use std::io::Write;
use std::process::ExitCode;

/// Tells the bad lines of the script that the words name. The exit status is 1 where there is one.
pub(crate) fn lint<'a, R, W>(
    rt: &R,
    matches: &ArgMatches<'a>,
    writer: &mut W,
) -> Result<ExitCode, Failure<'a>>
where
    R: FileHost + AllocGlobal,
    W: Write,
    ensures told { IfOk result (λ code. OfScriptNamed (R.gives rt.now) (profile_word matches.now)
        (script_word matches.now) (λ profile script. TellsBadLines profile.checked.geometry
        script code (W.contents writer.old) (W.contents writer.new))) }
    ensures untold { IfErr result (λ failure. IsUnlinted matches.now failure.fault) }
{
    let asked = script_asked(rt, matches)?;
    let geometry = &asked.profile.checked.geometry;
    let code = write_bad_lines(rt.alloc(), geometry, &asked.script, writer)?;
    flush(writer)?;
    Ok(code)
}

/// Writes each bad line of a script, by its number and its reason. The exit status is 0 where there is none, and else 1.
pub fn write_bad_lines<W: Write>(
    alloc: Global,
    geometry: &Geometry,
    script: &[u8],
    writer: &mut W,
) -> Result<ExitCode, ProgramFault<'static>>
    ensures told { IfOk result (λ code. TellsBadLines geometry.now script.now code
        (W.contents writer.old) (W.contents writer.new)) }
    ensures fault { IfErr result (λ fault. IsOfOutput fault ⊎ (fault ≡ Memory)) }
{
    let bad = bad_lines(alloc, script, geometry)?;
    match tell_bad_lines(&bad, writer) {
        Ok(()) => Ok(status_by(bad.is_empty())),
        Err(_) => Err(ProgramFault::File("-")),
    }
}
