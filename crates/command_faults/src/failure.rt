// A fault with the reason behind it.
ghost use Rattle.std.specs.Prelude.{◌≡◌, None};
ghost use Rattle.command_faults.specs.declared.fault.ProgramFault.TheVariants as variant;

use crate::fault::ProgramFault;
use ddr4_timing::timing::Geometry;
use near_word::near_word;
use nv_script::{MOST_SCRIPT_LINES, ScriptFault};
use script_report::{Reason as LineReason, why_bad};
use std::alloc::{AllocError, Global};
use std::process::ExitCode;
use std::{fmt, io};

/// The reason behind a fault. Shown as the text behind its line.
#[derive(Debug, Drop)]
pub enum Reason {
    Known(&'static str),
    Told(String),
}

/// Why the program fails, and the reason for that where it is known.
#[derive(Debug, Drop)]
pub struct Failure<'a> {
    pub fault: ProgramFault<'a>,
    pub reason: Option<Reason>,
}

impl Reason {
    /// Why a call of the system came to this error, where the program has words for it.
    pub fn of_error(error: &io::Error) -> Option<Reason> {
        why_no_file(error.kind()).map(Reason::Known)
    }
}

impl fmt::Display for Reason {
    fn fmt<W: fmt::Write>(&self, f: &mut fmt::Formatter<W>) -> fmt::Result {
        match self {
            Reason::Known(words) => f.write_str(words),
            Reason::Told(words) => f.write_str(words),
        }
    }
}

impl<'a> Failure<'a> {
    ghost use Rattle.std.specs.Process.{exit_status};
    ghost use Rattle.command_faults.specs.Exit.{IsOfFile, status_of};

    /// A file that can't be read or written for this error. Want of memory is one of its own.
    pub fn of_file(name: &'a str, error: &io::Error) -> Failure<'a>
        ensures { IsOfFile name.entry result.fault }
    {
        if error.kind() == io::ErrorKind::OutOfMemory {
            return Failure::from(ProgramFault::Memory);
        }
        Failure {
            fault: ProgramFault::File(name),
            reason: Reason::of_error(error),
        }
    }

    /// The same of the word of a profile, which may nearly be one that names no file.
    pub(crate) fn or_word(self, alloc: Global, word: &str) -> Failure<'a>
        ensures { result.fault ≡ self.entry.fault }
    {
        match near_word(alloc, word, &["tiny", "tiny2"]) {
            Ok(Some(near)) => Failure {
                fault: self.fault,
                reason: format!(in alloc; "there is no such file; the word {near}?")
                    .ok()
                    .map(Reason::Told),
            },
            _ => self,
        }
    }

    /// A script that isn't read, or whose run came to no end.
    pub fn of_script(
        alloc: Global,
        fault: ScriptFault,
        script: &[u8],
        geometry: &Geometry,
    ) -> Failure<'a>
        ensures { result.fault ≡ variant.Script fault }
    {
        let reason = match fault {
            ScriptFault::Line { number } => why_no_line(alloc, number, script, geometry),
            ScriptFault::Writer | ScriptFault::Memory => None,
        };
        Failure {
            fault: ProgramFault::Script(fault),
            reason,
        }
    }

    /// The exit status: 2 for a mistake in the program's words, and else 1.
    pub fn exit_code(&self) -> ExitCode
        ensures { exit_status result ≡ status_of self.now.fault }
    {
        self.fault.exit_code()
    }
}

impl<'a> From<ProgramFault<'a>> for Failure<'a> {
    ghost from_gives = { λ fault failure. (failure.fault ≡ fault) × (failure.reason ≡ None) };

    fn from(fault: ProgramFault<'a>) -> Failure<'a> {
        Failure {
            fault,
            reason: None,
        }
    }
}

impl<'a> From<AllocError> for Failure<'a> {
    ghost from_gives = { λ _ failure. failure.fault ≡ variant.Memory };

    fn from(_: AllocError) -> Failure<'a> {
        Failure::from(ProgramFault::Memory)
    }
}

impl<'a> From<ScriptFault> for Failure<'a> {
    fn from(fault: ScriptFault) -> Failure<'a> {
        Failure::from(ProgramFault::Script(fault))
    }
}

// Why the line of a script with this number is none.
fn why_no_line(alloc: Global, number: usize, script: &[u8], geometry: &Geometry) -> Option<Reason> {
    if number > MOST_SCRIPT_LINES {
        return LineReason::TooMany.to_string(alloc).ok().map(Reason::Told);
    }
    let line = script
        .split(|byte| *byte == b'\n')
        .nth(number.saturating_sub(1))?;
    let why = why_bad(alloc, line, geometry).ok()?;
    why.to_string(alloc).ok().map(Reason::Told)
}

fn why_no_file(kind: io::ErrorKind) -> Option<&'static str> {
    match kind {
        io::ErrorKind::NotFound => Some("there is no such file"),
        io::ErrorKind::IsADirectory => Some("it is a folder"),
        io::ErrorKind::NotADirectory => Some("a part of its path is no folder"),
        io::ErrorKind::PermissionDenied => Some("it may not be read or written"),
        io::ErrorKind::ReadOnlyFilesystem => Some("it may not be written"),
        io::ErrorKind::StorageFull | io::ErrorKind::FileTooLarge => Some("there is no room for it"),
        _ => None,
    }
}
