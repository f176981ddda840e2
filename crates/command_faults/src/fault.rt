// Why the program fails, and its exit status.
ghost use Rattle.std.specs.Prelude.{◌≡◌};
ghost use Rattle.std.specs.Process.{exit_status};
ghost use Rattle.command_faults.specs.declared.fault.ProgramFault.TheVariants.{Memory};

use nv_script::ScriptFault;
use std::alloc::AllocError;
use std::process::ExitCode;
use thiserror::Error;

/// Why the program fails. Shown as the rest of its one line on standard error.
#[derive(Debug, Drop, Error)]
pub enum ProgramFault<'a> {
    #[error("a word is not UTF-8")]
    Words,
    #[error("profile")]
    Profile,
    /// The text is no profile for these reasons, each a line.
    #[error("profile: {0}")]
    NoProfile(String),
    /// What is wrong with the store that is to be lived on, or run on.
    #[error("{0}")]
    Store(String),
    /// The file can't be read or written. `-` is standard input or standard output.
    #[error("file {0}")]
    File(&'a str),
    #[error("{0}")]
    Script(ScriptFault),
    /// The line of a trace is no command.
    #[error("trace line {0}")]
    Trace(u64),
    /// The word behind `--out` names no file for a store, for this reason.
    #[error("--out {0}")]
    Out(&'static str),
    /// The word behind `--store` names no file for a store, for this reason.
    #[error("--store {0}")]
    Kept(&'static str),
    /// The word behind `--commands` names no file for commands, for this reason.
    #[error("--commands {0}")]
    Commands(&'static str),
    /// The word behind `--svg` names no file for a picture, for this reason.
    #[error("--svg {0}")]
    Svg(&'static str),
    /// The word behind `--vcd` names no file for a picture, for this reason.
    #[error("--vcd {0}")]
    Vcd(&'static str),
    /// The words behind `--form` and `--columns` name no form of a trace.
    #[error("--columns")]
    Columns,
    /// No command stands in a trace that is to be checked.
    #[error("empty trace")]
    EmptyTrace,
    /// No such word is explained.
    #[error("no word {0}")]
    NoTerm(&'a str),
    /// The script runs no line of this number.
    #[error("no line {0}")]
    NoLine(u64),
    #[error("memory")]
    Memory,
}

impl ProgramFault<'_> {
    ghost use Rattle.command_faults.specs.Exit.{status_of};

    /// The exit status: 2 for a mistake in the program's words, and else 1.
    pub fn exit_code(&self) -> ExitCode
        ensures { exit_status result ≡ status_of self.now }
    {
        match self {
            ProgramFault::Words => ExitCode::from(2),
            ProgramFault::Out(_) => ExitCode::from(2),
            ProgramFault::Kept(_) => ExitCode::from(2),
            ProgramFault::Commands(_) => ExitCode::from(2),
            ProgramFault::Svg(_) => ExitCode::from(2),
            ProgramFault::Vcd(_) => ExitCode::from(2),
            ProgramFault::Columns => ExitCode::from(2),
            ProgramFault::NoTerm(_) => ExitCode::from(2),
            _ => ExitCode::FAILURE,
        }
    }
}

impl<'a> From<AllocError> for ProgramFault<'a> {
    ghost from_gives = { λ _ fault. fault ≡ Memory };

    fn from(_: AllocError) -> ProgramFault<'a> {
        ProgramFault::Memory
    }
}

impl<'a> From<ScriptFault> for ProgramFault<'a> {
    fn from(fault: ScriptFault) -> ProgramFault<'a> {
        ProgramFault::Script(fault)
    }
}
