//! Runs scripts on an NVDIMM-N controller.
#![tactic(auto)]

use command_faults::{Failure, ProgramFault};
use command_help::is_colored;
use command_line::{Outlet, run, words_of};
use std::env;
use std::io::{self, BufWriter, IsTerminal};
use std::process::ExitCode;

/// The status of a program that the closing of a pipe ends: 128 and the number of the signal.
const CLOSED_PIPE: u8 = 141;

/// What a terminal takes for bold red letters, and for plain ones again.
const RED: &str = "\u{1b}[1;31m";

const PLAIN: &str = "\u{1b}[0m";

fn main(rt: HostRuntime) -> io::Result<ExitCode> {
    let words = match words_of(&rt) {
        Ok(words) => words,
        Err(fault) => return fails(&rt, &Failure::from(fault)),
    };
    let is_watched = rt.stderr().is_terminal();
    let Ok(mut writer) = BufWriter::new(rt.alloc(), Outlet::new(io::writer(&rt))) else {
        return fails(&rt, &Failure::from(ProgramFault::Memory));
    };
    match run(&rt, &words, is_watched, &mut writer) {
        Ok(code) => Ok(code),
        Err(_) if writer.get_ref().is_closed() => Ok(ExitCode::from(CLOSED_PIPE)),
        Err(failure) => fails(&rt, &failure),
    }
}

// Says why on standard error, and the reason behind it where there is one to tell.
fn fails(rt: &HostRuntime, failure: &Failure<'_>) -> io::Result<ExitCode> {
    let no_color = env::var(rt, "NO_COLOR").ok();
    if is_colored(rt.stderr().is_terminal(), no_color.as_deref()) {
        eprintln!(rt; "{RED}nvctl:{PLAIN} {}", failure.fault)?;
    } else {
        eprintln!(rt; "nvctl: {}", failure.fault)?;
    }
    if let Some(reason) = &failure.reason {
        eprintln!(rt; "  {reason}")?;
    }
    Ok(failure.exit_code())
}
