//! The command `live`: a life on a file, of which standard input asks line by line.
#![tactic(auto)]

ghost use Rattle.std.specs.Prelude.{◌≡◌, IfErr, OnOk};
ghost use Rattle.command_faults.specs.Exit.{status_of};
ghost use Rattle.command_faults.specs.Named.{HasProfile};
ghost use Rattle.live_command.specs.Faults.{IsFaultOf, IsOfStore};

use command_faults::{Failure, FileHost, ProgramFault, Reason, profile_of};
use file_device::OpenFault;
use live_store::{Host, LiveFault, TalkFault, live};
use std::alloc::Global;
use std::io::{Input, Write};

/// What the words of a life name.
#[derive(Clone, Copy, Drop)]
pub struct LiveWords<'a> {
    /// `tiny`, `tiny2`, or a profile's file.
    pub profile: &'a str,
    /// The file that is lived on, which is made where there is none.
    pub store: &'a str,
}

/// Lives on the file that the words name, with the answers to a writer, until standard input ends.
pub fn live_named<'a, R, W>(rt: &R, words: LiveWords<'a>, writer: &mut W) -> Result<(), Failure<'a>>
where
    R: FileHost + Host + Input + AllocGlobal,
    W: Write,
    ensures named { OnOk result (HasProfile (R.gives rt.now) words.entry.profile.now) }
    ensures status { IfErr result (λ failure. status_of failure.fault ≡ 1) }
{
    let profile = profile_of(rt, words.profile)?;
    match live(rt, &profile, words.store, writer) {
        Ok(()) => Ok(()),
        Err(fault) => Err(Failure {
            fault: told(rt.alloc(), fault),
            reason: why_not_opened(fault),
        }),
    }
}

// The program's own words for what the system said of the file.
fn why_not_opened(fault: LiveFault) -> Option<Reason> {
    match fault {
        LiveFault::Open(OpenFault::Io(error)) => Reason::of_error(&error),
        _ => None,
    }
}

// What is wrong with the store, in the fault's own words.
fn of_store<'a>(alloc: Global, fault: LiveFault) -> ProgramFault<'a>
    ensures { IsOfStore result }
{
    match fault.to_string(alloc) {
        Ok(why) => ProgramFault::Store(why),
        Err(_) => ProgramFault::Memory,
    }
}

// How the program tells why no life began, or why one ended before its input did.
fn told<'a>(alloc: Global, fault: LiveFault) -> ProgramFault<'a>
    ensures { IsFaultOf fault result }
{
    match fault {
        LiveFault::Memory | LiveFault::Talk(TalkFault::Memory) => ProgramFault::Memory,
        LiveFault::Talk(_) => ProgramFault::File("-"),
        LiveFault::Open(_) => of_store(alloc, fault),
        LiveFault::Restore(_) => of_store(alloc, fault),
        LiveFault::Format => of_store(alloc, fault),
    }
}
