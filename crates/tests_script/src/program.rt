// The program, called with words, and the files of a test's own.
use crate::check::same;
use command_faults::{Failure, FileHost, ProgramFault};
use command_line::{Outlet, run};
use live_store::Host;
use std::env::{self, Env};
use std::fs;
use std::io::{Eprint, Input, Print, Write};
use std::process::{Abort, ExitCode};
use std::rt::Files;
use std::time::Clock;
use store_file::StoreHost;

// What the program does: its exit status, and its lines on standard error but for the name in front.
pub(crate) fn outcome<R, W>(
    rt: &R,
    place: &str,
    words: &[&str],
    writer: &mut W,
) -> (ExitCode, String)
where
    R: Abort + Files + FileHost + Host + StoreHost + Input + Print + Eprint + Clock + AllocGlobal,
    W: Write,
{
    outcome_watched(rt, place, words, false, writer)
}

// The same where someone may look at standard error.
pub(crate) fn outcome_watched<R, W>(
    rt: &R,
    place: &str,
    words: &[&str],
    is_watched: bool,
    writer: &mut W,
) -> (ExitCode, String)
where
    R: Abort + Files + FileHost + Host + StoreHost + Input + Print + Eprint + Clock + AllocGlobal,
    W: Write,
{
    let mut given = Vec::new(rt.alloc());
    given.push(named(rt, place, "nvctl")).expect(rt, "memory");
    for word in words {
        given.push(named(rt, place, word)).expect(rt, "memory");
    }
    let mut outlet = Outlet::new(writer);
    match run(rt, &given, is_watched, &mut outlet) {
        Ok(code) => (code, String::new(rt.alloc())),
        Err(failure) => (failure.exit_code(), told(rt, &failure)),
    }
}

// A fault, and its reason on a line of its own.
fn told<R: Abort + AllocGlobal>(rt: &R, failure: &Failure<'_>) -> String {
    let fault = &failure.fault;
    match &failure.reason {
        Some(reason) => format!(in rt.alloc(); "{fault}\n{reason}").expect(rt, "memory"),
        None => shown(rt, fault),
    }
}

// The line of a fault.
pub(crate) fn shown<R: Abort + AllocGlobal>(rt: &R, fault: &ProgramFault<'_>) -> String {
    fault.to_string(rt.alloc()).expect(rt, "memory")
}

// Fails where the words behind the program's name don't end with this status and line, and this text written. The words
// begin the names of a test's own files by a %, which stands for their place.
pub(crate) fn ends<R>(rt: &R, place: &str, words: &[&str], code: ExitCode, line: &str, text: &str)
where
    R: Abort + Files + FileHost + Host + StoreHost + Input + Print + Eprint + Clock + AllocGlobal,
{
    let mut written = Vec::new(rt.alloc());
    let (found, told) = outcome(rt, place, words, &mut written);
    let ended = (words, found, told.as_str(), written.as_slice());
    same(rt, ended, (words, code, line, text.as_bytes()));
}

// How the names of a test's own files begin.
pub(crate) fn place<R: Abort + Env + AllocGlobal>(rt: &R, process: u32) -> String {
    let folder = env::temp_dir(rt).expect(rt, "a folder");
    let place = format!(in rt.alloc(); "{}/nvctl-{process}-", folder.display());
    place.expect(rt, "memory")
}

pub(crate) fn named<R: Abort + AllocGlobal>(rt: &R, place: &str, word: &str) -> String {
    word.replace(rt.alloc(), "%", place).expect(rt, "memory")
}

pub(crate) fn make<R: Abort + Files + AllocGlobal>(rt: &R, place: &str, name: &str, bytes: &[u8]) {
    fs::write(rt, named(rt, place, name).as_str(), bytes).expect(rt, "a file");
}

pub(crate) fn remove<R: Abort + Files + AllocGlobal>(rt: &R, place: &str, name: &str) {
    fs::remove_file(rt, named(rt, place, name).as_str()).expect(rt, "a file");
}
