// All commands of a run, written to files.
use crate::check::same;
use crate::program::{ends, make, named, place, remove};
use std::fs;
use std::process::{self, Abort, ExitCode};
use std::rt::Files;

// Line 5 lies on channel 1. The first life saves what it wrote, and works its channel untold; the second one reads, is armed, and
// loses the mains with a write that waits.
const SCRIPT: &[u8] =
    b"format\nwrite 5 a5\nsave\nrestore\nread 5\nsense 9000\narm\nwrite 0 11\nlose\n";

const TOLD: &str =
    "formatted\naccepted 0 mark 0\nsaved 2 1\nrestored 2 1 Complete\nline 5 = a5\nlevel 9000 disarmed\narmed\naccepted 1 mark 2\nlost saved 3 2\n";

// The lines of a file.
fn lines_of<R: Abort + Files + AllocGlobal>(rt: &R, place: &str, name: &str) -> String {
    let file = named(rt, place, name);
    fs::read_to_string(rt, file.as_str()).expect(rt, "a trace")
}

// How many lines of a text begin so.
fn count(text: &str, begin: &str) -> usize {
    text.lines().filter(|line| line.starts_with(begin)).count()
}

// Fails where a check of a trace doesn't find each of its commands, and all of them lawful.
fn is_lawful<R>(rt: &R, place: &str, name: &str)
where
    R: Abort + Files + command_faults::FileHost + live_store::Host + store_file::StoreHost,
    R: std::io::Input + std::io::Print + std::io::Eprint + std::time::Clock + AllocGlobal,
{
    let text = lines_of(rt, place, name);
    let (first, second) = (count(&text, "0 "), count(&text, "1 "));
    let told = format!(in rt.alloc(); "0 lawful {first}\n1 lawful {second}\n");
    let told = told.expect(rt, "memory");
    ends(
        rt,
        place,
        &["check", "tiny", name],
        ExitCode::SUCCESS,
        "",
        &told,
    );
}

#[test]
fn all_commands_of_a_run(rt: HostRuntime) {
    let place = place(&rt, process::id(rt.process()));
    let place = place.as_str();
    make(&rt, place, "%lives", SCRIPT);
    let words = ["run", "tiny", "%lives", "--commands", "%all"];
    ends(&rt, place, &words, ExitCode::SUCCESS, "", TOLD);
    // a write to a closed bank is its ACT and its WR
    let first = lines_of(&rt, place, "%all");
    same(&rt, (count(&first, "0 "), count(&first, "1 ")), (0, 2));
    is_lawful(&rt, place, "%all");
    // the read's, and the drain's, which ends with each rank asleep
    let second = lines_of(&rt, place, "%all.2");
    assert!(rt; second.contains(" RD ") && second.contains(" WR "));
    same(&rt, second.matches(" SRE 0\n").count(), 2);
    is_lawful(&rt, place, "%all.2");
    let third = named(&rt, place, "%all.3");
    same(&rt, fs::exists(&rt, third.as_str()).ok(), Some(false));
    for name in ["%lives", "%all", "%all.2"] {
        remove(&rt, place, name);
    }
}

#[test]
fn files_for_no_commands(rt: HostRuntime) {
    let place = place(&rt, process::id(rt.process()));
    let place = place.as_str();
    make(&rt, place, "%script", b"mark\n");
    let words = ["run", "tiny", "%script", "--commands", "%no"];
    ends(&rt, place, &words, ExitCode::SUCCESS, "", "mark 0\n");
    same(&rt, lines_of(&rt, place, "%no").as_str(), "");
    for (file, line) in [
        ("%script", "--commands names the script"),
        ("tiny", "--commands names the profile"),
        ("%kept", "--commands names the store"),
        (
            "-",
            "--commands names a file, and standard output has the answers",
        ),
    ] {
        let words = [
            "run",
            "tiny",
            "%script",
            "--out",
            "%kept",
            "--commands",
            file,
        ];
        ends(&rt, place, &words, ExitCode::from(2), line, "");
    }
    for name in ["%script", "%no"] {
        remove(&rt, place, name);
    }
}
