// Words that the program refuses, with its faults and their reasons, and words that it explains.
use crate::check::same;
use crate::program::{ends, make, place, remove, shown};
use command_faults::ProgramFault;
use nv_script::ScriptFault;
use std::process::{self, Abort, ExitCode};

const NO_USAGE: [&[&str]; 21] = [
    &[],
    &["run"],
    &["run", "tiny"],
    &["run", "tiny", "-", "-"],
    &["run", "tiny", "-", "--out"],
    &["show"],
    &["show", "store", "store"],
    &["check", "tiny"],
    &["check", "tiny", "-", "-"],
    &["check", "tiny", "-", "--others"],
    &["crash", "tiny"],
    &["crash", "tiny", "-", "-"],
    &["crash", "tiny", "-", "--line", "first"],
    &["draw", "tiny", "-"],
    &["draw", "tiny", "--svg", "picture"],
    &["profile"],
    &["profile", "tiny", "tiny"],
    &["explain", "mark", "mark"],
    &["completions", "csh"],
    &["walk"],
    &["--walk"],
];

#[test]
fn words_that_are_no_usage(rt: HostRuntime) {
    for words in NO_USAGE {
        ends(&rt, "", words, ExitCode::from(2), "", "");
    }
    ends(&rt, "", &["--help"], ExitCode::SUCCESS, "", "");
    let version = "nvctl 0.1.0 (of which commit it was built isn't known)\n";
    ends(&rt, "", &["--version"], ExitCode::SUCCESS, "", version);
}

const FAULTS: [(&[&str], &str); 6] = [
    (&["run", "/no/profile", "/no/such/file"], "file /no/profile"),
    (&["run", "%bad", "/no/such/file"], "profile"),
    (&["run", "tiny", "/no/such/file"], "file /no/such/file"),
    (&["run", "tiny", "%bad"], "script line 2"),
    (
        &["profile", "%bad"],
        "profile: no TOML, line 1: key with no value, expected `=`",
    ),
    (&["profile", "/no/profile"], "file /no/profile"),
];

#[test]
fn faults_in_their_order(rt: HostRuntime) {
    let place = place(&rt, process::id(rt.process()));
    let place = place.as_str();
    make(&rt, place, "%bad", b"format\nwirte 0 11\n");
    for (words, fault) in FAULTS {
        ends(&rt, place, words, ExitCode::FAILURE, fault, "");
    }
    remove(&rt, place, "%bad");
}

// The same faults with their reasons.
const REASONS: [(&[&str], &str); 10] = [
    (
        &["--why", "run", "/no/profile", "/no/such/file"],
        "file /no/profile\nthere is no such file",
    ),
    (
        &["run", "--why", "Tiny", "/no/such/file"],
        "file Tiny\nthere is no such file; the word tiny?",
    ),
    (
        &["run", "%bad", "/no/such/file", "--why"],
        "profile\nno TOML, line 1: key with no value, expected `=`",
    ),
    (&["crash", "tiny", "/", "--why"], "file /\nit is a folder"),
    (
        &["crash", "tiny", "%empty", "--line", "9", "--why"],
        "no line 9\nlines are counted from 1, with those that are empty or comments, which aren't run",
    ),
    (
        &["run", "tiny", "%bad", "--why"],
        "script line 2\nunknown verb wirte; write?",
    ),
    (
        &["crash", "tiny", "%bad", "--why"],
        "script line 2\nunknown verb wirte; write?",
    ),
    (
        &["draw", "tiny", "%bad", "--svg", "/no/picture", "--why"],
        "script line 2\nunknown verb wirte; write?",
    ),
    (
        &["check", "tiny", "%bad", "--why"],
        "trace line 1\na channel, a clock and a name are wanted, with one space between two words",
    ),
    (
        &["check", "tiny", "%empty", "--why"],
        "empty trace\nno command stands in it; --allow-empty takes that for lawful",
    ),
];

#[test]
fn faults_with_their_reasons(rt: HostRuntime) {
    let place = place(&rt, process::id(rt.process()));
    let place = place.as_str();
    make(&rt, place, "%bad", b"format\nwirte 0 11\n");
    make(&rt, place, "%empty", b"# nothing\n\n");
    for (words, wanted) in REASONS {
        ends(&rt, place, words, ExitCode::FAILURE, wanted, "");
    }
    remove(&rt, place, "%bad");
    remove(&rt, place, "%empty");
}

const BAD_LINES: &str = "script line 2: unknown verb wirte; write?
script line 3: a byte is two hexadecimal digits: 1
script line 4: channel 5, and this profile has 2
script line 5: the line ends in a carriage return: convert it with sed 's/\\r$//'
script line 6: a tab: words are separated by spaces
script line 7: a number is decimal digits: no
script line 8: calls are counted from 1 on: 0
script line 9: a pick is old, new, or torn and a byte, as torna5: tornzz
script line 10: a map is lines or xor: maps
script line 11: a number fits 64 bits: 99999999999999999999
script line 12: the line is written read LINE
";

#[test]
fn bad_lines_of_a_script(rt: HostRuntime) {
    let place = place(&rt, process::id(rt.process()));
    let place = place.as_str();
    make(
        &rt,
        place,
        "%bad",
        b"format\nwirte 0 11\nwrite 0 1\nwork 5 1\nsave\r\nread 1\t2\nfuse no\nonefault 0\nrestore tornzz\nrestore old maps\nread 99999999999999999999\nread\n",
    );
    make(&rt, place, "%good", b"format\n\n# all is well\nmark\n");
    let words = ["lint", "tiny", "%bad"];
    ends(&rt, place, &words, ExitCode::FAILURE, "", BAD_LINES);
    let words = ["lint", "tiny", "%good"];
    ends(&rt, place, &words, ExitCode::SUCCESS, "", "");
    remove(&rt, place, "%bad");
    remove(&rt, place, "%good");
}

#[test]
fn words_that_name_no_store(rt: HostRuntime) {
    for (words, line) in [
        (
            ["run", "tiny", "script", "--out", "-"],
            "--out names a file, and standard output has the answers",
        ),
        (
            ["run", "profile", "script", "--out", "profile"],
            "--out names the profile",
        ),
        (
            ["run", "tiny", "script", "--out", "script"],
            "--out names the script",
        ),
    ] {
        ends(&rt, "", &words, ExitCode::from(2), line, "");
    }
}

// Fails where a fault hasn't this text and status.
fn is_told<R: Abort + AllocGlobal>(rt: &R, fault: &ProgramFault<'_>, text: &str, code: ExitCode) {
    let told = shown(rt, fault);
    same(rt, (told.as_str(), fault.exit_code()), (text, code));
}

#[test]
fn texts_of_faults(rt: HostRuntime) {
    for (fault, text) in [
        (ProgramFault::Profile, "profile"),
        (ProgramFault::File("x y"), "file x y"),
        (
            ProgramFault::Script(ScriptFault::Line { number: 7 }),
            "script line 7",
        ),
        (ProgramFault::Script(ScriptFault::Writer), "file -"),
        (ProgramFault::Script(ScriptFault::Memory), "memory"),
        (ProgramFault::Trace(7), "trace line 7"),
        (ProgramFault::EmptyTrace, "empty trace"),
        (ProgramFault::NoLine(7), "no line 7"),
        (ProgramFault::Memory, "memory"),
    ] {
        is_told(&rt, &fault, text, ExitCode::FAILURE);
    }
}

#[test]
fn texts_of_faults_in_words(rt: HostRuntime) {
    for (fault, text) in [
        (ProgramFault::Words, "a word is not UTF-8"),
        (
            ProgramFault::Out("names the script"),
            "--out names the script",
        ),
        (
            ProgramFault::Kept("names the script"),
            "--store names the script",
        ),
        (ProgramFault::Columns, "--columns"),
        (ProgramFault::NoTerm("wirte"), "no word wirte"),
    ] {
        is_told(&rt, &fault, text, ExitCode::from(2));
    }
}

// Words one after another, with the status, the line and the text.
const EXPLAINED: [(&[&str], u8, &str, &str); 4] = [
    (
        &["explain", "Closed"],
        0,
        "",
        "A refusal: mains were lost, or no life runs.
Nothing is accepted any more.
Begin a life with format or restore.
",
    ),
    (&["explain", "closed"], 2, "no word closed", ""),
    (
        &["explain", "closed", "--why"],
        2,
        "no word closed\nClosed?",
        "",
    ),
    (
        &["explain", "xyzzy", "--why"],
        2,
        "no word xyzzy\nnvctl explain names those that there are",
        "",
    ),
];

#[test]
fn explained_words(rt: HostRuntime) {
    for (words, code, line, text) in EXPLAINED {
        ends(&rt, "", words, ExitCode::from(code), line, text);
    }
}
