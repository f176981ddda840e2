// Verbs over a profile of eight channels, where the small profile answers otherwise, and completions by the words of the program.
// The expected texts are worked out by hand.
use crate::apart::eight_channels;
use crate::check::same;
use crate::program::{ends, make, named, outcome, place, remove};
use nv_profile::TINY;
use std::fs;
use std::process::{self, ExitCode};

// Armed, and then line 200 is written, which lies on eight channels alone.
const FAR: &[u8] = b"format\nsense 90000\narm\nwrite 200 a5\n";

const FAR_ON_EIGHT: &str = "line 4, dark behind 0 device calls
      18 generation 1, writes 0, PossibleLoss, acknowledged 0 of 1
line 4, mains lost behind it
      18 generation 2, writes 1, Complete, acknowledged 1 of 1
stops 36, acknowledged writes missing: with Complete 0, with PossibleLoss 1
";

const FAR_ON_TWO: &str = "line 4, dark behind 0 device calls
      18 generation 1, writes 0, PossibleLoss, acknowledged 0 of 0
line 4, mains lost behind it
      18 generation 2, writes 0, Complete, acknowledged 0 of 0
stops 36, acknowledged writes missing: with Complete 0, with PossibleLoss 0
";

#[test]
fn a_crash_over_the_profile_that_is_named(rt: HostRuntime) {
    let place = place(&rt, process::id(rt.process()));
    let place = place.as_str();
    make(&rt, place, "%wide", eight_channels(&rt).as_bytes());
    make(&rt, place, "%far", FAR);
    for (profile, text) in [("%wide", FAR_ON_EIGHT), ("tiny", FAR_ON_TWO)] {
        let words = ["crash", profile, "%far", "--line", "4"];
        ends(&rt, place, &words, ExitCode::SUCCESS, "", text);
    }
    remove(&rt, place, "%wide");
    remove(&rt, place, "%far");
}

#[test]
fn bad_lines_over_the_profile_that_is_named(rt: HostRuntime) {
    let place = place(&rt, process::id(rt.process()));
    let place = place.as_str();
    make(&rt, place, "%wide", eight_channels(&rt).as_bytes());
    make(&rt, place, "%work", b"format\nwork 5 1\n");
    let words = ["lint", "%wide", "%work"];
    ends(&rt, place, &words, ExitCode::SUCCESS, "", "");
    let words = ["lint", "tiny", "%work"];
    let bad = "script line 2: channel 5, and this profile has 2\n";
    ends(&rt, place, &words, ExitCode::FAILURE, "", bad);
    remove(&rt, place, "%wide");
    remove(&rt, place, "%work");
}

// The tables of the timing and of the geometry are those of commands alone: a trace is checked by them, and no module is made.
#[test]
fn no_module_of_two_tables(rt: HostRuntime) {
    let place = place(&rt, process::id(rt.process()));
    let place = place.as_str();
    let (two, _others) = TINY.split_once("[costs]").expect(&rt, "four tables");
    make(&rt, place, "%two", two.as_bytes());
    make(&rt, place, "%none", b"");
    for verb in ["run", "lint", "crash"] {
        let words = [verb, "%two", "%none", "--why"];
        let line = "profile\nno module: no tables costs and module";
        ends(&rt, place, &words, ExitCode::FAILURE, line, "");
    }
    let words = ["check", "%two", "%none", "--allow-empty"];
    let lawful = "0 lawful 0\n1 lawful 0\n";
    ends(&rt, place, &words, ExitCode::SUCCESS, "", lawful);
    remove(&rt, place, "%two");
    remove(&rt, place, "%none");
}

// A channel that eight channels alone have is worked.
const WORKED: &[u8] = b"format\nwrite 5 a5\nwork 5 1\n";

#[test]
fn a_script_drawn_over_the_profile_that_is_named(rt: HostRuntime) {
    let place = place(&rt, process::id(rt.process()));
    let place = place.as_str();
    make(&rt, place, "%wide", eight_channels(&rt).as_bytes());
    make(&rt, place, "%work", WORKED);
    let words = ["draw", "%wide", "%work", "--vcd", "%picture"];
    ends(&rt, place, &words, ExitCode::SUCCESS, "", "");
    let file = named(&rt, place, "%picture");
    let picture = fs::read_to_string(&rt, file.as_str()).expect(&rt, "a picture");
    same(&rt, picture.contains("$scope module channel_5 $end"), true);
    let words = ["draw", "tiny", "%work", "--vcd", "%none"];
    ends(&rt, place, &words, ExitCode::FAILURE, "script line 3", "");
    for name in ["%wide", "%work", "%picture"] {
        remove(&rt, place, name);
    }
}

// How the completions of each shell begin.
const SHELLS: [(&str, &[u8]); 3] = [
    ("bash", b"_nvctl() {\n    local word"),
    ("zsh", b"#compdef nvctl\n"),
    ("fish", b"complete -c nvctl"),
];

#[test]
fn completions_of_the_shell_that_is_named(rt: HostRuntime) {
    for (shell, head) in SHELLS {
        let mut written = Vec::new(rt.alloc());
        let (code, line) = outcome(&rt, "", &["completions", shell], &mut written);
        same(&rt, (code, line.as_str()), (ExitCode::SUCCESS, ""));
        same(&rt, (shell, written.starts_with(head)), (shell, true));
    }
}
