// What run, show, check and crash write, and the exit status.
use crate::check::same;
use crate::program::{ends, make, outcome, place, remove};
use std::process::{self, ExitCode};

#[test]
fn a_script_that_runs(rt: HostRuntime) {
    let place = place(&rt, process::id(rt.process()));
    let place = place.as_str();
    make(&rt, place, "%good", b"format\nrestore\n");
    let text = "formatted\nrestored 1 0 Complete\n";
    ends(
        &rt,
        place,
        &["run", "tiny", "%good"],
        ExitCode::SUCCESS,
        "",
        text,
    );
    remove(&rt, place, "%good");
}

// A page of tiny2 costs 100 more, and a memory has two.
#[test]
fn a_script_on_tiny2(rt: HostRuntime) {
    let place = place(&rt, process::id(rt.process()));
    let place = place.as_str();
    let script = b"format\nsense 3539\narm\nsense 3540\narm\n";
    make(&rt, place, "%script", script);
    let text = "formatted
level 3539 disarmed
refused arm 1 NeedEnergy 3540 3539
level 3540 disarmed
armed
";
    let words = ["run", "tiny2", "%script"];
    ends(&rt, place, &words, ExitCode::SUCCESS, "", text);
    remove(&rt, place, "%script");
}

const SAVING: &str = "formatted\naccepted 0 mark 0\nsaved 2 1\naccepted 1 mark 1\n";

// Words one after another, with the status, the line and the text.
const STORES: [(&[&str], ExitCode, &str, &str); 4] = [
    (
        &["run", "tiny", "%saving", "--out", "%store"],
        ExitCode::SUCCESS,
        "",
        SAVING,
    ),
    (
        &["show", "%store"],
        ExitCode::SUCCESS,
        "",
        "restored 2 1 Complete\nline 5 = a5\n",
    ),
    (
        &["show", "%saving"],
        ExitCode::FAILURE,
        "",
        "refused restore 3 WrongSize\n",
    ),
    (
        &["run", "tiny", "%saving", "--out", "/no/store"],
        ExitCode::FAILURE,
        "file /no/store",
        SAVING,
    ),
];

#[test]
fn a_store_that_is_shown(rt: HostRuntime) {
    let place = place(&rt, process::id(rt.process()));
    let place = place.as_str();
    make(
        &rt,
        place,
        "%saving",
        b"format\nwrite 5 a5\nsave\nwrite 6 11\n",
    );
    make(&rt, place, "%store", b"");
    for (words, code, line, text) in STORES {
        ends(&rt, place, words, code, line, text);
    }
    remove(&rt, place, "%saving");
    remove(&rt, place, "%store");
}

const EARLY: &str =
    "0 fault 3, ACT to RD, same bank: at least tRCD = 16, here 15; line 1: 0 ACT 0 0 0 1; line 2: 15 RD 0 0 0 3\n1 lawful 0\n";

const ALL_EARLY: &str =
    "0 fault 3, ACT to RD, same bank: at least tRCD = 16, here 15; line 1: 0 ACT 0 0 0 1; line 2: 15 RD 0 0 0 3; the first of 1\n1 lawful 0\n";

// Words one after another, with the status, the line and the text.
const CHECKS: [(&[&str], ExitCode, &str, &str); 10] = [
    (
        &["check", "tiny", "%lawful"],
        ExitCode::SUCCESS,
        "",
        "0 lawful 2\n1 lawful 1\n",
    ),
    (&["check", "tiny", "%early"], ExitCode::FAILURE, "", EARLY),
    (
        &["check", "tiny", "%early", "--all"],
        ExitCode::FAILURE,
        "",
        ALL_EARLY,
    ),
    (
        &["check", "tiny", "%lawful", "--all"],
        ExitCode::SUCCESS,
        "",
        "0 lawful 2\n1 lawful 1\n",
    ),
    (
        &["check", "tiny", "%answers"],
        ExitCode::FAILURE,
        "trace line 1",
        "",
    ),
    (
        &["check", "tiny", "%answers", "--answers"],
        ExitCode::SUCCESS,
        "",
        "0 lawful 2\n1 lawful 0\n",
    ),
    (
        &["check", "tiny", "%empty"],
        ExitCode::FAILURE,
        "empty trace",
        "",
    ),
    (
        &["check", "tiny", "%empty", "--allow-empty"],
        ExitCode::SUCCESS,
        "",
        "0 lawful 0\n1 lawful 0\n",
    ),
    (
        &["check", "tiny", "/no/trace"],
        ExitCode::FAILURE,
        "file /no/trace",
        "",
    ),
    (
        &["check", "/no/profile", "/no/trace"],
        ExitCode::FAILURE,
        "file /no/profile",
        "",
    ),
];

#[test]
fn traces_that_are_checked(rt: HostRuntime) {
    let place = place(&rt, process::id(rt.process()));
    let place = place.as_str();
    make(
        &rt,
        place,
        "%lawful",
        b"# a read, and an open row\r\n0 0 ACT 0 0 0 1\r\n1 5 ACT 0 1 2 0\r\n0 16 RD 0 0 0 3",
    );
    make(&rt, place, "%empty", b"");
    make(&rt, place, "%early", b"0 0 ACT 0 0 0 1\n0 15 RD 0 0 0 3\n");
    make(
        &rt,
        place,
        "%answers",
        b"formatted\naccepted 0 mark 0\n0 0 ACT 0 0 0 0\n0 16 WR 0 0 0 0\n0 idle\n",
    );
    for (words, code, line, text) in CHECKS {
        ends(&rt, place, words, code, line, text);
    }
    remove(&rt, place, "%lawful");
    remove(&rt, place, "%empty");
    remove(&rt, place, "%early");
    remove(&rt, place, "%answers");
}

// Two rows of a bank are opened and one is closed, and each of three writes has its WR.
const WORKS: &[u8] = b"format\nwrite 0 11\nwrite 64 22\nwrite 2 33\nwork 0 7\n";

#[test]
fn works_are_lawful(rt: HostRuntime) {
    let place = place(&rt, process::id(rt.process()));
    let place = place.as_str();
    make(&rt, place, "%works", WORKS);
    let mut told = Vec::new(rt.alloc());
    let (code, line) = outcome(&rt, place, &["run", "tiny", "%works"], &mut told);
    same(&rt, (code, line.as_str()), (ExitCode::SUCCESS, ""));
    make(&rt, place, "%told", &told);
    ends(
        &rt,
        place,
        &["check", "tiny", "%told", "--answers"],
        ExitCode::SUCCESS,
        "",
        "0 lawful 6\n1 lawful 0\n",
    );
    remove(&rt, place, "%works");
    remove(&rt, place, "%told");
}

// A save makes eight device calls. The last but one opens the slot by its gate, which is A5, and the last one syncs that.
const SAVED: &str = "lines 2 to 4
      72 generation 1, writes 0, Complete, acknowledged 0 of 0
line 5
     143 generation 1, writes 0, Complete, acknowledged 0 of 0
       1 generation 2, writes 1, Complete, acknowledged 0 of 0
      36 generation 2, writes 1, Complete, acknowledged 1 of 1
stops 252, acknowledged writes missing: with Complete 0, with PossibleLoss 0
";

// Words one after another, with the status, the line and the text.
const CRASHES: [(&[&str], ExitCode, &str, &str); 6] = [
    (&["crash", "tiny", "%saving"], ExitCode::SUCCESS, "", SAVED),
    (
        &["crash", "tiny", "%saving", "--line", "2"],
        ExitCode::SUCCESS,
        "",
        "line 2, dark behind 0 device calls
      18 generation 1, writes 0, Complete, acknowledged 0 of 0
line 2, mains lost behind it
      18 generation 1, writes 0, Complete, acknowledged 0 of 0
stops 36, acknowledged writes missing: with Complete 0, with PossibleLoss 0
",
    ),
    (
        &["crash", "tiny", "%saving", "--line", "3"],
        ExitCode::FAILURE,
        "no line 3",
        "",
    ),
    (
        &["crash", "tiny", "%bad"],
        ExitCode::FAILURE,
        "script line 1",
        "",
    ),
    (
        &["crash", "tiny", "/no/script"],
        ExitCode::FAILURE,
        "file /no/script",
        "",
    ),
    (
        &["crash", "/no/profile", "/no/script"],
        ExitCode::FAILURE,
        "file /no/profile",
        "",
    ),
];

#[test]
fn what_a_crash_leaves(rt: HostRuntime) {
    let place = place(&rt, process::id(rt.process()));
    let place = place.as_str();
    make(
        &rt,
        place,
        "%saving",
        b"# a save\nformat\n\nwrite 5 a5\nsave\n",
    );
    make(&rt, place, "%bad", b"wirte 0 11\n");
    for (words, code, line, text) in CRASHES {
        ends(&rt, place, words, code, line, text);
    }
    remove(&rt, place, "%saving");
    remove(&rt, place, "%bad");
}

#[test]
fn a_writer_that_takes_no_more(rt: HostRuntime) {
    let place = place(&rt, process::id(rt.process()));
    let place = place.as_str();
    make(&rt, place, "%full", b"format\nformat\n");
    let mut room = [0; 12];
    let mut writer = room.as_mut_slice();
    let (code, line) = outcome(&rt, place, &["run", "tiny", "%full"], &mut writer);
    same(&rt, (code, line.as_str()), (ExitCode::FAILURE, "file -"));
    remove(&rt, place, "%full");
}
