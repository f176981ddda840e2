// Traces in the forms of others, checked and drawn.
use crate::program::{ends, make, place, remove};
use std::process::{self, ExitCode};

const NAMED: &str = "clock,command,rank,group,bank,row,column";

// Words one after another, with the status, the line and the text.
const CHECKS: [(&[&str], u8, &str, &str); 10] = [
    (
        &["check", "tiny", "%ramulator2", "--form", "ramulator2"],
        0,
        "",
        "0 lawful 2\n1 lawful 0\n",
    ),
    (&["check", "tiny", "%ramulator2"], 1, "trace line 1", ""),
    (
        &["check", "tiny", "%ramulator2", "--form", "plain", "--why"],
        1,
        "trace line 1\na plain line is CLOCK COMMAND CHANNEL RANK GROUP BANK ROW COLUMN, with spaces between two",
        "",
    ),
    (
        &["check", "tiny", "%dramsim3", "--form", "dramsim3"],
        1,
        "",
        "0 fault 3, ACT to RD, same bank: at least tRCD = 16, here 15; line 1: 0 ACT 0 0 0 1; line 2: 15 RD 0 0 0 3\n1 lawful 0\n",
    ),
    (
        &["check", "tiny", "%named", "--columns", NAMED],
        0,
        "",
        "0 lawful 2\n1 lawful 0\n",
    ),
    (
        &["check", "tiny", "%named", "--columns", "clock,kind"],
        2,
        "--columns",
        "",
    ),
    (
        &[
            "check",
            "tiny",
            "%named",
            "--columns",
            NAMED,
            "--form",
            "plain",
        ],
        2,
        "--columns",
        "",
    ),
    (
        &[
            "draw",
            "tiny",
            "%ramulator2",
            "--form",
            "ramulator2",
            "--svg",
            "%picture",
        ],
        0,
        "",
        "",
    ),
    (
        &[
            "draw",
            "tiny",
            "%ramulator2",
            "--form",
            "dramsim3",
            "--svg",
            "%picture",
        ],
        1,
        "trace line 1",
        "",
    ),
    (
        &[
            "draw",
            "tiny",
            "%ramulator2",
            "--columns",
            "clocks",
            "--svg",
            "%picture",
        ],
        2,
        "--columns",
        "",
    ),
];

#[test]
fn traces_in_forms_of_others(rt: HostRuntime) {
    let place = place(&rt, process::id(rt.process()));
    let place = place.as_str();
    make(
        &rt,
        place,
        "%ramulator2",
        b"0, ACT, 0, 0, 0, 0, 1, 3\n16, RD, 0, 0, 0, 0, 1, 3\n",
    );
    make(
        &rt,
        place,
        "%dramsim3",
        b"0                  activate               0   0   0   0      0x1      0x3
15                 read                   0   0   0   0      0x1      0x3\n",
    );
    make(&rt, place, "%named", b"0 act 0 0 0 1 -\n16 rd 0 0 0 1 3\n");
    for (words, status, line, text) in CHECKS {
        ends(&rt, place, words, ExitCode::from(status), line, text);
    }
    for name in ["%ramulator2", "%dramsim3", "%named", "%picture"] {
        remove(&rt, place, name);
    }
}
