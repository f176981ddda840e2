// What a check with numbers tells.
use crate::program::{ends, make, place, remove};
use std::process::{self, ExitCode};

// Two reads of a row in one channel, and an open row in the other.
const COUNTED: &[u8] =
    b"0 0 ACT 0 0 0 1\n0 16 RD 0 0 0 3\n0 22 RD 0 0 0 0\n0 60 PRE 0 0 0\n1 5 ACT 0 1 2 0\n";

const LINES: &str = "0 lawful 4
1 lawful 1
0 channel ACT 1 RD 2 WR 0 PRE 1 hits 1 misses 1 conflicts 0 bus 13.11% bytes 2098 PREA 0 REF 0 SRE 0
0 bank 0 0 0 ACT 1 RD 2 WR 0 PRE 1 hits 1 misses 1 conflicts 0 bus 13.11% bytes 2098
0 rank 0 REF 0 longest 0 mean 0 least 84180
1 channel ACT 1 RD 0 WR 0 PRE 0 hits 0 misses 0 conflicts 0 bus 0.00% bytes 0 PREA 0 REF 0 SRE 0
1 bank 0 1 2 ACT 1 RD 0 WR 0 PRE 0 hits 0 misses 0 conflicts 0 bus 0.00% bytes 0
1 rank 0 REF 0 longest 0 mean 0 least 84235
";

const OBJECTS: &str = r#"{"answer":"lawful","channel":0,"commands":4}
{"answer":"lawful","channel":1,"commands":1}
{"answer":"channel","banks":{"activates":1,"conflicts":0,"hits":1,"misses":1,"precharges":1,"reads":2,"writes":0},"channel":0,"last":60}
{"answer":"ranks","channel":0,"precharges":0,"refreshes":0,"sleeps":0}
{"answer":"rank","channel":0,"least":84180,"longest":0,"mean":0,"rank":0,"refreshes":0,"window":null}
{"answer":"bank","bank":0,"channel":0,"group":0,"numbers":{"activates":1,"conflicts":0,"hits":1,"misses":1,"precharges":1,"reads":2,"writes":0},"rank":0}
{"answer":"channel","banks":{"activates":1,"conflicts":0,"hits":0,"misses":0,"precharges":0,"reads":0,"writes":0},"channel":1,"last":5}
{"answer":"ranks","channel":1,"precharges":0,"refreshes":0,"sleeps":0}
{"answer":"rank","channel":1,"least":84235,"longest":0,"mean":0,"rank":0,"refreshes":0,"window":null}
{"answer":"bank","bank":2,"channel":1,"group":1,"numbers":{"activates":1,"conflicts":0,"hits":0,"misses":0,"precharges":0,"reads":0,"writes":0},"rank":0}
"#;

// A channel with a fault has no numbers.
const EARLY: &str =
    "0 fault 3, ACT to RD, same bank: at least tRCD = 16, here 15; line 1: 0 ACT 0 0 0 1; line 2: 15 RD 0 0 0 3
1 lawful 0
1 channel ACT 0 RD 0 WR 0 PRE 0 hits 0 misses 0 conflicts 0 bus 0.00% bytes 0 PREA 0 REF 0 SRE 0
1 rank 0 REF 0 longest 0 mean 0
";

const ALL_EARLY: &str =
    "0 fault 3, ACT to RD, same bank: at least tRCD = 16, here 15; line 1: 0 ACT 0 0 0 1; line 2: 15 RD 0 0 0 3; the first of 1
1 lawful 0
1 channel ACT 0 RD 0 WR 0 PRE 0 hits 0 misses 0 conflicts 0 bus 0.00% bytes 0 PREA 0 REF 0 SRE 0
1 rank 0 REF 0 longest 0 mean 0
";

// Words one after another, with the status, the line and the text.
const CHECKS: [(&[&str], ExitCode, &str, &str); 6] = [
    (
        &["check", "tiny", "%counted", "--stats"],
        ExitCode::SUCCESS,
        "",
        LINES,
    ),
    (
        &["check", "tiny", "%counted", "--stats", "--json"],
        ExitCode::SUCCESS,
        "",
        OBJECTS,
    ),
    (
        &["check", "tiny", "%early", "--stats"],
        ExitCode::FAILURE,
        "",
        EARLY,
    ),
    (
        &["check", "tiny", "%early", "--stats", "--all"],
        ExitCode::FAILURE,
        "",
        ALL_EARLY,
    ),
    (
        &["check", "tiny", "%empty", "--stats"],
        ExitCode::FAILURE,
        "empty trace",
        "",
    ),
    (
        &["check", "tiny", "%cut", "--stats"],
        ExitCode::FAILURE,
        "trace line 2",
        "",
    ),
];

#[test]
fn numbers_of_checked_traces(rt: HostRuntime) {
    let place = place(&rt, process::id(rt.process()));
    let place = place.as_str();
    make(&rt, place, "%counted", COUNTED);
    make(&rt, place, "%early", b"0 0 ACT 0 0 0 1\n0 15 RD 0 0 0 3\n");
    make(&rt, place, "%empty", b"");
    make(&rt, place, "%cut", b"0 0 ACT 0 0 0 1\n0 15 RD 0 0");
    for (words, code, line, text) in CHECKS {
        ends(&rt, place, words, code, line, text);
    }
    for name in ["%counted", "%early", "%empty", "%cut"] {
        remove(&rt, place, name);
    }
}
