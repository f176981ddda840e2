// What the lives of a run come to, and how long their requests waited.
use crate::check::same;
use crate::program::{ends, make, outcome, place, remove};
use request_waits::Waits;
use std::io::{Eprint, Input, Print};
use std::process::{self, Abort, ExitCode};
use std::rt::Files;

// Line 5 lies on channel 1. In the first life the save issues all commands. The second one's first reads work their channels, its last
// read is answered by the write that waits, and the loss of mains drains that behind a PREA, at tRAS + tRP + tRCD = 39 + 16 + 16.
const SCRIPT: &[u8] =
    b"format\nwrite 5 a5\nwrite 0 11\nwrite 0 12\nsave\nrestore\nread 5\nread 0\nsense 9000\narm\nwrite 0 13\nread 0\nlose\n";

const ANSWERS: &str = "formatted
accepted 0 mark 0
accepted 1 mark 0
accepted 2 mark 0
saved 2 3
restored 2 3 Complete
line 5 = a5
line 0 = 12
level 9000 disarmed
armed
accepted 3 mark 4
line 0 = 13
lost saved 3 4
";

const FIRST: &str =
    "0 channel ACT 1 RD 0 WR 2 PRE 0 hits 1 misses 1 conflicts 0 bus 34.78% bytes 5565 PREA 0 REF 0 SRE 0
0 bank 0 0 0 ACT 1 RD 0 WR 2 PRE 0 hits 1 misses 1 conflicts 0 bus 34.78% bytes 5565
0 rank 0 REF 0 longest 0 mean 0 least 84218
1 channel ACT 1 RD 0 WR 1 PRE 0 hits 0 misses 1 conflicts 0 bus 23.52% bytes 3764 PREA 0 REF 0 SRE 0
1 bank 0 0 0 ACT 1 RD 0 WR 1 PRE 0 hits 0 misses 1 conflicts 0 bus 23.52% bytes 3764
1 rank 0 REF 0 longest 0 mean 0 least 84224
";

const SECOND: &str =
    "0 channel ACT 2 RD 1 WR 1 PRE 1 hits 0 misses 2 conflicts 0 bus 6.55% bytes 1049 PREA 1 REF 0 SRE 1
0 bank 0 0 0 ACT 2 RD 1 WR 1 PRE 1 hits 0 misses 2 conflicts 0 bus 6.55% bytes 1049
0 rank 0 REF 0 longest 0 mean 0 least 84119
1 channel ACT 1 RD 1 WR 0 PRE 0 hits 0 misses 1 conflicts 0 bus 7.14% bytes 1142 PREA 1 REF 0 SRE 1
1 bank 0 0 0 ACT 1 RD 1 WR 0 PRE 0 hits 0 misses 1 conflicts 0 bus 7.14% bytes 1142
1 rank 0 REF 0 longest 0 mean 0 least 84185
";

const FIRST_WAITS: &str = "reads 0 waiting 0
writes 3 waiting 0 least 16 median 16 p99 22 most 22
";

const SECOND_WAITS: &str = "reads 3 waiting 0 least 0 median 16 p99 16 most 16
writes 1 waiting 0 least 55 median 55 p99 55 most 55
";

// Behind the answers of a script whose write waits at its end.
const WAITING: &str = r#"{"answer":"formatted"}
{"answer":"accepted","mark":0,"number":0}
{"answer":"line","bytes":"07070707070707070707070707070707070707070707070707070707070707070707070707070707070707070707070707070707070707070707070707070707","line":3}
{"answer":"life","life":1}
{"answer":"channel","banks":{"activates":0,"conflicts":0,"hits":0,"misses":0,"precharges":0,"reads":0,"writes":0},"channel":0,"last":0}
{"answer":"ranks","channel":0,"precharges":0,"refreshes":0,"sleeps":0}
{"answer":"rank","channel":0,"least":null,"longest":0,"mean":0,"rank":0,"refreshes":0,"window":null}
{"answer":"channel","banks":{"activates":0,"conflicts":0,"hits":0,"misses":0,"precharges":0,"reads":0,"writes":0},"channel":1,"last":0}
{"answer":"ranks","channel":1,"precharges":0,"refreshes":0,"sleeps":0}
{"answer":"rank","channel":1,"least":null,"longest":0,"mean":0,"rank":0,"refreshes":0,"window":null}
{"answer":"waits","count":1,"kind":"reads","least":0,"median":0,"most":0,"p99":0,"waiting":0}
{"answer":"waits","count":0,"kind":"writes","waiting":1}
"#;

// A list's numbers.
fn numbers<R: Abort + AllocGlobal>(rt: &R, waits: &[u64]) -> Option<(u64, u64, u64, u64)> {
    let list = waits.to_vec(rt.alloc()).expect(rt, "memory");
    let told = Waits::of(list).expect(rt, "memory")?;
    same(rt, told.count, waits.len());
    Some((told.least, told.median, told.p99, told.most))
}

// Fails where the words don't end well with this text.
fn tells<R>(rt: &R, place: &str, words: &[&str], text: &str)
where
    R: Abort + Files + command_faults::FileHost + live_store::Host + store_file::StoreHost + Input,
    R: Print + Eprint + std::time::Clock + AllocGlobal,
{
    ends(rt, place, words, ExitCode::SUCCESS, "", text);
}

#[test]
fn numbers_of_waits(rt: HostRuntime) {
    same(&rt, numbers(&rt, &[]), None);
    same(&rt, numbers(&rt, &[7]), Some((7, 7, 7, 7)));
    // of two the median is the lower one, and no mean of them
    same(&rt, numbers(&rt, &[9, 1]), Some((1, 1, 9, 9)));
    same(
        &rt,
        numbers(&rt, &[30, 10, 10, 50, 20]),
        Some((10, 20, 50, 50)),
    );
    let mut list = Vec::new(rt.alloc());
    for wait in 0..100 {
        list.push(199 - wait).expect(&rt, "memory");
    }
    same(&rt, numbers(&rt, &list), Some((100, 149, 198, 199)));
    list.push(1_000).expect(&rt, "memory");
    same(&rt, numbers(&rt, &list), Some((100, 150, 199, 1_000)));
}

#[test]
fn statistics_of_a_run(rt: HostRuntime) {
    let place = place(&rt, process::id(rt.process()));
    let place = place.as_str();
    make(&rt, place, "%lives", SCRIPT);
    let told = format!(in rt.alloc();
        "{ANSWERS}life 1\n{FIRST}{FIRST_WAITS}life 2\n{SECOND}{SECOND_WAITS}"
    );
    let told = told.expect(&rt, "memory");
    let words = ["run", "tiny", "%lives", "--stats", "--commands", "%all"];
    tells(&rt, place, &words, &told);
    // the same numbers as those of a trace that has the commands of a life
    let first = format!(in rt.alloc(); "0 lawful 3\n1 lawful 2\n{FIRST}");
    let first = first.expect(&rt, "memory");
    tells(&rt, place, &["check", "tiny", "%all", "--stats"], &first);
    let second = format!(in rt.alloc(); "0 lawful 7\n1 lawful 4\n{SECOND}");
    let second = second.expect(&rt, "memory");
    tells(&rt, place, &["check", "tiny", "%all.2", "--stats"], &second);
    // a store is left as without it
    let words = ["run", "tiny", "%lives", "--store", "%kept", "--stats"];
    tells(&rt, place, &words, &told);
    tells(&rt, place, &["run", "tiny", "%lives"], ANSWERS);
    for name in ["%lives", "%all", "%all.2", "%kept"] {
        remove(&rt, place, name);
    }
}

#[test]
fn requests_that_wait(rt: HostRuntime) {
    let place = place(&rt, process::id(rt.process()));
    let place = place.as_str();
    make(&rt, place, "%none", b"mark\n");
    tells(&rt, place, &["run", "tiny", "%none", "--stats"], "mark 0\n");
    make(&rt, place, "%waits", b"format\nwrite 3 07\nread 3\n");
    let words = ["run", "tiny", "%waits", "--stats", "--json"];
    tells(&rt, place, &words, WAITING);
    for name in ["%none", "%waits"] {
        remove(&rt, place, name);
    }
}

// Over the map of the life that it is asked of each write is found among the commands, whatever the profile's map.
#[test]
fn waits_over_either_map(rt: HostRuntime) {
    let place = place(&rt, process::id(rt.process()));
    let place = place.as_str();
    for map in ["lines", "xor"] {
        let script = format!(in rt.alloc();
            "format\nrestore old {map}\nwrite 64 01\nwrite 127 02\nwrite 33 03\nwrite 64 04\nsave\n"
        );
        let script = script.expect(&rt, "memory");
        make(&rt, place, "%maps", script.as_bytes());
        let mut text = Vec::new(rt.alloc());
        let (code, _) = outcome(&rt, place, &["run", "tiny", "%maps", "--stats"], &mut text);
        let text = String::from_utf8(text).expect(&rt, "text");
        let found = text.contains("reads 0 waiting 0\nwrites 4 waiting 0 least ");
        same(&rt, (code, found), (ExitCode::SUCCESS, true));
    }
    remove(&rt, place, "%maps");
}
