// Cases that differ in one channel, one line, one profile or one byte of a store. The expected texts are worked out by hand.
use crate::check::same;
use crate::program::{ends, make, named, outcome, place, remove};
use nv_profile::TINY;
use std::fs;
use std::process::{self, Abort, ExitCode};

/// How many channels the profile of these cases has.
const CHANNELS: u64 = 8;

/// The small profile with eight channels.
pub(crate) fn eight_channels<R: Abort + AllocGlobal>(rt: &R) -> String {
    let text = TINY.replace(rt.alloc(), "channels = 2", "channels = 8");
    text.expect(rt, "memory")
}

// A command on each channel, and behind them one more on this channel, a clock too early.
fn trace_with_fault<R: Abort + AllocGlobal>(rt: &R, channel: u64) -> String {
    let mut trace = String::new(rt.alloc());
    for each in 0..CHANNELS {
        let line = format!(in rt.alloc(); "{each} 0 ACT 0 0 0 1\n");
        let line = line.expect(rt, "memory");
        trace.push_str(&line).expect(rt, "memory");
    }
    let line = format!(in rt.alloc(); "{channel} 15 RD 0 0 0 3\n");
    let line = line.expect(rt, "memory");
    trace.push_str(&line).expect(rt, "memory");
    trace
}

// What is told of that trace: a line for each channel.
fn told_of_fault<R: Abort + AllocGlobal>(rt: &R, channel: u64) -> String {
    let mut told = String::new(rt.alloc());
    for each in 0..CHANNELS {
        let line = if each == channel {
            let at = each + 1;
            format!(in rt.alloc();
                "{each} fault 3, ACT to RD, same bank: at least tRCD = 16, here 15; line {at}: 0 ACT 0 0 0 1; line 9: 15 RD 0 0 0 3\n"
            )
        } else {
            format!(in rt.alloc(); "{each} lawful 1\n")
        };
        let line = line.expect(rt, "memory");
        told.push_str(&line).expect(rt, "memory");
    }
    told
}

#[test]
fn a_fault_on_each_of_eight_channels(rt: HostRuntime) {
    let place = place(&rt, process::id(rt.process()));
    let place = place.as_str();
    make(&rt, place, "%eight", eight_channels(&rt).as_bytes());
    for channel in 0..CHANNELS {
        let trace = trace_with_fault(&rt, channel);
        make(&rt, place, "%trace", trace.as_bytes());
        let told = told_of_fault(&rt, channel);
        let words = ["check", "%eight", "%trace"];
        ends(&rt, place, &words, ExitCode::FAILURE, "", &told);
        remove(&rt, place, "%trace");
    }
    remove(&rt, place, "%eight");
}

const ON_THREE_AND_SEVEN: &[u8] =
    b"3 0 ACT 0 0 0 1\n7 5 ACT 0 1 2 0\n3 16 RD 0 0 0 3\n7 21 RD 0 1 2 0\n";

// What stands in the picture of these commands, and how often. A RD stands there twice, with its data.
const DRAWN: [(&str, usize); 8] = [
    ("sACT ", 2),
    ("sRD ", 4),
    ("#0\n", 1),
    ("#5\n", 1),
    ("#16\n", 1),
    ("#21\n", 1),
    ("#32\n", 1),
    ("#37\n", 1),
];

// A trace of channels that the small profile lacks is checked and drawn over a profile that has them.
#[test]
fn channels_three_and_seven(rt: HostRuntime) {
    let place = place(&rt, process::id(rt.process()));
    let place = place.as_str();
    make(&rt, place, "%eight", eight_channels(&rt).as_bytes());
    make(&rt, place, "%trace", ON_THREE_AND_SEVEN);
    let lawful =
        "0 lawful 0\n1 lawful 0\n2 lawful 0\n3 lawful 2\n4 lawful 0\n5 lawful 0\n6 lawful 0\n7 lawful 2\n";
    let words = ["check", "%eight", "%trace"];
    ends(&rt, place, &words, ExitCode::SUCCESS, "", lawful);
    for words in [
        ["check", "tiny", "%trace"].as_slice(),
        &["draw", "tiny", "%trace", "--vcd", "%picture"],
    ] {
        ends(&rt, place, words, ExitCode::FAILURE, "trace line 1", "");
    }
    let words = ["draw", "%eight", "%trace", "--vcd", "%picture"];
    ends(&rt, place, &words, ExitCode::SUCCESS, "", "");
    let file = named(&rt, place, "%picture");
    let picture = fs::read_to_string(&rt, file.as_str()).expect(&rt, "a picture");
    for (part, count) in DRAWN {
        let found = picture.split(part).count().saturating_sub(1);
        same(&rt, (part, found), (part, count));
    }
    for name in ["%eight", "%trace", "%picture"] {
        remove(&rt, place, name);
    }
}

// One write is saved, and then two are acknowledged while armed.
const ARMED: &[u8] = b"format\nwrite 5 a5\nsave\nsense 9000\narm\nwrite 0 11\nwrite 1 22\n";

// In the dark the acknowledged writes since the save are missing, and behind a loss of mains none is.
const MISSING: [(&str, &str); 2] = [
    (
        "6",
        "line 6, dark behind 0 device calls
      18 generation 2, writes 1, PossibleLoss, acknowledged 1 of 2
line 6, mains lost behind it
      18 generation 3, writes 2, Complete, acknowledged 2 of 2
stops 36, acknowledged writes missing: with Complete 0, with PossibleLoss 1
",
    ),
    (
        "7",
        "line 7, dark behind 0 device calls
      18 generation 2, writes 1, PossibleLoss, acknowledged 1 of 3
line 7, mains lost behind it
      18 generation 3, writes 3, Complete, acknowledged 3 of 3
stops 36, acknowledged writes missing: with Complete 0, with PossibleLoss 2
",
    ),
];

// The stops of line 6 as objects.
const MISSING_OBJECTS: &str =
    r#"{"answer":"stop","calls":0,"line":6,"outcomes":[{"acknowledged":2,"answer":"outcome","held":1,"restore":{"answer":"restored","count":1,"generation":2,"verdict":"PossibleLoss"},"times":18}],"stop":"dark"}
{"answer":"stop","line":6,"outcomes":[{"acknowledged":2,"answer":"outcome","held":2,"restore":{"answer":"restored","count":2,"generation":3,"verdict":"Complete"},"times":18}],"stop":"loss"}
{"answer":"stops","missing_with_complete":0,"missing_with_possible_loss":1,"stops":36}
"#;

#[test]
fn missing_writes_as_objects(rt: HostRuntime) {
    let place = place(&rt, process::id(rt.process()));
    let place = place.as_str();
    make(&rt, place, "%armed", ARMED);
    let words = ["crash", "tiny", "%armed", "--line", "6", "--json"];
    ends(&rt, place, &words, ExitCode::SUCCESS, "", MISSING_OBJECTS);
    remove(&rt, place, "%armed");
}

#[test]
fn acknowledged_writes_that_are_missing(rt: HostRuntime) {
    let place = place(&rt, process::id(rt.process()));
    let place = place.as_str();
    make(&rt, place, "%armed", ARMED);
    for (line, text) in MISSING {
        let words = ["crash", "tiny", "%armed", "--line", line];
        ends(&rt, place, &words, ExitCode::SUCCESS, "", text);
    }
    remove(&rt, place, "%armed");
}

// The same script with its first armed write alone. Of eighteen picks two leave the arm byte clear behind the first of the two
// device calls that arm, and from the second call on it is set.
const ARMED_ONCE: &[u8] = b"format\nwrite 5 a5\nsave\nsense 9000\narm\nwrite 0 11\n";

const TABLE: &str = "lines 1 to 2
      72 generation 1, writes 0, Complete, acknowledged 0 of 0
line 3
     143 generation 1, writes 0, Complete, acknowledged 0 of 0
       1 generation 2, writes 1, Complete, acknowledged 0 of 0
      36 generation 2, writes 1, Complete, acknowledged 1 of 1
line 4
      36 generation 2, writes 1, Complete, acknowledged 1 of 1
line 5
      20 generation 2, writes 1, Complete, acknowledged 1 of 1
      34 generation 2, writes 1, PossibleLoss, acknowledged 1 of 1
      18 generation 3, writes 1, Complete, acknowledged 1 of 1
line 6
      18 generation 2, writes 1, PossibleLoss, acknowledged 1 of 2
      18 generation 3, writes 2, Complete, acknowledged 2 of 2
stops 396, acknowledged writes missing: with Complete 0, with PossibleLoss 1
";

#[test]
fn a_table_with_a_missing_write(rt: HostRuntime) {
    let place = place(&rt, process::id(rt.process()));
    let place = place.as_str();
    make(&rt, place, "%armed", ARMED_ONCE);
    let words = ["crash", "tiny", "%armed"];
    ends(&rt, place, &words, ExitCode::SUCCESS, "", TABLE);
    remove(&rt, place, "%armed");
}

// Three steps of a save, whose page isn't synced.
const UNSYNCED: &[u8] = b"format\nwrite 5 a5\nwork 1 8\nstep\nstep\nstep\n";

// What is left is what the device has, and not what a stop would leave: the line of the second slot, behind its header.
#[test]
fn unsynced_bytes_are_left(rt: HostRuntime) {
    let place = place(&rt, process::id(rt.process()));
    let place = place.as_str();
    make(&rt, place, "%steps", UNSYNCED);
    let words = ["run", "tiny", "%steps", "--out", "%out"];
    let mut told = Vec::new(rt.alloc());
    let (code, line) = outcome(&rt, place, &words, &mut told);
    same(&rt, (code, line.as_str()), (ExitCode::SUCCESS, ""));
    same(&rt, told.ends_with(b"step page 0\n"), true);
    let file = named(&rt, place, "%out");
    let bytes = fs::read(&rt, file.as_str()).expect(&rt, "a file");
    let at = 12_288 + 4_096 + 5 * 64;
    same(&rt, bytes.get(at..at + 64), Some([0xa5; 64].as_slice()));
    for name in ["%steps", "%out"] {
        remove(&rt, place, name);
    }
}
