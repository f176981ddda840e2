// Schedules that the program draws, and those that it refuses.
use crate::check::same;
use crate::program::{ends, make, named, place, remove};
use std::fs;
use std::process::{self, Abort, ExitCode};
use std::rt::Files;

/// A schedule, and the parts that stand in its pictures with how often each does.
#[derive(Clone, Copy)]
struct Good {
    name: &'static str,
    bytes: &'static [u8],
    svg: &'static [(&'static str, usize)],
    vcd: &'static [(&'static str, usize)],
}

// A row that no command closes is left open. A command breaks each rule that a frame tells, and in a VCD a RD and a WR stand twice,
// with their data. A loss of mains that saves nothing has no command, and behind it a life begins.
const GOOD: [Good; 5] = [
    Good {
        name: "%lines",
        bytes: b"# a read\r\n\r\n0 0 ACT 0 0 0 1\r\n0 16 RD 0 0 0 3\r\n1 5 ACT 0 1 2 0\r\n",
        svg: &[
            ("<line class=\"mark\"", 3),
            ("<rect class=\"row\"", 0),
            ("<rect class=\"open\"", 2),
            (">row 1</text>", 1),
            (">row 0</text>", 1),
            ("<rect class=\"read\"", 1),
            ("<rect class=\"write\"", 0),
            ("<rect class=\"flaw\"", 0),
        ],
        vcd: &[("sACT ", 2), ("sRD ", 2), ("sWR ", 0)],
    },
    Good {
        name: "%table",
        bytes: b"clock,command,channel,rank,bankgroup,bank,row,column\n0,ACTIVATE,0,0,0,0,1,\n",
        svg: &[
            ("<line class=\"mark\"", 1),
            ("<rect class=\"open\"", 1),
            (">row 1</text>", 1),
            ("<rect class=\"read\"", 0),
        ],
        vcd: &[("sACT ", 1), ("sRD ", 0)],
    },
    Good {
        name: "%unlawful",
        bytes: b"0 0 ACT 0 0 0 1\n0 1 ACT 0 0 0 1\n0 2 PREA 0\n0 3 RD 0 0 0 3",
        svg: &[
            ("<line class=\"mark\"", 4),
            ("<rect class=\"row\"", 2),
            ("<rect class=\"open\"", 0),
            ("<rect class=\"read\"", 1),
            ("<rect class=\"flaw\"", 6),
            (">breaks rule 2<", 2),
            (">breaks rule 3<", 1),
            (">breaks rule 4<", 1),
            (">breaks rule 6<", 1),
            (">breaks rule 9<", 1),
        ],
        vcd: &[("sACT ", 2), ("sPREA ", 1), ("sRD ", 2)],
    },
    Good {
        name: "%script",
        bytes: b"format\nwrite 0 11\nwork 0 3\nlose\nrestore\nwork 1 1\n",
        svg: &[
            ("<line class=\"mark\"", 2),
            (">ACT</text>", 1),
            ("<rect class=\"open\"", 1),
            ("<rect class=\"write\"", 1),
            ("<rect class=\"read\"", 0),
            ("<line class=\"life\"", 1),
            (">formatted</text>", 1),
            (">disarmed</text>", 2),
        ],
        vcd: &[("sACT ", 1), ("sWR ", 2), ("sSRE ", 0)],
    },
    Good {
        name: "%nothing",
        bytes: b"",
        svg: &[("<line class=\"mark\"", 0), ("<line class=\"lane\"", 0)],
        vcd: &[("sACT ", 0)],
    },
];

// Draws a schedule in a form. It fails where the picture doesn't begin so, or where a part stands in it less or more often.
fn is_drawn<R>(rt: &R, place: &str, words: &[&str; 5], first: &str, parts: &[(&str, usize)])
where
    R: Abort + Files + command_faults::FileHost + live_store::Host + store_file::StoreHost,
    R: std::io::Input + std::io::Print + std::io::Eprint + std::time::Clock + AllocGlobal,
{
    ends(rt, place, words, ExitCode::SUCCESS, "", "");
    let file = named(rt, place, "%picture");
    let picture = fs::read_to_string(rt, file.as_str()).expect(rt, "a picture");
    assert!(*rt; picture.starts_with(first), "{}", words[2]);
    for (part, count) in parts {
        let found = picture.split(*part).count().saturating_sub(1);
        same(rt, (words[2], *part, found), (words[2], *part, *count));
    }
    remove(rt, place, "%picture");
}

// Draws a schedule in both forms.
fn are_drawn<R>(rt: &R, place: &str, good: &Good)
where
    R: Abort + Files + command_faults::FileHost + live_store::Host + store_file::StoreHost,
    R: std::io::Input + std::io::Print + std::io::Eprint + std::time::Clock + AllocGlobal,
{
    make(rt, place, good.name, good.bytes);
    let words = ["draw", "tiny", good.name, "--svg", "%picture"];
    is_drawn(rt, place, &words, "<svg", good.svg);
    let words = ["draw", "tiny", good.name, "--vcd", "%picture"];
    is_drawn(rt, place, &words, "$comment", good.vcd);
    remove(rt, place, good.name);
}

#[test]
fn schedules_that_are_drawn(rt: HostRuntime) {
    let place = place(&rt, process::id(rt.process()));
    for good in GOOD {
        are_drawn(&rt, place.as_str(), &good);
    }
}

// What a script's last line answers: a loss that saves, whose drain ends with each rank asleep. A WR stands there twice, with its data.
const LOST: Good = Good {
    name: "%lost",
    bytes: b"format\nsense 9000\narm\nwrite 0 11\nlose\n",
    svg: &[
        (">level 9000 disarmed</text>", 1),
        (">armed</text>", 1),
        (">lost saved 2 1</text>", 1),
        (">mains lost</text>", 1),
        (">WR</text>", 2),
        (">SRE</text>", 2),
    ],
    vcd: &[("sWR ", 2), ("sSRE ", 2)],
};

#[test]
fn a_loss_that_is_drawn(rt: HostRuntime) {
    let place = place(&rt, process::id(rt.process()));
    are_drawn(&rt, place.as_str(), &LOST);
}

// The same of a fault of the device.
const FAULT: Good = Good {
    name: "%faults",
    bytes: b"format\nfuse 0\nsave\n",
    svg: &[
        (">formatted</text>", 1),
        (">fault save</text>", 1),
        ("<line class=\"life\"", 0),
    ],
    vcd: &[("sACT ", 0)],
};

#[test]
fn a_fault_that_is_drawn(rt: HostRuntime) {
    let place = place(&rt, process::id(rt.process()));
    are_drawn(&rt, place.as_str(), &FAULT);
}

const BAD: [(&[u8], &str); 14] = [
    (b"0 5 REF 0\n0 5 REF 0\n", "trace line 2"),
    (b"0 5 REF 0\n1 0 REF 0\n0 4 REF 0\n", "trace line 3"),
    (b"0 9223372036854775808 REF 0\n", "trace line 1"),
    (b"0 18446744073709551616 REF 0\n", "trace line 1"),
    (b"2 5 REF 0\n", "trace line 1"),
    (b"0 5 REF 1\n", "trace line 1"),
    (b"0 5 ACT 0 0 4 0\n", "trace line 1"),
    (b"0 5 ACT 0 0 0 99\n", "trace line 1"),
    (b"# places\n0 5 RD 0 0 0 99\n", "trace line 2"),
    (b"0 \xff\xfe\n", "trace line 1"),
    (
        b"command,clock,channel,rank,bankgroup,bank,row,column\n",
        "trace line 1",
    ),
    (b"\xff\xfe\n", "script line 1"),
    (b"format\nformatted\n", "script line 2"),
    (b"0", "trace line 1"),
];

#[test]
fn schedules_that_are_not_drawn(rt: HostRuntime) {
    let place = place(&rt, process::id(rt.process()));
    let place = place.as_str();
    for (bytes, fault) in BAD {
        make(&rt, place, "%bad", bytes);
        let words = ["draw", "tiny", "%bad", "--svg", "%none"];
        ends(&rt, place, &words, ExitCode::FAILURE, fault, "");
        let none = named(&rt, place, "%none");
        assert!(rt; fs::metadata(&rt, none.as_str()).is_err(), "{fault}");
        remove(&rt, place, "%bad");
    }
}

#[test]
fn pictures_that_cannot_be_written(rt: HostRuntime) {
    let place = place(&rt, process::id(rt.process()));
    let place = place.as_str();
    make(&rt, place, "%good", b"0 5 REF 0\n");
    for (form, file, fault) in [
        ("--svg", "/no/picture", "file /no/picture"),
        ("--svg", "/dev/full", "file /dev/full"),
        ("--vcd", "/dev/full", "file /dev/full"),
    ] {
        let words = ["draw", "tiny", "%good", form, file];
        ends(&rt, place, &words, ExitCode::FAILURE, fault, "");
    }
    let words = ["draw", "tiny", "/no/trace", "--vcd", "%none"];
    ends(&rt, place, &words, ExitCode::FAILURE, "file /no/trace", "");
    remove(&rt, place, "%good");
}
