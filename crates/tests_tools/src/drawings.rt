// What is drawn of traces, as text.
use crate::verdicts::checked;
use command_trace::{TraceReader, form_of};
use ddr4_timing::command::{Command, Stamped};
use nv_script::Answer;
use schedule_drawing::{
    EventKind, Schedule, ScheduleEvent, told_schedule, trace_schedule, write_svg, write_vcd,
};
use std::alloc::Global;
use std::fmt::Write;
use std::process::Abort;
use std::test::Fail;

fn schedule(alloc: Global, text: &str) -> anyhow::Result<Schedule> {
    let checked = checked()?;
    let form = form_of(alloc, text.as_bytes(), false)?;
    let mut reader = TraceReader::new(alloc, text.as_bytes(), form, 1);
    Ok(trace_schedule(alloc, &checked.rules(), &mut reader)?)
}

// A row is opened, read and closed, and the rank is refreshed.
const SHORT: &str = "0 0 ACT 0 1 2 1
0 16 RD 0 1 2 3
0 60 PRE 0 1 2
0 9360 REF 0
";

const SHORT_VCD: &str = "$comment a unit of time is a clock $end
$timescale 1 ns $end
$scope module channel_0 $end
$scope module rank_0 $end
$var wire 1 f0 refresh $end
$upscope $end
$upscope $end
$scope module channel_0 $end
$scope module rank_0 $end
$scope module group_1_bank_2 $end
$var wire 1 o1 open $end
$var wire 32 r1 row $end
$upscope $end
$upscope $end
$upscope $end
$scope module channel_0 $end
$var string 1 c2 command $end
$var string 1 d2 data $end
$upscope $end
$enddefinitions $end
#0
$dumpvars
0f0
0o1
bx r1
s- c2
s- d2
$end
sACT c2
1o1
b1 r1
#1
s- c2
#16
sRD c2
#17
s- c2
#32
sRD d2
#36
s- d2
#60
0o1
bx r1
sPRE c2
#61
s- c2
#9360
sREF c2
1f0
#9361
s- c2
#9780
0f0
";

// A schedule as VCD.
fn values(alloc: Global, schedule: &Schedule) -> anyhow::Result<String> {
    let mut written = Vec::new(alloc);
    write_vcd(alloc, schedule, &mut written)?;
    Ok(String::from_utf8_lossy(alloc, &written)?)
}

#[test]
fn changes_of_values(rt: HostRuntime) -> Result<(), Fail> {
    let schedule = schedule(rt.alloc(), SHORT)?;
    assert_eq!(rt; values(rt.alloc(), &schedule)?.as_str(), SHORT_VCD);
    Ok(())
}

// The picture has each of these parts as often as stands beside it.
fn has<R: Abort + AllocGlobal>(
    rt: &R,
    schedule: &Schedule,
    parts: &[(&str, usize)],
) -> Result<(), Fail> {
    let mut written = Vec::new(rt.alloc());
    write_svg(rt.alloc(), schedule, &mut written)?;
    let text = String::from_utf8_lossy(rt.alloc(), &written)?;
    for (part, count) in parts {
        let found = text.split(*part).count().saturating_sub(1);
        assert_eq!(*rt; found, *count, "{part}");
    }
    Ok(())
}

// A read with auto-precharge, and an ACT of its bank as soon as the precharge that it brings allows.
const CLOSING: &str = "0 0 ACT 0 1 2 1
0 16 RDA 0 1 2 3
0 55 ACT 0 1 2 0
";

#[test]
fn shapes_with_auto_precharge(rt: HostRuntime) -> Result<(), Fail> {
    let drawn = schedule(rt.alloc(), CLOSING)?;
    has(
        &rt,
        &drawn,
        &[
            ("<line class=\"mark\"", 4),
            (">ACT</text>", 2),
            (">RD</text>", 2),
            (">PRE</text>", 1),
            ("<rect class=\"flaw\"", 0),
        ],
    )?;
    // the least clock that tRAS allows
    let precharge = "#39\n0o1\nbx r1\nsPRE c2\n";
    assert!(rt; values(rt.alloc(), &drawn)?.contains(precharge));
    let early = CLOSING.replace(rt.alloc(), "0 55", "0 54")?;
    match schedule(rt.alloc(), &early) {
        Ok(_) => assert!(rt; false),
        Err(error) => {
            let told = format!(in rt.alloc(); "{error}")?;
            assert_eq!(rt; told.as_str(), "trace line 3");
        }
    }
    Ok(())
}

#[test]
fn shapes_of_a_trace(rt: HostRuntime) -> Result<(), Fail> {
    let schedule = schedule(rt.alloc(), SHORT)?;
    // the lane of the rank is at 30, that of the bank at 56, and that of the bus at 82; the time up to clock 9360 is cut
    has(
        &rt,
        &schedule,
        &[
            (
                "<rect class=\"row\" x=\"150\" y=\"69\" width=\"360\" height=\"12\"/>",
                1,
            ),
            (">row 1</text>", 1),
            ("<line class=\"mark\"", 4),
            (">ACT</text>", 1),
            (
                "<rect class=\"read\" x=\"342\" y=\"85\" width=\"24\" height=\"20\"/>",
                1,
            ),
            (
                "<rect class=\"refresh\" x=\"654\" y=\"30\" width=\"144\" height=\"52\"/>",
                1,
            ),
            ("<line class=\"cut\"", 2),
            (">9360</text>", 1),
            (">clock</text>", 1),
            ("<title>DDR4 commands by their clocks</title>", 1),
            (">open row</text>", 1),
            ("<rect class=\"flaw\"", 0),
            ("</svg>", 1),
        ],
    )
}

#[test]
fn commands_that_break_rules(rt: HostRuntime) -> Result<(), Fail> {
    let schedule = schedule(
        rt.alloc(),
        "0 0 ACT 0 0 0 1\n0 15 RD 0 0 0 3\n0 60 PRE 0 0 0\n",
    )?;
    // the read is one clock too early
    has(
        &rt,
        &schedule,
        &[
            ("<rect class=\"flaw\"", 1),
            (
                "<rect class=\"flaw\" x=\"238\" y=\"57\" width=\"28\" height=\"24\"><title>breaks rule 3</title></rect>",
                1,
            ),
        ],
    )
}

#[test]
fn a_range_of_clocks(rt: HostRuntime) -> Result<(), Fail> {
    let mut schedule = schedule(rt.alloc(), SHORT)?;
    schedule.show(rt.alloc(), 20, 60)?;
    // of the row what lies behind clock 20, the data, and the precharge; neither the activate nor the refresh
    has(
        &rt,
        &schedule,
        &[
            (
                "<rect class=\"row\" x=\"150\" y=\"69\" width=\"240\" height=\"12\"/>",
                1,
            ),
            ("<line class=\"mark\"", 1),
            (">PRE</text>", 1),
            ("<rect class=\"read\"", 1),
            ("<rect class=\"refresh\" x", 0),
            (">20</text>", 1),
        ],
    )?;
    // a range that ends before it begins
    schedule.show(rt.alloc(), 60, 20)?;
    assert_eq!(rt; schedule.shapes.is_empty(), true);
    Ok(())
}

#[test]
fn lives_and_events(rt: HostRuntime) -> Result<(), Fail> {
    let mut schedule = schedule(rt.alloc(), "0 0 ACT 0 0 0 1\n")?;
    // the row stays open for 20 clocks, and 100 lie between two lives
    assert_eq!(rt; schedule.next_begin(), 120);
    schedule.add(rt.alloc(), &checked()?.timing, 120, &[])?;
    schedule.events.push(ScheduleEvent {
        clock: 0,
        kind: EventKind::Mode,
        text: format!(in rt.alloc(); "armed")?,
    })?;
    has(
        &rt,
        &schedule,
        &[
            (
                "<rect class=\"open\" x=\"150\" y=\"69\" width=\"120\" height=\"12\"/>",
                1,
            ),
            ("<line class=\"life\"", 1),
            (">mode</text>", 1),
            (">armed</text>", 1),
            (">device</text>", 0),
        ],
    )
}

// A refresh that ends at 425, and 100 clocks between two lives.
const TOLD: [Answer; 7] = [
    Answer::Formatted,
    Answer::Idle { channel: 1 },
    Answer::Issued {
        channel: 0,
        command: Stamped {
            clock: 5,
            cmd: Command::Ref { rank: 0 },
        },
    },
    Answer::Armed,
    Answer::StepRetry,
    Answer::Formatted,
    Answer::Issued {
        channel: 0,
        command: Stamped {
            clock: 7,
            cmd: Command::Sre { rank: 0 },
        },
    },
];

#[test]
fn a_script(rt: HostRuntime) -> Result<(), Fail> {
    let schedule = told_schedule(rt.alloc(), &checked()?.timing, &TOLD)?;
    assert_eq!(rt; schedule.begins.as_slice(), [0, 525].as_slice());
    let mut told = format!(in rt.alloc(); "")?;
    for event in &schedule.events {
        write!(told, "{} {}; ", event.clock, event.text)?;
    }
    assert_eq!(rt;
        told.as_str(),
        "0 formatted; 0 disarmed; 5 armed; 5 step retry; 525 formatted; 525 disarmed; "
    );
    has(
        &rt,
        &schedule,
        &[
            (">REF</text>", 1),
            (">SRE</text>", 1),
            (">step retry</text>", 1),
            ("<line class=\"life\"", 1),
        ],
    )
}

#[test]
fn a_script_without_answers(rt: HostRuntime) -> Result<(), Fail> {
    let schedule = told_schedule(rt.alloc(), &checked()?.timing, &[])?;
    assert!(rt; schedule.begins.is_empty());
    assert!(rt; schedule.shapes.is_empty());
    assert!(rt; schedule.events.is_empty());
    Ok(())
}

// The trace isn't drawn.
fn refuses<R: Abort + AllocGlobal>(rt: &R, text: &str) -> Result<(), Fail> {
    let drawn = schedule(rt.alloc(), text);
    assert!(*rt; drawn.is_err(), "{text}");
    Ok(())
}

#[test]
fn traces_that_are_not_drawn(rt: HostRuntime) -> Result<(), Fail> {
    for text in [
        "0 5 REF 0\n0 5 REF 0\n",
        "0 5 REF 0\n0 4 REF 0\n",
        "0 5 REF 2\n",
        "0 5 ACT 0 2 0 0\n",
        "0 5 ACT 0 0 4 0\n",
        "0 5 ACT 0 0 0 2\n",
        "0 5 RD 0 0 0 4\n",
        "1 5 REF 0\n",
        "0 9223372036854775808 REF 0\n",
    ] {
        refuses(&rt, text)?;
    }
    Ok(())
}
