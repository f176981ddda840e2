// The lines that answer a script.
use arm_state::{ArmRefusal, Loss, Mode, ReadRefusal, WriteRefusal};
use ddr4_timing::command::Stamped;
use line_memory::Line;
use slot_store::{RestoreError, Step, Verdict};
use std::fmt;

/// One line of the program's output. It is shown without a newline, and nothing else is done with it.
#[derive(Clone, Copy)]
pub enum Answer {
    Formatted,
    /// The write's number, its place among the accepted writes, and the number of those that are persistent.
    Accepted {
        number: u64,
        mark: u64,
    },
    Content {
        line: u64,
        bytes: Line,
    },
    /// A read that its channel's commands haven't answered yet.
    ReadWaiting {
        line: u64,
    },
    Issued {
        channel: u64,
        command: Stamped,
    },
    Idle {
        channel: u64,
    },
    /// A reading of the gauge, and the mode, where there is a module.
    Level {
        reading: u64,
        mode: Option<Mode>,
    },
    Armed,
    ArmedAlready,
    Disarming,
    DisarmedAlready,
    /// A save is over.
    Saved {
        generation: u64,
        count: u64,
    },
    /// A save waits for writes that haven't reached their arrays.
    Waiting,
    /// A step that made no call of the device and began to disarm instead.
    StepDisarming,
    /// A step in which the device failed, and which is to be made again.
    StepRetry,
    Stepped(Step),
    Lost(Loss),
    Lie {
        units: u64,
    },
    /// The device passes so many calls, or all.
    Fuse {
        calls: Option<u64>,
    },
    /// The device's call with this number, counted from 1 on from here, fails alone.
    OneFault {
        call: u64,
    },
    Restored {
        generation: u64,
        count: u64,
        verdict: Verdict,
    },
    Mark {
        mark: u64,
    },
    WriteRefused(WriteRefusal),
    ReadRefused(ReadRefusal),
    ArmRefused(ArmRefusal),
    DisarmRefused(ArmRefusal),
    /// A save or a step of one was refused.
    SaveRefused(ArmRefusal),
    RestoreRefused(RestoreError),
    FormatFault,
    ArmFault,
    /// The device failed in a save or in a step of one.
    SaveFault,
}

impl fmt::Display for Answer {
    fn fmt<W: fmt::Write>(&self, f: &mut fmt::Formatter<W>) -> fmt::Result {
        match *self {
            Answer::Formatted => f.write_str("formatted"),
            Answer::Accepted { number, mark } => write!(f, "accepted {number} mark {mark}"),
            Answer::Content { line, bytes } => {
                write!(f, "line {line} = ")?;
                write_bytes(f, &bytes)
            }
            Answer::ReadWaiting { line } => write!(f, "read {line} waiting"),
            Answer::Issued { channel, command } => write!(f, "{channel} {command}"),
            Answer::Idle { channel } => write!(f, "{channel} idle"),
            Answer::Level { reading, mode } => write_level(f, reading, mode),
            Answer::Armed => f.write_str("armed"),
            Answer::ArmedAlready => f.write_str("armed already"),
            Answer::Disarming => f.write_str("disarming"),
            Answer::DisarmedAlready => f.write_str("disarmed already"),
            Answer::Saved { generation, count } => write!(f, "saved {generation} {count}"),
            Answer::Waiting => f.write_str("waiting"),
            Answer::StepDisarming => f.write_str("step disarming"),
            Answer::StepRetry => f.write_str("step retry"),
            Answer::Stepped(step) => write!(f, "step {step}"),
            Answer::Lost(loss) => write_lost(f, loss),
            Answer::Lie { units } => write!(f, "lie {units}"),
            Answer::Fuse { calls } => write_fuse(f, calls),
            Answer::OneFault { call } => write!(f, "onefault {call}"),
            Answer::Restored {
                generation,
                count,
                verdict,
            } => write!(f, "restored {generation} {count} {verdict}"),
            Answer::Mark { mark } => write!(f, "mark {mark}"),
            Answer::WriteRefused(refusal) => write_refused(f, "write", &refusal),
            Answer::ReadRefused(refusal) => write_refused(f, "read", &refusal),
            Answer::ArmRefused(refusal) => write_refused(f, "arm", &refusal),
            Answer::DisarmRefused(refusal) => write_refused(f, "disarm", &refusal),
            Answer::SaveRefused(refusal) => write_refused(f, "save", &refusal),
            Answer::RestoreRefused(error) => write_refused(f, "restore", &error),
            Answer::FormatFault => f.write_str("fault format"),
            Answer::ArmFault => f.write_str("fault arm"),
            Answer::SaveFault => f.write_str("fault save"),
        }
    }
}

fn write_refused<W: fmt::Write, R: fmt::Display>(
    f: &mut fmt::Formatter<W>,
    call: &str,
    refusal: &R,
) -> fmt::Result {
    write!(f, "refused {call} {refusal}")
}

fn write_level<W: fmt::Write>(
    f: &mut fmt::Formatter<W>,
    reading: u64,
    mode: Option<Mode>,
) -> fmt::Result {
    match mode {
        Some(mode) => write!(f, "level {reading} {mode}"),
        None => write!(f, "level {reading} none"),
    }
}

fn write_lost<W: fmt::Write>(f: &mut fmt::Formatter<W>, loss: Loss) -> fmt::Result {
    match loss {
        Loss::Saved { generation, count } => write!(f, "lost saved {generation} {count}"),
        Loss::Unsaved => f.write_str("lost unsaved"),
        Loss::Dark => f.write_str("lost dark"),
        Loss::Fault => f.write_str("lost fault"),
        Loss::Closed => f.write_str("lost already"),
    }
}

fn write_fuse<W: fmt::Write>(f: &mut fmt::Formatter<W>, calls: Option<u64>) -> fmt::Result {
    match calls {
        Some(calls) => write!(f, "fuse {calls}"),
        None => f.write_str("fuse off"),
    }
}

// A line's bytes: one, where all are equal to it, or all.
fn write_bytes<W: fmt::Write>(f: &mut fmt::Formatter<W>, line: &Line) -> fmt::Result {
    let first = line[0];
    if line.iter().all(|byte| *byte == first) {
        return write!(f, "{first:02x}");
    }
    for byte in line {
        write!(f, "{byte:02x}")?;
    }
    Ok(())
}
