// The text of each answer, and what is told of it.
use answer_json::{write_answer, write_line};
use arm_state::{ArmRefusal, Loss, Mode, ReadRefusal, WriteRefusal};
use ddr4_timing::command::{Command, Stamped};
use ddr4_timing::place::BankAddress;
use nv_script::Answer;
use slot_store::{RestoreError, Slot, Step, Verdict};
use std::process::Abort;

// Fails where an answer isn't shown so, or isn't written as that line.
fn is_shown<R: Abort + AllocGlobal>(rt: &R, answer: Answer, text: &str) {
    let shown = answer.to_string(rt.alloc()).expect(rt, "memory");
    assert_eq!(*rt; shown.as_str(), text);
    let mut written = Vec::new(rt.alloc());
    write_line(rt.alloc(), &answer, &mut written).expect(rt, "memory");
    let line = format!(in rt.alloc(); "{text}\n").expect(rt, "memory");
    assert_eq!(*rt; written.as_slice(), line.as_bytes());
}

// Fails where the object of an answer isn't written so.
fn is_written<R: Abort + AllocGlobal>(rt: &R, answer: Answer, text: &str) {
    let mut written = Vec::new(rt.alloc());
    write_answer(rt.alloc(), &answer, &mut written).expect(rt, "memory");
    let line = format!(in rt.alloc(); "{text}\n").expect(rt, "memory");
    assert_eq!(*rt; written.as_slice(), line.as_bytes());
}

#[test]
fn objects(rt: HostRuntime) {
    is_written(&rt, Answer::Formatted, r#"{"answer":"formatted"}"#);
    is_written(
        &rt,
        Answer::Accepted { number: 3, mark: 2 },
        r#"{"answer":"accepted","mark":2,"number":3}"#,
    );
    is_written(
        &rt,
        Answer::Content {
            line: 5,
            bytes: [0xa5; 64],
        },
        r#"{"answer":"line","bytes":"a5a5a5a5a5a5a5a5a5a5a5a5a5a5a5a5a5a5a5a5a5a5a5a5a5a5a5a5a5a5a5a5a5a5a5a5a5a5a5a5a5a5a5a5a5a5a5a5a5a5a5a5a5a5a5a5a5a5a5a5a5a5a5a5","line":5}"#,
    );
    is_written(
        &rt,
        Answer::Stepped(Step::Page(1)),
        r#"{"answer":"step","page":1,"step":"page"}"#,
    );
    is_written(
        &rt,
        Answer::Fuse { calls: None },
        r#"{"answer":"fuse","calls":"off"}"#,
    );
    is_written(
        &rt,
        Answer::WriteRefused(WriteRefusal::EnergyLow {
            need: u64::MAX,
            has: 5,
        }),
        r#"{"answer":"refused","call":"write","code":2,"has":5,"need":18446744073709551615,"reason":"EnergyLow"}"#,
    );
    is_written(
        &rt,
        Answer::RestoreRefused(RestoreError::Damaged { slot: Slot::Second }),
        r#"{"answer":"refused","call":"restore","code":2,"reason":"Damaged","slot":1}"#,
    );
}

#[test]
fn of_writes_and_reads(rt: HostRuntime) {
    is_shown(&rt, Answer::Formatted, "formatted");
    is_shown(
        &rt,
        Answer::Accepted { number: 3, mark: 2 },
        "accepted 3 mark 2",
    );
    is_shown(&rt, Answer::ReadWaiting { line: 69 }, "read 69 waiting");
    is_shown(&rt, Answer::Idle { channel: 1 }, "1 idle");
    is_shown(&rt, Answer::Mark { mark: 7 }, "mark 7");
    is_shown(
        &rt,
        Answer::Content {
            line: 127,
            bytes: [0x0f; 64],
        },
        "line 127 = 0f",
    );
    let mut bytes = [0xab; 64];
    bytes[63] = 0;
    let text =
        "line 0 = ababababababababababababababababababababababababababababababababababababababababababababababababababababababababababababababab00";
    is_shown(&rt, Answer::Content { line: 0, bytes }, text);
}

fn is_issued<R: Abort + AllocGlobal>(rt: &R, cmd: Command, text: &str) {
    let command = Stamped { clock: 16, cmd };
    is_shown(
        rt,
        Answer::Issued {
            channel: 1,
            command,
        },
        text,
    );
}

#[test]
fn of_commands(rt: HostRuntime) {
    let at = BankAddress {
        rank: 0,
        group: 1,
        bank: 2,
    };
    is_issued(&rt, Command::Act { at, row: 3 }, "1 16 ACT 0 1 2 3");
    is_issued(&rt, Command::Wr { at, column: 3 }, "1 16 WR 0 1 2 3");
    is_issued(&rt, Command::Pre { at }, "1 16 PRE 0 1 2");
    is_issued(&rt, Command::PreAll { rank: 1 }, "1 16 PREA 1");
    is_issued(&rt, Command::Ref { rank: 0 }, "1 16 REF 0");
}

fn is_level<R: Abort + AllocGlobal>(rt: &R, mode: Option<Mode>, text: &str) {
    let answer = Answer::Level {
        reading: 9000,
        mode,
    };
    is_shown(rt, answer, text);
}

#[test]
fn of_modes(rt: HostRuntime) {
    is_level(&rt, None, "level 9000 none");
    is_level(&rt, Some(Mode::Disarmed), "level 9000 disarmed");
    is_level(&rt, Some(Mode::Armed), "level 9000 armed");
    is_level(&rt, Some(Mode::Disarming), "level 9000 disarming");
    is_level(&rt, Some(Mode::Stranded), "level 9000 stranded");
    is_level(&rt, Some(Mode::Closing), "level 9000 closing");
    is_level(&rt, Some(Mode::Saved), "level 9000 saved");
}

#[test]
fn of_saves(rt: HostRuntime) {
    is_shown(&rt, Answer::Armed, "armed");
    is_shown(&rt, Answer::ArmedAlready, "armed already");
    is_shown(&rt, Answer::Disarming, "disarming");
    is_shown(&rt, Answer::DisarmedAlready, "disarmed already");
    is_shown(
        &rt,
        Answer::Saved {
            generation: 2,
            count: 1,
        },
        "saved 2 1",
    );
    is_shown(&rt, Answer::Waiting, "waiting");
    is_shown(&rt, Answer::StepDisarming, "step disarming");
    is_shown(&rt, Answer::StepRetry, "step retry");
    is_shown(&rt, Answer::Stepped(Step::Close), "step close");
    is_shown(&rt, Answer::Stepped(Step::SyncClosed), "step sync");
    is_shown(&rt, Answer::Stepped(Step::Header), "step header");
    is_shown(&rt, Answer::Stepped(Step::Page(1)), "step page 1");
    is_shown(&rt, Answer::Stepped(Step::SyncBody), "step sync");
    is_shown(&rt, Answer::Stepped(Step::Open), "step open");
}

fn is_restored<R: Abort + AllocGlobal>(rt: &R, verdict: Verdict, text: &str) {
    let answer = Answer::Restored {
        generation: 2,
        count: 1,
        verdict,
    };
    is_shown(rt, answer, text);
}

#[test]
fn of_losses_and_restores(rt: HostRuntime) {
    is_shown(
        &rt,
        Answer::Lost(Loss::Saved {
            generation: 3,
            count: 1,
        }),
        "lost saved 3 1",
    );
    is_shown(&rt, Answer::Lost(Loss::Unsaved), "lost unsaved");
    is_shown(&rt, Answer::Lost(Loss::Dark), "lost dark");
    is_shown(&rt, Answer::Lost(Loss::Fault), "lost fault");
    is_shown(&rt, Answer::Lost(Loss::Closed), "lost already");
    is_restored(&rt, Verdict::Complete, "restored 2 1 Complete");
    is_restored(
        &rt,
        Verdict::PossibleLoss { after: 1 },
        "restored 2 1 PossibleLoss",
    );
}

#[test]
fn of_gauges_and_fuses(rt: HostRuntime) {
    is_shown(&rt, Answer::Lie { units: 2000 }, "lie 2000");
    is_shown(&rt, Answer::Fuse { calls: Some(7) }, "fuse 7");
    is_shown(&rt, Answer::Fuse { calls: None }, "fuse off");
    is_shown(&rt, Answer::OneFault { call: 8 }, "onefault 8");
    is_shown(&rt, Answer::FormatFault, "fault format");
    is_shown(&rt, Answer::ArmFault, "fault arm");
    is_shown(&rt, Answer::SaveFault, "fault save");
}

#[test]
fn of_refused_writes(rt: HostRuntime) {
    is_shown(
        &rt,
        Answer::WriteRefused(WriteRefusal::Full),
        "refused write 1 Full",
    );
    is_shown(
        &rt,
        Answer::WriteRefused(WriteRefusal::EnergyLow {
            need: 3854,
            has: 3853,
        }),
        "refused write 2 EnergyLow 3854 3853",
    );
    is_shown(
        &rt,
        Answer::WriteRefused(WriteRefusal::Disarming),
        "refused write 3 Disarming",
    );
    is_shown(
        &rt,
        Answer::WriteRefused(WriteRefusal::Closed),
        "refused write 4 Closed",
    );
    is_shown(
        &rt,
        Answer::WriteRefused(WriteRefusal::TrailFull),
        "refused write 5 TrailFull",
    );
    is_shown(
        &rt,
        Answer::WriteRefused(WriteRefusal::NoSuchLine),
        "refused write 6 NoSuchLine",
    );
}

#[test]
fn of_refused_reads(rt: HostRuntime) {
    is_shown(
        &rt,
        Answer::ReadRefused(ReadRefusal::Full),
        "refused read 1 Full",
    );
    is_shown(
        &rt,
        Answer::ReadRefused(ReadRefusal::Closed),
        "refused read 4 Closed",
    );
    is_shown(
        &rt,
        Answer::ReadRefused(ReadRefusal::NoSuchLine),
        "refused read 6 NoSuchLine",
    );
}

// The same refusal of the three calls, each behind its verb.
fn is_refused<R: Abort + AllocGlobal>(rt: &R, refusal: ArmRefusal, text: &str) {
    let arm = format!(in rt.alloc(); "refused arm {text}").expect(rt, "memory");
    is_shown(rt, Answer::ArmRefused(refusal), arm.as_str());
    let disarm = format!(in rt.alloc(); "refused disarm {text}").expect(rt, "memory");
    is_shown(rt, Answer::DisarmRefused(refusal), disarm.as_str());
    let save = format!(in rt.alloc(); "refused save {text}").expect(rt, "memory");
    is_shown(rt, Answer::SaveRefused(refusal), save.as_str());
}

#[test]
fn of_refused_saves(rt: HostRuntime) {
    is_refused(
        &rt,
        ArmRefusal::NeedEnergy {
            need: 3340,
            has: 3339,
        },
        "1 NeedEnergy 3340 3339",
    );
    is_refused(&rt, ArmRefusal::SaveRunning, "2 SaveRunning");
    is_refused(&rt, ArmRefusal::Unsettled, "3 Unsettled");
    is_refused(&rt, ArmRefusal::Disarming, "4 Disarming");
    is_refused(&rt, ArmRefusal::Closed, "5 Closed");
    is_refused(&rt, ArmRefusal::Spent, "6 Spent");
    is_refused(&rt, ArmRefusal::Device, "7 Device");
}

#[test]
fn of_refused_restores(rt: HostRuntime) {
    is_shown(
        &rt,
        Answer::RestoreRefused(RestoreError::NoImage),
        "refused restore 1 NoImage",
    );
    is_shown(
        &rt,
        Answer::RestoreRefused(RestoreError::Damaged { slot: Slot::First }),
        "refused restore 2 Damaged 0",
    );
    is_shown(
        &rt,
        Answer::RestoreRefused(RestoreError::Damaged { slot: Slot::Second }),
        "refused restore 2 Damaged 1",
    );
    is_shown(
        &rt,
        Answer::RestoreRefused(RestoreError::WrongSize),
        "refused restore 3 WrongSize",
    );
    is_shown(
        &rt,
        Answer::RestoreRefused(RestoreError::Device),
        "refused restore 4 Device",
    );
    is_shown(
        &rt,
        Answer::RestoreRefused(RestoreError::Memory),
        "refused restore 5 Memory",
    );
}
