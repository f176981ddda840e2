// The answers to a script's lines, from what the session replies.
ghost use Rattle.std.specs.Prelude.{◌≡◌};
ghost use Rattle.script_runner.specs.Replies.{write_told, read_told, work_told, step_told, save_told, arm_told, disarm_told, restore_told};

use arm_state::{ArmRefusal, ArmReply, DisarmReply, ReadRefusal, WriteRefusal};
use ddr4_timing::command::Stamped;
use nv_machine::{Accepted, StepReply};
use nv_script::Answer;
use nv_session::LineSeen;
use slot_store::{Head, RestoreError};

/// The answer to a write.
pub fn write_answer(reply: Result<Accepted, WriteRefusal>) -> Answer
    ensures { result ≡ write_told reply }
{
    match reply {
        Ok(Accepted { number, mark }) => Answer::Accepted { number, mark },
        Err(refusal) => Answer::WriteRefused(refusal),
    }
}

/// The answer to a read of a line.
pub fn read_answer(line: u64, reply: Result<LineSeen, ReadRefusal>) -> Answer
    ensures { result ≡ read_told line reply }
{
    match reply {
        Ok(LineSeen::Content(bytes)) => Answer::Content { line, bytes },
        Ok(LineSeen::Waiting) => Answer::ReadWaiting { line },
        Err(refusal) => Answer::ReadRefused(refusal),
    }
}

/// The answer to one work on a channel.
pub fn work_answer(channel: u64, command: Option<Stamped>) -> Answer
    ensures { result ≡ work_told channel command }
{
    match command {
        Some(command) => Answer::Issued { channel, command },
        None => Answer::Idle { channel },
    }
}

/// The answer to a step of a save. A save that isn't over after its turns is waiting, whatever its last step was.
pub fn step_answer(reply: Result<StepReply, ArmRefusal>) -> Answer
    ensures { result ≡ step_told reply }
{
    match reply {
        Ok(StepReply::Did(step)) => Answer::Stepped(step),
        Ok(StepReply::Saved { generation, count }) => Answer::Saved { generation, count },
        Ok(StepReply::Waiting | StepReply::NoSave) => Answer::Waiting,
        Ok(StepReply::Turned) => Answer::StepDisarming,
        Ok(StepReply::Retry) => Answer::StepRetry,
        Ok(StepReply::Fault) => Answer::SaveFault,
        Err(refusal) => Answer::SaveRefused(refusal),
    }
}

/// The answer to a whole save.
pub fn save_answer(reply: Result<StepReply, ArmRefusal>) -> Answer
    ensures { result ≡ save_told reply }
{
    match reply {
        Ok(StepReply::Did(_) | StepReply::Retry) => Answer::Waiting,
        _ => step_answer(reply),
    }
}

/// The answer to arming.
pub fn arm_answer(reply: Result<ArmReply, ArmRefusal>) -> Answer
    ensures { result ≡ arm_told reply }
{
    match reply {
        Ok(ArmReply::Armed) => Answer::Armed,
        Ok(ArmReply::AlreadyArmed) => Answer::ArmedAlready,
        Err(ArmRefusal::Device) => Answer::ArmFault,
        Err(refusal) => Answer::ArmRefused(refusal),
    }
}

/// The answer to disarming.
pub fn disarm_answer(reply: Result<DisarmReply, ArmRefusal>) -> Answer
    ensures { result ≡ disarm_told reply }
{
    match reply {
        Ok(DisarmReply::Disarming) => Answer::Disarming,
        Ok(DisarmReply::AlreadyDisarmed) => Answer::DisarmedAlready,
        Err(refusal) => Answer::DisarmRefused(refusal),
    }
}

/// The answer to a restore.
pub fn restore_answer(reply: Result<Head, RestoreError>) -> Answer
    ensures { result ≡ restore_told reply }
{
    match reply {
        Ok(head) => Answer::Restored {
            generation: head.newest.generation,
            count: head.count,
            verdict: head.verdict,
        },
        Err(error) => Answer::RestoreRefused(error),
    }
}
