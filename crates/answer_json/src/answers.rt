// What is told of an answer.
ghost use Rattle.std.specs.Prelude.{◌≡◌, [], ◌∷◌, ◌++◌, codes};
ghost use Rattle.answer_json.specs.Answers.{answer_pieces, fault_pieces, fuse_pieces, image_pieces, kind_of, loss_pieces, mode_name, step_pieces, verdict_name};
ghost use Rattle.answer_json.specs.Told.{IsTold, counts, holds, names, says};

use crate::commands::told_of_command;
use crate::refusals::{told_of_arm, told_of_read, told_of_restore, told_of_write};
use crate::told::{Part, Told, four, name, number, one, three, two, word};
use arm_state::{Loss, Mode};
use line_memory::Line;
use nv_script::Answer;
use slot_store::{Step, Verdict};

/// What is told of an answer: its kind, and the parts of its line.
pub fn told_of(answer: &Answer) -> Told
    ensures { IsTold (kind_of answer.now) (answer_pieces answer.now) result }
{
    match *answer {
        Answer::Formatted => one("formatted", word("formatted")),
        Answer::Accepted { number, mark } => accepted(number, mark),
        Answer::Content { line, bytes } => content(line, bytes),
        Answer::ReadWaiting { line } => read_waiting(line),
        Answer::Issued { channel, command } => told_of_command(channel, &command),
        Answer::Idle { channel } => two("idle", number("channel", channel), word("idle")),
        Answer::Level { reading, mode } => level(reading, mode),
        Answer::Armed => one("armed", word("armed")),
        Answer::ArmedAlready => two("armed_already", word("armed"), word("already")),
        Answer::Disarming => one("disarming", word("disarming")),
        Answer::DisarmedAlready => two("disarmed_already", word("disarmed"), word("already")),
        Answer::Saved { generation, count } => saved(generation, count),
        Answer::Waiting => one("waiting", word("waiting")),
        Answer::StepDisarming => two("step_disarming", word("step"), word("disarming")),
        Answer::StepRetry => two("step_retry", word("step"), word("retry")),
        Answer::Stepped(step) => stepped(step),
        Answer::Lost(loss) => lost(loss),
        Answer::Lie { units } => two("lie", word("lie"), number("units", units)),
        Answer::Fuse { calls } => fuse(calls),
        Answer::OneFault { call } => two("onefault", word("onefault"), number("call", call)),
        Answer::Restored {
            generation,
            count,
            verdict,
        } => restored(generation, count, verdict),
        Answer::Mark { mark } => two("mark", word("mark"), number("mark", mark)),
        Answer::WriteRefused(refusal) => told_of_write(refusal),
        Answer::ReadRefused(refusal) => told_of_read(refusal),
        Answer::ArmRefused(refusal) => told_of_arm("arm", refusal),
        Answer::DisarmRefused(refusal) => told_of_arm("disarm", refusal),
        Answer::SaveRefused(refusal) => told_of_arm("save", refusal),
        Answer::RestoreRefused(error) => told_of_restore(error),
        Answer::FormatFault => fault("format"),
        Answer::ArmFault => fault("arm"),
        Answer::SaveFault => fault("save"),
    }
}

fn accepted(write: u64, mark: u64) -> Told
    ensures { IsTold (codes "accepted") (says (codes "accepted") ∷ counts (codes "number") write
        ∷ says (codes "mark") ∷ counts (codes "mark") mark ∷ []) result }
{
    four(
        "accepted",
        word("accepted"),
        number("number", write),
        word("mark"),
        number("mark", mark),
    )
}

fn content(line: u64, bytes: Line) -> Told
    ensures { IsTold (codes "line") (says (codes "line") ∷ counts (codes "line") line
        ∷ says (codes "=") ∷ holds (codes "bytes") bytes ∷ []) result }
{
    four(
        "line",
        word("line"),
        number("line", line),
        word("="),
        Part::Bytes {
            name: "bytes",
            bytes,
        },
    )
}

fn read_waiting(line: u64) -> Told
    ensures { IsTold (codes "read_waiting") (says (codes "read") ∷ counts (codes "line") line
        ∷ says (codes "waiting") ∷ []) result }
{
    three(
        "read_waiting",
        word("read"),
        number("line", line),
        word("waiting"),
    )
}

fn name_of_mode(mode: Option<Mode>) -> &'static str
    ensures { result.now ≡ mode_name mode }
{
    match mode {
        None => "none",
        Some(Mode::Disarmed) => "disarmed",
        Some(Mode::Armed) => "armed",
        Some(Mode::Disarming) => "disarming",
        Some(Mode::Stranded) => "stranded",
        Some(Mode::Closing) => "closing",
        Some(Mode::Saved) => "saved",
    }
}

fn level(reading: u64, mode: Option<Mode>) -> Told
    ensures { IsTold (codes "level") (says (codes "level") ∷ counts (codes "reading") reading
        ∷ names (codes "mode") (mode_name mode) ∷ []) result }
{
    three(
        "level",
        word("level"),
        number("reading", reading),
        name("mode", name_of_mode(mode)),
    )
}

fn saved(generation: u64, count: u64) -> Told
    ensures { IsTold (codes "saved") (says (codes "saved") ∷ image_pieces generation count) result }
{
    three(
        "saved",
        word("saved"),
        number("generation", generation),
        number("count", count),
    )
}

fn stepped(step: Step) -> Told
    ensures { IsTold (codes "step") (says (codes "step") ∷ step_pieces step) result }
{
    let made = match step {
        Step::Page(page) => {
            let page = number("page", page as u64);
            return three("step", word("step"), name("step", "page"), page);
        }
        Step::Close => "close",
        Step::Header => "header",
        Step::Open => "open",
        Step::SyncClosed | Step::SyncBody | Step::SyncOpen | Step::Done => "sync",
    };
    two("step", word("step"), name("step", made))
}

fn lost(loss: Loss) -> Told
    ensures { IsTold (codes "lost") (says (codes "lost") ∷ loss_pieces loss) result }
{
    let outcome = match loss {
        Loss::Saved { generation, count } => {
            return four(
                "lost",
                word("lost"),
                name("outcome", "saved"),
                number("generation", generation),
                number("count", count),
            );
        }
        Loss::Unsaved => "unsaved",
        Loss::Dark => "dark",
        Loss::Fault => "fault",
        Loss::Closed => "already",
    };
    two("lost", word("lost"), name("outcome", outcome))
}

fn fuse(calls: Option<u64>) -> Told
    ensures { IsTold (codes "fuse") (says (codes "fuse") ∷ fuse_pieces calls) result }
{
    let part = match calls {
        Some(calls) => number("calls", calls),
        None => name("calls", "off"),
    };
    two("fuse", word("fuse"), part)
}

fn name_of_verdict(verdict: Verdict) -> &'static str
    ensures { result.now ≡ verdict_name verdict }
{
    match verdict {
        Verdict::Complete => "Complete",
        Verdict::PossibleLoss { .. } => "PossibleLoss",
    }
}

fn restored(generation: u64, count: u64, verdict: Verdict) -> Told
    ensures { IsTold (codes "restored") (says (codes "restored") ∷ image_pieces generation count
        ++ names (codes "verdict") (verdict_name verdict) ∷ []) result }
{
    four(
        "restored",
        word("restored"),
        number("generation", generation),
        number("count", count),
        name("verdict", name_of_verdict(verdict)),
    )
}

fn fault(call: &'static str) -> Told
    ensures { IsTold (codes "fault") (fault_pieces call.now) result }
{
    two("fault", word("fault"), name("call", call))
}
