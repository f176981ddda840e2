// The answers to lines, kept, and what the writes and the device are by them.
ghost use Rattle.std.specs.Prelude.{◌≡◌, ◌++◌, [], List, fold};
ghost use Rattle.nv_script.specs.declared.answer.Answer.{Answer};
ghost use Rattle.script_runner.specs.Ledger;
ghost use Rattle.crash_table.specs.Outcomes.{told_behind, EndsWithFault};

use arm_state::Loss;
use ghost_trace::Trace;
use nv_script::{Answer, ScriptFault};
use script_runner::Report;
use std::alloc::Global;

/// Keeps each answer.
#[derive(Drop)]
pub(crate) struct Answers {
    pub taken: Vec<Answer>,
    refused: Trace<ScriptFault>,
}

impl Answers {
    /// None yet.
    pub(crate) fn new(alloc: Global) -> Answers
        ensures { result.taken.items ≡ [] }
    {
        Answers {
            taken: Vec::new(alloc),
            refused: Trace::new(),
        }
    }
}

impl Report for Answers {
    ghost answers = { λ answers. answers.taken.items };

    ghost refusals = { λ answers. answers.refused.items };

    fn answer(&mut self, answer: Answer) -> Result<(), ScriptFault> {
        match self.taken.push(answer) {
            Ok(()) => Ok(()),
            Err(_) => {
                let fault = ScriptFault::Memory;
                self.refused.note(&fault);
                Err(fault)
            }
        }
    }
}

// Up to which number an answer tells that writes are persistent.
fn told_by(answer: &Answer) -> u64
    ensures { result ≡ Rattle.script_runner.specs.Ledger.told_by answer.now }
{
    match *answer {
        Answer::Accepted { mark, .. } => mark,
        Answer::Saved { count, .. } => count,
        Answer::Lost(Loss::Saved { count, .. }) => count,
        Answer::Mark { mark } => mark,
        _ => 0,
    }
}

// The same with one more answer, where it is known. A restore tells which writes there are, and after a format that failed nothing
// is known.
fn told_more(told: Option<u64>, answer: &Answer) -> Option<u64>
    ensures { result ≡ told_behind answer.now told }
{
    match *answer {
        Answer::Formatted => Some(0),
        Answer::FormatFault => None,
        Answer::Restored { count, .. } => told.map(|_| count),
        Answer::RestoreRefused(_) => told,
        _ => {
            let by = told_by(answer);
            told.map(|told| told.max(by))
        }
    }
}

/// Up to which number it is told that writes are persistent behind these answers more, where that is known.
pub(crate) fn told_after(told: Option<u64>, answers: &[Answer]) -> Option<u64>
    ensures { result ≡ fold (λ told answer. told_behind answer told) told answers.now }
{
    let mut told = told;
    for answer in answers {
        told = told_more(told, answer);
    }
    told
}

fn tells_fault(answer: &Answer) -> bool
    ensures { result ≡ Rattle.crash_table.specs.Outcomes.tells_fault answer.now }
{
    matches!(
        *answer,
        Answer::FormatFault
            | Answer::ArmFault
            | Answer::StepRetry
            | Answer::SaveFault
            | Answer::Lost(Loss::Fault)
    )
}

/// Whether the last answer tells a fault of the device, behind these answers more: where there are none it is as before.
pub(crate) fn ends_behind(fails: bool, answers: &[Answer]) -> bool
    ensures { (before : List Answer) → EndsWithFault before fails
        → EndsWithFault (before ++ answers.now) result }
{
    let Some(last) = answers.last() else {
        return fails;
    };
    tells_fault(last)
}
