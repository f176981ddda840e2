// The lines of a script that were answered.
ghost use Rattle.std.specs.Prelude.{◌≡◌, ◌≤◌, IfOk, length};
ghost use Rattle.run_command.specs.Answered.{answered_lines, count_to, interleaving_begun, map_begun};

use interleave_map::{Interleaving, ReadyMap};
use nv_profile::Profile;
use nv_script::{Answer, ScriptLine};
use script_runner::{is_busy, turns_of};
use std::alloc::{AllocError, Global};

/// A line of a script that has answers, by the first of them.
#[derive(Clone, Copy)]
pub(crate) struct AnsweredLine {
    /// Its number among the lines of the script, from 1.
    pub(crate) number: usize,
    pub(crate) line: ScriptLine,
    pub(crate) answer: Answer,
}

// How many of the answers are to the line, of those that begin with its first one.
fn count_to(line: ScriptLine, answers: &[Answer]) -> usize
    ensures value { result ≡ count_to line answers.now }
    ensures within { result ≤ length answers.now }
{
    for index in 0..answers.len() {
        if index as u64 >= turns_of(line) {
            return index;
        }
        if !is_busy(answers[index]) {
            return index + 1;
        }
    }
    answers.len()
}

/// The lines of a script that have answers, in their order.
pub(crate) fn answered_lines(
    alloc: Global,
    lines: &[ScriptLine],
    answers: &[Answer],
) -> Result<Vec<AnsweredLine>, AllocError>
    ensures { IfOk result (λ answered. answered.items ≡ answered_lines 1 lines.now answers.now) }
{
    let mut answered = Vec::new(alloc);
    let mut left = answers;
    for index in 0..lines.len() {
        let (own, later) = left.split_at(count_to(lines[index], left));
        if let Some(first) = own.first() {
            answered.push(AnsweredLine {
                number: index + 1,
                line: lines[index],
                answer: *first,
            })?;
        }
        left = later;
    }
    Ok(answered)
}

// The kind of map over which a life begins by a line, where this one is the profile's own.
fn interleaving_begun(own: Interleaving, line: ScriptLine, answer: Answer) -> Option<Interleaving>
    ensures { result ≡ interleaving_begun own line answer }
{
    match (line, answer) {
        (ScriptLine::Format, Answer::Formatted) => Some(own),
        (ScriptLine::Restore { map, .. }, Answer::Restored { .. }) => Some(map.unwrap_or(own)),
        _ => None,
    }
}

/// The map over which a life begins by a line, if one does.
pub(crate) fn map_begun(profile: &Profile, begin: &AnsweredLine) -> Option<ReadyMap>
    ensures { result ≡ map_begun profile.now begin.now }
{
    let interleaving = interleaving_begun(profile.map, begin.line, begin.answer)?;
    Some(ReadyMap {
        interleaving,
        checked: profile.checked,
    })
}
