// Whether what a restore found is lawful.
use crate::ledger::{Ledger, number_of};

/// What a restore answered.
#[derive(Clone, Copy, Drop)]
pub struct Restored {
    pub count: u64,
    pub is_complete: bool,
}

/// What is wrong of a restore.
#[derive(Clone, Copy, Debug, PartialEq, Eq)]
pub enum Wrong {
    /// There is none, or it was refused.
    Refused,
    /// It holds more writes than were accepted.
    Count,
    /// A line is not what these writes make of it.
    Line,
    /// It is told Complete and lacks a write that was told persistent.
    Complete,
    /// It lacks a write that was told persistent, though nothing failed but what the gauge and the writes allow.
    Lost,
    /// The table of a script's crashes has another restore for this stop, or other writes that were told persistent.
    Table,
}

// The answer to the last restore.
fn restored_in(answers: &str) -> Option<Restored> {
    let mut found = None;
    for answer in answers.split('\n') {
        let mut words = answer.split(' ');
        if words.next() != Some("restored") {
            continue;
        }
        // the generation is passed over
        let _generation = words.next();
        let count = number_of(words.next());
        found = Some(Restored {
            count,
            is_complete: words.next() == Some("Complete"),
        });
    }
    found
}

// Whether each line that was read is what the first `count` writes make of it.
fn lines_agree(ledger: &Ledger<'_>, answers: &str, count: u64) -> bool {
    for answer in answers.split('\n') {
        let mut words = answer.split(' ');
        if words.next() != Some("line") {
            continue;
        }
        let line = words.next().unwrap_or("");
        // the word before the value is passed over
        let _is = words.next();
        if words.next() != Some(ledger.value(line, count)) {
            return false;
        }
    }
    true
}

/// Judges the answers of a restore and of the reads behind it by the writes before it. Where nothing is told lost, every write
/// that was told persistent is there.
pub(crate) fn judged(ledger: &Ledger<'_>, answers: &str, honest: bool) -> Result<Restored, Wrong> {
    let Some(restored) = restored_in(answers) else {
        return Err(Wrong::Refused);
    };
    if restored.count > ledger.accepted() {
        return Err(Wrong::Count);
    }
    if !lines_agree(ledger, answers, restored.count) {
        return Err(Wrong::Line);
    }
    if restored.count >= ledger.told {
        return Ok(restored);
    }
    if restored.is_complete {
        return Err(Wrong::Complete);
    }
    if honest {
        return Err(Wrong::Lost);
    }
    Ok(restored)
}
