// What the answers of a script tell of its writes.
use std::alloc::{AllocError, Global};
use std::slice;

/// A write, by the words of its script.
#[derive(Clone, Copy, Drop)]
pub struct ScriptWrite<'a> {
    pub line: &'a str,
    pub data: &'a str,
}

/// The writes that were accepted, in order, and how many of them were told persistent.
#[derive(Drop)]
pub struct Ledger<'a> {
    pub writes: Vec<ScriptWrite<'a>>,
    pub told: u64,
}

/// A number, or 0 where the word is none.
pub(crate) fn number_of(word: Option<&str>) -> u64 {
    match word {
        Some(word) => word.parse::<u64>().unwrap_or(0),
        None => 0,
    }
}

// The writes that a script asks for.
fn asked<'a>(alloc: Global, script: &'a str) -> Result<Vec<ScriptWrite<'a>>, AllocError> {
    let mut entries = Vec::new(alloc);
    for line in script.split('\n') {
        let mut words = line.split(' ');
        if words.next() != Some("write") {
            continue;
        }
        if let (Some(line), Some(data)) = (words.next(), words.next()) {
            entries.push(ScriptWrite { line, data })?;
        }
    }
    Ok(entries)
}

impl<'a> Ledger<'a> {
    /// By the answers to a script.
    pub(crate) fn of(
        alloc: Global,
        script: &'a str,
        answers: &str,
    ) -> Result<Ledger<'a>, AllocError> {
        let asked = asked(alloc, script)?;
        let mut next = asked.iter();
        let mut ledger = Ledger {
            writes: Vec::new(alloc),
            told: 0,
        };
        for answer in answers.split('\n') {
            ledger.note(answer, &mut next)?;
        }
        Ok(ledger)
    }

    // Takes an answer in; `next` gives the writes that weren't answered yet.
    fn note<'b>(
        &mut self,
        answer: &str,
        next: &mut slice::Iter<'b, ScriptWrite<'a>>,
    ) -> Result<(), AllocError> {
        let mut words = answer.split(' ');
        let first = words.next();
        let second = words.next();
        let third = words.next();
        let fourth = words.next();
        if first == Some("accepted") {
            if let Some(entry) = next.next() {
                self.writes.push(*entry)?;
            }
            self.tell(fourth);
        } else if first == Some("refused") && second == Some("write") {
            // the write that was refused is passed over
            let _refused = next.next();
        } else if first == Some("saved") {
            self.tell(third);
        } else if first == Some("lost") && second == Some("saved") {
            self.tell(fourth);
        }
        Ok(())
    }

    fn tell(&mut self, count: Option<&str>) {
        self.told = self.told.max(number_of(count));
    }

    /// How many writes were accepted.
    pub(crate) fn accepted(&self) -> u64 {
        self.writes.len() as u64
    }

    /// What a line holds after the first `count` writes, by the word that wrote it.
    pub(crate) fn value(&self, line: &str, count: u64) -> &'a str {
        let first = self.writes.get(..count as usize).unwrap_or(&[]);
        for entry in first.iter().rev() {
            if entry.line == line {
                return entry.data;
            }
        }
        "00"
    }
}

// Does an answer only say how the device or the gauge is to fail?
fn is_of_a_fault_to_come(answer: &str) -> bool {
    ["lie ", "fuse ", "onefault "]
        .iter()
        .any(|word| answer.starts_with(*word))
}

/// The writes that were accepted, and the answers, but for those that say how the device or the gauge is to fail.
pub(crate) fn account_of(alloc: Global, script: &str, answers: &str) -> Result<String, AllocError> {
    let ledger = Ledger::of(alloc, script, answers)?;
    let mut account = String::new(alloc);
    for ScriptWrite { line, data } in &ledger.writes {
        account.push_str(&format!(in alloc; "write {line} {data}\n")?)?;
    }
    for answer in answers.split('\n') {
        if !is_of_a_fault_to_come(answer) {
            account.push_str(answer)?;
            account.push_str("\n")?;
        }
    }
    Ok(account)
}
