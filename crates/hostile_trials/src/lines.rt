// Lines of a script of one or two words, each against the table of the verbs.
use crate::tally::TrialCounts;
use ddr4_timing::profiles::SMALL;
use nv_script::{ScriptFault, read_script};

// What a word may be behind a verb; an ordinal is a number from 1 on.
#[derive(Clone, Copy, PartialEq, Eq)]
enum ArgumentKind {
    Number,
    Calls,
    Ordinal,
    Pick,
}

// The verbs that stand alone.
const ALONE: [&str; 8] = [
    "format", "arm", "disarm", "save", "step", "lose", "restore", "mark",
];

// The verbs with one word behind them, and what that is.
const WITH_ONE: [(&str, ArgumentKind); 6] = [
    ("read", ArgumentKind::Number),
    ("sense", ArgumentKind::Number),
    ("lie", ArgumentKind::Number),
    ("fuse", ArgumentKind::Calls),
    ("onefault", ArgumentKind::Ordinal),
    ("restore", ArgumentKind::Pick),
];

// The verbs with two words behind them, and words that are none.
const OTHERS: [&str; 10] = [
    "write", "work", "Format", "formats", "on", "older", "torn", "torn1", "lines", "xor",
];

// Words that are no verbs, and what each may be; those that are 0 are no ordinals.
const ZEROS: [&str; 2] = ["0", "00"];

const NUMBERS: [&str; 7] = [
    "1",
    "7",
    "16",
    "0007",
    "127",
    "4096",
    "18446744073709551615",
];

const PICKS: [&str; 5] = ["old", "new", "torn00", "torna5", "tornFF"];

const NEITHER: [&str; 9] = [
    "-1",
    "+1",
    "1.0",
    "0x7",
    "1G",
    "1_000",
    "18446744073709551616",
    "99999999999999999999999999",
    "\"1\"",
];

fn is_number(word: &str) -> bool {
    ZEROS.contains(&word) || NUMBERS.contains(&word)
}

fn is_of(kind: ArgumentKind, word: &str) -> bool {
    match kind {
        ArgumentKind::Number => is_number(word),
        ArgumentKind::Calls => is_number(word) || word == "off",
        ArgumentKind::Ordinal => NUMBERS.contains(&word),
        ArgumentKind::Pick => PICKS.contains(&word),
    }
}

// Is it a line, by the table?
fn is_line(first: &str, second: Option<&str>) -> bool {
    match second {
        None => ALONE.contains(&first),
        Some(second) => WITH_ONE
            .iter()
            .any(|(verb, kind)| *verb == first && is_of(*kind, second)),
    }
}

// All the words.
fn words(rt: &HostRuntime) -> anyhow::Result<Vec<&'static str>> {
    let mut words = Vec::new(rt.alloc());
    words.extend_from_slice(&ALONE)?;
    for (verb, _) in WITH_ONE {
        words.push(verb)?;
    }
    words.extend_from_slice(&OTHERS)?;
    words.extend_from_slice(&ZEROS)?;
    words.extend_from_slice(&NUMBERS)?;
    words.extend_from_slice(&PICKS)?;
    words.extend_from_slice(&NEITHER)?;
    words.push("off")?;
    Ok(words)
}

// Tries a line as the second one of a script.
fn try_line(
    rt: &HostRuntime,
    first: &str,
    second: Option<&str>,
    tally: &mut TrialCounts,
) -> anyhow::Result<()> {
    let behind = second.unwrap_or("");
    let script = format!(in rt.alloc(); "format\n{first} {behind}\n")?;
    let read = read_script(rt.alloc(), script.as_bytes(), &SMALL);
    let expected = is_line(first, second);
    let right = match &read {
        Ok(lines) => expected && lines.len() == 2,
        Err(fault) => !expected && *fault == ScriptFault::Line { number: 2 },
    };
    tally.count(read.is_ok(), right);
    if !right {
        println!(rt; "wrong: the line {first} {behind}")?;
    }
    Ok(())
}

/// Each line of one of the words, and of any two of them.
pub(crate) fn try_lines(rt: &HostRuntime) -> anyhow::Result<()> {
    let words = words(rt)?;
    let mut tally = TrialCounts::new();
    for first in &words {
        try_line(rt, first, None, &mut tally)?;
        for second in &words {
            try_line(rt, first, Some(second), &mut tally)?;
        }
    }
    tally.show(rt, "lines of a script", "read")
}
