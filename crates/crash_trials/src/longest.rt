// A script of as many lines as a script may have.
use std::alloc::Global;
use std::fmt::Write;

/// How often a line is written and read back. Each time takes five lines of 4,096, and the first line formats.
pub const ROUNDS: u64 = 819;

// The line that a round writes, and the byte that it fills it with.
fn line_of(round: u64) -> u64 {
    round.wrapping_mul(37) % 128
}

/// The script.
pub(crate) fn script(alloc: Global) -> anyhow::Result<String> {
    let mut script = format!(in alloc; "format\n")?;
    for round in 0..ROUNDS {
        let line = line_of(round);
        let byte = round % 256;
        writeln!(
            script,
            "write {line} {byte:02x}\nwork {} 9\nread {line}\nmark\nsense 1",
            round % 2
        )?;
    }
    Ok(script)
}

/// How many of its reads give what was written last.
pub(crate) fn right_reads(alloc: Global, answers: &str) -> anyhow::Result<u64> {
    let mut round: u64 = 0;
    let mut right: u64 = 0;
    for answer in answers.split('\n') {
        if !answer.starts_with("line ") {
            continue;
        }
        let wanted = format!(in alloc; "line {} = {:02x}", line_of(round), round % 256)?;
        if answer == wanted.as_str() {
            right = right.saturating_add(1);
        }
        round = round.saturating_add(1);
    }
    Ok(right)
}
