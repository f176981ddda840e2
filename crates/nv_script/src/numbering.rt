// The numbers of the lines of a script.
ghost use Rattle.std.specs.Prelude.{◌≡◌, IfOk};
ghost use Rattle.nv_script.specs.Texts.{has_no_word, numbers_from, text_lines};

use crate::reading::without_last_newline;
use std::alloc::{AllocError, Global};

// Whether a line asks for nothing.
fn is_skipped(line: &[u8]) -> bool
    ensures { result ≡ Rattle.nv_script.specs.Texts.is_skipped line.now }
{
    line.first() == Some(&b'#') || is_blank(line)
}

// Whether a line has no word.
fn is_blank(line: &[u8]) -> bool
    ensures { result ≡ has_no_word line.now }
{
    line.iter().all(|byte| *byte == b' ')
}

/// The number of each line of a script that isn't skipped, counted from 1 over all lines of its text.
pub fn line_numbers(alloc: Global, script: &[u8]) -> Result<Vec<u64>, AllocError>
    ensures { IfOk result (λ numbers. numbers.items ≡ numbers_from 1 (text_lines script.now)) }
{
    let mut numbers = Vec::new(alloc);
    let text = without_last_newline(script);
    for (index, line) in text.split(|byte| *byte == b'\n').enumerate() {
        if !is_skipped(line) {
            numbers.push(index as u64 + 1)?;
        }
    }
    Ok(numbers)
}
