// The text of a line, part by part.
ghost use Rattle.std.specs.Prelude.{◌≡◌, ◌++◌, IfOk, OnOk, flat_map, map};
ghost use Rattle.std.specs.String.{string_bytes};
ghost use Rattle.report_fields.specs.Fields.{aligned, field_text, line_of};
ghost use Rattle.report_fields.specs.Parts.{field_of, text_of_told};

use crate::part::Part;
use crate::told::Told;
use std::alloc::{AllocError, Global};

// The digits of a number behind blanks, where they are fewer than so many.
fn aligned(alloc: Global, value: u64, width: usize) -> Result<String, AllocError>
    ensures { IfOk result (λ text. string_bytes text ≡ aligned width value) }
{
    let digits = value.to_string(alloc)?;
    let mut text = " ".repeat(alloc, width.saturating_sub(digits.len()))?;
    text.push_str(&digits)?;
    Ok(text)
}

// The lines of what is told, behind a text.
fn put_lines(text: &mut String, list: &[Told]) -> Result<(), AllocError>
    ensures { OnOk result (string_bytes text.new
        ≡ string_bytes text.old ++ flat_map text_of_told list.now) }
{
    for told in list {
        text.push_str(&told.line)?;
    }
    Ok(())
}

// A part behind the others of a line.
fn put_part(text: &mut String, alloc: Global, part: &Part<'_>) -> Result<(), AllocError>
    ensures { OnOk result (string_bytes text.new
        ≡ string_bytes text.old ++ field_text (field_of part.now)) }
{
    match *part {
        Part::Word(word) => text.push_str(word),
        Part::Number(_, value) => text.push_str(value.to_string(alloc)?.as_str()),
        Part::Aligned(_, value, width) => text.push_str(aligned(alloc, value, width)?.as_str()),
        Part::Name(_, value) => text.push_str(value),
        Part::HiddenNumber(_, _) | Part::HiddenName(_, _) => Ok(()),
        Part::Within(_, told) => text.push_str(&told.line),
        Part::Each(_, list) => put_lines(text, list),
    }
}

/// The text of the line of these parts.
pub(crate) fn text_of(alloc: Global, parts: &[Part<'_>]) -> Result<String, AllocError>
    ensures { IfOk result (λ text. string_bytes text ≡ line_of (map field_of parts.now)) }
{
    let mut text = String::new(alloc);
    for part in parts {
        put_part(&mut text, alloc, part)?;
    }
    Ok(text)
}
