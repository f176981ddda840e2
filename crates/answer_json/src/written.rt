// Answers, written as lines or as objects.
ghost use Rattle.std.specs.Prelude.{◌≡◌, ◌⊎◌, ◌∷◌, ◌++◌, [], false, IfErr, OnOk};
ghost use Rattle.std.specs.Io.KnownBytes.{Appends};
ghost use Rattle.std.specs.String.{string_bytes};
ghost use Rattle.serde_json.specs.View.{view};
ghost use Rattle.serde_json.specs.Written.{compact_text, has_float};
ghost use Rattle.nv_script.specs.declared.reading.ScriptFault.TheVariants as fault;
ghost use Rattle.answer_json.specs.Answers.{answer_line, answer_text};

use crate::answers::told_of;
use nv_script::{Answer, ScriptFault};
use serde_json::Value;
use std::alloc::Global;
use std::io::Write;

/// Writes an object as a line: its text without spaces, and a newline.
pub fn write_object<W: Write>(
    alloc: Global,
    object: &Value,
    writer: &mut W,
) -> Result<(), ScriptFault>
    ensures written { OnOk result (has_float (view object.now) ≡ false → Appends
        (W.contents writer.old) (W.contents writer.new) (compact_text (view object.now) ++ 10 ∷ [])) }
    ensures fault { IfErr result (λ why. (why ≡ fault.Writer) ⊎ (why ≡ fault.Memory)) }
{
    write_text(object.to_string(alloc)?, writer)
}

// Writes a text as a line: its bytes, and a newline.
fn write_text<W: Write>(mut text: String, writer: &mut W) -> Result<(), ScriptFault>
    ensures written { OnOk result (Appends (W.contents writer.old) (W.contents writer.new)
        (string_bytes text ++ 10 ∷ [])) }
    ensures fault { IfErr result (λ why. (why ≡ fault.Writer) ⊎ (why ≡ fault.Memory)) }
{
    text.push_str("\n")?;
    match writer.write_all(text.as_bytes()) {
        Ok(()) => Ok(()),
        Err(_) => Err(ScriptFault::Writer),
    }
}

/// Writes an answer as a line: each part that is told of it, with a space between two, and a newline.
pub fn write_line<W: Write>(
    alloc: Global,
    answer: &Answer,
    writer: &mut W,
) -> Result<(), ScriptFault>
    ensures written { OnOk result (Appends (W.contents writer.old) (W.contents writer.new)
        (answer_line answer.now ++ 10 ∷ [])) }
    ensures fault { IfErr result (λ why. (why ≡ fault.Writer) ⊎ (why ≡ fault.Memory)) }
{
    write_text(told_of(answer).line(alloc)?, writer)
}

/// Writes the object of what is told of an answer as a line.
pub fn write_answer<W: Write>(
    alloc: Global,
    answer: &Answer,
    writer: &mut W,
) -> Result<(), ScriptFault>
    ensures written { OnOk result (Appends (W.contents writer.old) (W.contents writer.new)
        (answer_text answer.now ++ 10 ∷ [])) }
    ensures fault { IfErr result (λ why. (why ≡ fault.Writer) ⊎ (why ≡ fault.Memory)) }
{
    write_object(alloc, &told_of(answer).object(alloc)?, writer)
}
