// What is told, of its parts.
ghost use Rattle.std.specs.Prelude.{◌≡◌, IfOk, map};
ghost use Rattle.std.specs.String.{string_bytes};
ghost use Rattle.report_fields.specs.Parts.{IsTold, field_of, told_in};

use crate::line::text_of;
use crate::object::members_of;
use crate::part::Part;
use crate::told::Told;
use serde_json::Value;
use std::alloc::{AllocError, Global};

/// What is told in these parts: its line has each of them in turn, and its object the kind under `answer` and each part that has a
/// name. Refused only for want of memory.
pub fn tell(alloc: Global, kind: &str, parts: &[Part<'_>]) -> Result<Told, AllocError>
    ensures { IfOk result (IsTold kind.now (map field_of parts.now)) }
{
    let line = text_of(alloc, parts)?;
    let object = Value::Object(members_of(alloc, kind, parts)?);
    Ok(Told { line, object })
}

impl Told {
    /// Its line, or its object as a text without spaces; either with a newline behind it.
    pub fn written(&self, alloc: Global, is_json: bool) -> Result<String, AllocError>
        ensures { IfOk result (λ text. string_bytes text ≡ told_in is_json self.now) }
    {
        let mut text = if is_json {
            self.object.to_string(alloc)?
        } else {
            self.line.clone()?
        };
        text.push_str("\n")?;
        Ok(text)
    }
}
