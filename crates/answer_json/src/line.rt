// The text of a line, part by part.
ghost use Rattle.std.specs.Prelude.{◌≡◌, ◌==◌, ◌∷◌, ◌++◌, [], ℕ, List, IfOk, OnOk, flat_map, if◌then◌else◌, map};
ghost use Rattle.std.specs.List.{list_all};
ghost use Rattle.std.specs.String.{string_bytes};
ghost use Rattle.answer_json.specs.Lines.{IsLineOf, line_text, piece_text, shown};
ghost use Rattle.answer_json.specs.Told.{line_of, pieces_of};

use crate::told::{Part, Told};
use line_memory::Line;
use std::alloc::{AllocError, Global};

// The words of a line so far.
#[derive(Drop)]
struct LineText {
    text: String,
    is_begun: bool,
}

impl LineText {
    fn new(alloc: Global) -> LineText
        ensures { IsLineOf [] result }
    {
        LineText {
            text: String::new(alloc),
            is_begun: false,
        }
    }

    // What stands before the next word.
    fn space(&self) -> &'static str
        ensures { result.now ≡ (if self.now.is_begun then 32 ∷ [] else []) }
    {
        if self.is_begun { " " } else { "" }
    }

    // One more word, behind a space unless it is the first one.
    fn put(&mut self, word: &str) -> Result<(), AllocError>
        ensures { OnOk result ((words : List (List ℕ)) → IsLineOf words self.old
            → IsLineOf (words ++ word.now ∷ []) self.new) }
    {
        let space = self.space();
        self.text.push_str(space)?;
        self.text.push_str(word)?;
        self.is_begun = true;
        Ok(())
    }
}

// Are all bytes equal to this one?
fn are_all(bytes: &[u8], byte: u8) -> bool
    ensures { result ≡ list_all (λ here. here == byte) bytes.now }
{
    for here in bytes {
        if *here != byte {
            return false;
        }
    }
    true
}

// The bytes of a line of memory: one, where all are equal to it, or all.
fn shown_bytes(alloc: Global, line: &Line) -> Result<String, AllocError>
    ensures { IfOk result (λ text. string_bytes text ≡ shown line.now) }
{
    if are_all(line, line[0]) {
        Ok(hex::encode(alloc, [line[0]])?)
    } else {
        Ok(hex::encode(alloc, *line)?)
    }
}

// A part behind others of a line.
fn put_part(line: &mut LineText, alloc: Global, part: &Part) -> Result<(), AllocError>
    ensures { OnOk result ((words : List (List ℕ)) → IsLineOf words line.old
        → IsLineOf (words ++ map piece_text (pieces_of part.now)) line.new) }
{
    match *part {
        Part::Nothing => Ok(()),
        Part::Word(word) => line.put(word),
        Part::Number { value, .. } => line.put(value.to_string(alloc)?.as_str()),
        Part::Name { value, .. } => line.put(value),
        Part::Bytes { bytes, .. } => line.put(shown_bytes(alloc, &bytes)?.as_str()),
    }
}

// The text of a line of these parts.
fn text_of(alloc: Global, parts: &[Part]) -> Result<String, AllocError>
    ensures { IfOk result (λ text.
        string_bytes text ≡ line_text (flat_map pieces_of parts.now)) }
{
    let mut line = LineText::new(alloc);
    for part in parts {
        put_part(&mut line, alloc, part)?;
    }
    Ok(line.text)
}

impl Told {
    /// The text of its line: each part, with a space between two.
    pub fn line(&self, alloc: Global) -> Result<String, AllocError>
        ensures { IfOk result (λ text. string_bytes text ≡ line_text (line_of self.now)) }
    {
        text_of(alloc, &self.parts)
    }
}
