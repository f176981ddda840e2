// What is told, part by part.
ghost use Rattle.std.specs.Prelude.{◌≡◌, [], ◌∷◌, IfOk, OnOk, flat_map};
ghost use Rattle.serde_json.specs.Data.{object, no_members};
ghost use Rattle.serde_json.specs.View.{members_view, view};
ghost use Rattle.answer_json.specs.Told.{members_of, nothings, pieces_of, with_pieces};
ghost use Rattle.answer_json.specs.declared.told.Part.TheVariants as variant;

use line_memory::Line;
use serde_json::{Map, Value, put};
use std::alloc::{AllocError, Global};

const END: Part = Part::Nothing;

/// A part of what is told.
#[derive(Clone, Copy, Debug, PartialEq, Eq)]
pub enum Part {
    /// None, behind the last one.
    Nothing,
    /// A word of the line that stands under no name.
    Word(&'static str),
    /// A number.
    Number {
        name: &'static str,
        value: u64,
    },
    /// One of several words.
    Name {
        name: &'static str,
        value: &'static str,
    },
    /// A line of memory.
    Bytes {
        name: &'static str,
        bytes: Line,
    },
}

/// What is told: of which kind it is, and its parts in the order of the line.
#[derive(Clone, Copy, Debug, PartialEq, Eq)]
pub struct Told {
    pub kind: &'static str,
    pub parts: [Part; 7],
}

// A part under its name in an object, where it has one.
fn put_part(map: &mut Map<String, Value>, alloc: Global, part: &Part) -> Result<(), AllocError>
    ensures { OnOk result (members_view map.new.entries
        ≡ with_pieces (members_view map.old.entries) (pieces_of part.now)) }
{
    match *part {
        Part::Nothing | Part::Word(_) => Ok(()),
        Part::Number { name, value } => put(map, alloc, name, Value::from(value)),
        Part::Name { name, value } => put(map, alloc, name, Value::try_from_str(alloc, value)?),
        Part::Bytes { name, bytes } => {
            put(map, alloc, name, Value::String(hex::encode(alloc, bytes)?))
        }
    }
}

// Parts under their names in an object, where they have some.
fn put_parts(map: &mut Map<String, Value>, alloc: Global, parts: &[Part]) -> Result<(), AllocError>
    ensures { OnOk result (members_view map.new.entries
        ≡ with_pieces (members_view map.old.entries) (flat_map pieces_of parts.now)) }
{
    for part in parts {
        put_part(map, alloc, part)?;
    }
    Ok(())
}

impl Told {
    /// The members of its object: the kind under `answer`, and each part that has a name.
    pub fn members(&self, alloc: Global) -> Result<Map<String, Value>, AllocError>
        ensures { IfOk result (λ map. members_view map.entries ≡ members_of self.now) }
    {
        let mut map = Map::new(alloc);
        put(
            &mut map,
            alloc,
            "answer",
            Value::try_from_str(alloc, self.kind)?,
        )?;
        put_parts(&mut map, alloc, &self.parts)?;
        Ok(map)
    }

    /// Its object.
    pub fn object(&self, alloc: Global) -> Result<Value, AllocError>
        ensures { IfOk result (λ value. view value ≡ object (members_of self.now)) }
    {
        Ok(Value::Object(self.members(alloc)?))
    }
}

/// What is told in one part.
pub(crate) fn one(kind: &'static str, a: Part) -> Told
    ensures kind { result.kind ≡ kind.entry }
    ensures parts { result.parts ≡ a ∷ nothings 6 }
{
    Told {
        kind,
        parts: [a, END, END, END, END, END, END],
    }
}

/// What is told in two parts.
pub(crate) fn two(kind: &'static str, a: Part, b: Part) -> Told
    ensures kind { result.kind ≡ kind.entry }
    ensures parts { result.parts ≡ a ∷ b ∷ nothings 5 }
{
    Told {
        kind,
        parts: [a, b, END, END, END, END, END],
    }
}

/// What is told in three parts.
pub(crate) fn three(kind: &'static str, a: Part, b: Part, c: Part) -> Told
    ensures kind { result.kind ≡ kind.entry }
    ensures parts { result.parts ≡ a ∷ b ∷ c ∷ nothings 4 }
{
    Told {
        kind,
        parts: [a, b, c, END, END, END, END],
    }
}

/// What is told in four parts.
pub(crate) fn four(kind: &'static str, a: Part, b: Part, c: Part, d: Part) -> Told
    ensures kind { result.kind ≡ kind.entry }
    ensures parts { result.parts ≡ a ∷ b ∷ c ∷ d ∷ nothings 3 }
{
    Told {
        kind,
        parts: [a, b, c, d, END, END, END],
    }
}

/// What is told in five parts.
pub(crate) fn five(kind: &'static str, a: Part, b: Part, c: Part, d: Part, e: Part) -> Told
    ensures kind { result.kind ≡ kind.entry }
    ensures parts { result.parts ≡ a ∷ b ∷ c ∷ d ∷ e ∷ nothings 2 }
{
    Told {
        kind,
        parts: [a, b, c, d, e, END, END],
    }
}

/// What is told in six parts.
pub(crate) fn six(kind: &'static str, a: Part, b: Part, c: Part, d: Part, e: Part, f: Part) -> Told
    ensures kind { result.kind ≡ kind.entry }
    ensures parts { result.parts ≡ a ∷ b ∷ c ∷ d ∷ e ∷ f ∷ nothings 1 }
{
    Told {
        kind,
        parts: [a, b, c, d, e, f, END],
    }
}

/// What is told in seven parts.
pub(crate) fn seven(
    kind: &'static str,
    a: Part,
    b: Part,
    c: Part,
    d: Part,
    e: Part,
    f: Part,
    g: Part,
) -> Told
    ensures kind { result.kind ≡ kind.entry }
    ensures parts { result.parts ≡ a ∷ b ∷ c ∷ d ∷ e ∷ f ∷ g ∷ [] }
{
    Told {
        kind,
        parts: [a, b, c, d, e, f, g],
    }
}

/// A word of the line.
pub(crate) fn word(word: &'static str) -> Part
    ensures { result ≡ variant.Word word.entry }
{
    Part::Word(word)
}

/// A number of the line.
pub(crate) fn number(name: &'static str, value: u64) -> Part
    ensures { result ≡ variant.Number name.entry value }
{
    Part::Number { name, value }
}

/// One of several words of the line.
pub(crate) fn name(name: &'static str, value: &'static str) -> Part
    ensures { result ≡ variant.Name name.entry value.entry }
{
    Part::Name { name, value }
}
