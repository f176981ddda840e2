// The parts of what is told.
use crate::told::Told;

/// A part of what is told: a word that the line alone has, or a member of the object under its name, with what the line has of it.
#[derive(Clone, Copy)]
pub enum Part<'a> {
    /// A word of the line alone.
    Word(&'a str),
    /// A number, in decimal digits in the line.
    Number(&'static str, u64),
    /// A number, with blanks before its digits in the line where those are fewer than so many.
    Aligned(&'static str, u64, usize),
    /// A text.
    Name(&'static str, &'a str),
    /// A number of the object alone.
    HiddenNumber(&'static str, u64),
    /// A text of the object alone.
    HiddenName(&'static str, &'static str),
    /// What is told within: its line within the line, its object within the object.
    Within(&'static str, &'a Told),
    /// Several of them: their lines one behind another, and a list of their objects.
    Each(&'static str, &'a [Told]),
}
