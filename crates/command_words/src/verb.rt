// What a verb takes.

/// What a word may be.
#[derive(Clone, Copy, Debug, PartialEq, Eq)]
pub enum WordKind {
    /// `tiny`, `tiny2` or a file.
    Profile,
    /// A file, or `-` for standard input or standard output.
    File,
    /// A number of 64 bits.
    Number,
    /// A word that `explain` knows.
    Term,
    /// A shell that completions are written for.
    Shell,
    /// A form in which others write traces.
    Form,
    /// The columns of a trace, by their names with a comma between two.
    Columns,
}

/// A word that is told by its place.
#[derive(Clone, Copy, Debug, PartialEq, Eq)]
pub struct Operand {
    pub name: &'static str,
    pub kind: WordKind,
    pub is_required: bool,
    pub help: &'static str,
}

/// What stands behind an option.
#[derive(Clone, Copy, Debug, PartialEq, Eq)]
pub struct Value {
    pub name: &'static str,
    pub kind: WordKind,
}

/// An option, two dashes and its name, alone or with a value.
#[derive(Clone, Copy, Debug, PartialEq, Eq)]
pub struct Switch {
    pub name: &'static str,
    pub value: Option<Value>,
    pub help: &'static str,
}

/// A verb, and the words behind it.
#[derive(Clone, Copy, Drop)]
pub struct Verb {
    pub name: &'static str,
    pub about: &'static str,
    pub operands: &'static [Operand],
    pub switches: &'static [Switch],
    /// Options of which at least one has to be there.
    pub any_of: &'static [&'static str],
}
