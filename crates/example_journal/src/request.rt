// What a line asks.
use std::fmt;

/// What is asked of a store of records.
#[derive(Clone, Copy, Debug)]
pub(crate) enum Request<'a> {
    /// A text becomes a record.
    Add(&'a str),
    /// All that was added so far is saved.
    Save,
    /// From here on each record is stored at once.
    Arm,
    /// The mains are lost; an armed store saves then.
    Lose,
    /// The records below a number go.
    Cut(u64),
    /// All records.
    List,
    /// How many of them are told stored.
    Stored,
}

/// A line that asks nothing of these.
#[derive(Clone, Copy, Debug)]
pub(crate) struct NoRequest;

impl fmt::Display for NoRequest {
    fn fmt<W: fmt::Write>(&self, f: &mut fmt::Formatter<W>) -> fmt::Result {
        f.write_str(
            "refused: add TEXT, cut NUMBER, save, arm, lose, list and stored are all that there is",
        )
    }
}

/// What a line asks.
pub(crate) fn request_of(line: &str) -> Result<Request<'_>, NoRequest> {
    if let Some(text) = line.strip_prefix("add ") {
        return Ok(Request::Add(text));
    }
    if let Some(number) = line.strip_prefix("cut ") {
        return match number.parse() {
            Ok(number) => Ok(Request::Cut(number)),
            Err(_) => Err(NoRequest),
        };
    }
    match line {
        "save" => Ok(Request::Save),
        "arm" => Ok(Request::Arm),
        "lose" => Ok(Request::Lose),
        "list" => Ok(Request::List),
        "stored" => Ok(Request::Stored),
        _ => Err(NoRequest),
    }
}
