// What a column says.
ghost use Rattle.std.specs.Prelude.{◌≡◌, ◌≢◌, ◌<◌, IfSome, IsNone};
ghost use Rattle.trace_forms.specs.Columns.{name_of_part, part_number};
ghost use Rattle.trace_forms.specs.declared.part.Part.{Part};

/// What a column of a trace says.
#[derive(Clone, Copy, Debug, PartialEq, Eq)]
pub enum Part {
    Clock,
    Command,
    Channel,
    Rank,
    Group,
    Bank,
    Row,
    Column,
}

impl Part {
    /// All of them, in the order of the program's own table.
    pub const ALL: [Part; 8] = [
        Part::Clock,
        Part::Command,
        Part::Channel,
        Part::Rank,
        Part::Group,
        Part::Bank,
        Part::Row,
        Part::Column,
    ];

    /// The part of this name.
    pub fn named(name: &str) -> Option<Part>
        ensures some { IfSome result (λ part. name.now ≡ name_of_part part) }
        ensures none { IsNone result → (part : Part) → name.now ≢ name_of_part part }
    {
        match name {
            "clock" => Some(Part::Clock),
            "command" => Some(Part::Command),
            "channel" => Some(Part::Channel),
            "rank" => Some(Part::Rank),
            "group" => Some(Part::Group),
            "bank" => Some(Part::Bank),
            "row" => Some(Part::Row),
            "column" => Some(Part::Column),
            _ => None,
        }
    }

    /// Its name.
    pub fn name(self) -> &'static str
        ensures { result.now ≡ name_of_part self }
    {
        match self {
            Part::Clock => "clock",
            Part::Command => "command",
            Part::Channel => "channel",
            Part::Rank => "rank",
            Part::Group => "group",
            Part::Bank => "bank",
            Part::Row => "row",
            Part::Column => "column",
        }
    }

    /// Where it stands in a table of the parts.
    pub(crate) fn number(self) -> usize
        ensures value { result ≡ part_number self }
        ensures small { result < 8 }
    {
        match self {
            Part::Clock => 0,
            Part::Command => 1,
            Part::Channel => 2,
            Part::Rank => 3,
            Part::Group => 4,
            Part::Bank => 5,
            Part::Row => 6,
            Part::Column => 7,
        }
    }
}
