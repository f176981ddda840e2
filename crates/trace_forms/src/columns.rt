// Which column of a line says what.
ghost use Rattle.std.specs.Prelude.{◌≡◌, Some, IfErr, IfOk, slice_set};
ghost use Rattle.trace_forms.specs.Columns.{AreColumnsOf, StandsTwice, part_number, place_of};

use crate::part::Part;

/// Which column of a line has which part of a command; a part may have none.
#[derive(Clone, Copy, Debug, PartialEq, Eq)]
pub struct Columns {
    places: [Option<usize>; 8],
}

/// Clock, command, channel, rank, group, bank, row and column, in this order.
pub(crate) const IN_ORDER: Columns = Columns {
    places: [
        Some(0),
        Some(1),
        Some(2),
        Some(3),
        Some(4),
        Some(5),
        Some(6),
        Some(7),
    ],
};

/// The same of a form whose lines are all of one channel: the third word isn't read.
pub(crate) const OF_ONE_CHANNEL: Columns = Columns {
    places: [
        Some(0),
        Some(1),
        None,
        Some(3),
        Some(4),
        Some(5),
        Some(6),
        Some(7),
    ],
};

impl Columns {
    // The part stands in this column.
    fn put(&mut self, part: Part, place: usize)
        ensures { self.new.places ≡ slice_set self.old.places (part_number part) (Some place) }
    {
        self.places[part.number()] = Some(place);
    }

    /// The column that has a part.
    pub fn place(&self, part: Part) -> Option<usize>
        ensures { result ≡ place_of self.now part }
    {
        self.places[part.number()]
    }
}

/// The columns of a line that has these parts in turn. A part that stands twice is refused.
pub fn columns_of(order: &[Option<Part>]) -> Result<Columns, Part>
    ensures columns { IfOk result (AreColumnsOf order.now) }
    ensures twice { IfErr result (StandsTwice order.now) }
{
    let mut columns = Columns { places: [None; 8] };
    for place in 0..order.len() {
        let Some(part) = order[place] else {
            continue;
        };
        if columns.place(part).is_some() {
            return Err(part);
        }
        columns.put(part, place);
    }
    Ok(columns)
}
