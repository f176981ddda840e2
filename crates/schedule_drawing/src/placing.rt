// The lines in which the texts of events stand.
ghost use Rattle.std.specs.Prelude.{◌≡◌, ◌++◌, ◌∷◌, [], filter, length, map, IfOk, OnOk};
ghost use Rattle.schedule_drawing.specs.Placings.{is_kind, text_at, text_of, text_placed};

use crate::axis::Axis;
use crate::schedule::{EventKind, ScheduleEvent};
use std::alloc::{AllocError, Global};

/// Pixels of a letter.
const LETTER: u64 = 6;

/// Where an event stands: across the picture, and in which line below.
#[derive(Drop)]
pub(crate) struct Placed<'a> {
    pub(crate) x: u64,
    pub(crate) line: usize,
    pub(crate) text: &'a str,
}

/// The events of a kind, each in the first line that has room for its text, and how many lines that takes.
#[derive(Drop)]
pub(crate) struct Placing<'a> {
    pub(crate) placed: Vec<Placed<'a>>,
    // where each line is free from
    free: Vec<u64>,
}

// Is it an event of the kind?
fn is_of_kind(event: &ScheduleEvent, kind: EventKind) -> bool
    ensures { result ≡ is_kind kind event.now.kind }
{
    match kind {
        EventKind::Device => matches!(event.kind, EventKind::Device),
        EventKind::Mode => matches!(event.kind, EventKind::Mode),
    }
}

impl<'a> Placing<'a> {
    /// Each event of the kind in its turn, with its text, where its clock stands.
    pub(crate) fn of(
        alloc: Global,
        axis: &Axis,
        events: &'a [ScheduleEvent],
        kind: EventKind,
    ) -> Result<Placing<'a>, AllocError>
        ensures { IfOk result (λ placing. map text_placed placing.placed.items
            ≡ map (text_of axis.now.knots.items)
            (filter (λ event. is_kind kind event.kind) events.now)) }
    {
        let mut placing = Placing {
            placed: Vec::new(alloc),
            free: Vec::new(alloc),
        };
        let mut left = events;
        while let [event, behind @ ..] = left {
            if is_of_kind(event, kind) {
                placing.place(axis.x(event.clock), &event.text)?;
            }
            left = behind;
        }
        Ok(placing)
    }

    fn place(&mut self, x: u64, text: &'a str) -> Result<(), AllocError>
        ensures { OnOk result (map text_placed self.new.placed.items
            ≡ map text_placed self.old.placed.items ++ text_at x text.now ∷ []) }
    {
        let letters = text.len() as u64;
        let end = x
            .saturating_add(letters.saturating_mul(LETTER))
            .saturating_add(LETTER);
        let line = self.free.iter().position(|free| *free <= x);
        let line = match line {
            Some(line) => line,
            None => {
                self.free.push(0)?;
                self.free.len().saturating_sub(1)
            }
        };
        if let Some(free) = self.free.get_mut(line) {
            *free = end;
        }
        self.placed.push(Placed { x, line, text })?;
        Ok(())
    }

    /// Where the last text ends.
    pub(crate) fn end(&self) -> u64 {
        self.free.iter().copied().max().unwrap_or(0)
    }

    /// How many lines it takes.
    pub(crate) fn lines(&self) -> u64
        ensures { result ≡ length self.now.free.items }
    {
        self.free.len() as u64
    }
}
