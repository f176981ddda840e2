// A schedule to be drawn.
ghost use Rattle.std.specs.Prelude.{◌≡◌, ◌≢◌, [], OnOk, ◌≤◌, filter, filter_map, fold, max};
ghost use Rattle.schedule_drawing.specs.Lives.{EndBy, latest_clock};
ghost use Rattle.schedule_drawing.specs.Range.{is_within, part_within};

use crate::flaws::Flaw;
use crate::range::parts_of;
use crate::shapes::{Shape, shapes_of};
use command_trace::ChannelCommand;
use ddr4_timing::timing::Timing;
use std::alloc::{AllocError, Global};

/// Clocks that are shown behind the last command of a life.
const TAIL: u64 = 20;

/// Clocks between two lives.
const BETWEEN: u64 = 100;

/// What a script does beside the commands of its channels.
#[derive(Clone, Copy, Debug, PartialEq, Eq)]
pub enum EventKind {
    /// A call of the device, or several.
    Device,
    /// A mode begins.
    Mode,
}

/// An event behind the commands up to a clock.
#[derive(Drop)]
pub struct ScheduleEvent {
    pub clock: u64,
    pub kind: EventKind,
    pub text: String,
}

/// The shapes of commands, life by life, and what happens beside them. Each life's clocks begin with the one that stands in
/// `begins`.
#[derive(Drop)]
pub struct Schedule {
    pub shapes: Vec<Shape>,
    pub begins: Vec<u64>,
    pub events: Vec<ScheduleEvent>,
    pub flaws: Vec<Flaw>,
    // the clocks that are shown
    pub(crate) first: u64,
    pub(crate) last: u64,
    // no shape ends behind this clock
    end: u64,
    ghost ended: { EndBy end shapes.items },
}

// The last clock of a life that began with a clock.
fn last_of(begin: u64, entries: &[ChannelCommand]) -> u64
    ensures { result ≡ latest_clock begin entries.now }
{
    entries
        .iter()
        .fold(begin, |last, entry| last.max(entry.command.clock))
}

// The last clock at which a shape ends, where that is behind this one.
fn end_of(end: u64, shapes: &[Shape]) -> u64
    ensures by { EndBy result shapes.now }
    ensures least { end ≤ result }
{
    let mut last = end;
    for shape in shapes {
        last = last.max(shape.to());
    }
    last
}

impl Schedule {
    ghost use Rattle.schedule_drawing.specs.Schedules.{AddsLife, IsShownWhole, ShowsSame};

    /// With nothing in it, and every clock shown.
    pub fn new(alloc: Global) -> Schedule
        ensures shapes { result.shapes.items ≡ [] }
        ensures begins { result.begins.items ≡ [] }
        ensures events { result.events.items ≡ [] }
        ensures flaws { result.flaws.items ≡ [] }
        ensures whole { IsShownWhole result }
    {
        Schedule {
            shapes: Vec::new(alloc),
            begins: Vec::new(alloc),
            events: Vec::new(alloc),
            flaws: Vec::new(alloc),
            first: 0,
            last: u64::MAX,
            end: 0,
        }
    }

    /// The clock at which a further life begins.
    pub fn next_begin(&self) -> u64
        ensures first { self.now.begins.items ≡ [] → result ≡ 0 }
        ensures behind { self.now.begins.items ≢ [] →
            EndBy result self.now.shapes.items }
    {
        if self.begins.is_empty() {
            0
        } else {
            self.end.saturating_add(BETWEEN)
        }
    }

    /// Takes in the commands of a life, whose clocks begin with this one.
    pub fn add(
        &mut self,
        alloc: Global,
        t: &Timing,
        begin: u64,
        entries: &[ChannelCommand],
    ) -> Result<(), AllocError>
        ensures life { OnOk result (AddsLife t.now begin entries.now self.old self.new) }
        ensures events { self.new.events ≡ self.old.events }
        ensures flaws { self.new.flaws ≡ self.old.flaws }
        ensures shown { ShowsSame self.old self.new }
    {
        let open_until = last_of(begin, entries).saturating_add(TAIL);
        let shapes = shapes_of(alloc, t, entries, open_until)?;
        let end = end_of(self.end, &shapes);
        self.end = end;
        self.shapes.extend_from_slice(&shapes)?;
        self.begins.push(begin)?;
        Ok(())
    }

    /// Is a clock shown?
    pub(crate) fn shows(&self, clock: u64) -> bool
        ensures { result ≡ is_within self.now.first self.now.last clock }
    {
        self.first <= clock && clock <= self.last
    }

    /// Leaves the clocks from one to another: of each shape the part that lies there, and the events and flaws there.
    pub fn show(&mut self, alloc: Global, first: u64, last: u64) -> Result<(), AllocError>
        ensures shapes { OnOk result (self.new.shapes.items
            ≡ filter_map (part_within first last) self.old.shapes.items) }
        ensures flaws { OnOk result (self.new.flaws.items
            ≡ filter (λ flaw. is_within first last flaw.clock) self.old.flaws.items) }
        ensures events { OnOk result (self.new.events.items
            ≡ filter (λ event. is_within first last event.clock) self.old.events.items) }
        ensures begins { self.new.begins ≡ self.old.begins }
        ensures first { OnOk result (self.new.first ≡ first) }
        ensures last { OnOk result (self.new.last ≡ last) }
    {
        let shapes = parts_of(alloc, first, last, &self.shapes)?;
        self.end = end_of(self.end, &shapes);
        self.shapes = shapes;
        self.first = first;
        self.last = last;
        self.events
            .retain(|event| first <= event.clock && event.clock <= last);
        self.flaws
            .retain(|flaw| first <= flaw.clock && flaw.clock <= last);
        Ok(())
    }
}
