// A schedule as VCD, the form of value changes over time that GTKWave reads.
ghost use Rattle.std.specs.Prelude.{◌≡◌, IfOk};
ghost use Rattle.schedule_drawing.specs.Changes.{AreChangesOf, IsBegin, IsEnd, told_lane};

use crate::fault::DrawFault;
use crate::lanes::{Lane, LaneKind};
use crate::layout::Layout;
use crate::schedule::Schedule;
use crate::shapes::Shape;
use command_trace::name_of;
use ddr4_timing::command::Command;
use std::alloc::{AllocError, Global};
use std::io::Write;

/// What a variable of a lane is from a clock on.
#[derive(Clone, Copy)]
enum Value {
    /// A channel's command.
    Command(Option<Command>),
    /// A channel's data.
    Data(Option<Command>),
    /// A bank's row.
    Row(Option<u64>),
    /// Is a rank refreshed?
    Refresh(bool),
}

/// A value of a lane by its place.
#[derive(Clone, Copy)]
struct Change {
    clock: u64,
    place: usize,
    value: Value,
}

impl Change {
    // Does something begin?
    fn begins(&self) -> bool {
        match self.value {
            Value::Command(command) | Value::Data(command) => command.is_some(),
            Value::Row(row) => row.is_some(),
            Value::Refresh(is_refreshed) => is_refreshed,
        }
    }
}

// The lane of which a shape's variable is: a command's is its channel's.
fn told_lane(shape: &Shape) -> Lane
    ensures { result ≡ told_lane shape.now }
{
    match *shape {
        Shape::Mark { lane, .. } => Lane::of_bus(lane.channel),
        Shape::Row { lane, .. } | Shape::Data { lane, .. } | Shape::Refresh { lane, .. } => lane,
    }
}

// Where a shape begins.
fn change_begun(layout: &Layout, shape: &Shape) -> Change
    ensures { IsBegin layout.now.lanes.items shape.now result }
{
    let value = match *shape {
        Shape::Mark { command, .. } => Value::Command(Some(command)),
        Shape::Row { row, .. } => Value::Row(Some(row)),
        Shape::Data { command, .. } => Value::Data(Some(command)),
        Shape::Refresh { .. } => Value::Refresh(true),
    };
    Change {
        clock: shape.from(),
        place: layout.place(&told_lane(shape)),
        value,
    }
}

// Where a shape ends; a command is there for a clock.
fn change_ended(layout: &Layout, shape: &Shape) -> Change
    ensures { IsEnd layout.now.lanes.items shape.now result }
{
    let (clock, value) = match *shape {
        Shape::Mark { clock, .. } => (clock.saturating_add(1), Value::Command(None)),
        Shape::Row { to, .. } => (to, Value::Row(None)),
        Shape::Data { to, .. } => (to, Value::Data(None)),
        Shape::Refresh { to, .. } => (to, Value::Refresh(false)),
    };
    Change {
        clock,
        place: layout.place(&told_lane(shape)),
        value,
    }
}

// The changes of shapes in the order of their clocks; at one clock what ends goes first.
fn changes_of(alloc: Global, layout: &Layout, shapes: &[Shape]) -> Result<Vec<Change>, AllocError>
    ensures { IfOk result (λ changes.
        AreChangesOf layout.now.lanes.items shapes.now changes.items) }
{
    let mut changes = Vec::new(alloc);
    for shape in shapes {
        changes.push(change_begun(layout, shape))?;
        changes.push(change_ended(layout, shape))?;
    }
    changes.sort_by_key(|change: &Change| (change.clock, change.begins()))?;
    Ok(changes)
}

/// Writes a schedule as VCD, with a clock as a unit of time: of each bank whether a row is open and which, of each rank whether it
/// is refreshed, of each channel the command at a clock and the data on its bus.
pub fn write_vcd<W: Write>(
    alloc: Global,
    schedule: &Schedule,
    writer: &mut W,
) -> Result<(), DrawFault> {
    let layout = Layout::of(alloc, &schedule.shapes)?;
    let changes = changes_of(alloc, &layout, &schedule.shapes)?;
    writeln!(
        writer,
        "$comment a unit of time is a clock $end\n$timescale 1 ns $end"
    )?;
    for (place, lane) in layout.lanes.iter().enumerate() {
        declare(place, lane, writer)?;
    }
    writeln!(writer, "$enddefinitions $end\n#0\n$dumpvars")?;
    for (place, lane) in layout.lanes.iter().enumerate() {
        write_initial(place, lane, writer)?;
    }
    writeln!(writer, "$end")?;
    write_changes(&changes, writer)
}

// Declares the variables of a lane. A variable is named by the place of its lane, behind a letter.
fn declare<W: Write>(place: usize, lane: &Lane, writer: &mut W) -> Result<(), DrawFault> {
    writeln!(writer, "$scope module channel_{} $end", lane.channel)?;
    match lane.kind {
        LaneKind::Rank { rank } => writeln!(
            writer,
            "$scope module rank_{rank} $end
$var wire 1 f{place} refresh $end
$upscope $end"
        )?,
        LaneKind::Bank { at } => writeln!(
            writer,
            "$scope module rank_{} $end
$scope module group_{}_bank_{} $end
$var wire 1 o{place} open $end
$var wire 32 r{place} row $end
$upscope $end
$upscope $end",
            at.rank, at.group, at.bank
        )?,
        LaneKind::Bus => writeln!(
            writer,
            "$var string 1 c{place} command $end
$var string 1 d{place} data $end"
        )?,
    }
    writeln!(writer, "$upscope $end")?;
    Ok(())
}

// Nothing is open, refreshed or commanded, and there is no data.
fn write_initial<W: Write>(place: usize, lane: &Lane, writer: &mut W) -> Result<(), DrawFault> {
    match lane.kind {
        LaneKind::Rank { .. } => write_value(place, &Value::Refresh(false), writer),
        LaneKind::Bank { .. } => write_value(place, &Value::Row(None), writer),
        LaneKind::Bus => {
            write_value(place, &Value::Command(None), writer)?;
            write_value(place, &Value::Data(None), writer)
        }
    }
}

fn write_changes<W: Write>(changes: &[Change], writer: &mut W) -> Result<(), DrawFault> {
    let mut last = 0;
    for change in changes {
        if change.clock != last {
            writeln!(writer, "#{}", change.clock)?;
            last = change.clock;
        }
        write_value(change.place, &change.value, writer)?;
    }
    Ok(())
}

fn write_value<W: Write>(place: usize, value: &Value, writer: &mut W) -> Result<(), DrawFault> {
    match *value {
        Value::Command(command) => writeln!(writer, "s{} c{place}", name_or_none(&command))?,
        Value::Data(command) => writeln!(writer, "s{} d{place}", name_or_none(&command))?,
        Value::Row(Some(row)) => writeln!(writer, "1o{place}\nb{row:b} r{place}")?,
        Value::Row(None) => writeln!(writer, "0o{place}\nbx r{place}")?,
        Value::Refresh(true) => writeln!(writer, "1f{place}")?,
        Value::Refresh(false) => writeln!(writer, "0f{place}")?,
    }
    Ok(())
}

fn name_or_none(command: &Option<Command>) -> &'static str {
    match command {
        Some(command) => name_of(command),
        None => "-",
    }
}
