// The lines of a script as events of a module.
ghost use Rattle.std.specs.Prelude.{All, IfOk};
ghost use Rattle.ddr4_module.specs.WildLives.{WorksWithin};

use line_memory::Write;
use nv_machine::Event;
use nv_profile::Profile;
use nv_script::{ScriptLine, read_script};
use std::alloc::{AllocError, Global};

/// A line that saves makes so many steps; it has ended then, or nothing more comes of it.
const STEPS: u64 = 16;

fn push(events: &mut Vec<Event>, event: Event, channels: u64) -> Result<(), AllocError>
    requires old { All (WorksWithin channels) events.old.items }
    requires event { WorksWithin channels event }
    ensures { All (WorksWithin channels) events.new.items }
{
    events.push(event)?;
    Ok(())
}

// Works a channel so often, where there is one.
fn add_works(
    events: &mut Vec<Event>,
    channel: u64,
    most: u64,
    channels: u64,
) -> Result<(), AllocError>
    requires { All (WorksWithin channels) events.old.items }
    ensures { All (WorksWithin channels) events.new.items }
{
    if channel >= channels {
        return Ok(());
    }
    for _work in 0..most {
        push(events, Event::Work { channel }, channels)?;
    }
    Ok(())
}

// A work of each channel, and a step of the save that runs.
fn add_step(events: &mut Vec<Event>, channels: u64) -> Result<(), AllocError>
    requires { All (WorksWithin channels) events.old.items }
    ensures { All (WorksWithin channels) events.new.items }
{
    for channel in 0..channels {
        push(events, Event::Work { channel }, channels)?;
    }
    push(events, Event::SaveStep, channels)
}

// Begins a save where none runs, and makes so many of its steps.
fn add_steps(events: &mut Vec<Event>, steps: u64, channels: u64) -> Result<(), AllocError>
    requires { All (WorksWithin channels) events.old.items }
    ensures { All (WorksWithin channels) events.new.items }
{
    push(events, Event::SaveBegin, channels)?;
    for _step in 0..steps {
        add_step(events, channels)?;
    }
    Ok(())
}

// The events of a line; none of one that a device or a gauge is told.
fn add_line(events: &mut Vec<Event>, line: ScriptLine, channels: u64) -> Result<(), AllocError>
    requires { All (WorksWithin channels) events.old.items }
    ensures { All (WorksWithin channels) events.new.items }
{
    match line {
        ScriptLine::Write(write) => push(events, Event::Write(write), channels),
        ScriptLine::Read { line } => push(events, Event::Read { line }, channels),
        ScriptLine::Work { channel, most } => add_works(events, channel, most, channels),
        ScriptLine::Sense { .. } => push(events, Event::Sense, channels),
        ScriptLine::Arm => push(events, Event::Arm, channels),
        ScriptLine::Disarm => push(events, Event::Disarm, channels),
        ScriptLine::Save => add_steps(events, STEPS, channels),
        ScriptLine::Step => add_steps(events, 1, channels),
        ScriptLine::Lose => push(events, Event::Lose, channels),
        _ => Ok(()),
    }
}

/// The events of a script, up to this many lines of it, and a loss of mains where that is asked.
pub(crate) fn events_of(
    alloc: Global,
    profile: &Profile,
    script: &str,
    lines: usize,
    loses: bool,
) -> anyhow::Result<Vec<Event>>
    ensures { IfOk result (λ events.
        All (WorksWithin profile.now.checked.geometry.channels) events.items) }
{
    let channels = profile.checked.geometry.channels;
    let script = read_script(alloc, script.as_bytes(), &profile.checked.geometry)?;
    let mut events = Vec::new(alloc);
    for line in script.iter().take(lines) {
        add_line(&mut events, *line, channels)?;
    }
    if loses {
        push(&mut events, Event::Lose, channels)?;
    }
    Ok(events)
}
