// The schedule that the answers of a script tell.
ghost use Rattle.std.specs.Prelude.{◌≡◌, ◌<◌, ◌≤◌, ◌++◌, false, length, map, take, drop, filter_map, All, IfOk, OnOk};
ghost use Rattle.std.specs.Option.{option_map};
ghost use Rattle.schedule_drawing.specs.Events.{clock_behind, event_place, events_told, kind_of, mode_of, places_told};
ghost use Rattle.schedule_drawing.specs.Schedules.{AddsLife, ShowsSame};
ghost use Rattle.schedule_drawing.specs.Telling.{IsOneLife, StartsLife, TellsAll, begins_life};

use crate::schedule::{EventKind, Schedule, ScheduleEvent};
use arm_state::Loss;
use command_trace::ChannelCommand;
use ddr4_timing::command::Stamped;
use ddr4_timing::timing::Timing;
use nv_script::Answer;
use std::alloc::{AllocError, Global};

// Does a life begin with the answer?
fn is_beginning(answer: &Answer) -> bool
    ensures { result ≡ begins_life answer.now }
{
    matches!(*answer, Answer::Formatted | Answer::Restored { .. })
}

// The command that an answer tells, of a life whose clocks begin with this one.
fn entry_told(begin: u64, answer: &Answer) -> Option<ChannelCommand>
    ensures { result ≡ Rattle.schedule_drawing.specs.Events.entry_told begin answer.now }
{
    match *answer {
        Answer::Issued { channel, command } => Some(ChannelCommand {
            channel,
            command: Stamped {
                clock: begin.saturating_add(command.clock),
                cmd: command.cmd,
            },
        }),
        _ => None,
    }
}

// The commands that answers tell, of a life whose clocks begin with this one.
fn entries_told(
    alloc: Global,
    begin: u64,
    answers: &[Answer],
) -> Result<Vec<ChannelCommand>, AllocError>
    ensures { IfOk result (λ entries. entries.items
        ≡ filter_map (Rattle.schedule_drawing.specs.Events.entry_told begin) answers.now) }
{
    let mut entries = Vec::new(alloc);
    let mut left = answers;
    while let [answer, behind @ ..] = left {
        if let Some(entry) = entry_told(begin, answer) {
            entries.push(entry)?;
        }
        left = behind;
    }
    Ok(entries)
}

// How many answers stand before the next one that begins a life.
fn others_of_life(behind: &[Answer]) -> usize
    ensures within { result ≤ length behind.now }
    ensures others { All (λ answer. begins_life answer ≡ false) (take result behind.now) }
    ensures next { StartsLife (drop result behind.now) }
{
    behind.iter().position(is_beginning).unwrap_or(behind.len())
}

// How many of the answers tell the first life.
fn life_length(answers: &[Answer]) -> usize
    requires some { 0 < length answers.now }
    ensures some { 0 < result }
    ensures within { result ≤ length answers.now }
    ensures one { IsOneLife (take result answers.now) }
    ensures next { StartsLife (drop result answers.now) }
{
    1 + others_of_life(&answers[1..])
}

// The lane of events in which an answer stands, where it stands in one.
fn kind_of(answer: &Answer) -> Option<EventKind>
    ensures { result ≡ kind_of answer.now }
{
    match answer {
        Answer::Formatted | Answer::Restored { .. } => Some(EventKind::Device),
        Answer::Lost(Loss::Saved { .. } | Loss::Fault) => Some(EventKind::Device),
        Answer::Saved { .. } | Answer::Stepped(_) | Answer::StepRetry => Some(EventKind::Device),
        Answer::RestoreRefused(_) => Some(EventKind::Device),
        Answer::SaveFault | Answer::ArmFault | Answer::FormatFault => Some(EventKind::Device),
        Answer::Lost(_) | Answer::Level { .. } | Answer::Armed => Some(EventKind::Mode),
        Answer::Disarming | Answer::StepDisarming => Some(EventKind::Mode),
        _ => None,
    }
}

// The mode that begins with an answer of the device.
fn mode_of(answer: &Answer) -> Option<&'static str>
    ensures { option_map (λ word. word.now) result ≡ mode_of answer.now }
{
    match answer {
        Answer::Formatted | Answer::Restored { .. } => Some("disarmed"),
        Answer::Lost(Loss::Saved { .. } | Loss::Fault) => Some("mains lost"),
        _ => None,
    }
}

// The last clock of the commands that were told, with the one that an answer tells.
fn clock_behind(begin: u64, clock: u64, answer: &Answer) -> u64
    ensures { result ≡ clock_behind begin clock answer.now }
{
    match entry_told(begin, answer) {
        Some(entry) => clock.max(entry.command.clock),
        None => clock,
    }
}

// The events that an answer tells at a clock: the answer in its lane, and the mode that begins with it.
fn tell_answer(
    alloc: Global,
    events: &mut Vec<ScheduleEvent>,
    clock: u64,
    answer: &Answer,
) -> Result<(), AllocError>
    ensures { OnOk result (map event_place events.new.items
        ≡ map event_place events.old.items ++ places_told clock answer.now) }
{
    if let Some(kind) = kind_of(answer) {
        let text = format!(in alloc; "{answer}")?;
        events.push(ScheduleEvent { clock, kind, text })?;
    }
    if let Some(mode) = mode_of(answer) {
        let text = mode.to_string(alloc)?;
        let kind = EventKind::Mode;
        events.push(ScheduleEvent { clock, kind, text })?;
    }
    Ok(())
}

// The events that answers of a life tell: each behind the commands that were told before it.
fn tell_events(
    alloc: Global,
    events: &mut Vec<ScheduleEvent>,
    begin: u64,
    answers: &[Answer],
) -> Result<(), AllocError>
    ensures { OnOk result (map event_place events.new.items
        ≡ map event_place events.old.items ++ events_told begin begin answers.now) }
{
    let mut clock = begin;
    let mut left = answers;
    while let [answer, behind @ ..] = left {
        clock = clock_behind(begin, clock, answer);
        tell_answer(alloc, events, clock, answer)?;
        left = behind;
    }
    Ok(())
}

// Takes in a life, whose clocks begin with this one.
fn tell_life(
    alloc: Global,
    schedule: &mut Schedule,
    t: &Timing,
    begin: u64,
    answers: &[Answer],
) -> Result<(), AllocError>
    ensures life { OnOk result (AddsLife t.now begin
        (filter_map (Rattle.schedule_drawing.specs.Events.entry_told begin) answers.now)
        schedule.old schedule.new) }
    ensures events { OnOk result (map event_place schedule.new.events.items
        ≡ map event_place schedule.old.events.items ++ events_told begin begin answers.now) }
    ensures flaws { schedule.new.flaws ≡ schedule.old.flaws }
    ensures shown { ShowsSame schedule.old schedule.new }
{
    let entries = entries_told(alloc, begin, answers)?;
    schedule.add(alloc, t, begin, &entries)?;
    tell_events(alloc, &mut schedule.events, begin, answers)
}

/// The schedule of a script as far as its answers tell it: life by life, each command that they tell, in its turn, and the calls
/// of the device and modes beside them. A life begins with a formatting or a restore; what stands before the first one is drawn
/// as a life too.
pub fn told_schedule(alloc: Global, t: &Timing, answers: &[Answer]) -> Result<Schedule, AllocError>
    ensures { IfOk result (λ schedule. TellsAll t.now answers.now schedule) }
{
    let mut schedule = Schedule::new(alloc);
    let mut left = answers;
    while !left.is_empty() {
        let (life, rest) = left.split_at(life_length(left));
        let begin = schedule.next_begin();
        tell_life(alloc, &mut schedule, t, begin, life)?;
        left = rest;
    }
    Ok(schedule)
}
