// What the commands and the requests of a run's lives come to, written.
ghost use Rattle.std.specs.Prelude.{ℕ, List, OnOk, is_none, length, min};
ghost use Rattle.std.specs.Io.KnownBytes.{Appends};
ghost use Rattle.run_command.specs.Lives.{TellsLifeAt, TellsLifeNumbers, TellsNumbers};
ghost use Rattle.run_command.specs.Whole.{WritesBehind};
ghost use Rattle.trace_statistics.specs.Telling.{TellsBelow};

use crate::requests::{LifeWaits, waits_of_lives};
use command_faults::{Failure, ProgramFault, flush};
use command_trace::TraceFault;
use ddr4_timing::timing::CommandRules;
use nv_profile::Profile;
use nv_script::{Answer, read_script};
use script_runner::{KeptRun, LifeCommands};
use statistics_report::{write_life, write_waits};
use std::alloc::Global;
use std::io::Write;
use trace_statistics::measure_lists;

// Writes the statistics of the channels of a life, as those of a trace that has their commands.
fn write_numbers<W: Write>(
    alloc: Global,
    rules: &CommandRules,
    life: &LifeCommands,
    is_json: bool,
    writer: &mut W,
) -> Result<(), TraceFault>
    ensures { OnOk result ((text : List ℕ) × TellsNumbers rules.now is_json life.now text
        × Appends (W.contents writer.old) (W.contents writer.new) text) }
{
    let measured = measure_lists(rules, life.channels());
    if is_json {
        statistics_report::write_statistics(alloc, rules, &measured, writer)
    } else {
        trace_statistics::write_statistics(rules, &measured, writer)
    }
}

// Writes what a life comes to: its number, the statistics of its channels, and how long its requests waited.
fn write_life_statistics<W: Write>(
    alloc: Global,
    rules: &CommandRules,
    number: u64,
    life: &LifeCommands,
    waits: &LifeWaits,
    is_json: bool,
    writer: &mut W,
) -> Result<(), TraceFault>
    ensures { OnOk result ((text : List ℕ)
        × TellsLifeNumbers rules.now is_json number life.now waits.now text
        × Appends (W.contents writer.old) (W.contents writer.new) text) }
{
    write_life(alloc, number, is_json, writer)?;
    write_numbers(alloc, rules, life, is_json, writer)?;
    write_waits(alloc, "reads", &waits.reads, is_json, writer)?;
    write_waits(alloc, "writes", &waits.writes, is_json, writer)
}

// Writes what each life of a run comes to, numbered from 1, as lines or as objects.
fn write_statistics<W: Write>(
    alloc: Global,
    rules: &CommandRules,
    lives: &[LifeCommands],
    waits: &[LifeWaits],
    is_json: bool,
    writer: &mut W,
) -> Result<(), Failure<'static>>
    ensures { OnOk result ((text : List ℕ)
        × TellsBelow (TellsLifeAt rules.now is_json lives.now waits.now)
        (min (length lives.now) (length waits.now)) text
        × Appends (W.contents writer.old) (W.contents writer.new) text) }
{
    for index in 0..lives.len().min(waits.len()) {
        let (life, waits) = (&lives[index], &waits[index]);
        let number = index as u64 + 1;
        match write_life_statistics(alloc, rules, number, life, waits, is_json, writer) {
            Ok(()) => {}
            Err(TraceFault::Memory) => return Err(Failure::from(ProgramFault::Memory)),
            Err(_) => return Err(Failure::from(ProgramFault::File("-"))),
        }
    }
    Ok(())
}

/// Writes the statistics of a run, which are made of its answers. It writes nothing where these weren't kept.
pub(crate) fn write_behind<'a, W: Write>(
    alloc: Global,
    profile: &Profile,
    script: &[u8],
    answers: Option<Vec<Answer>>,
    run: &KeptRun,
    is_json: bool,
    writer: &mut W,
) -> Result<(), Failure<'a>>
    ensures { OnOk result (WritesBehind (is_none answers)
        (W.contents writer.old) (W.contents writer.new)) }
{
    let Some(answers) = answers else {
        return Ok(());
    };
    let lines = read_script(alloc, script, &profile.checked.geometry)?;
    let waits = waits_of_lives(alloc, profile, &lines, &answers, run)?;
    let rules = profile.checked.rules();
    write_statistics(alloc, &rules, run.lives(), &waits, is_json, writer)?;
    flush(writer)?;
    Ok(())
}
