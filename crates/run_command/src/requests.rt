// The requests of a run's lives, and how long they waited.
ghost use Rattle.std.specs.Prelude.{◌≡◌, ◌++◌, [], IfOk, OnOk};
ghost use Rattle.request_waits.specs.Writes.{write_waits_of};
ghost use Rattle.run_command.specs.Answered.{answered_lines};
ghost use Rattle.run_command.specs.Requests.{AreRequests, TellsLife, TellsLives, TellsWaits, clock_behind, commands_of, count_before_begin, count_behind, lists_of, more_waiting, place_in, read_wait, reads_of, reads_told, scene_of, writes_to, writes_told};

use crate::answered::{AnsweredLine, answered_lines, map_begun};
use ddr4_timing::command::Stamped;
use ddr4_timing::place::Place;
use interleave_map::ReadyMap;
use interleave_map::cells::line_count;
use interleave_map::line_map::LineMap;
use nv_profile::Profile;
use nv_script::{Answer, ScriptLine};
use request_waits::{AcceptedWrite, Waits, clock_after, write_waits};
use script_runner::KeptRun;
use statistics_report::KindWaits;
use std::alloc::{AllocError, Global};

/// How long the requests of a life waited.
#[derive(Clone, Copy, Debug)]
pub(crate) struct LifeWaits {
    pub(crate) reads: KindWaits,
    pub(crate) writes: KindWaits,
}

// The commands of a channel of a life.
fn commands_of(run: &KeptRun, life: usize, channel: usize) -> &[Stamped]
    ensures { result.now ≡ commands_of run.now life channel }
{
    let Some(life) = run.lives().get(life) else {
        return &[];
    };
    match life.channels().get(channel) {
        Some(commands) => commands,
        None => &[],
    }
}

// How many of them it had issued behind so many lines of the script.
fn count_behind(run: &KeptRun, channel: usize, lines: usize) -> usize
    ensures { result ≡ count_behind run.now channel lines }
{
    let Some(counts) = run.counts().get(lines) else {
        return 0;
    };
    counts.get(channel).copied().unwrap_or(0)
}

// The clock of a channel of a life behind so many lines of the script.
fn clock_behind(run: &KeptRun, life: usize, channel: usize, lines: usize) -> u64
    ensures { result ≡ clock_behind run.now life channel lines }
{
    let commands = commands_of(run, life, channel);
    clock_after(commands, count_behind(run, channel, lines))
}

// How long a read of a channel waited that was answered at the line of this number.
fn read_wait(run: &KeptRun, life: usize, channel: usize, number: usize) -> u64
    ensures { result ≡ read_wait run.now life channel number }
{
    let answered = clock_behind(run, life, channel, number);
    answered.saturating_sub(clock_behind(run, life, channel, number.saturating_sub(1)))
}

// How long the writes of a life waited.
fn waits_in(
    alloc: Global,
    run: &KeptRun,
    life: usize,
    writes: &[AcceptedWrite],
) -> Result<Vec<u64>, AllocError>
    ensures { IfOk result (λ waits. waits.items
        ≡ write_waits_of (lists_of run.now life) writes.now) }
{
    match run.lives().get(life) {
        Some(life) => write_waits(alloc, life.channels(), writes),
        None => Ok(Vec::new(alloc)),
    }
}

// The requests of the life that runs, by what is kept of its run: the writes that were accepted, how long each read that was answered
// waited, and how many reads weren't.
#[derive(Drop)]
struct Requests<'r> {
    run: &'r KeptRun,
    // how many lives come before
    life: usize,
    map: ReadyMap,
    writes: Vec<AcceptedWrite>,
    reads: Vec<u64>,
    unanswered: usize,
}

impl<'r> Requests<'r> {
    // Of a life that begins, over this map.
    fn new(alloc: Global, run: &'r KeptRun, life: usize, map: ReadyMap) -> Requests<'r>
        ensures { AreRequests (record { run = run.now; life = life; map = map }) [] [] 0 result }
    {
        Requests {
            run,
            life,
            map,
            writes: Vec::new(alloc),
            reads: Vec::new(alloc),
            unanswered: 0,
        }
    }

    // The place of a line; None where there is no such line.
    fn place(&self, line: u64) -> Option<Place>
        ensures { result ≡ place_in self.now.map line }
    {
        if line < line_count(&self.map.checked) {
            Some(self.map.place(line))
        } else {
            None
        }
    }

    // A write of a line was accepted at a line of the script.
    fn accept(&mut self, line: u64, number: usize) -> Result<(), AllocError>
        ensures { OnOk result (AreRequests (scene_of self.old)
            (self.old.writes.items ++ writes_to (scene_of self.old) line number)
            self.old.reads.items self.old.unanswered self.new) }
    {
        if let Some(place) = self.place(line) {
            let before = number.saturating_sub(1);
            let clock = clock_behind(self.run, self.life, place.channel as usize, before);
            self.writes.push(AcceptedWrite { place, clock })?;
        }
        Ok(())
    }

    // A read of a line was answered at a line of the script.
    fn answer(&mut self, line: u64, number: usize) -> Result<(), AllocError>
        ensures { OnOk result (AreRequests (scene_of self.old) self.old.writes.items
            (self.old.reads.items ++ reads_of (scene_of self.old) line number)
            self.old.unanswered self.new) }
    {
        if let Some(place) = self.place(line) {
            let wait = read_wait(self.run, self.life, place.channel as usize, number);
            self.reads.push(wait)?;
        }
        Ok(())
    }

    // Takes in a line of the script by its answer.
    fn take(&mut self, line: &AnsweredLine) -> Result<(), AllocError>
        ensures { OnOk result (AreRequests (scene_of self.old)
            (self.old.writes.items ++ writes_told (scene_of self.old) line.now)
            (self.old.reads.items ++ reads_told (scene_of self.old) line.now)
            (more_waiting self.old.unanswered line.now) self.new) }
    {
        match (line.line, line.answer) {
            (ScriptLine::Write(write), Answer::Accepted { .. }) => {
                self.accept(write.line, line.number)
            }
            (ScriptLine::Read { line: read }, Answer::Content { .. }) => {
                self.answer(read, line.number)
            }
            (ScriptLine::Read { .. }, Answer::ReadWaiting { .. }) => {
                self.unanswered = self.unanswered.saturating_add(1);
                Ok(())
            }
            _ => Ok(()),
        }
    }

    // What they come to, at the end of the life.
    fn waits(self, alloc: Global) -> Result<LifeWaits, AllocError>
        ensures { IfOk result (TellsWaits (lists_of self.entry.run.now self.entry.life)
            self.entry.writes.items self.entry.reads.items self.entry.unanswered) }
    {
        let Requests {
            run,
            life,
            writes,
            reads,
            unanswered,
            ..
        } = self;
        let waits = waits_in(alloc, run, life, &writes)?;
        let waiting = writes.len().saturating_sub(waits.len());
        Ok(LifeWaits {
            reads: KindWaits {
                waits: Waits::of(reads)?,
                waiting: unanswered,
            },
            writes: KindWaits {
                waits: Waits::of(waits)?,
                waiting,
            },
        })
    }
}

// How long the requests of a life waited, which begins over this map behind so many lives of the run: of these lines.
fn waits_of_life(
    alloc: Global,
    run: &KeptRun,
    life: usize,
    map: ReadyMap,
    lines: &[AnsweredLine],
) -> Result<LifeWaits, AllocError>
    ensures { IfOk result (TellsLife run.now life map lines.now) }
{
    let mut requests = Requests::new(alloc, run, life, map);
    for line in lines {
        requests.take(line)?;
    }
    requests.waits(alloc)
}

// How many of these lines stand before the first that begins a life.
fn count_before_begin(profile: &Profile, lines: &[AnsweredLine]) -> usize
    ensures { result ≡ count_before_begin profile.now lines.now }
{
    for index in 0..lines.len() {
        if map_begun(profile, &lines[index]).is_some() {
            return index;
        }
    }
    lines.len()
}

/// How long the requests of each life of a run waited: of these lines, by their answers and by what is kept of the run.
pub(crate) fn waits_of_lives(
    alloc: Global,
    profile: &Profile,
    lines: &[ScriptLine],
    answers: &[Answer],
    run: &KeptRun,
) -> Result<Vec<LifeWaits>, AllocError>
    ensures { IfOk result (λ lives. TellsLives profile.now run.now 0
        (answered_lines 1 lines.now answers.now) lives.items) }
{
    let answered = answered_lines(alloc, lines, answers)?;
    let mut lives = Vec::new(alloc);
    for index in 0..answered.len() {
        if let Some(map) = map_begun(profile, &answered[index]) {
            let later = &answered[index + 1..];
            let own = &later[..count_before_begin(profile, later)];
            lives.push(waits_of_life(alloc, run, lives.len(), map, own)?)?;
        }
    }
    Ok(lives)
}
