// A trace, checked and measured.
ghost use Rattle.std.specs.Prelude.{◌≡◌, ℕ, [], ◌∷◌, ◌++◌, ◌<◌, ◌≤◌, ◌^◌, List, Option, IfOk};
ghost use Rattle.command_trace.specs.Channels.{FollowsAll};
ghost use Rattle.command_trace.specs.Sources.{bytes_of};
ghost use Rattle.command_trace.specs.Traces.{AreCommandsOf, HasRead};
ghost use Rattle.trace_statistics.specs.Standing.{AreOfLawful};

use crate::statistics::TraceStatistics;
use command_trace::{Form, Located, MOST_CHANNELS, Source, TraceCheck, TraceFault, TraceReader};
use ddr4_timing::timing::CommandRules;
use std::alloc::Global;
use std::fs::File;
use std::io::{self, Read};
use std::rt::Files;

/// The check of a trace, and the statistics of its channels whose commands are lawful.
#[derive(Drop)]
pub struct Measured {
    pub check: TraceCheck,
    pub statistics: TraceStatistics,
}

impl Measured {
    /// Before any command, by the numbers of a profile.
    pub(crate) fn new(rules: &CommandRules) -> Measured
        ensures follows { FollowsAll rules.now result.check }
        ensures rules { result.statistics.rules ≡ rules.now }
        ensures none { result.check.given.items ≡ [] }
        ensures uncounted { result.statistics.given.items ≡ [] }
    {
        Measured {
            check: TraceCheck::new(rules),
            statistics: TraceStatistics::new(rules),
        }
    }

    /// Takes the next command in: checks it, and counts it where the commands of its channel are lawful until now.
    pub(crate) fn take(&mut self, rules: &CommandRules, next: &Located)
        requires channel { next.now.entry.channel < MOST_CHANNELS }
        requires clock { next.now.entry.command.clock < 2 ^ 63 }
        requires follows { FollowsAll rules.now self.old.check }
        requires rules { self.old.statistics.rules ≡ rules.now }
        ensures follows { FollowsAll rules.now self.new.check }
        ensures adds { self.new.check.given.items ≡ self.old.check.given.items ++ next.now ∷ [] }
        ensures lawful { AreOfLawful rules.now
            self.old.check.given.items self.old.statistics.given.items → AreOfLawful rules.now
            self.new.check.given.items self.new.statistics.given.items }
        ensures rules { self.new.statistics.rules ≡ rules.now }
    {
        if self.check.take(rules, next) {
            self.statistics.take(next);
        }
    }
}

/// Reads a trace to its end, checks the commands of each channel and counts them. Takes the same memory for each trace.
pub fn measure_trace<R: Read + Drop>(
    rules: &CommandRules,
    reader: &mut TraceReader<R>,
) -> Result<Measured, TraceFault>
    requires channels { reader.old.channels ≤ 8 }
    requires fresh { reader.old.given.items ≡ [] }
    ensures follows { IfOk result (λ m. FollowsAll rules.now m.check) }
    ensures whole { IfOk result (λ m. m.check.given.items ≡ reader.new.given.items) }
    ensures reads { (bytes : Option (List ℕ)) → HasRead R.remaining bytes reader.old [] →
        IfOk result (λ m. AreCommandsOf reader.old.form bytes m.check.given.items) }
    ensures lawful { IfOk result (λ m. AreOfLawful rules.now
        m.check.given.items m.statistics.given.items) }
    ensures rules { IfOk result (λ m. m.statistics.rules ≡ rules.now) }
{
    let mut measured = Measured::new(rules);
    for _ in 0..u64::MAX {
        let Some(found) = reader.next()? else {
            return Ok(measured);
        };
        measured.take(rules, &found);
    }
    // more commands than can be counted
    Err(TraceFault::Reader)
}

/// Reads the trace of a source to its end, checks it and counts. A line that is no command is refused by its number.
pub fn measure<R: Files + AllocGlobal>(
    rt: &R,
    source: &Source<'_>,
    form: Form,
    rules: &CommandRules,
) -> Result<Measured, TraceFault>
    ensures follows { IfOk result (λ m. FollowsAll rules.now m.check) }
    ensures reads { IfOk result (λ m.
        AreCommandsOf form (bytes_of source.now) m.check.given.items) }
    ensures lawful { IfOk result (λ m. AreOfLawful rules.now
        m.check.given.items m.statistics.given.items) }
    ensures rules { IfOk result (λ m. m.statistics.rules ≡ rules.now) }
{
    match source {
        Source::File(name) => measure_of(rt.alloc(), open(rt, name)?, form, rules),
        Source::Bytes(bytes) => measure_of(rt.alloc(), bytes.as_slice(), form, rules),
    }
}

fn measure_of<S: Read + Drop>(
    alloc: Global,
    trace: S,
    form: Form,
    rules: &CommandRules,
) -> Result<Measured, TraceFault>
    ensures follows { IfOk result (λ m. FollowsAll rules.now m.check) }
    ensures reads { IfOk result (λ m.
        AreCommandsOf form (S.remaining trace) m.check.given.items) }
    ensures lawful { IfOk result (λ m. AreOfLawful rules.now
        m.check.given.items m.statistics.given.items) }
    ensures rules { IfOk result (λ m. m.statistics.rules ≡ rules.now) }
{
    let mut reader = TraceReader::new(alloc, trace, form, rules.geometry.channels);
    measure_trace(rules, &mut reader)
}

fn open<R: Files>(rt: &R, name: &str) -> Result<R::File, TraceFault> {
    match File::open(rt, name) {
        Ok(file) => Ok(file),
        Err(error) if error.kind() == io::ErrorKind::OutOfMemory => Err(TraceFault::Memory),
        Err(_) => Err(TraceFault::Reader),
    }
}
