// The check of a file's trace.
ghost use Rattle.std.specs.Prelude.{◌<◌, ◌↔◌, IfOk, IfSome, IsNone};
ghost use Rattle.command_trace.specs.Channels.{FollowsAll, issued_to};
ghost use Rattle.auto_precharge.specs.FullLists.{AreEarly};
ghost use Rattle.command_trace.specs.Reading.{IsFormWith};
ghost use Rattle.command_trace.specs.Sources.{AreIssuedOf, ListsAll};
ghost use Rattle.command_trace.specs.Traces.{AreCommandsOf};
ghost use Rattle.auto_precharge.specs.Unfolding.{IsLawfulTrace};

use crate::diagnosis::{Diagnosis, Listed, check_trace, list_commands, list_issued};
use crate::reading::{Form, TraceFault, TraceReader, form_of};
use crate::tally::{BrokenRule, tallies};
use crate::trace_check::{MOST_CHANNELS, TraceCheck};
use crate::why::diagnose;
use auto_precharge::Issued;
use ddr4_timing::timing::CommandRules;
use std::alloc::Global;
use std::fs::File;
use std::io::{self, Read};
use std::rt::Files;

/// Where a trace comes from. It is read twice, to learn its form and to check it, and once more for each channel that has a
/// fault.
#[derive(Drop)]
pub enum Source<'a> {
    /// The file of this name.
    File(&'a str),
    /// These bytes.
    Bytes(Vec<u8>),
}

impl Source<'_> {
    ghost use Rattle.command_trace.specs.Sources.{AreTalliesOf, HasFault, bytes_of};

    /// The form of its trace. `others` says whether other lines of a run are passed over.
    pub fn form<R: Files + AllocGlobal>(&self, rt: &R, others: bool) -> Result<Form, TraceFault>
        ensures { IfOk result (IsFormWith others) }
    {
        match self {
            Source::File(name) => form_of(rt.alloc(), open(rt, name)?, others),
            Source::Bytes(bytes) => form_of(rt.alloc(), bytes.as_slice(), others),
        }
    }

    /// Checks the commands of its trace, whose form is this. A line that is no command is refused by its number.
    pub fn check<R: Files + AllocGlobal>(
        &self,
        rt: &R,
        form: Form,
        rules: &CommandRules,
    ) -> Result<TraceCheck, TraceFault>
        ensures follows { IfOk result (FollowsAll rules.now) }
        ensures reads { IfOk result (λ check.
            AreCommandsOf form (bytes_of self.now) check.given.items) }
    {
        match self {
            Source::File(name) => check_of(rt.alloc(), open(rt, name)?, form, rules),
            Source::Bytes(bytes) => check_of(rt.alloc(), bytes.as_slice(), form, rules),
        }
    }

    // All commands of a channel.
    fn list<R: Files + AllocGlobal>(
        &self,
        rt: &R,
        form: Form,
        channel: u64,
    ) -> Result<Listed, TraceFault>
        ensures { IfOk result (ListsAll form (bytes_of self.now) channel) }
    {
        match self {
            Source::File(name) => list_of(rt.alloc(), open(rt, name)?, form, channel),
            Source::Bytes(bytes) => list_of(rt.alloc(), bytes.as_slice(), form, channel),
        }
    }

    // The commands of a channel as far as a line, with all that the trace tells of each.
    fn issued<R: Files + AllocGlobal>(
        &self,
        rt: &R,
        form: Form,
        channel: u64,
        last: u64,
    ) -> Result<Vec<Issued>, TraceFault>
        ensures early { IfOk result (λ issued. AreEarly issued.items) }
        ensures reads { IfOk result (λ issued.
            AreIssuedOf form (bytes_of self.now) channel last issued.items) }
    {
        match self {
            Source::File(name) => issued_of(rt.alloc(), open(rt, name)?, form, channel, last),
            Source::Bytes(bytes) => issued_of(rt.alloc(), bytes.as_slice(), form, channel, last),
        }
    }

    /// The least fault of a channel, by the check of its trace; none where its commands are lawful. A file that isn't what it was
    /// any more is refused.
    pub fn diagnosis<R: Files + AllocGlobal>(
        &self,
        rt: &R,
        form: Form,
        rules: &CommandRules,
        check: &TraceCheck,
        channel: u64,
    ) -> Result<Option<Diagnosis>, TraceFault>
        requires { channel < MOST_CHANNELS }
        ensures none { FollowsAll rules.now check.now → IfOk result (λ found. IsNone found
            ↔ IsLawfulTrace rules.now (issued_to channel check.now.given.items)) }
        ensures fault { FollowsAll rules.now check.now → IfOk result (λ found. IfSome found
            (HasFault rules.now form (bytes_of self.now) channel check.now)) }
    {
        if check.is_lawful(rules, channel) {
            return Ok(None);
        }
        let issued = self.issued(rt, form, channel, check.line(channel))?;
        match diagnose(rt.alloc(), rules, &issued)? {
            Some(found) => Ok(Some(found)),
            // the file isn't what it was
            None => Err(TraceFault::Reader),
        }
    }

    /// The rules that the commands of a channel break, of each how many commands do, and the first of them.
    pub fn tallies<R: Files + AllocGlobal>(
        &self,
        rt: &R,
        form: Form,
        rules: &CommandRules,
        channel: u64,
    ) -> Result<Vec<BrokenRule>, TraceFault>
        ensures { IfOk result (λ told.
            AreTalliesOf rules.now form (bytes_of self.now) channel told.items) }
    {
        let listed = self.list(rt, form, channel)?;
        Ok(tallies(rt.alloc(), rules, &listed)?)
    }
}

fn open<R: Files>(rt: &R, name: &str) -> Result<R::File, TraceFault> {
    match File::open(rt, name) {
        Ok(file) => Ok(file),
        Err(error) if error.kind() == io::ErrorKind::OutOfMemory => Err(TraceFault::Memory),
        Err(_) => Err(TraceFault::Reader),
    }
}

fn check_of<S: Read + Drop>(
    alloc: Global,
    trace: S,
    form: Form,
    rules: &CommandRules,
) -> Result<TraceCheck, TraceFault>
    ensures follows { IfOk result (FollowsAll rules.now) }
    ensures reads { IfOk result (λ check.
        AreCommandsOf form (S.remaining trace) check.given.items) }
{
    let mut reader = TraceReader::new(alloc, trace, form, rules.geometry.channels);
    check_trace(rules, &mut reader)
}

fn issued_of<S: Read + Drop>(
    alloc: Global,
    trace: S,
    form: Form,
    channel: u64,
    last: u64,
) -> Result<Vec<Issued>, TraceFault>
    ensures early { IfOk result (λ issued. AreEarly issued.items) }
    ensures reads { IfOk result (λ issued.
        AreIssuedOf form (S.remaining trace) channel last issued.items) }
{
    let mut reader = TraceReader::new(alloc, trace, form, MOST_CHANNELS);
    list_issued(alloc, &mut reader, channel, last)
}

fn list_of<S: Read + Drop>(
    alloc: Global,
    trace: S,
    form: Form,
    channel: u64,
) -> Result<Listed, TraceFault>
    ensures { IfOk result (ListsAll form (S.remaining trace) channel) }
{
    let mut reader = TraceReader::new(alloc, trace, form, MOST_CHANNELS);
    list_commands(alloc, &mut reader, channel, u64::MAX)
}
