// The check of a trace, and the commands of a channel in a list.
ghost use Rattle.std.specs.Prelude.{◌≡◌, ℕ, [], ◌∷◌, ◌++◌, ◌≤◌, ◌<◌, ◌^◌, ◌-◌, List, Option, length, slice_get, slice_index, Some, IfOk, OnOk};
ghost use Rattle.command_trace.specs.Channels.{FollowsAll, Lists, found_up_to, issued_to};
ghost use Rattle.auto_precharge.specs.FullLists.{AreEarly};
ghost use Rattle.command_trace.specs.Tallies.{IsToldAt};
ghost use Rattle.command_trace.specs.Traces.{AreCommandsOf, AreFirstOf, HasRead};
ghost use Rattle.command_trace.specs.declared.entry.Located.{Located};

use crate::entry::Located;
use crate::no_command::NoCommand;
use crate::reading::{TraceFault, TraceReader};
use crate::reason::Reason;
use crate::trace_check::TraceCheck;
use auto_precharge::Issued;
use ddr4_timing::command::Stamped;
use ddr4_timing::fault::Fault;
use ddr4_timing::timing::CommandRules;
use std::alloc::{AllocError, Global};
use std::fmt;
use std::io::Read;

/// Reads a trace to its end, and checks the commands of each channel. Takes the same memory for each trace.
pub fn check_trace<R: Read + Drop>(
    rules: &CommandRules,
    reader: &mut TraceReader<R>,
) -> Result<TraceCheck, TraceFault>
    requires channels { reader.old.channels ≤ 8 }
    requires fresh { reader.old.given.items ≡ [] }
    ensures follows { IfOk result (FollowsAll rules.now) }
    ensures whole { IfOk result (λ check. check.given.items ≡ reader.new.given.items) }
    ensures reads { (bytes : Option (List ℕ)) → HasRead R.remaining bytes reader.old [] →
        IfOk result (λ check. AreCommandsOf reader.old.form bytes check.given.items) }
{
    let mut check = TraceCheck::new(rules);
    for _ in 0..u64::MAX {
        let Some(found) = reader.next()? else {
            return Ok(check);
        };
        // `is_lawful` and `are_lawful` of the check answer it in the end
        let _lawful = check.take(rules, &found);
    }
    // more commands than can be counted
    Err(TraceFault::Reader)
}

/// The commands of one channel, and the line of each.
#[derive(Drop)]
pub struct Listed {
    pub commands: Vec<Stamped>,
    pub lines: Vec<u64>,
}

/// Reads a trace as far as a line, and lists the commands of a channel and the line of each. A command with auto-precharge isn't
/// one of such a list, and its line is refused.
pub fn list_commands<R: Read + Drop>(
    alloc: Global,
    reader: &mut TraceReader<R>,
    channel: u64,
    last: u64,
) -> Result<Listed, TraceFault>
    requires { reader.old.given.items ≡ [] }
    ensures lists { IfOk result (λ listed.
        Lists channel listed (found_up_to last reader.new.given.items)) }
    ensures whole { last ≡ 2 ^ 64 - 1 → IfOk result (λ listed.
        Lists channel listed reader.new.given.items) }
    ensures reads { last ≡ 2 ^ 64 - 1 → (bytes : Option (List ℕ)) →
        HasRead R.remaining bytes reader.old [] → IfOk result (λ listed.
        AreCommandsOf reader.old.form bytes reader.new.given.items) }
{
    let mut listed = Listed::new(alloc);
    for _ in 0..u64::MAX {
        let Some(found) = reader.next()? else {
            return Ok(listed);
        };
        if found.line > last {
            return Ok(listed);
        }
        if found.closes {
            return Err(TraceFault::Line {
                line: found.line,
                why: NoCommand::Closing,
            });
        }
        listed.take(channel, &found)?;
    }
    // more commands than can be counted
    Err(TraceFault::Reader)
}

/// Reads a trace as far as a line, and lists the commands of a channel with all that a trace tells of each.
pub fn list_issued<R: Read + Drop>(
    alloc: Global,
    reader: &mut TraceReader<R>,
    channel: u64,
    last: u64,
) -> Result<Vec<Issued>, TraceFault>
    requires { reader.old.given.items ≡ [] }
    ensures is { IfOk result (λ listed.
        listed.items ≡ issued_to channel (found_up_to last reader.new.given.items)) }
    ensures early { IfOk result (λ listed. AreEarly listed.items) }
    ensures reads { (bytes : Option (List ℕ)) → HasRead R.remaining bytes reader.old [] →
        IfOk result (λ listed. AreFirstOf reader.old.form bytes reader.new.given.items) }
{
    let mut listed = Vec::new(alloc);
    for _ in 0..u64::MAX {
        let Some(found) = reader.next()? else {
            return Ok(listed);
        };
        if last < found.line {
            return Ok(listed);
        }
        take_issued(&mut listed, channel, &found)?;
    }
    // more commands than can be counted
    Err(TraceFault::Reader)
}

// Takes the next command in where it goes to the channel.
fn take_issued(listed: &mut Vec<Issued>, channel: u64, next: &Located) -> Result<(), AllocError>
    requires { next.now.entry.command.clock < 2 ^ 63 }
    ensures items { (found : List Located) → listed.old.items ≡ issued_to channel found →
        OnOk result (listed.new.items ≡ issued_to channel (found ++ next.now ∷ [])) }
    ensures early { AreEarly listed.old.items → OnOk result (AreEarly listed.new.items) }
{
    if channel != next.entry.channel {
        return Ok(());
    }
    listed.push(next.issued())?;
    Ok(())
}

/// A command and its line.
#[derive(Clone, Copy, Debug, PartialEq, Eq)]
pub struct NumberedCommand {
    pub line: u64,
    pub command: Stamped,
}

/// A fault, the two commands of which its rule doesn't hold, and why. Where the rule is on one command, both are that one.
#[derive(Clone, Copy, Debug)]
pub struct Diagnosis {
    pub fault: Fault,
    pub first: NumberedCommand,
    pub second: NumberedCommand,
    pub reason: Reason,
}

impl fmt::Display for NumberedCommand {
    fn fmt<W: fmt::Write>(&self, f: &mut fmt::Formatter<W>) -> fmt::Result {
        write!(f, "line {}: {}", self.line, self.command)
    }
}

impl fmt::Display for Diagnosis {
    fn fmt<W: fmt::Write>(&self, f: &mut fmt::Formatter<W>) -> fmt::Result {
        write!(f, "{}, {}", self.fault.rule, self.reason)?;
        if self.fault.first != self.fault.second {
            write!(f, "; {}", self.first)?;
        }
        write!(f, "; {}", self.second)
    }
}

impl Listed {
    // No commands.
    fn new(alloc: Global) -> Listed
        ensures { (channel : ℕ) → Lists channel result [] }
    {
        Listed {
            commands: Vec::new(alloc),
            lines: Vec::new(alloc),
        }
    }

    // Takes the next command in where it goes to the channel.
    fn take(&mut self, channel: u64, next: &Located) -> Result<(), AllocError>
        ensures { (found : List Located) → Lists channel self.old found →
            OnOk result (Lists channel self.new (found ++ next.now ∷ [])) }
    {
        if next.entry.channel != channel {
            return Ok(());
        }
        self.commands.push(next.entry.command)?;
        self.lines.push(next.line)?;
        Ok(())
    }
}

// The command at an index, and its line.
fn command_at(commands: &[Stamped], lines: &[u64], index: usize) -> NumberedCommand
    requires { index < length commands.now }
    ensures command { Some result.command ≡ slice_get commands.now index }
    ensures line { result.line ≡ slice_index lines.now index }
{
    NumberedCommand {
        line: lines.get(index).copied().unwrap_or(0),
        command: commands[index],
    }
}

/// A fault of a list of commands, which stand in the lines, with its two commands and why.
pub(crate) fn told_at(
    rules: &CommandRules,
    commands: &[Stamped],
    lines: &[u64],
    fault: Fault,
) -> Diagnosis
    requires order { fault.first ≤ fault.second }
    requires within { fault.second < length commands.now }
    ensures fault { result.fault ≡ fault }
    ensures told { IsToldAt rules.now commands.now lines.now result }
{
    let first = command_at(commands, lines, fault.first);
    let second = command_at(commands, lines, fault.second);
    let before = &commands[..fault.second];
    let reason = Reason::of(rules, fault.rule, before, &first.command, &second.command);
    Diagnosis {
        fault,
        first,
        second,
        reason,
    }
}

impl From<AllocError> for TraceFault {
    fn from(_: AllocError) -> TraceFault {
        TraceFault::Memory
    }
}
