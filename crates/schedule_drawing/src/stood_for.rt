// The commands that the channels of a trace stand for.
ghost use Rattle.std.specs.Prelude.{◌≡◌, ◌<◌, ◌^◌, ◌++◌, ◌↔◌, IfOk, IsNone, IsTrue, OnOk};
ghost use Rattle.auto_precharge.specs.FullLists.{AreEarly};
ghost use Rattle.auto_precharge.specs.Unfolding.{IsLawfulTrace};
ghost use Rattle.command_trace.specs.Channels.{found_of, issued_to};
ghost use Rattle.command_trace.specs.Following.{issued_in};
ghost use Rattle.schedule_drawing.specs.Entries.{AreAllLawful, AreInTime, AreFoundIn, LieIn, entries_drawn, entries_stood_for, entries_found, entries_to, has_closing, stood_for};

use crate::entries::has_closing;
use auto_precharge::{Issued, unfold};
use command_trace::{ChannelCommand, CommandChecker, Located, NoCommand, TraceFault};
use ddr4_timing::command::Stamped;
use ddr4_timing::timing::CommandRules;
use std::alloc::{AllocError, Global};

/// The last clock that a check takes.
const LAST: u64 = (1 << 63) - 1;

// What goes to a channel.
fn found_of(alloc: Global, channel: u64, found: &[Located]) -> Result<Vec<Located>, AllocError>
    requires { AreInTime found.now }
    ensures items { IfOk result (λ own. own.items ≡ found_of channel found.now) }
    ensures early { IfOk result (λ own. AreInTime own.items) }
{
    found
        .iter()
        .copied()
        .filter(|it| it.entry.channel == channel)
        .collect(alloc)
}

// All that a trace tells of the commands of a channel.
fn issued_in(alloc: Global, own: &[Located]) -> Result<Vec<Issued>, AllocError>
    requires { AreInTime own.now }
    ensures items { IfOk result (λ issued. issued.items ≡ issued_in own.now) }
    ensures early { IfOk result (λ issued. AreEarly issued.items) }
{
    own.iter().map(|it| it.issued()).collect(alloc)
}

// The line of the first command of a channel that may not follow those before it.
fn first_broken(rules: &CommandRules, own: &[Located]) -> Option<u64>
    requires { AreInTime own.now }
    ensures { IsNone result ↔ IsLawfulTrace rules.now (issued_in own.now) }
{
    let mut front = CommandChecker::new(rules);
    for i in 0..own.len() {
        // `is_lawful` answers it in the end
        let _lawful = front.take(rules, &own[i]);
    }
    if front.is_lawful() {
        None
    } else {
        Some(front.line())
    }
}

// The list that the commands of a channel stand for.
fn list_of(
    alloc: Global,
    rules: &CommandRules,
    channel: u64,
    found: &[Located],
) -> Result<Vec<Stamped>, TraceFault>
    requires { AreInTime found.now }
    ensures is { IfOk result (λ list. list.items ≡ stood_for rules.now found.now channel) }
    ensures lawful { IfOk result (λ list. IsLawfulTrace rules.now (issued_to channel found.now)) }
{
    let own = found_of(alloc, channel, found)?;
    if let Some(line) = first_broken(rules, &own) {
        return Err(TraceFault::Line {
            line,
            why: NoCommand::Broken,
        });
    }
    let issued = issued_in(alloc, &own)?;
    let full = unfold(alloc, rules, &issued, LAST)?;
    Ok(full.commands)
}

// Takes in the commands of a channel.
fn add_list(
    entries: &mut Vec<ChannelCommand>,
    channel: u64,
    list: &[Stamped],
) -> Result<(), AllocError>
    ensures { OnOk result (entries.new.items ≡ entries.old.items ++ entries_to channel list.now) }
{
    for i in 0..list.len() {
        entries.push(ChannelCommand {
            channel,
            command: list[i],
        })?;
    }
    Ok(())
}

// The commands that the channels stand for, one channel after the other.
fn entries_stood_for(
    alloc: Global,
    rules: &CommandRules,
    found: &[Located],
) -> Result<Vec<ChannelCommand>, TraceFault>
    requires { AreInTime found.now }
    ensures is { IfOk result (λ entries. entries.items ≡ entries_stood_for rules.now found.now) }
    ensures lawful { IfOk result (λ entries. AreAllLawful rules.now found.now) }
{
    let mut entries = Vec::new(alloc);
    for channel in 0..rules.geometry.channels {
        let list = list_of(alloc, rules, channel, found)?;
        add_list(&mut entries, channel, &list)?;
    }
    Ok(entries)
}

// The same, which lie in the geometry.
#[tactic(auto, using(crate::proofs::StoodFor::stood_lie))]
fn entries_lawful(
    alloc: Global,
    rules: &CommandRules,
    found: &[Located],
) -> Result<Vec<ChannelCommand>, TraceFault>
    requires { AreInTime found.now }
    ensures is { IfOk result (λ entries. entries.items ≡ entries_stood_for rules.now found.now) }
    ensures lawful { IfOk result (λ entries. AreAllLawful rules.now found.now) }
    ensures lie { IfOk result (λ entries. LieIn rules.now.geometry entries.items) }
{
    let entries = entries_stood_for(alloc, rules, found)?;
    Ok(entries)
}

// The commands as they stand in the trace.
fn entries_found(alloc: Global, found: &[Located]) -> Result<Vec<ChannelCommand>, AllocError>
    ensures { IfOk result (λ entries. entries.items ≡ entries_found found.now) }
{
    found.iter().map(|it| it.entry).collect(alloc)
}

/// The commands that are drawn of a trace. Where some of its commands are with auto-precharge, they are those of the lists that its
/// channels stand for, with the precharges that come with such a command; then the line of a command that may not follow those before
/// it is refused.
pub fn entries_drawn(
    alloc: Global,
    rules: &CommandRules,
    found: &[Located],
) -> Result<Vec<ChannelCommand>, TraceFault>
    requires early { AreInTime found.now }
    requires lie { AreFoundIn rules.now.geometry found.now }
    ensures drawn { IfOk result (λ entries. entries.items ≡ entries_drawn rules.now found.now) }
    ensures lawful { IsTrue (has_closing found.now)
        → IfOk result (λ entries. AreAllLawful rules.now found.now) }
    ensures lie { IfOk result (λ entries. LieIn rules.now.geometry entries.items) }
{
    if has_closing(found) {
        entries_lawful(alloc, rules, found)
    } else {
        Ok(entries_found(alloc, found)?)
    }
}
