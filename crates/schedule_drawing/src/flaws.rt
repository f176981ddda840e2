// Commands that break a rule.
ghost use Rattle.std.specs.Prelude.{◌≡◌, ◌++◌, filter_map, IfOk, OnOk};
ghost use Rattle.schedule_drawing.specs.Flaws.{AddsFlaws, AreFlawsOf, commands_in, entries_in, flaw_told};

use crate::lanes::Lane;
use all_faults::all_faults;
use command_trace::ChannelCommand;
use ddr4_timing::command::Stamped;
use ddr4_timing::fault::Fault;
use ddr4_timing::rules::Rule;
use ddr4_timing::timing::CommandRules;
use std::alloc::{AllocError, Global};

/// A command that breaks a rule, where it goes.
#[derive(Clone, Copy, Debug, PartialEq, Eq)]
pub struct Flaw {
    pub lane: Lane,
    pub clock: u64,
    pub rule: Rule,
}

// The entries of a channel.
fn entries_in(
    alloc: Global,
    channel: u64,
    entries: &[ChannelCommand],
) -> Result<Vec<ChannelCommand>, AllocError>
    ensures { IfOk result (λ own. own.items ≡ entries_in channel entries.now) }
{
    entries
        .iter()
        .copied()
        .filter(|entry| entry.channel == channel)
        .collect(alloc)
}

// The commands of entries.
fn commands_in(alloc: Global, entries: &[ChannelCommand]) -> Result<Vec<Stamped>, AllocError>
    ensures { IfOk result (λ commands. commands.items ≡ commands_in entries.now) }
{
    entries.iter().map(|entry| entry.command).collect(alloc)
}

// The flaw of a fault of the commands of a channel.
fn flaw_told(own: &[ChannelCommand], fault: &Fault) -> Option<Flaw>
    ensures { result ≡ flaw_told own.now fault.now }
{
    let entry = own.get(fault.second)?;
    Some(Flaw {
        lane: Lane::of(entry),
        clock: entry.command.clock,
        rule: fault.rule,
    })
}

// Takes in the flaws of faults.
fn put_flaws(
    flaws: &mut Vec<Flaw>,
    own: &[ChannelCommand],
    faults: &[Fault],
) -> Result<(), AllocError>
    ensures { OnOk result (flaws.new.items
        ≡ flaws.old.items ++ filter_map (flaw_told own.now) faults.now) }
{
    let mut left = faults;
    while let [fault, behind @ ..] = left {
        if let Some(flaw) = flaw_told(own, fault) {
            flaws.push(flaw)?;
        }
        left = behind;
    }
    Ok(())
}

// Takes in the flaws of a channel.
fn add_flaws(
    flaws: &mut Vec<Flaw>,
    alloc: Global,
    c: &CommandRules,
    channel: u64,
    entries: &[ChannelCommand],
) -> Result<(), AllocError>
    ensures { OnOk result (AddsFlaws c.now channel entries.now flaws.old.items flaws.new.items) }
{
    let own = entries_in(alloc, channel, entries)?;
    let commands = commands_in(alloc, &own)?;
    let faults = all_faults(alloc, c, &commands)?;
    put_flaws(flaws, &own, &faults)
}

/// The commands of a trace that break a rule, channel by channel, each with its rule.
#[tactic(auto, using(crate::proofs::FlawLemmas::adds_more))]
pub fn flaws_of(
    alloc: Global,
    c: &CommandRules,
    entries: &[ChannelCommand],
) -> Result<Vec<Flaw>, AllocError>
    ensures { IfOk result (λ flaws. AreFlawsOf c.now entries.now flaws.items) }
{
    let mut flaws = Vec::new(alloc);
    for channel in 0..c.geometry.channels {
        add_flaws(&mut flaws, alloc, c, channel, entries)?;
    }
    Ok(flaws)
}
