// The list of commands that the commands of a channel stand for, kept.
ghost use Rattle.std.specs.Prelude.{◌≡◌, ◌++◌, ◌<◌, ◌^◌, IfOk, OnOk};
ghost use Rattle.auto_precharge.specs.FullLists.{AreEarly, ListsAll};
ghost use Rattle.auto_precharge.specs.Unfolding.{IsLawfulTrace, MayFollow, Unfolded, due, due_lines, gone, gone_line, settled, unfolded, unfolded_none, unfolded_with};

use crate::issued::Issued;
use crate::unfolding::Unfolding;
use crate::waiting::Closing;
use ddr4_timing::command::Stamped;
use ddr4_timing::timing::CommandRules;
use std::alloc::{AllocError, Global};

/// The list of commands that the commands of a channel stand for, and the line of each: a precharge that a command brings with it
/// is of the line of that command. And what they leave to the next one.
#[derive(Drop)]
pub struct FullList {
    pub commands: Vec<Stamped>,
    pub lines: Vec<u64>,
    pub behind: Unfolding,
}

// Takes a precharge in where it goes before the clock.
fn take_one(
    commands: &mut Vec<Stamped>,
    lines: &mut Vec<u64>,
    slot: Option<Closing>,
    clock: u64,
) -> Result<(), AllocError>
    ensures commands { OnOk result (commands.new.items ≡ commands.old.items ++ gone clock slot) }
    ensures lines { OnOk result (lines.new.items ≡ lines.old.items ++ gone_line clock slot) }
{
    let Some(closing) = slot else {
        return Ok(());
    };
    if clock <= closing.clock {
        return Ok(());
    }
    commands.push(closing.command())?;
    lines.push(closing.line)?;
    Ok(())
}

// Takes the precharges in that go before a clock.
fn take_due(
    commands: &mut Vec<Stamped>,
    lines: &mut Vec<u64>,
    closings: &[Option<Closing>],
    clock: u64,
) -> Result<(), AllocError>
    ensures commands { OnOk result
        (commands.new.items ≡ commands.old.items ++ due clock closings.now) }
    ensures lines { OnOk result (lines.new.items
        ≡ lines.old.items ++ due_lines clock closings.now) }
{
    for i in 0..closings.len() {
        take_one(commands, lines, closings[i], clock)?;
    }
    Ok(())
}

impl FullList {
    // No commands.
    fn new(alloc: Global, rules: &CommandRules) -> FullList
        ensures { ListsAll rules.now result unfolded_none }
    {
        FullList {
            commands: Vec::new(alloc),
            lines: Vec::new(alloc),
            behind: Unfolding::new(rules),
        }
    }

    // The precharges before a clock go.
    fn settle(&mut self, rules: &CommandRules, clock: u64) -> Result<(), AllocError>
        requires { clock < 2 ^ 63 }
        ensures { (u : Unfolded) → ListsAll rules.now self.old u →
            OnOk result (ListsAll rules.now self.new (settled clock u)) }
    {
        take_due(
            &mut self.commands,
            &mut self.lines,
            self.behind.closings(),
            clock,
        )?;
        self.behind.settle(rules, clock);
        Ok(())
    }

    // Takes the next command in, which may follow those before it.
    fn take(&mut self, rules: &CommandRules, next: &Issued) -> Result<(), AllocError>
        requires { next.now.command.clock < 2 ^ 63 }
        ensures { (u : Unfolded) → ListsAll rules.now self.old u →
            MayFollow rules.now u next.now.command →
            OnOk result (ListsAll rules.now self.new (unfolded_with rules.now.timing u next.now)) }
    {
        self.settle(rules, next.command.clock)?;
        self.commands.push(next.command)?;
        self.lines.push(next.line)?;
        if self.behind.admits(rules, &next.command) {
            self.behind.go(rules, next);
        }
        Ok(())
    }
}

/// The list that commands stand for up to a clock, where each may follow those before it.
pub fn unfold(
    alloc: Global,
    rules: &CommandRules,
    found: &[Issued],
    clock: u64,
) -> Result<FullList, AllocError>
    requires clock { clock < 2 ^ 63 }
    requires clocks { AreEarly found.now }
    ensures { IsLawfulTrace rules.now found.now → IfOk result (λ full.
        ListsAll rules.now full (settled clock (unfolded rules.now.timing found.now))) }
{
    let mut full = FullList::new(alloc, rules);
    for i in 0..found.len() {
        full.take(rules, &found[i])?;
    }
    full.settle(rules, clock)?;
    Ok(full)
}
