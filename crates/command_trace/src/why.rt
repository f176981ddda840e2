// Why a command of a channel may not follow those before it.
ghost use Rattle.std.specs.Prelude.{◌≡◌, [], ◌∷◌, ◌++◌, ◌≤◌, ◌<◌, ◌^◌, ◌↔◌, List, length, slice_get, slice_index, Some, IfOk, IfSome, IsNone, IsTrue};
ghost use Rattle.ddr4_timing.specs.Lawful.{MayComeNext};
ghost use Rattle.auto_precharge.specs.FullLists.{AreEarly};
ghost use Rattle.auto_precharge.specs.Unfolding.{IsLawfulTrace, IsOpenFor, MayFollow, Unfolded, settled, unfolded};
ghost use Rattle.auto_precharge.specs.declared.issued.Issued.{Issued};
ghost use Rattle.command_trace.specs.Faults.{BreaksAt, EndsAtFault, IsWhy};

use crate::diagnosis::{Diagnosis, NumberedCommand};
use crate::reason::Reason;
use auto_precharge::{Issued, Unfolding, unfold};
use ddr4_timing::command::Stamped;
use ddr4_timing::fault::{Fault, fault_at};
use ddr4_timing::rules::Rule;
use ddr4_timing::timing::CommandRules;
use std::alloc::{AllocError, Global};

// The command at an index of a list, and its line.
fn numbered(commands: &[Stamped], lines: &[u64], index: usize) -> Option<NumberedCommand>
    ensures some { IfSome result (λ it. (slice_get commands.now index ≡ Some it.command)
        × (it.line ≡ slice_index lines.now index)) }
    ensures none { IsNone result ↔ (length commands.now ≤ index) }
{
    let command = *commands.get(index)?;
    let line = lines.get(index).copied().unwrap_or(0);
    Some(NumberedCommand { line, command })
}

// Of a command that breaks a rule behind a list, whose commands stand in the lines, at an index.
fn told_by_rule(
    rules: &CommandRules,
    commands: &[Stamped],
    lines: &[u64],
    last: &Issued,
    broken: (Rule, usize),
) -> Diagnosis
    ensures { (u : Unfolded) → commands.now ≡ u.list → lines.now ≡ u.lines →
        BreaksAt rules.now u last.now broken.0 broken.1 → IsWhy rules.now u last.now result }
{
    let second = NumberedCommand {
        line: last.line,
        command: last.command,
    };
    let (rule, at) = broken;
    let first = numbered(commands, lines, at).unwrap_or(second);
    Diagnosis {
        fault: Fault {
            first: at,
            second: commands.len(),
            rule,
        },
        first,
        second,
        reason: Reason::of(rules, rule, commands, &first.command, &second.command),
    }
}

// Of a RD or WR that breaks no rule behind a list, where an auto-precharge is about to close its bank.
fn told_by_bank(rules: &CommandRules, commands: &[Stamped], last: &Issued) -> Diagnosis
    ensures { (u : Unfolded) → commands.now ≡ u.list →
        MayComeNext rules.now.timing rules.now.geometry u.list last.now.command →
        (¬ IsOpenFor u.waiting last.now.command.cmd) → IsWhy rules.now u last.now result }
{
    // the rules hold, and the contract says by which numbers
    let _of = rules;
    let second = NumberedCommand {
        line: last.line,
        command: last.command,
    };
    let length = commands.len();
    Diagnosis {
        fault: Fault {
            first: length,
            second: length,
            rule: Rule::Rows,
        },
        first: second,
        second,
        reason: Reason::Closing {
            command: second.command.cmd,
        },
    }
}

// Why a command may not come next, by the first rule that it breaks; where it breaks none, by its bank.
fn told_of(rules: &CommandRules, commands: &[Stamped], lines: &[u64], last: &Issued) -> Diagnosis
    ensures { (u : Unfolded) → commands.now ≡ u.list → lines.now ≡ u.lines →
        (¬ (MayComeNext rules.now.timing rules.now.geometry u.list last.now.command
        × IsOpenFor u.waiting last.now.command.cmd)) → IsWhy rules.now u last.now result }
{
    match fault_at(rules, commands, &last.command) {
        Some(broken) => told_by_rule(rules, commands, lines, last, broken),
        None => told_by_bank(rules, commands, last),
    }
}

// Are the commands of a channel lawful?
fn are_lawful(rules: &CommandRules, found: &[Issued]) -> bool
    requires { AreEarly found.now }
    ensures { IsTrue result ↔ IsLawfulTrace rules.now found.now }
{
    let mut behind = Unfolding::new(rules);
    for next in found {
        if !behind.follow(rules, next) {
            return false;
        }
    }
    true
}

// Why a command may not follow those before it; none where it may.
fn why_last(
    alloc: Global,
    rules: &CommandRules,
    before: &[Issued],
    last: &Issued,
) -> Result<Option<Diagnosis>, AllocError>
    requires clocks { AreEarly before.now }
    requires clock { last.now.command.clock < 2 ^ 63 }
    ensures none { IsLawfulTrace rules.now before.now → IfOk result (λ told.
        IsNone told ↔ MayFollow rules.now (unfolded rules.now.timing before.now) last.now.command) }
    ensures fault { IsLawfulTrace rules.now before.now → IfOk result (λ told.
        IfSome told (IsWhy rules.now
        (settled last.now.command.clock (unfolded rules.now.timing before.now)) last.now)) }
{
    let full = unfold(alloc, rules, before, last.command.clock)?;
    if full.behind.admits(rules, &last.command) {
        return Ok(None);
    }
    Ok(Some(told_of(rules, &full.commands, &full.lines, last)))
}

/// Why the last of a channel's commands may not follow those before it, where it is the first that may not; none where it isn't.
///
/// Of its faults the one of the lowest rule, then with the earliest first command.
pub fn diagnose(
    alloc: Global,
    rules: &CommandRules,
    found: &[Issued],
) -> Result<Option<Diagnosis>, AllocError>
    requires { AreEarly found.now }
    ensures none { (before : List Issued) (x : Issued) → found.now ≡ before ++ x ∷ [] →
        IsLawfulTrace rules.now before → IfOk result (λ told.
        IsNone told ↔ MayFollow rules.now (unfolded rules.now.timing before) x.command) }
    ensures fault { IfOk result (λ told. IfSome told (EndsAtFault rules.now found.now)) }
{
    let Some(index) = found.len().checked_sub(1) else {
        return Ok(None);
    };
    let before = &found[..index];
    if !are_lawful(rules, before) {
        return Ok(None);
    }
    why_last(alloc, rules, before, &found[index])
}
