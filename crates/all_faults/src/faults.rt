// The faults of a list of commands.
ghost use Rattle.std.specs.Prelude.{◌≡◌, ◌==◌, ◌+◌, ◌*◌, ◌<◌, ◌≤◌, ℕ, List, IfNone, IfOk, IfSome, OnOk, count_by, find, length, take};
ghost use Rattle.ddr4_timing.specs.Lawful.{BreaksGap, IsInGeometry, KeepsGap, KeepsGapsBefore, KeepsRefresh, ObeysRule};
ghost use Rattle.ddr4_timing.specs.Rules.{rule_number};
ghost use Rattle.all_faults.specs.Faults.{AreFaultsOf, AreFaultsUpTo, AreLatest, IsAskedOf, IsFarBefore};
ghost use Rattle.all_faults.specs.Left.{IsLeftBy};
ghost use Rattle.ddr4_timing.specs.declared.command.Stamped.{Stamped};

use crate::gaps::{gap, most_asked};
use crate::left::{Left, is_in_geometry};
use ddr4_timing::command::Stamped;
use ddr4_timing::fault::Fault;
use ddr4_timing::rules::Rule;
use ddr4_timing::timing::CommandRules;
use std::alloc::{AllocError, Global};

// From where on commands may be too near a clock, by the latest clock as far as each.
fn near_from(c: &CommandRules, latest: &[u64], clock: u64) -> usize
    ensures within { result ≤ length latest.now }
    ensures far { (before : List Stamped) → AreLatest before latest.now
        → IsFarBefore c.now before result clock }
{
    let most = most_asked(&c.timing);
    for i in (0..latest.len()).rev() {
        if most <= clock && latest[i] <= clock - most {
            return i + 1;
        }
    }
    0
}

// The first command of which a rule on two doesn't hold, where those before this place are too far from the command.
fn pair_fault(
    c: &CommandRules,
    before: &[Stamped],
    from: usize,
    x: &Stamped,
    rule: Rule,
) -> Option<usize>
    requires within { from ≤ length before.now }
    requires far { IsFarBefore c.now before.now from x.now.clock }
    ensures found { IfSome result (BreaksGap c.now.timing before.now x.now rule) }
    ensures least { IfSome result (KeepsGapsBefore c.now.timing before.now x.now rule) }
    ensures none { IfNone result ((k : ℕ) → KeepsGap c.now.timing before.now x.now rule k) }
{
    for i in from..before.len() {
        let a = &before[i];
        if x.clock.saturating_sub(a.clock)
            < gap(&c.timing, rule, &a.cmd, &before[i + 1..], &x.cmd)
        {
            return Some(i);
        }
    }
    None
}

// The same of a command whose place lies in the geometry.
fn near_fault(
    c: &CommandRules,
    before: &[Stamped],
    from: usize,
    x: &Stamped,
    rule: Rule,
) -> Option<usize>
    requires within { from ≤ length before.now }
    requires far { IsFarBefore c.now before.now from x.now.clock }
    ensures asked { IfSome result (λ first. IsInGeometry c.now.geometry x.now.cmd) }
    ensures found { IfSome result (BreaksGap c.now.timing before.now x.now rule) }
    ensures least { IfSome result (KeepsGapsBefore c.now.timing before.now x.now rule) }
    ensures none { IfNone result (IsInGeometry c.now.geometry x.now.cmd
        → (k : ℕ) → KeepsGap c.now.timing before.now x.now rule k) }
{
    if is_in_geometry(&c.geometry, &x.cmd) {
        pair_fault(c, before, from, x, rule)
    } else {
        None
    }
}

// The place behind the others, where the rule on refreshes doesn't hold of a command whose place lies in the geometry.
fn refresh_fault(c: &CommandRules, left: &Left, before: &[Stamped], x: &Stamped) -> Option<usize>
    requires { IsLeftBy c.now.geometry left.now before.now }
    ensures asked { IfSome result (λ first. IsInGeometry c.now.geometry x.now.cmd) }
    ensures found { IfSome result (λ first. (first ≡ length before.now)
        × ¬ KeepsRefresh c.now.timing before.now x.now) }
    ensures none { IfNone result (IsInGeometry c.now.geometry x.now.cmd
        → KeepsRefresh c.now.timing before.now x.now) }
{
    if is_in_geometry(&c.geometry, &x.cmd) && !left.keeps_refresh(c, x) {
        Some(before.len())
    } else {
        None
    }
}

// The first place of which a rule doesn't hold that is asked of the command.
fn broken_at(
    c: &CommandRules,
    left: &Left,
    before: &[Stamped],
    from: usize,
    x: &Stamped,
    rule: Rule,
) -> Option<usize>
    requires left { IsLeftBy c.now.geometry left.now before.now }
    requires within { from ≤ length before.now }
    requires far { IsFarBefore c.now before.now from x.now.clock }
    ensures asked { IfSome result (λ first. IsAskedOf c.now x.now rule) }
    ensures order { IfSome result (λ first. first ≤ length before.now) }
    ensures found { IfSome result (λ first.
        ¬ ObeysRule c.now.timing c.now.geometry before.now x.now rule first) }
    ensures least { IfSome result (λ first. (k : ℕ) → k < first
        → ObeysRule c.now.timing c.now.geometry before.now x.now rule k) }
    ensures none { IfNone result (IsAskedOf c.now x.now rule
        → (k : ℕ) → ObeysRule c.now.timing c.now.geometry before.now x.now rule k) }
{
    match rule {
        Rule::Rows => if left.keeps_rows(c, &x.cmd) {
            None
        } else {
            Some(before.len())
        },
        Rule::Refi => refresh_fault(c, left, before, x),
        _ => near_fault(c, before, from, x, rule),
    }
}

// Takes in the faults of a command: each rule that is asked of it and that it breaks.
fn add_faults(
    faults: &mut Vec<Fault>,
    c: &CommandRules,
    left: &Left,
    list: &[Stamped],
    latest: &[u64],
    second: usize,
) -> Result<(), AllocError>
    requires there { second < length list.now }
    requires left { IsLeftBy c.now.geometry left.now (take second list.now) }
    requires latest { AreLatest (take second list.now) latest.now }
    ensures { AreFaultsUpTo c.now list.now (16 * second) faults.old.items
        → OnOk result (AreFaultsUpTo c.now list.now (16 * (second + 1)) faults.new.items) }
{
    let before = &list[..second];
    let x = &list[second];
    let from = near_from(c, latest, x.clock);
    for rule in Rule::ALL {
        if let Some(first) = broken_at(c, left, before, from, x, rule) {
            faults.push(Fault {
                first,
                second,
                rule,
            })?;
        }
    }
    Ok(())
}

/// Every fault of a list, each once: of each command each rule that it breaks, with the first place of which the rule doesn't hold.
/// All commands before it count as issued, lawful or not. A command whose place lies outside the geometry breaks the rule on rows,
/// and no other is asked of it.
///
/// A command is compared with those before it that a rule on two may still be on.
pub fn all_faults(
    alloc: Global,
    c: &CommandRules,
    list: &[Stamped],
) -> Result<Vec<Fault>, AllocError>
    ensures { IfOk result (λ faults. AreFaultsOf c.now list.now faults.items) }
{
    let mut left = Left::new(c);
    let mut latest = Vec::new(alloc);
    let mut highest = 0;
    let mut faults = Vec::new(alloc);
    for second in 0..list.len() {
        add_faults(&mut faults, c, &left, list, &latest, second)?;
        left.take(c, &list[second]);
        highest = list[second].clock.max(highest);
        latest.push(highest)?;
    }
    Ok(faults)
}

/// How many of the faults are of a rule.
pub fn count_of_rule(faults: &[Fault], rule: Rule) -> usize
    ensures { result ≡ count_by (λ f. rule_number f.rule == rule_number rule) faults.now }
{
    faults
        .iter()
        .filter(|fault| fault.rule as u8 == rule as u8)
        .count()
}

/// The first of the faults that is of a rule.
pub fn first_of_rule(faults: &[Fault], rule: Rule) -> Option<Fault>
    ensures { result ≡ find (λ f. rule_number f.rule == rule_number rule) faults.now }
{
    faults
        .iter()
        .copied()
        .find(|fault| fault.rule as u8 == rule as u8)
}
