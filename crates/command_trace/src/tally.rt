// How many commands break each rule.
ghost use Rattle.std.specs.Prelude.{◌≡◌, IfOk, OnOk};
ghost use Rattle.all_faults.specs.Faults.{AreFaultsOf};
ghost use Rattle.command_trace.specs.Tallies.{AddsTally, AreTallies, AreToldAt};

use crate::diagnosis::{Diagnosis, Listed, told_at};
use all_faults::{all_faults, count_of_rule, first_of_rule};
use ddr4_timing::fault::Fault;
use ddr4_timing::rules::Rule;
use ddr4_timing::timing::CommandRules;
use std::alloc::{AllocError, Global};
use std::fmt;

/// A rule that commands break: how many do, where all before each count as issued, and the first of them.
#[derive(Clone, Copy, Debug)]
pub struct BrokenRule {
    pub count: usize,
    pub first: Diagnosis,
}

impl fmt::Display for BrokenRule {
    fn fmt<W: fmt::Write>(&self, f: &mut fmt::Formatter<W>) -> fmt::Result {
        write!(f, "{}; the first of {}", self.first, self.count)
    }
}

// Takes in a rule, where one of the faults is of it.
fn add_tally(
    tallies: &mut Vec<BrokenRule>,
    rules: &CommandRules,
    listed: &Listed,
    faults: &[Fault],
    rule: Rule,
) -> Result<(), AllocError>
    requires { AreFaultsOf rules.now listed.now.commands.items faults.now }
    ensures adds { OnOk result (AddsTally faults.now rule tallies.old.items tallies.new.items) }
    ensures first { AreToldAt rules.now listed.now tallies.old.items →
        OnOk result (AreToldAt rules.now listed.now tallies.new.items) }
{
    let Some(first) = first_of_rule(faults, rule) else {
        return Ok(());
    };
    let first = told_at(rules, &listed.commands, &listed.lines, first);
    let count = count_of_rule(faults, rule);
    tallies.push(BrokenRule { count, first })?;
    Ok(())
}

/// The rules that the commands of a list break, in their order: of each how many commands do, and the first of them.
pub fn tallies(
    alloc: Global,
    rules: &CommandRules,
    listed: &Listed,
) -> Result<Vec<BrokenRule>, AllocError>
    ensures { IfOk result (λ tallies. AreTallies rules.now listed.now tallies.items) }
{
    let faults = all_faults(alloc, rules, &listed.commands)?;
    let mut tallies = Vec::new(alloc);
    for rule in Rule::ALL {
        add_tally(&mut tallies, rules, listed, &faults, rule)?;
    }
    Ok(tallies)
}
