// What the rule of a fault asks, in words.
ghost use Rattle.std.specs.Prelude.{◌≡◌, ◌≤◌, ◌↔◌, IsTrue, length};
ghost use Rattle.ddr4_timing.specs.Lawful.{IsInGeometry, is_asleep, last_ref, ref_count};
ghost use Rattle.ddr4_timing.specs.Command.{is_ref_of, is_sre_of};
ghost use Rattle.ddr4_timing.specs.declared.rules.Rule.TheVariants.{Refi};
ghost use Rattle.command_trace.specs.Reasons.{IsReasonOf, IsWanted, rows_wanted};

use crate::asked::Asked;
use crate::kind::name_of;
use ddr4_timing::command::{Command, Stamped};
use ddr4_timing::rules::Rule;
use ddr4_timing::timing::{CommandRules, Geometry};
use std::fmt;

/// What a rule asks of a command, and what it found.
#[derive(Clone, Copy, Debug)]
pub enum Reason {
    /// Clocks rise from one command to the next.
    Order {
        first: u64,
        second: u64,
    },
    /// The second of two commands comes too soon behind the first.
    Gap {
        rule: Rule,
        asked: Asked,
        first: Stamped,
        second: Stamped,
    },
    /// The banks, the rank or the geometry aren't as the command wants them.
    Rows {
        command: Command,
        wanted: &'static str,
    },
    /// A precharge that came with an earlier command is still to close the bank.
    Closing {
        command: Command,
    },
    /// The rank's last refresh is too long ago.
    Late {
        most: u64,
        passed: u64,
    },
    /// A refresh goes before its interval.
    Early {
        count: u64,
        least: u64,
        clock: u64,
    },
}

impl fmt::Display for Reason {
    fn fmt<W: fmt::Write>(&self, f: &mut fmt::Formatter<W>) -> fmt::Result {
        match *self {
            Reason::Order { first, second } => write!(
                f,
                "clocks rise: after {first}, here {second}"
            ),
            Reason::Gap {
                rule,
                asked,
                first,
                second,
            } => write_gap(f, rule, &asked, &first, &second),
            Reason::Rows { command, wanted } => write!(f, "{} wants {wanted}", name_of(&command)),
            Reason::Closing { command } => write!(
                f,
                "{} wants its bank open, and an auto-precharge is about to close it",
                name_of(&command)
            ),
            Reason::Late { most, passed } => write!(
                f,
                "at most 9 tREFI = {most} after the rank's last REF, here {passed}"
            ),
            Reason::Early {
                count,
                least,
                clock,
            } => write!(
                f,
                "REF number {count} of its rank: not before {count} tREFI = {least}, here {clock}"
            ),
        }
    }
}

fn write_gap<W: fmt::Write>(
    f: &mut fmt::Formatter<W>,
    rule: Rule,
    asked: &Asked,
    first: &Stamped,
    second: &Stamped,
) -> fmt::Result {
    write!(f, "{} to ", name_of(&first.cmd))?;
    if rule == Rule::Faw {
        f.write_str("the fourth ACT after it")?;
    } else {
        f.write_str(name_of(&second.cmd))?;
    }
    let Asked {
        shared,
        times,
        clocks,
    } = *asked;
    let passed = second.clock.saturating_sub(first.clock);
    write!(f, ", {shared}: at least {times} = {clocks}, here {passed}")
}

fn is_in_geometry(g: &Geometry, x: &Command) -> bool
    ensures { IsTrue result ↔ IsInGeometry g.now x.now }
{
    match *x {
        Command::Act { at, row } => at.lies_in(g) && row < g.rows,
        Command::Rd { at, column } => at.lies_in(g) && column < g.columns,
        Command::Wr { at, column } => at.lies_in(g) && column < g.columns,
        Command::Pre { at } => at.lies_in(g),
        Command::PreAll { rank } | Command::Ref { rank } | Command::Sre { rank } => rank < g.ranks,
    }
}

fn rows_wanted(x: &Command) -> &'static str
    ensures { result.now ≡ rows_wanted x.now }
{
    match x {
        Command::Act { .. } => "its bank closed",
        Command::Rd { .. } | Command::Wr { .. } | Command::Pre { .. } => "its bank open",
        Command::PreAll { .. } => "a bank of its rank open",
        Command::Ref { .. } | Command::Sre { .. } => "every bank of its rank closed",
    }
}

fn is_ref_of(rank: u64, x: &Command) -> bool
    ensures { result ≡ is_ref_of rank x.now }
{
    matches!(x, Command::Ref { .. }) && x.rank() == rank
}

fn is_sre_of(rank: u64, x: &Command) -> bool
    ensures { result ≡ is_sre_of rank x.now }
{
    matches!(x, Command::Sre { .. }) && x.rank() == rank
}

// The rank had an SRE.
#[tactic(auto, unfolding(ddr4_timing::specs::Lawful::is_asleep))]
fn is_asleep(rank: u64, before: &[Stamped]) -> bool
    ensures { result ≡ is_asleep rank before.now }
{
    before.iter().any(|a| is_sre_of(rank, &a.cmd))
}

// What a command that breaks the rule on rows lacks, in words.
fn wanted(g: &Geometry, before: &[Stamped], x: &Command) -> &'static str
    ensures { IsWanted g.now before.now x.now result.now }
{
    if !is_in_geometry(g, x) {
        return "a place of the geometry";
    }
    if is_asleep(x.rank(), before) {
        return "a rank that is awake";
    }
    rows_wanted(x)
}

// The clock of the rank's last REF, 0 where it had none.
#[tactic(auto, unfolding(ddr4_timing::specs::Lawful::last_ref))]
fn last_ref(rank: u64, before: &[Stamped]) -> u64
    ensures { result ≡ last_ref rank before.now }
{
    before.iter().fold(
        0,
        |last, a| if is_ref_of(rank, &a.cmd) {
            a.clock
        } else {
            last
        },
    )
}

// How many REF the rank had.
#[tactic(auto, unfolding(ddr4_timing::specs::Lawful::ref_count))]
fn ref_count(rank: u64, before: &[Stamped]) -> usize
    ensures count { result ≡ ref_count rank before.now }
    ensures few { result ≤ length before.now }
{
    before.iter().filter(|a| is_ref_of(rank, &a.cmd)).count()
}

impl Reason {
    // What a command that breaks the rule on refreshes lacks.
    fn of_refresh(
        rules: &CommandRules,
        before: &[Stamped],
        first: &Stamped,
        second: &Stamped,
    ) -> Reason
        ensures { IsReasonOf rules.now Refi before.now first.now second.now result }
    {
        // the earlier command says nothing here
        let _first = first;
        let rank = second.cmd.rank();
        let most = 9 * rules.timing.t_refi;
        let passed = second.clock.saturating_sub(last_ref(rank, before));
        if passed > most {
            return Reason::Late { most, passed };
        }
        let count = ref_count(rank, before) as u64 + 1;
        Reason::Early {
            count,
            least: count.saturating_mul(rules.timing.t_refi),
            clock: second.clock,
        }
    }

    /// Why the rule doesn't hold of the command `second`, which stands behind the lawful commands `before`, and of the earlier
    /// command `first`, where the rule is on two.
    pub fn of(
        rules: &CommandRules,
        rule: Rule,
        before: &[Stamped],
        first: &Stamped,
        second: &Stamped,
    ) -> Reason
        ensures { IsReasonOf rules.now rule before.now first.now second.now result }
    {
        match rule {
            Rule::Order => Reason::Order {
                first: first.clock,
                second: second.clock,
            },
            Rule::Rows => Reason::Rows {
                command: second.cmd,
                wanted: wanted(&rules.geometry, before, &second.cmd),
            },
            Rule::Refi => Reason::of_refresh(rules, before, first, second),
            _ => Reason::Gap {
                rule,
                asked: Asked::of(&rules.timing, rule, &first.cmd, &second.cmd),
                first: *first,
                second: *second,
            },
        }
    }
}
