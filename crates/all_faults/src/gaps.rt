// How many clocks the rules ask for between two commands.
ghost use Rattle.std.specs.Prelude.{◌≡◌, ◌≤◌, if◌then◌else◌, count_by};
ghost use Rattle.ddr4_timing.specs.Command.{bank_of, is_act, is_act_of, is_column, is_idle, is_precharge, precharges, same_bank, same_group, same_rank};
ghost use Rattle.ddr4_timing.specs.Gaps.{faw_gap, gap, pair_gap};
ghost use Rattle.ddr4_timing.specs.Limits.{AreInLimits};
ghost use Rattle.all_faults.specs.Left.{most_asked};

use ddr4_timing::command::{Command, Stamped};
use ddr4_timing::place::BankAddress;
use ddr4_timing::rules::Rule;
use ddr4_timing::timing::Timing;

// The bank that a command names, the first of its rank where it names none.
fn bank_of(x: &Command) -> BankAddress
    ensures { result ≡ bank_of x.now }
{
    match *x {
        Command::Act { at, .. } | Command::Rd { at, .. } | Command::Wr { at, .. } => at,
        Command::Pre { at } => at,
        Command::PreAll { rank } | Command::Ref { rank } | Command::Sre { rank } => BankAddress {
            rank,
            group: 0,
            bank: 0,
        },
    }
}

fn is_act(x: &Command) -> bool
    ensures { result ≡ is_act x.now }
{
    matches!(x, Command::Act { .. })
}

fn is_rd(x: &Command) -> bool
    ensures { result ≡ Rattle.ddr4_timing.specs.Command.is_rd x.now }
{
    matches!(x, Command::Rd { .. })
}

fn is_wr(x: &Command) -> bool
    ensures { result ≡ Rattle.ddr4_timing.specs.Command.is_wr x.now }
{
    matches!(x, Command::Wr { .. })
}

// Is it a RD or a WR?
fn is_column(x: &Command) -> bool
    ensures { result ≡ is_column x.now }
{
    is_rd(x) || is_wr(x)
}

// Is it a PRE or a PREA?
fn is_precharge(x: &Command) -> bool
    ensures { result ≡ is_precharge x.now }
{
    matches!(x, Command::Pre { .. } | Command::PreAll { .. })
}

pub(crate) fn is_ref(x: &Command) -> bool
    ensures { result ≡ Rattle.ddr4_timing.specs.Command.is_ref x.now }
{
    matches!(x, Command::Ref { .. })
}

// Is it a REF or an SRE?
fn is_idle(x: &Command) -> bool
    ensures { result ≡ is_idle x.now }
{
    is_ref(x) || matches!(x, Command::Sre { .. })
}

fn same_rank(a: &Command, b: &Command) -> bool
    ensures { result ≡ same_rank a.now b.now }
{
    a.rank() == b.rank()
}

fn same_group(a: &Command, b: &Command) -> bool
    ensures { result ≡ same_group a.now b.now }
{
    let (a, b) = (bank_of(a), bank_of(b));
    a.rank == b.rank && a.group == b.group
}

fn same_bank(a: &Command, b: &Command) -> bool
    ensures { result ≡ same_bank a.now b.now }
{
    let (a, b) = (bank_of(a), bank_of(b));
    a.rank == b.rank && a.group == b.group && a.bank == b.bank
}

// Is `a` a PRE of the bank of `b`, or a PREA of its rank?
fn precharges(a: &Command, b: &Command) -> bool
    ensures { result ≡ precharges a.now b.now }
{
    if matches!(a, Command::Pre { .. }) {
        same_bank(a, b)
    } else {
        is_precharge(a) && same_rank(a, b)
    }
}

fn is_act_of(rank: u64, x: &Command) -> bool
    ensures { result ≡ is_act_of rank x.now }
{
    is_act(x) && x.rank() == rank
}

// One of two gaps, by a test.
fn one_of(test: bool, yes: u64, no: u64) -> u64
    ensures { result ≡ (if test then yes else no) }
{
    if test { yes } else { no }
}

// What each rule on two commands asks for, whatever stands between them.
fn pair_gap(t: &Timing, rule: Rule, a: &Command, b: &Command) -> u64
    requires { AreInLimits t.now }
    ensures { result ≡ pair_gap t.now rule a.now b.now }
{
    let in_rank = same_rank(a, b);
    let in_group = same_group(a, b);
    let (test, gap) = match rule {
        Rule::Order => (true, 1),
        Rule::Rcd => (is_act(a) & is_column(b) & same_bank(a, b), t.t_rcd),
        Rule::Ras => (is_act(a) & precharges(b, a), t.t_ras),
        Rule::Rp => (
            is_act(b) & precharges(a, b) | is_idle(b) & is_precharge(a) & in_rank,
            t.t_rp,
        ),
        Rule::Rc => (is_act(a) & is_act(b) & same_bank(a, b), t.t_ras + t.t_rp),
        Rule::Rtp => (is_rd(a) & precharges(b, a), t.t_rtp),
        Rule::Wr => (is_wr(a) & precharges(b, a), t.cwl + 4 + t.t_wr),
        Rule::Rrd => (
            is_act(a) & is_act(b) & in_rank,
            one_of(in_group, t.t_rrd_l, t.t_rrd_s),
        ),
        Rule::Ccd => (
            (is_rd(a) & is_rd(b) | is_wr(a) & is_wr(b)) & in_rank,
            one_of(in_group, t.t_ccd_l, t.t_ccd_s),
        ),
        Rule::Wtr => (
            is_wr(a) & is_rd(b) & in_rank,
            t.cwl + 4 + one_of(in_group, t.t_wtr_l, t.t_wtr_s),
        ),
        Rule::Rtw => (is_rd(a) & is_wr(b), t.t_rtw),
        Rule::Cs => (is_column(a) & is_column(b) & !in_rank, 4 + t.t_cs),
        Rule::Rfc => (is_ref(a) & (is_act(b) | is_idle(b)) & in_rank, t.t_rfc),
        Rule::Rows | Rule::Faw | Rule::Refi => (false, 0),
    };
    one_of(test, gap, 0)
}

// ACT to the fourth ACT of the rank after it.
#[tactic(auto, unfolding(ddr4_timing::specs::Gaps::faw_gap))]
fn faw_gap(t: &Timing, a: &Command, between: &[Stamped], b: &Command) -> u64
    requires { AreInLimits t.now }
    ensures { result ≡ faw_gap t.now a.now between.now b.now }
{
    let rank = b.rank();
    let test = is_act(b) && is_act_of(rank, a) && act_count(rank, between) == 3;
    one_of(test, t.t_faw, 0)
}

// How many ACT of the rank there are.
fn act_count(rank: u64, list: &[Stamped]) -> usize
    ensures { result ≡ count_by (λ x. is_act_of rank x.cmd) list.now }
{
    list.iter().filter(|x| is_act_of(rank, &x.cmd)).count()
}

/// What each rule on two commands asks for, with the commands between them.
#[tactic(auto, unfolding(ddr4_timing::specs::Gaps::gap))]
pub(crate) fn gap(t: &Timing, rule: Rule, a: &Command, between: &[Stamped], b: &Command) -> u64
    requires { AreInLimits t.now }
    ensures { result ≡ gap t.now rule a.now between.now b.now }
{
    if rule == Rule::Faw {
        faw_gap(t, a, between, b)
    } else {
        pair_gap(t, rule, a, b)
    }
}

/// No rule on two commands asks for more clocks.
pub(crate) fn most_asked(t: &Timing) -> u64
    requires { AreInLimits t.now }
    ensures { result ≡ most_asked t.now }
{
    let banks = t.t_rcd + t.t_ras + t.t_rp + t.t_rtp + t.cwl + t.t_wr;
    let rows = t.t_rrd_s + t.t_rrd_l + t.t_faw;
    let columns = t.t_ccd_s + t.t_ccd_l + t.t_wtr_s + t.t_wtr_l + t.t_rtw + t.t_cs;
    9 + banks + rows + columns + t.t_rfc
}
