// How many clocks a rule asks for between two commands, in words.
ghost use Rattle.std.specs.Prelude.{◌≡◌, ◌≢◌, List};
ghost use Rattle.ddr4_timing.specs.Command.{bank_of, same_group};
ghost use Rattle.ddr4_timing.specs.Gaps.{gap};
ghost use Rattle.ddr4_timing.specs.Limits.{AreInLimits};
ghost use Rattle.ddr4_timing.specs.declared.command.Stamped.{Stamped};

use ddr4_timing::command::Command;
use ddr4_timing::place::BankAddress;
use ddr4_timing::rules::Rule;
use ddr4_timing::timing::Timing;

/// What a rule on two commands asks for.
#[derive(Clone, Copy, Debug, PartialEq, Eq)]
pub struct Asked {
    /// What the two commands share.
    pub shared: &'static str,
    /// The timing numbers, by JESD79-4's names.
    pub times: &'static str,
    /// Their value.
    pub clocks: u64,
}

/// The bank that a command names, the first of its rank where it names none.
pub(crate) fn bank_named(x: &Command) -> BankAddress
    ensures { result ≡ bank_of x.now }
{
    match *x {
        Command::Act { at, .. } | Command::Rd { at, .. } | Command::Wr { at, .. } => at,
        Command::Pre { at } => at,
        Command::PreAll { rank } | Command::Ref { rank } | Command::Sre { rank } => BankAddress {
            rank,
            group: 0,
            bank: 0,
        },
    }
}

fn is_same_group(a: &Command, b: &Command) -> bool
    ensures { result ≡ same_group a.now b.now }
{
    let (a, b) = (bank_named(a), bank_named(b));
    a.rank == b.rank && a.group == b.group
}

const NEAR: &str = "same bank group";

const FAR: &str = "other bank group";

fn told(shared: &'static str, times: &'static str, clocks: u64) -> Asked
    ensures { result.clocks ≡ clocks }
{
    Asked {
        shared,
        times,
        clocks,
    }
}

impl Asked {
    /// What the rule asks for between two commands, of which `a` comes first, where it asks for something. Of the rules on rows
    /// and on refreshes, which aren't on two commands, it tells 0 clocks.
    #[tactic(auto, unfolding(ddr4_timing::specs::Gaps::gap, ddr4_timing::specs::Gaps::pair_gap, ddr4_timing::specs::Gaps::faw_gap))]
    pub fn of(t: &Timing, rule: Rule, a: &Command, b: &Command) -> Asked
        requires { AreInLimits t.now }
        ensures { (between : List Stamped) → gap t.now rule a.now between b.now ≢ 0 →
            result.clocks ≡ gap t.now rule a.now between b.now }
    {
        let is_same = is_same_group(a, b);
        match rule {
            Rule::Order => told("same channel", "1", 1),
            Rule::Rcd => told("same bank", "tRCD", t.t_rcd),
            Rule::Ras => told("same bank", "tRAS", t.t_ras),
            Rule::Rp => told("same bank or rank", "tRP", t.t_rp),
            Rule::Rc => told("same bank", "tRAS + tRP", t.t_ras + t.t_rp),
            Rule::Rtp => told("same bank", "tRTP", t.t_rtp),
            Rule::Wr => told("same bank", "CWL + 4 + tWR", t.cwl + 4 + t.t_wr),
            Rule::Rrd if is_same => told(NEAR, "tRRD_L", t.t_rrd_l),
            Rule::Rrd => told(FAR, "tRRD_S", t.t_rrd_s),
            Rule::Faw => told("same rank", "tFAW", t.t_faw),
            Rule::Ccd if is_same => told(NEAR, "tCCD_L", t.t_ccd_l),
            Rule::Ccd => told(FAR, "tCCD_S", t.t_ccd_s),
            Rule::Wtr if is_same => told(NEAR, "CWL + 4 + tWTR_L", t.cwl + 4 + t.t_wtr_l),
            Rule::Wtr => told(FAR, "CWL + 4 + tWTR_S", t.cwl + 4 + t.t_wtr_s),
            Rule::Rtw => told("same channel", "tRTW", t.t_rtw),
            Rule::Cs => told("other rank", "4 + tCS", 4 + t.t_cs),
            Rule::Rfc => told("same rank", "tRFC", t.t_rfc),
            Rule::Rows | Rule::Refi => told("", "", 0),
        }
    }
}
