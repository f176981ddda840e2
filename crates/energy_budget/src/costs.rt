// What the actions of a closing save may cost.
ghost use Rattle.std.specs.Prelude.{◌≡◌, ◌≤◌, ◌<◌, ◌^◌, ◌*◌, ◌+◌, ◌↔◌, IsTrue};
ghost use Rattle.ddr4_timing.specs.Limits.{IsSmall, lines_of};
ghost use Rattle.energy_budget.specs.CostNumbers.{AreCostsInLimits, close_cost_of, entry_cost_of, page_cost_of, frame_cost_of, repeat_cost_of};

use crate::Action;
use ddr4_timing::command::Command;
use ddr4_timing::timing::{Checked, Geometry};

/// The lines that a save writes as one page, as many as a page of an image has.
pub const PAGE_LINES: u64 = 64;

/// What commands, clocks and the actions of a save cost, in units of energy, each 0 to 1,000,000.
#[derive(Clone, Copy, Debug, PartialEq, Eq)]
pub struct CostNumbers {
    /// An ACT.
    pub e_act: u64,
    /// A RD or WR.
    pub e_col: u64,
    /// A PRE or PREA.
    pub e_pre: u64,
    /// A REF.
    pub e_ref: u64,
    /// An SRE.
    pub e_sre: u64,
    /// A clock of a channel's drain.
    pub e_clk: u64,
    /// A write to a slot's header, or to its gate.
    pub e_mark: u64,
    /// A sync.
    pub e_sync: u64,
    /// Writing a page.
    pub e_page: u64,
    /// A page's part of its image's digest.
    pub e_digest: u64,
    /// The most that the gauge may lose between two readings on mains.
    pub leak: u64,
}

/// The costs of the profile `tiny`.
pub const TINY_COSTS: CostNumbers = CostNumbers {
    e_act: 4,
    e_col: 2,
    e_pre: 1,
    e_ref: 20,
    e_sre: 1,
    e_clk: 1,
    e_mark: 50,
    e_sync: 100,
    e_page: 1000,
    e_digest: 0,
    leak: 1,
};

/// The costs of a closing save on one profile.
#[derive(Clone, Copy, Debug, PartialEq, Eq)]
pub struct Costs {
    pub numbers: CostNumbers,
    pub channels: u64,
    /// Ranks of a channel.
    pub ranks: u64,
    /// Pages of a save, of `PAGE_LINES` lines each.
    pub pages: u64,
    /// The most clocks that a drain's close step takes.
    pub close: u64,
    /// The most clocks that an entry step takes.
    pub entry: u64,
    /// How many device calls that failed a closing save may make again.
    pub retries: u64,
    // sums that are asked for at each write
    close_step: u64,
    entry_step: u64,
    without_entries: u64,
    for_repeats: u64,
    ghost in_limits: { AreCostsInLimits numbers },
    ghost few: { (channels ≤ 8) × (ranks ≤ 4) × (pages ≤ 1024) },
    ghost short: { (close ≤ 1000000) × (entry ≤ 1000000) },
    ghost few_repeats: { retries ≤ 16 },
    ghost fit: { (close_step ≤ 2 ^ 41) × (entry_step ≤ 2 ^ 41) × (without_entries ≤ 2 ^ 46) },
    ghost fit_repeats: { for_repeats ≤ 2 ^ 25 },
    ghost is_close_step: { close_step ≡ close_cost_of numbers ranks close },
    ghost is_entry_step: { entry_step ≡ entry_cost_of numbers ranks entry },
    ghost is_without_entries: { without_entries
        ≡ channels * close_step + pages * page_cost_of numbers + frame_cost_of numbers },
    ghost is_for_repeats: { for_repeats ≡ retries * repeat_cost_of numbers },
}

impl CostNumbers {
    ghost use Rattle.energy_budget.specs.CostNumbers.{command_cost};

    /// The largest number.
    pub const MOST: u64 = 1_000_000;

    /// Is each number at most `MOST`?
    pub fn is_in_limits(&self) -> bool
        ensures { IsTrue result ↔ AreCostsInLimits self.now }
    {
        let most = Self::MOST;
        if self.e_act > most || self.e_col > most || self.e_pre > most {
            return false;
        }
        if self.e_ref > most || self.e_sre > most || self.e_clk > most {
            return false;
        }
        if self.e_mark > most || self.e_sync > most {
            return false;
        }
        if self.e_page > most || self.e_digest > most {
            return false;
        }
        self.leak <= most
    }

    /// What a command costs, without the clocks that pass until it goes.
    pub fn command_cost(&self, cmd: &Command) -> u64
        ensures { result ≡ command_cost self.now cmd.now }
    {
        match *cmd {
            Command::Act { .. } => self.e_act,
            Command::Rd { .. } | Command::Wr { .. } => self.e_col,
            Command::Pre { .. } | Command::PreAll { .. } => self.e_pre,
            Command::Ref { .. } => self.e_ref,
            Command::Sre { .. } => self.e_sre,
        }
    }

    // One page of a save.
    fn page_cost(&self) -> u64
        requires { AreCostsInLimits self.now }
        ensures value { result ≡ page_cost_of self.now }
        ensures fits { result ≤ 2000000 }
    {
        self.e_page + self.e_digest
    }

    // A step of a save that is made again, at most.
    fn repeat_cost(&self) -> u64
        requires { AreCostsInLimits self.now }
        ensures value { result ≡ repeat_cost_of self.now }
        ensures fits { result ≤ 2000000 }
    {
        self.e_mark.max(self.e_sync).max(self.page_cost())
    }
}

/// How many lines a geometry has.
fn line_count(g: &Geometry) -> u64
    requires { IsSmall g.now }
    ensures { result ≡ lines_of g.now }
{
    let banks = g.channels * g.ranks * g.groups * g.banks;
    banks * g.rows * g.columns
}

/// A few times a cost, and clocks, each of which costs the same.
fn cost_with_clocks(count: u64, cost: u64, clock: u64, clocks: u64) -> u64
    requires count { count ≤ 4 }
    requires cost { cost ≤ 2000000 }
    requires clock { clock ≤ 1000000 }
    requires clocks { clocks ≤ 1000000 }
    ensures value { result ≡ count * cost + clock * clocks }
    ensures fits { result ≤ 2 ^ 40 }
{
    count * cost + clock * clocks
}

impl Costs {
    ghost use Rattle.energy_budget.specs.Costs.{AreReckonedFor};
    ghost use Rattle.energy_budget.specs.Actions.{cost_of};
    ghost use Rattle.energy_budget.specs.Sums.{reserve, steps, floor_level, needed_level};

    /// The costs of a closing save on this profile, which makes no device call again.
    pub fn of(checked: &Checked, numbers: &CostNumbers) -> Costs
        requires { AreCostsInLimits numbers.now }
        ensures profile { AreReckonedFor checked.now result }
        ensures numbers { result.numbers ≡ numbers.now }
        ensures retries { result.retries ≡ 0 }
    {
        let geometry = checked.geometry;
        let ranks = geometry.ranks;
        let close = checked.timing.close(&geometry);
        let entry = checked.timing.entry(&geometry);
        let pages = line_count(&geometry) / PAGE_LINES;
        let close_step = cost_with_clocks(
            ranks,
            numbers.e_pre + numbers.e_sre,
            numbers.e_clk,
            close,
        );
        let refreshes = cost_with_clocks(ranks, numbers.e_ref, numbers.e_clk, entry);
        let frame = 3 * numbers.e_mark + 3 * numbers.e_sync;
        Costs {
            numbers: *numbers,
            channels: geometry.channels,
            ranks,
            pages,
            close,
            entry,
            retries: 0,
            close_step,
            entry_step: refreshes + numbers.e_act + numbers.e_col + numbers.e_pre,
            without_entries: geometry.channels * close_step + pages * numbers.page_cost() + frame,
            for_repeats: 0,
        }
    }

    /// The costs of one that may make so many of its device calls again.
    pub fn with_retries(self, retries: u64) -> Costs
        requires { retries ≤ 16 }
        ensures profile { (checked : Checked) → AreReckonedFor checked self
            → AreReckonedFor checked result }
        ensures numbers { result.numbers ≡ self.numbers }
        ensures retries { result.retries ≡ retries }
    {
        Costs {
            retries,
            for_repeats: retries * self.numbers.repeat_cost(),
            numbers: self.numbers,
            channels: self.channels,
            ranks: self.ranks,
            pages: self.pages,
            close: self.close,
            entry: self.entry,
            close_step: self.close_step,
            entry_step: self.entry_step,
            without_entries: self.without_entries,
        }
    }

    /// What an action costs.
    pub fn cost(&self, action: Action) -> u64
        ensures value { result ≡ cost_of self.now action }
        ensures fits { result ≤ 2 ^ 41 }
    {
        match action {
            Action::CloseStep => self.close_step,
            Action::EntryStep => self.entry_step,
            Action::CloseGate | Action::WriteHeader | Action::OpenGate => self.numbers.e_mark,
            Action::WritePage => self.numbers.page_cost(),
            Action::Sync => self.numbers.e_sync,
        }
    }

    /// The energy of a closing save of so many pending writes: the sum of its actions' costs, and of the dearest step's as often
    /// as it may make one again.
    pub fn reserve(&self, pending: u64) -> u64
        requires { pending ≤ 1024 }
        ensures value { result ≡ reserve self.now pending }
        ensures fits { result ≤ 2 ^ 52 }
    {
        self.without_entries + pending * self.entry_step + self.for_repeats
    }

    /// How many actions such a save has at most.
    pub fn steps(&self, pending: u64) -> u64
        requires { pending ≤ 1024 }
        ensures value { result ≡ steps self.now pending }
        ensures fits { result ≤ 4096 }
    {
        pending + self.channels + self.pages + 6 + self.retries
    }

    /// The least level for such a save: its reserve, and the leak for one tick of the gauge more than it has actions.
    pub fn floor(&self, pending: u64) -> u64
        requires { pending ≤ 1024 }
        ensures value { result ≡ floor_level self.now pending }
        ensures fits { result ≤ 2 ^ 53 }
    {
        self.reserve(pending) + self.numbers.leak * (self.steps(pending) + 1)
    }

    /// The least reading at which so many pending writes may be acknowledged: the floor, and the leak until the next one.
    pub fn need(&self, pending: u64) -> u64
        requires { pending ≤ 1024 }
        ensures value { result ≡ needed_level self.now pending }
        ensures fits { result ≤ 2 ^ 54 }
    {
        self.floor(pending) + self.numbers.leak
    }
}
