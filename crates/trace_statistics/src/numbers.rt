// The numbers of banks and of ranks.
ghost use Rattle.std.specs.Prelude.{◌≡◌, ◌+◌, ◌-◌, ◌<◌, ◌^◌, min, [], ◌∷◌, Bool, List};
ghost use Rattle.auto_precharge.specs.declared.issued.Issued.{Issued};
ghost use Rattle.ddr4_timing.specs.declared.place.BankAddress.{BankAddress};
ghost use Rattle.trace_statistics.specs.Numbers.{AreNumbersOf, AreNumbersOfRanks, bytes_of, is_none, share_of};
ghost use Rattle.trace_statistics.specs.Standing.{AreFound, AreWith};

use crate::phase::Phase;
use auto_precharge::Issued;
use ddr4_timing::command::Command;
use std::fmt;

/// How many commands went to a bank, or to some, and what the RD and WR among them found: a row that the access before left open, a
/// bank that was closed, or one whose row was closed by a PRE for it. At most 2^64 - 1 are told of each.
#[derive(Clone, Copy, Debug, PartialEq, Eq)]
pub struct BankNumbers {
    pub activates: u64,
    pub reads: u64,
    pub writes: u64,
    pub precharges: u64,
    pub hits: u64,
    pub misses: u64,
    pub conflicts: u64,
}

/// How many commands went to whole ranks: PREA, REF and SRE.
#[derive(Clone, Copy, Debug, PartialEq, Eq)]
pub struct RankNumbers {
    pub precharges: u64,
    pub refreshes: u64,
    pub sleeps: u64,
}

impl fmt::Display for BankNumbers {
    ghost use Rattle.std.specs.Prelude.{Some};
    ghost use Rattle.trace_statistics.specs.Texts.{numbers_text};

    ghost output = { λ numbers. Some (numbers_text numbers) };

    #[tactic(auto, unfolding(crate::specs::Texts::numbers_text))]
    fn fmt<W: fmt::Write>(&self, f: &mut fmt::Formatter<W>) -> fmt::Result {
        write!(
            f,
            "ACT {} RD {} WR {} PRE {} hits {} misses {} conflicts {}",
            self.activates,
            self.reads,
            self.writes,
            self.precharges,
            self.hits,
            self.misses,
            self.conflicts
        )
    }
}

impl fmt::Display for RankNumbers {
    ghost use Rattle.std.specs.Prelude.{Some};
    ghost use Rattle.trace_statistics.specs.Texts.{shared_text};

    ghost output = { λ numbers. Some (shared_text numbers) };

    #[tactic(auto, unfolding(crate::specs::Texts::shared_text))]
    fn fmt<W: fmt::Write>(&self, f: &mut fmt::Formatter<W>) -> fmt::Result {
        write!(
            f,
            "PREA {} REF {} SRE {}",
            self.precharges, self.refreshes, self.sleeps
        )
    }
}

// One more.
fn add(count: &mut u64)
    ensures { count.new ≡ min (count.old + 1) (2 ^ 64 - 1) }
{
    *count = count.saturating_add(1);
}

impl BankNumbers {
    /// Before any command.
    pub(crate) fn new() -> BankNumbers
        ensures { (which : BankAddress → Bool) → AreNumbersOf which [] result }
    {
        BankNumbers {
            activates: 0,
            reads: 0,
            writes: 0,
            precharges: 0,
            hits: 0,
            misses: 0,
            conflicts: 0,
        }
    }

    /// Did no command go to them?
    pub fn is_none(&self) -> bool
        ensures { result ≡ is_none self.now }
    {
        self.activates == 0 && self.precharges == 0 && self.reads == 0 && self.writes == 0
    }

    /// In how many of 10,000 clocks the data bus carries data for these, where the last command of the channel goes at this clock.
    pub fn share(&self, last: u64) -> u128
        ensures { result ≡ share_of self.now last }
    {
        40_000 * self.columns() / (u128::from(last) + 1)
    }

    /// How many bytes are read and written in a thousand clocks, where the last command of the channel goes at this clock.
    pub fn bytes(&self, last: u64) -> u128
        ensures { result ≡ bytes_of self.now last }
    {
        64_000 * self.columns() / (u128::from(last) + 1)
    }

    // How many RD and WR.
    fn columns(&self) -> u128
        ensures value { result ≡ self.now.reads + self.now.writes }
        ensures small { result < 2 ^ 65 }
    {
        u128::from(self.reads) + u128::from(self.writes)
    }

    /// Takes a command in, which found its bank so.
    pub(crate) fn take(&mut self, cmd: &Command, phase: Phase)
        ensures { AreWith cmd.now phase self.old self.new }
    {
        match cmd {
            Command::Act { .. } => add(&mut self.activates),
            Command::Rd { .. } => {
                add(&mut self.reads);
                self.find(phase);
            }
            Command::Wr { .. } => {
                add(&mut self.writes);
                self.find(phase);
            }
            Command::Pre { .. } => add(&mut self.precharges),
            Command::PreAll { .. } | Command::Ref { .. } | Command::Sre { .. } => {}
        }
    }

    // Takes in what a RD or WR found.
    fn find(&mut self, phase: Phase)
        ensures { AreFound phase self.old self.new }
    {
        match phase {
            Phase::Used => add(&mut self.hits),
            Phase::Opened => add(&mut self.misses),
            Phase::Reopened => add(&mut self.conflicts),
            Phase::Closed | Phase::Precharged => {}
        }
    }
}

impl RankNumbers {
    /// Before any command.
    pub(crate) fn new() -> RankNumbers
        ensures { AreNumbersOfRanks [] result }
    {
        RankNumbers {
            precharges: 0,
            refreshes: 0,
            sleeps: 0,
        }
    }

    /// Takes a command in.
    pub(crate) fn take(&mut self, next: &Issued)
        ensures { (before : List Issued) → AreNumbersOfRanks before self.old
            → AreNumbersOfRanks (next.now ∷ before) self.new }
    {
        match next.command.cmd {
            Command::PreAll { .. } => add(&mut self.precharges),
            Command::Ref { .. } => add(&mut self.refreshes),
            Command::Sre { .. } => add(&mut self.sleeps),
            _ => {}
        }
    }
}
