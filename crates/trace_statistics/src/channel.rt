// The statistics of a channel.
ghost use Rattle.std.specs.Prelude.{◌≡◌, ◌<◌, [], ◌∷◌, ◌++◌, List};
ghost use Rattle.ddr4_timing.specs.Lawful.{IsInGeometry};
ghost use Rattle.ddr4_timing.specs.Places.{HasBank};
ghost use Rattle.auto_precharge.specs.declared.issued.Issued.{Issued};
ghost use Rattle.trace_statistics.specs.Numbers.{AreNumbersOfBank, AreNumbersOfChannel, AreNumbersOfRanks, bytes_of, last_clock, latest, share_of};
ghost use Rattle.trace_statistics.specs.Standing.{ChannelStands};

use crate::numbers::{BankNumbers, RankNumbers};
use crate::rank::{Rank, slot_of};
use auto_precharge::Issued;
use ddr4_timing::place::BankAddress;
use ddr4_timing::timing::CommandRules;

/// The statistics of a channel, in a constant size.
///
/// Each call is given the profile whose commands it takes.
#[derive(Clone, Copy)]
pub struct Channel {
    ranks: [Rank; 8],
    total: BankNumbers,
    shared: RankNumbers,
    last: u64,
}

impl Channel {
    /// Before any command.
    pub(crate) fn new() -> Channel
        ensures { ChannelStands result [] }
    {
        Channel {
            ranks: [Rank::new(); 8],
            total: BankNumbers::new(),
            shared: RankNumbers::new(),
            last: 0,
        }
    }

    /// Takes the next command in.
    pub(crate) fn take(&mut self, rules: &CommandRules, next: &Issued)
        requires { IsInGeometry rules.now.geometry next.now.command.cmd }
        ensures { (list : List Issued) → ChannelStands self.old list
            → ChannelStands self.new (list ++ next.now ∷ []) }
    {
        // the `requires` is of this geometry, and no step of the code is
        let _geometry = rules.geometry;
        let rank = next.command.cmd.rank() as usize;
        let phase = self.ranks[rank].take(next);
        self.total.take(&next.command.cmd, phase);
        self.shared.take(next);
        self.last = self.last.max(next.command.clock);
    }

    /// The numbers of a bank.
    pub fn bank(&self, rules: &CommandRules, at: BankAddress) -> BankNumbers
        requires { HasBank rules.now.geometry at }
        ensures { (list : List Issued) → ChannelStands self.now list
            → AreNumbersOfBank at list result }
    {
        // the `requires` is of this geometry, and no step of the code is
        let _geometry = rules.geometry;
        self.ranks[at.rank as usize].banks[slot_of(at)]
    }

    /// The numbers of all banks together.
    pub fn total(&self) -> BankNumbers
        ensures { (list : List Issued) → ChannelStands self.now list
            → AreNumbersOfChannel list result }
    {
        self.total
    }

    /// How many commands went to whole ranks.
    pub fn shared(&self) -> RankNumbers
        ensures { (list : List Issued) → ChannelStands self.now list
            → AreNumbersOfRanks (latest list) result }
    {
        self.shared
    }

    /// The clock of the last command, 0 where there is none.
    pub fn last(&self) -> u64
        ensures { (list : List Issued) → ChannelStands self.now list
            → result ≡ last_clock list }
    {
        self.last
    }
}
