// Where a bank and a line lie.
ghost use Rattle.std.specs.Prelude.{◌≡◌, ◌↔◌, ◌<◌, IsTrue};

use crate::timing::Geometry;
use std::fmt;

/// One bank of a channel; each number counts from 0.
#[derive(Clone, Copy, Debug, PartialEq, Eq)]
pub struct BankAddress {
    pub rank: u64,
    pub group: u64,
    pub bank: u64,
}

/// The place of one line of 64 bytes; each number counts from 0.
#[derive(Clone, Copy, Debug, PartialEq, Eq)]
pub struct Place {
    pub channel: u64,
    pub rank: u64,
    pub group: u64,
    pub bank: u64,
    pub row: u64,
    pub column: u64,
}

impl fmt::Display for BankAddress {
    fn fmt<W: fmt::Write>(&self, f: &mut fmt::Formatter<W>) -> fmt::Result {
        write!(f, "{} {} {}", self.rank, self.group, self.bank)
    }
}

impl BankAddress {
    ghost use Rattle.ddr4_timing.specs.Places.{HasBank, HasSlot, bank_index, is_bank, is_group, slot_of};
    ghost use Rattle.ddr4_timing.specs.Limits.{HasFewBanks, IsSmall};

    /// The first bank of a rank.
    pub(crate) fn first_of(rank: u64) -> BankAddress
        ensures { result ≡ record { rank = rank; group = 0; bank = 0 } }
    {
        BankAddress {
            rank,
            group: 0,
            bank: 0,
        }
    }

    /// Do the two lie in one group?
    pub(crate) fn is_in_group(&self, other: BankAddress) -> bool
        ensures { result ≡ is_group self.now other }
    {
        self.rank == other.rank && self.group == other.group
    }

    /// Are the two one bank?
    pub(crate) fn is(&self, other: BankAddress) -> bool
        ensures { result ≡ is_bank self.now other }
    {
        self.is_in_group(other) && self.bank == other.bank
    }

    /// Does the geometry have the bank?
    pub fn lies_in(&self, g: &Geometry) -> bool
        ensures { IsTrue result ↔ HasBank g.now self.now }
    {
        self.rank < g.ranks && self.group < g.groups && self.bank < g.banks
    }

    /// Where the bank stands in a table of the 16 banks that a rank has at most.
    pub(crate) fn slot(&self) -> usize
        requires { HasSlot self.now }
        ensures value { result ≡ slot_of self.now }
        ensures small { result < 16 }
    {
        (self.group * 4 + self.bank) as usize
    }

    /// Where the bank stands in a table of the 64 banks that a channel has at most.
    pub fn index(&self, g: &Geometry) -> usize
        requires small { IsSmall g.now }
        requires lies { HasBank g.now self.now }
        ensures value { result ≡ bank_index self.now }
        ensures small { result < 64 }
    {
        // the `requires` are of this geometry, and no step of the code is
        let _geometry = *g;
        (self.rank * 16 + self.group * 4 + self.bank) as usize
    }

    /// Where the bank stands in a table of the 128 banks that the commands of a channel may name.
    pub fn number(&self, g: &Geometry) -> usize
        requires few { HasFewBanks g.now }
        requires lies { HasBank g.now self.now }
        ensures value { result ≡ bank_index self.now }
        ensures small { result < 128 }
    {
        // the `requires` are of this geometry, and no step of the code is
        let _geometry = *g;
        let in_rank = self.group * 4 + self.bank;
        (self.rank * 16 + in_rank) as usize
    }
}

impl Place {
    ghost use Rattle.ddr4_timing.specs.Places.{LiesIn, bank_at};

    /// The bank in which it lies.
    pub fn bank_address(&self) -> BankAddress
        ensures { result ≡ bank_at self.now }
    {
        BankAddress {
            rank: self.rank,
            group: self.group,
            bank: self.bank,
        }
    }

    /// Does the place lie in the geometry?
    pub fn lies_in(&self, g: &Geometry) -> bool
        ensures { IsTrue result ↔ LiesIn g.now self.now }
    {
        if self.channel >= g.channels || self.rank >= g.ranks || self.group >= g.groups {
            return false;
        }
        self.bank < g.banks && self.row < g.rows && self.column < g.columns
    }
}
