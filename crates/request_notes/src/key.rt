// What the choice asks of a queued request, beside the request itself.
ghost use Rattle.std.specs.Prelude.{◌≡◌, ◌↔◌, IsTrue, false};
ghost use Rattle.ddr4_timing.specs.Places.{bank_at};
ghost use Rattle.request_notes.specs.KeyPlaces.{bank_number, place_of};
ghost use Rattle.request_notes.specs.Notes.{IsFreeIn, IsFreeOf};
ghost use Rattle.request_notes.specs.Requests.{act_of, column_of};

use crate::pending::Kind;
use ddr4_timing::command::Command;
use ddr4_timing::place::{BankAddress, Place};

/// What the choice asks of a request before its turn comes, in a third of the room that the request takes.
#[derive(Clone, Copy)]
pub struct Key {
    pub seq: u64,
    pub row: u64,
    pub line: u64,
    /// Where its bank stands in a table of the 64 banks that a channel has at most.
    pub bank: u8,
    pub kind: Kind,
    /// Whether it is the first of its line.
    pub first: bool,
    /// Whether it is to wait for now.
    pub held: bool,
}

/// Where the bank of a place stands in a table of 64, also where no geometry has the place.
pub fn bank_number(place: &Place) -> u8
    ensures { result ≡ bank_number place.now }
{
    (place.rank % 4 * 16 + place.group % 4 * 4 + place.bank % 4) as u8
}

impl Key {
    /// Is the request eligible?
    pub fn is_free(&self) -> bool
        ensures { IsTrue result ↔ (IsTrue self.now.first × (self.now.held ≡ false)) }
    {
        self.first && !self.held
    }

    /// Is it eligible, and of the bank of a number?
    pub fn is_of_bank(&self, bank: usize) -> bool
        ensures { IsTrue result ↔ IsFreeOf bank self.now }
    {
        self.bank as usize == bank && self.is_free()
    }

    /// Is it one of those that want a row by one kind of command?
    pub fn is_hit(&self, bank: usize, row: u64, kind: Kind) -> bool
        ensures { IsTrue result ↔ IsFreeIn bank row kind self.now }
    {
        self.is_of_bank(bank) && self.row == row && self.kind == kind
    }

    /// The request's bank.
    pub fn bank_address(&self) -> BankAddress
        ensures { result ≡ bank_at (place_of self.now) }
    {
        let bank = self.bank as u64;
        BankAddress {
            rank: bank / 16,
            group: bank / 4 % 4,
            bank: bank % 4,
        }
    }

    /// The ACT that opens the request's row.
    pub fn act(&self) -> Command
        ensures { result ≡ act_of (place_of self.now) }
    {
        Command::Act {
            at: self.bank_address(),
            row: self.row,
        }
    }

    /// The RD or WR of the first column of the request's row, which goes as soon as that of any other column.
    pub fn column(&self) -> Command
        ensures { result ≡ column_of self.now.kind (place_of self.now) }
    {
        let (at, column) = (self.bank_address(), 0);
        match self.kind {
            Kind::Read => Command::Rd { at, column },
            Kind::Write => Command::Wr { at, column },
        }
    }
}
