// The open rows of a rank.
ghost use Rattle.std.specs.Prelude.{◌≡◌, ◌≤◌, ◌↔◌, IsTrue, Some, None, if◌then◌else◌};
ghost use Rattle.ddr4_timing.specs.Places.{HasSlot, is_bank};
ghost use Rattle.ddr4_timing.specs.declared.place.BankAddress.{BankAddress};

use crate::place::BankAddress;

/// Which banks of a rank are open, and the row last opened in each.
#[derive(Clone, Copy)]
pub struct Rows {
    is_open: [bool; 16],
    rows: [u64; 16],
}

impl Rows {
    ghost use Rattle.ddr4_timing.specs.Rows.{AreFirstClosed, row_in};

    /// All banks closed.
    pub(crate) fn new() -> Rows
        ensures { (at : BankAddress) → row_in result at ≡ None }
    {
        Rows {
            is_open: [false; 16],
            rows: [0; 16],
        }
    }

    /// The row that is open in a bank.
    pub(crate) fn open_row(&self, at: BankAddress) -> Option<u64>
        requires { HasSlot at }
        ensures { result ≡ row_in self.now at }
    {
        let slot = at.slot();
        self.is_open[slot].then_some(self.rows[slot])
    }

    /// Are the rank's first banks all closed?
    pub(crate) fn all_closed(&self, banks: usize) -> bool
        requires { banks ≤ 16 }
        ensures { IsTrue result ↔ AreFirstClosed banks self.now }
    {
        !self.is_open[..banks].contains(&true)
    }

    /// Opens a row.
    pub(crate) fn open(&mut self, at: BankAddress, row: u64)
        requires { HasSlot at }
        ensures { (bank : BankAddress) → HasSlot bank → bank.rank ≡ at.rank
            → row_in self.new bank ≡ (if is_bank at bank then Some row else row_in self.old bank) }
    {
        let slot = at.slot();
        self.is_open[slot] = true;
        self.rows[slot] = row;
    }

    /// Closes a bank.
    pub(crate) fn close(&mut self, at: BankAddress)
        requires { HasSlot at }
        ensures { (bank : BankAddress) → HasSlot bank → bank.rank ≡ at.rank
            → row_in self.new bank ≡ (if is_bank at bank then None else row_in self.old bank) }
    {
        self.is_open[at.slot()] = false;
    }

    /// Closes all banks.
    pub(crate) fn close_all(&mut self)
        ensures { (bank : BankAddress) → row_in self.new bank ≡ None }
    {
        self.is_open = [false; 16];
    }
}
