// What commands leave to the next one.
ghost use Rattle.std.specs.Prelude.{◌≡◌, ◌-◌, ◌<◌, ◌^◌, ◌↔◌, List, [], ◌∷◌, ◌++◌, IsTrue, length};
ghost use Rattle.ddr4_timing.specs.Command.{rank_of};
ghost use Rattle.ddr4_timing.specs.Lawful.{AllClosed, FitsRows, IsInGeometry, KeepsRefresh, KeepsRows, is_asleep, last_ref, open_row, ref_count};
ghost use Rattle.ddr4_timing.specs.Places.{HasBank};
ghost use Rattle.ddr4_timing.specs.declared.command.Stamped.{Stamped};

use crate::gaps::is_ref;
use ddr4_timing::command::{Command, Stamped};
use ddr4_timing::place::BankAddress;
use ddr4_timing::timing::{CommandRules, Geometry};

/// The row that is open in each bank of a rank, by the bank's slot.
#[derive(Clone, Copy)]
struct Banks {
    rows: [Option<u64>; 16],
}

impl Banks {
    ghost use Rattle.all_faults.specs.Left.{PutsSlot};

    // From now on this row is open in a bank, or none.
    fn put(&mut self, slot: usize, row: Option<u64>)
        requires { slot < 16 }
        ensures { PutsSlot slot row self.old self.new }
    {
        self.rows[slot] = row;
    }
}

/// What commands leave to the next one, whether they are lawful or not: the row that is open in each bank, and of each rank the clock
/// of its last REF, how many it had, and whether it sleeps.
#[derive(Clone, Copy)]
pub(crate) struct Left {
    ranks: [Banks; 8],
    last: [u64; 8],
    refs: [u64; 8],
    asleep: [bool; 8],
}

/// Does the place that a command names lie in the geometry?
pub(crate) fn is_in_geometry(g: &Geometry, x: &Command) -> bool
    ensures { IsTrue result ↔ IsInGeometry g.now x.now }
{
    match *x {
        Command::Act { at, row } => at.lies_in(g) && row < g.rows,
        Command::Rd { at, column } => at.lies_in(g) && column < g.columns,
        Command::Wr { at, column } => at.lies_in(g) && column < g.columns,
        Command::Pre { at } => at.lies_in(g),
        Command::PreAll { rank } | Command::Ref { rank } | Command::Sre { rank } => rank < g.ranks,
    }
}

impl Left {
    ghost use Rattle.all_faults.specs.Left.{ClosesAll, IsLeftBy, PutsRef, PutsRow, PutsToSleep, SameRanks};

    /// Before any command.
    pub(crate) fn new(c: &CommandRules) -> Left
        ensures { IsLeftBy c.now.geometry result [] }
    {
        // the contract is of this profile, and no step of the code is
        let _of = c;
        Left {
            ranks: [Banks { rows: [None; 16] }; 8],
            last: [0; 8],
            refs: [0; 8],
            asleep: [false; 8],
        }
    }

    // The row that is open in a bank.
    fn row(&self, c: &CommandRules, at: BankAddress) -> Option<u64>
        requires { HasBank c.now.geometry at }
        ensures { (list : List Stamped) → IsLeftBy c.now.geometry self.now list
            → result ≡ open_row at list }
    {
        let _of = c;
        self.ranks[at.rank as usize].rows[(at.group * 4 + at.bank) as usize]
    }

    // Are all banks of the rank closed?
    fn all_closed(&self, c: &CommandRules, rank: u64) -> bool
        requires { rank < c.now.geometry.ranks }
        ensures { (list : List Stamped) → IsLeftBy c.now.geometry self.now list
            → (IsTrue result ↔ AllClosed c.now.geometry rank list) }
    {
        for group in 0..c.geometry.groups {
            for bank in 0..c.geometry.banks {
                if self.row(c, BankAddress { rank, group, bank }).is_some() {
                    return false;
                }
            }
        }
        true
    }

    // Are the banks as the command wants them?
    fn fits_rows(&self, c: &CommandRules, x: &Command) -> bool
        requires { IsInGeometry c.now.geometry x.now }
        ensures { (list : List Stamped) → IsLeftBy c.now.geometry self.now list
            → (IsTrue result ↔ FitsRows c.now.geometry list x.now) }
    {
        match *x {
            Command::Act { at, .. } => self.row(c, at).is_none(),
            Command::Rd { at, .. } | Command::Wr { at, .. } => self.row(c, at).is_some(),
            Command::Pre { at } => self.row(c, at).is_some(),
            Command::PreAll { rank } => !self.all_closed(c, rank),
            Command::Ref { rank } | Command::Sre { rank } => self.all_closed(c, rank),
        }
    }

    // Does the rank of a command sleep?
    fn is_asleep(&self, c: &CommandRules, rank: u64) -> bool
        requires { rank < c.now.geometry.ranks }
        ensures { (list : List Stamped) → IsLeftBy c.now.geometry self.now list
            → result ≡ is_asleep rank list }
    {
        let _of = c;
        self.asleep[rank as usize]
    }

    /// Does the command keep the rule on rows?
    pub(crate) fn keeps_rows(&self, c: &CommandRules, x: &Command) -> bool
        ensures { (list : List Stamped) → IsLeftBy c.now.geometry self.now list
            → (IsTrue result ↔ KeepsRows c.now.geometry list x.now) }
    {
        is_in_geometry(&c.geometry, x) && !self.is_asleep(c, x.rank()) && self.fits_rows(c, x)
    }

    /// Does the command, whose place lies in the geometry, keep the rule on refreshes?
    pub(crate) fn keeps_refresh(&self, c: &CommandRules, x: &Stamped) -> bool
        requires { IsInGeometry c.now.geometry x.now.cmd }
        ensures { (list : List Stamped) → IsLeftBy c.now.geometry self.now list
            → (IsTrue result ↔ KeepsRefresh c.now.timing list x.now) }
    {
        let rank = x.cmd.rank() as usize;
        if x.clock.saturating_sub(self.last[rank]) > 9 * c.timing.t_refi {
            return false;
        }
        !is_ref(&x.cmd) || self.refs[rank] < x.clock / c.timing.t_refi
    }

    // A command that names a bank of the geometry leaves this row in it.
    fn put_row(&mut self, c: &CommandRules, at: BankAddress, row: Option<u64>)
        ensures rows { PutsRow c.now.geometry at row self.old self.new }
        ensures ranks { SameRanks self.old self.new }
    {
        if at.lies_in(&c.geometry) {
            self.ranks[at.rank as usize].put((at.group * 4 + at.bank) as usize, row);
        }
    }

    // A REF goes to a rank at a clock.
    fn put_ref(&mut self, c: &CommandRules, rank: u64, clock: u64)
        ensures { PutsRef c.now.geometry rank clock self.old self.new }
    {
        if rank < c.geometry.ranks {
            self.last[rank as usize] = clock;
            self.refs[rank as usize] = self.refs[rank as usize].saturating_add(1);
        }
    }

    // A PREA goes to a rank.
    fn close_all(&mut self, c: &CommandRules, rank: u64)
        ensures rows { ClosesAll c.now.geometry rank self.old self.new }
        ensures ranks { SameRanks self.old self.new }
    {
        if rank < c.geometry.ranks {
            self.ranks[rank as usize] = Banks { rows: [None; 16] };
        }
    }

    // An SRE goes to a rank.
    fn put_to_sleep(&mut self, c: &CommandRules, rank: u64)
        ensures { PutsToSleep c.now.geometry rank self.old self.new }
    {
        if rank < c.geometry.ranks {
            self.asleep[rank as usize] = true;
        }
    }

    /// The command is issued, lawful or not.
    pub(crate) fn take(&mut self, c: &CommandRules, x: &Stamped)
        ensures { (list : List Stamped) → length list < 2 ^ 64 - 1
            → IsLeftBy c.now.geometry self.old list
            → IsLeftBy c.now.geometry self.new (list ++ x.now ∷ []) }
    {
        match x.cmd {
            Command::Act { at, row } => self.put_row(c, at, Some(row)),
            Command::Pre { at } => self.put_row(c, at, None),
            Command::PreAll { rank } => self.close_all(c, rank),
            Command::Ref { rank } => self.put_ref(c, rank, x.clock),
            Command::Sre { rank } => self.put_to_sleep(c, rank),
            Command::Rd { .. } | Command::Wr { .. } => {}
        }
    }
}
