// What a list of commands leaves to the next one, in a constant size.
ghost use Rattle.std.specs.Prelude.{◌≡◌, ◌<◌, ◌^◌, ℕ, List, [], IsTrue};
ghost use Rattle.ddr4_timing.specs.Lawful.{IsInGeometry, open_row};
ghost use Rattle.ddr4_timing.specs.Command.{rank_of};
ghost use Rattle.ddr4_timing.specs.Places.{HasBank};
ghost use Rattle.ddr4_timing.specs.declared.command.Stamped.{Stamped};

use crate::cells::{raise, raise_all};
use crate::command::{BankCommand, Command};
use crate::fault::is_in_geometry;
use crate::place::BankAddress;
use crate::rank::RankState;
use crate::timing::{Geometry, Timing};

/// What is open, and the least clock of each kind of command to each bank and rank.
///
/// Each call is given the timing numbers and the geometry for which the state was made.
#[derive(Clone, Copy)]
pub struct TimingState {
    ranks: [RankState; 8],
    columns: [u64; 8],
    next: u64,
    write: u64,
}

impl TimingState {
    ghost use Rattle.ddr4_timing.specs.Limits.{AreInLimits, HasFewBanks};
    ghost use Rattle.ddr4_timing.specs.TimingState.{ChannelTakes, IsBankClock, IsGroupFloor, IsKeptAfter, IsStateAfter, IsRankOf, Keeps, StandsFor, TellsClockTo, TellsClosed, TellsFit, TellsLawful, TellsLeastClock, TellsNext, TellsRows};

    /// Before any command.
    pub fn new(t: &Timing, g: &Geometry) -> TimingState
        requires limits { AreInLimits t.now }
        requires few { HasFewBanks g.now }
        ensures { StandsFor t.now g.now result [] }
    {
        TimingState {
            ranks: [RankState::new(t); 8],
            columns: [0; 8],
            next: 0,
            write: 0,
        }
    }

    /// The command goes at the clock. Takes a number of steps that doesn't grow with the banks.
    pub fn issue(&mut self, t: &Timing, g: &Geometry, cmd: &Command, clock: u64)
        requires limits { AreInLimits t.now }
        requires few { HasFewBanks g.now }
        requires early { clock < 2 ^ 63 }
        requires place { IsInGeometry g.now cmd.now }
        ensures after { IsStateAfter t.now g.now clock cmd.now self.old self.new }
        ensures kept { IsKeptAfter t.now g.now clock cmd.now self.old self.new }
    {
        let rank = cmd.rank();
        self.ranks[rank as usize].take(t, cmd, clock);
        self.share(t, cmd, rank, clock);
    }

    /// What all ranks share after a command: its clock, and what a RD or WR leaves to those of other ranks.
    fn share(&mut self, t: &Timing, cmd: &Command, rank: u64, clock: u64)
        requires early { clock < 2 ^ 63 }
        requires limits { AreInLimits t.now }
        requires rank { rank ≡ rank_of cmd.now }
        ensures { ChannelTakes t.now clock cmd.now self.old self.new }
    {
        raise(&mut self.next, clock + 1);
        match *cmd {
            Command::Rd { .. } => {
                raise_all(&mut self.columns, rank, 0, clock + (4 + t.t_cs));
                raise(&mut self.write, clock + t.t_rtw);
            }
            Command::Wr { .. } => raise_all(&mut self.columns, rank, 0, clock + (4 + t.t_cs)),
            _ => {}
        }
    }

    /// What is kept of a rank.
    pub fn rank(&self, t: &Timing, g: &Geometry, rank: u64) -> &RankState
        requires few { HasFewBanks g.now }
        requires rank { rank < g.now.ranks }
        ensures { IsRankOf t.now g.now self.now rank result.now }
    {
        &self.ranks[rank as usize]
    }

    /// The row that is open in a bank.
    pub fn open_row(&self, t: &Timing, g: &Geometry, at: BankAddress) -> Option<u64>
        requires few { HasFewBanks g.now }
        requires bank { HasBank g.now at }
        ensures { (list : List Stamped) → Keeps t.now g.now self.now list →
            result ≡ open_row at list }
    {
        self.rank(t, g, at.rank).rows.open_row(at)
    }

    /// Is every bank of the rank closed?
    pub fn all_closed(&self, t: &Timing, g: &Geometry, rank: u64) -> bool
        requires few { HasFewBanks g.now }
        requires rank { rank < g.now.ranks }
        ensures { TellsClosed t.now g.now self.now rank result }
    {
        let banks = g.groups * g.banks;
        self.rank(t, g, rank).rows.all_closed(banks as usize)
    }

    /// Does the place lie in the geometry, is the rank awake, and are the banks as the command wants them?
    pub fn keeps_rows(&self, t: &Timing, g: &Geometry, cmd: &Command) -> bool
        requires { HasFewBanks g.now }
        ensures place { IsTrue result → IsInGeometry g.now cmd.now }
        ensures rows { TellsRows t.now g.now self.now cmd.now result }
    {
        if !is_in_geometry(g, cmd) {
            return false;
        }
        if self.rank(t, g, cmd.rank()).is_asleep {
            return false;
        }
        self.fits_rows(t, g, cmd)
    }

    /// Are the banks as the command wants them?
    fn fits_rows(&self, t: &Timing, g: &Geometry, cmd: &Command) -> bool
        requires few { HasFewBanks g.now }
        requires place { IsInGeometry g.now cmd.now }
        ensures { TellsFit t.now g.now self.now cmd.now result }
    {
        match *cmd {
            Command::Act { at, .. } => self.open_row(t, g, at).is_none(),
            Command::Rd { at, .. } | Command::Wr { at, .. } => self.open_row(t, g, at).is_some(),
            Command::Pre { at } => self.open_row(t, g, at).is_some(),
            Command::PreAll { rank } => !self.all_closed(t, g, rank),
            Command::Ref { rank } | Command::Sre { rank } => self.all_closed(t, g, rank),
        }
    }

    /// The clock before which no command of a kind may go to any bank of a group, whatever is open: what the rules leave to it
    /// but for those on the commands of its own bank.
    #[inline(always)]
    pub fn group_floor(
        &self,
        t: &Timing,
        g: &Geometry,
        rank: u64,
        group: u64,
        kind: BankCommand,
    ) -> u64
        requires few { HasFewBanks g.now }
        requires rank { rank < g.now.ranks }
        requires group { group < g.now.groups }
        ensures { IsGroupFloor t.now g.now self.now rank group kind result }
    {
        // the `requires` and the clause are of these numbers, and no step of the code is
        let _numbers = (*t, *g);
        let (number, index) = (rank as usize, group as usize);
        let (rank, column) = (&self.ranks[number], self.columns[number]);
        let floor = match kind {
            BankCommand::Act => rank.group_act[index].max(rank.act.max(rank.window.fourth)),
            BankCommand::Pre => 0,
            BankCommand::Rd => column.max(rank.group_rd[index]),
            BankCommand::Wr => column.max(self.write.max(rank.group_wr[index])),
        };
        self.next.max(floor)
    }

    /// The least clock that the commands of a bank leave to its next one of a kind.
    #[inline(always)]
    pub fn bank_clock(&self, g: &Geometry, at: BankAddress, kind: BankCommand) -> u64
        requires few { HasFewBanks g.now }
        requires bank { HasBank g.now at }
        ensures { IsBankClock self.now at kind result }
    {
        // the `requires` are of this geometry, and no step of the code is
        let _geometry = *g;
        self.ranks[at.rank as usize].bank_clock(at, kind)
    }

    // The least clock of a command to a bank.
    #[inline(always)]
    fn clock_to(&self, t: &Timing, g: &Geometry, at: BankAddress, kind: BankCommand) -> u64
        requires few { HasFewBanks g.now }
        requires bank { HasBank g.now at }
        ensures { TellsClockTo t.now g.now self.now kind at result }
    {
        self.group_floor(t, g, at.rank, at.group, kind)
            .max(self.bank_clock(g, at, kind))
    }

    /// The least clock by every rule but the one on rows and the refresh deadline.
    #[inline(always)]
    #[tactic(auto, unfolding(crate::specs::Floors::least_clock))]
    pub fn least_clock(&self, t: &Timing, g: &Geometry, cmd: &Command) -> u64
        requires few { HasFewBanks g.now }
        requires place { IsInGeometry g.now cmd.now }
        ensures { TellsLeastClock t.now g.now self.now cmd.now result }
    {
        let rank = self.rank(t, g, cmd.rank());
        match *cmd {
            Command::Act { at, .. } => self.clock_to(t, g, at, BankCommand::Act),
            Command::Rd { at, .. } => self.clock_to(t, g, at, BankCommand::Rd),
            Command::Wr { at, .. } => self.clock_to(t, g, at, BankCommand::Wr),
            Command::Pre { at } => self.clock_to(t, g, at, BankCommand::Pre),
            Command::PreAll { .. } => self.next.max(rank.pre_all),
            Command::Ref { .. } => self.next.max(rank.idle.max(rank.refresh.next)),
            Command::Sre { .. } => self.next.max(rank.idle),
        }
    }

    /// May the command go at this clock?
    pub fn ready(&self, t: &Timing, g: &Geometry, cmd: &Command, clock: u64) -> bool
        requires limits { AreInLimits t.now }
        requires few { HasFewBanks g.now }
        ensures place { IsTrue result → IsInGeometry g.now cmd.now }
        ensures next { TellsNext t.now g.now self.now cmd.now clock result }
        ensures exact { TellsLawful t.now g.now self.now cmd.now clock result }
    {
        if !self.keeps_rows(t, g, cmd) {
            return false;
        }
        if clock < self.least_clock(t, g, cmd) {
            return false;
        }
        clock <= self.rank(t, g, cmd.rank()).refresh.deadline
    }
}
