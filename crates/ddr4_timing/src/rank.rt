// What the commands of a rank leave to its later ones.
ghost use Rattle.std.specs.Prelude.{ℕ, ◌<◌, ◌^◌, []};
ghost use Rattle.ddr4_timing.specs.Command.{bank_of};
ghost use Rattle.ddr4_timing.specs.Places.{HasSlot};
ghost use Rattle.ddr4_timing.specs.declared.command.Command.TheVariants.{Act, Rd, Wr, Pre, PreAll, Ref, Sre};

use crate::cells::{BankCells, raise, raise_all};
use crate::command::{BankCommand, Command};
use crate::place::BankAddress;
use crate::rows::Rows;
use crate::timing::Timing;

/// tFAW after each of a rank's last four ACT, 0 where it had fewer.
#[derive(Clone, Copy)]
pub struct Window {
    pub fourth: u64,
    pub third: u64,
    pub second: u64,
    pub last: u64,
}

/// The least clock of a rank's next REF, and the last clock of any command before it.
#[derive(Clone, Copy)]
pub struct Refresh {
    pub next: u64,
    pub deadline: u64,
}

/// A rank: its open rows, the least clocks that its own commands leave to the commands of its banks, of its groups and of
/// itself, and what its ACT, REF and SRE leave. `idle` is the least clock of a REF or SRE.
#[derive(Clone, Copy)]
pub struct RankState {
    pub rows: Rows,
    pub banks: [BankCells; 16],
    pub group_act: [u64; 4],
    pub group_rd: [u64; 4],
    pub group_wr: [u64; 4],
    pub act: u64,
    pub pre_all: u64,
    pub idle: u64,
    pub window: Window,
    pub refresh: Refresh,
    pub is_asleep: bool,
}

impl RankState {
    ghost use Rattle.ddr4_timing.specs.Limits.{AreInLimits, HasFewBanks};
    ghost use Rattle.ddr4_timing.specs.declared.timing.Geometry.{Geometry};
    ghost use Rattle.ddr4_timing.specs.TimingState.{LeavesTo, RankStands, RankTakes};

    /// A rank before any command.
    pub(crate) fn new(t: &Timing) -> RankState
        requires { AreInLimits t.now }
        ensures { (g : Geometry) (rank : ℕ) → HasFewBanks g →
            RankStands t.now g [] 0 0 0 rank result }
    {
        RankState {
            rows: Rows::new(),
            banks: [BankCells {
                act: 0,
                column: 0,
                pre: 0,
            }; 16],
            group_act: [0; 4],
            group_rd: [0; 4],
            group_wr: [0; 4],
            act: 0,
            pre_all: 0,
            idle: 0,
            window: Window {
                fourth: 0,
                third: 0,
                second: 0,
                last: 0,
            },
            refresh: Refresh {
                next: t.t_refi,
                deadline: 9 * t.t_refi,
            },
            is_asleep: false,
        }
    }

    /// An ACT of the rank goes.
    pub(crate) fn take_act(&mut self, t: &Timing, at: BankAddress, row: u64, clock: u64)
        requires limits { AreInLimits t.now }
        requires early { clock < 2 ^ 63 }
        requires slot { HasSlot at }
        ensures { RankTakes t.now clock (Act at row) self.old self.new }
    {
        self.rows.open(at, row);
        let bank = &mut self.banks[at.slot()];
        raise(&mut bank.act, clock + (t.t_ras + t.t_rp));
        raise(&mut bank.column, clock + t.t_rcd);
        raise(&mut bank.pre, clock + t.t_ras);
        let (near, far) = (clock + t.t_rrd_l, clock + t.t_rrd_s);
        raise_all(&mut self.group_act, at.group, near, far);
        raise(&mut self.pre_all, clock + t.t_ras);
        self.window = Window {
            fourth: self.window.third,
            third: self.window.second,
            second: self.window.last,
            last: clock + t.t_faw,
        };
    }

    /// A RD of the rank goes.
    pub(crate) fn take_rd(&mut self, t: &Timing, at: BankAddress, column: u64, clock: u64)
        requires limits { AreInLimits t.now }
        requires early { clock < 2 ^ 63 }
        requires slot { HasSlot at }
        ensures { RankTakes t.now clock (Rd at column) self.old self.new }
    {
        raise(&mut self.banks[at.slot()].pre, clock + t.t_rtp);
        let (near, far) = (clock + t.t_ccd_l, clock + t.t_ccd_s);
        raise_all(&mut self.group_rd, at.group, near, far);
        raise(&mut self.pre_all, clock + t.t_rtp);
    }

    /// A WR of the rank goes.
    pub(crate) fn take_wr(&mut self, t: &Timing, at: BankAddress, column: u64, clock: u64)
        requires limits { AreInLimits t.now }
        requires early { clock < 2 ^ 63 }
        requires slot { HasSlot at }
        ensures { RankTakes t.now clock (Wr at column) self.old self.new }
    {
        let (burst, recovery) = (t.cwl + 4, t.cwl + 4 + t.t_wr);
        raise(&mut self.banks[at.slot()].pre, clock + recovery);
        let (near, far) = (burst + t.t_wtr_l, burst + t.t_wtr_s);
        raise_all(&mut self.group_rd, at.group, clock + near, clock + far);
        let (near, far) = (clock + t.t_ccd_l, clock + t.t_ccd_s);
        raise_all(&mut self.group_wr, at.group, near, far);
        raise(&mut self.pre_all, clock + recovery);
    }

    /// A PRE of the rank goes.
    pub(crate) fn take_pre(&mut self, t: &Timing, at: BankAddress, clock: u64)
        requires limits { AreInLimits t.now }
        requires early { clock < 2 ^ 63 }
        requires slot { HasSlot at }
        ensures { RankTakes t.now clock (Pre at) self.old self.new }
    {
        self.rows.close(at);
        raise(&mut self.banks[at.slot()].act, clock + t.t_rp);
        raise(&mut self.idle, clock + t.t_rp);
    }

    /// A PREA of the rank goes.
    pub(crate) fn take_pre_all(&mut self, t: &Timing, rank: u64, clock: u64)
        requires limits { AreInLimits t.now }
        requires early { clock < 2 ^ 63 }
        ensures { RankTakes t.now clock (PreAll rank) self.old self.new }
    {
        self.rows.close_all();
        raise(&mut self.act, clock + t.t_rp);
        raise(&mut self.idle, clock + t.t_rp);
    }

    /// A REF of the rank goes.
    pub(crate) fn take_ref(&mut self, t: &Timing, rank: u64, clock: u64)
        requires limits { AreInLimits t.now }
        requires early { clock < 2 ^ 63 }
        ensures { RankTakes t.now clock (Ref rank) self.old self.new }
    {
        raise(&mut self.act, clock + t.t_rfc);
        raise(&mut self.idle, clock + t.t_rfc);
        self.refresh = Refresh {
            next: self.refresh.next.saturating_add(t.t_refi),
            deadline: clock + 9 * t.t_refi,
        };
    }

    /// An SRE of the rank goes.
    pub(crate) fn take_sre(&mut self, t: &Timing, rank: u64, clock: u64)
        ensures { RankTakes t.now clock (Sre rank) self.old self.new }
    {
        self.is_asleep = true;
    }

    /// A command of the rank goes.
    pub(crate) fn take(&mut self, t: &Timing, cmd: &Command, clock: u64)
        requires limits { AreInLimits t.now }
        requires early { clock < 2 ^ 63 }
        requires slot { HasSlot (bank_of cmd.now) }
        ensures { RankTakes t.now clock cmd.now self.old self.new }
    {
        match *cmd {
            Command::Act { at, row } => self.take_act(t, at, row, clock),
            Command::Rd { at, column } => self.take_rd(t, at, column, clock),
            Command::Wr { at, column } => self.take_wr(t, at, column, clock),
            Command::Pre { at } => self.take_pre(t, at, clock),
            Command::PreAll { rank } => self.take_pre_all(t, rank, clock),
            Command::Ref { rank } => self.take_ref(t, rank, clock),
            Command::Sre { rank } => self.take_sre(t, rank, clock),
        }
    }

    /// The least clock that the commands of a bank leave to its next one of a kind.
    #[inline(always)]
    pub(crate) fn bank_clock(&self, at: BankAddress, kind: BankCommand) -> u64
        requires { HasSlot at }
        ensures { LeavesTo kind self.now at result }
    {
        let cells = self.banks[at.slot()];
        match kind {
            BankCommand::Act => cells.act,
            BankCommand::Pre => cells.pre,
            BankCommand::Rd | BankCommand::Wr => cells.column,
        }
    }
}
