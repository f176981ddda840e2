// What the refreshes and the windows of a rank left to spare.
ghost use Rattle.std.specs.Prelude.{◌≡◌, ◌<◌, ◌^◌, [], ◌∷◌, ◌++◌, List, Some, ℕ};
ghost use Rattle.auto_precharge.specs.Unfolding.{plain_commands};
ghost use Rattle.auto_precharge.specs.declared.issued.Issued.{Issued};
ghost use Rattle.ddr4_timing.specs.Command.{rank_of};
ghost use Rattle.ddr4_timing.specs.Lawful.{IsInGeometry};
ghost use Rattle.ddr4_timing.specs.Limits.{AreInLimits};
ghost use Rattle.ddr4_timing.specs.declared.command.Stamped.{Stamped};
ghost use Rattle.ddr4_timing.specs.declared.timing.Timing.{Timing};
ghost use Rattle.trace_statistics.specs.Margins.{AreMarginsOf, lesser, mean_of};
ghost use Rattle.trace_statistics.specs.MarginsStanding.{IsActivated, IsRefreshed, MarginsStand, RanksStand};

use auto_precharge::Issued;
use ddr4_timing::command::{Command, Stamped};
use ddr4_timing::rank::Window;
use ddr4_timing::timing::{CommandRules, Timing};
use std::fmt;

/// The refreshes of a rank, and the fewest clocks that the rules on refreshes and on four activates left to spare.
#[derive(Clone, Copy, Debug, PartialEq, Eq)]
pub struct Margins {
    /// How many REF it had, at most 2^64 - 1.
    pub refreshes: u64,
    /// The clock of the last REF, 0 where it had none: the sum of the distances of a lawful list.
    pub last: u64,
    /// The longest distance of a REF from the one before it, or from clock 0.
    pub longest: u64,
    /// How many clocks later the command could have gone that came closest to the end of nine intervals behind a REF; none where no
    /// command came.
    pub refresh: Option<u64>,
    /// How many clocks earlier the ACT could have gone that came closest to the end of a window of four; none where no window was
    /// full.
    pub window: Option<u64>,
}

/// The margins of a rank up to now, and what they go on from: the last clock before the next REF, and the ends of the last windows.
#[derive(Clone, Copy)]
pub struct RankMargins {
    pub(crate) margins: Margins,
    deadline: u64,
    ends: Window,
}

impl Margins {
    /// How far its REF lie apart in the mean, rounded down, from clock 0 on; 0 where it had none.
    pub fn mean(&self) -> u64
        ensures { result ≡ mean_of self.now }
    {
        if self.refreshes == 0 {
            return 0;
        }
        self.last / self.refreshes
    }
}

impl fmt::Display for Margins {
    ghost use Rattle.trace_statistics.specs.Texts.{margins_text};

    ghost output = { λ margins. Some (margins_text margins) };

    #[tactic(auto, unfolding(crate::specs::Texts::margins_text))]
    fn fmt<W: fmt::Write>(&self, f: &mut fmt::Formatter<W>) -> fmt::Result {
        let (refreshes, longest, mean) = (self.refreshes, self.longest, self.mean());
        write!(f, "REF {refreshes} longest {longest} mean {mean}")?;
        if let Some(least) = self.refresh {
            write!(f, " least {least}")?;
        }
        match self.window {
            Some(least) => write!(f, " window {least}"),
            None => Ok(()),
        }
    }
}

// The lesser of a number that may be there, and one that is.
fn lesser(least: Option<u64>, next: u64) -> Option<u64>
    ensures { result ≡ lesser least (Some next) }
{
    match least {
        None => Some(next),
        Some(least) => Some(least.min(next)),
    }
}

impl RankMargins {
    /// Before any command.
    pub(crate) fn new(t: &Timing) -> RankMargins
        requires { AreInLimits t.now }
        ensures { (rank : ℕ) → MarginsStand t.now rank [] result }
    {
        RankMargins {
            margins: Margins {
                refreshes: 0,
                last: 0,
                longest: 0,
                refresh: None,
                window: None,
            },
            deadline: 9 * t.t_refi,
            ends: Window {
                fourth: 0,
                third: 0,
                second: 0,
                last: 0,
            },
        }
    }

    /// Takes the next command of the rank in.
    pub(crate) fn take(&mut self, t: &Timing, next: &Stamped)
        requires limits { AreInLimits t.now }
        requires clock { next.now.clock < 2 ^ 63 }
        ensures { (list : List Stamped) → MarginsStand t.now (rank_of next.now.cmd) list self.old
            → MarginsStand t.now (rank_of next.now.cmd) (list ++ next.now ∷ []) self.new }
    {
        let clock = next.clock;
        let left = self.deadline.saturating_sub(clock);
        self.margins.refresh = lesser(self.margins.refresh, left);
        match next.cmd {
            Command::Ref { .. } => self.refresh(t, clock),
            Command::Act { .. } => self.activate(t, clock),
            _ => {}
        }
    }

    // A REF goes.
    fn refresh(&mut self, t: &Timing, clock: u64)
        requires limits { AreInLimits t.now }
        requires clock { clock < 2 ^ 63 }
        ensures { IsRefreshed t.now clock self.old self.new }
    {
        let distance = clock.saturating_sub(self.margins.last);
        self.margins.longest = self.margins.longest.max(distance);
        self.margins.refreshes = self.margins.refreshes.saturating_add(1);
        self.margins.last = clock;
        self.deadline = clock + 9 * t.t_refi;
    }

    // An ACT goes.
    fn activate(&mut self, t: &Timing, clock: u64)
        requires limits { AreInLimits t.now }
        requires clock { clock < 2 ^ 63 }
        ensures { IsActivated t.now clock self.old self.new }
    {
        let Window {
            fourth,
            third,
            second,
            last,
        } = self.ends;
        if fourth > 0 {
            self.margins.window = lesser(self.margins.window, clock.saturating_sub(fourth));
        }
        self.ends = Window {
            fourth: third,
            third: second,
            second: last,
            last: clock + t.t_faw,
        };
    }
}

/// The margins of the ranks of a channel.
///
/// Each call is given the profile for which it was made.
#[derive(Clone, Copy)]
pub struct ChannelMargins {
    ranks: [RankMargins; 8],
}

impl ChannelMargins {
    /// Before any command.
    pub(crate) fn new(rules: &CommandRules) -> ChannelMargins
        ensures { RanksStand rules.now.timing result [] }
    {
        ChannelMargins {
            ranks: [RankMargins::new(&rules.timing); 8],
        }
    }

    /// Takes the next command in.
    pub(crate) fn take(&mut self, rules: &CommandRules, next: &Issued)
        requires place { IsInGeometry rules.now.geometry next.now.command.cmd }
        requires clock { next.now.command.clock < 2 ^ 63 }
        ensures { (list : List Issued) → RanksStand rules.now.timing self.old (plain_commands list)
            → RanksStand rules.now.timing self.new (plain_commands (list ++ next.now ∷ [])) }
    {
        let rank = next.command.cmd.rank() as usize;
        self.ranks[rank].take(&rules.timing, &next.command);
    }

    /// The margins of a rank.
    pub(crate) fn rank(&self, rank: u64) -> Margins
        requires { rank < 8 }
        ensures { (t : Timing) (list : List Stamped) → RanksStand t self.now list
            → AreMarginsOf t rank list result }
    {
        self.ranks[rank as usize].margins
    }
}
