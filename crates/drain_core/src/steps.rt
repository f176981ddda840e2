// The parts of a drain, each of which starts where the one before ended.
ghost use Rattle.std.specs.Prelude.{◌≡◌, ◌≤◌, ◌<◌, ◌+◌, ◌^◌, IfSome, max};
ghost use Rattle.energy_budget.specs.CostNumbers.{AreCostsInLimits, command_cost};
ghost use Rattle.chan_core.specs.Phases.{AreAwake};
ghost use Rattle.chan_core.specs.Singles.{FitsOldest};
ghost use Rattle.chan_core.specs.declared.phase.Phase.TheVariants.{Asleep};
ghost use Rattle.drain_core.specs.Drain.{after_refreshes, after_self_refresh, close_step_of, drain_start, has_open_bank, owes_refresh, rest_clock};
ghost use Rattle.drain_core.specs.Standing.{AreClosed, CanDrain};
ghost use Rattle.drain_core.specs.Steps.{EntersOldest, GoesEarly, GoesNext, GoesTo, IsEarly, IsStepped, MayEnter, MayGo, closed_by, drain_start_of, entered_by, progress_of};

use chan_core::Channel;
use ddr4_timing::command::Command;
use energy_budget::CostNumbers;

/// Where a part of a drain ends.
#[derive(Clone, Copy, Debug, PartialEq, Eq)]
pub struct StepEnd {
    /// The clock from which on the next command may go.
    pub clock: u64,
    /// What its commands cost, in units of energy, without the clocks that passed.
    pub cost: u64,
}

// One past the clock of the channel's last command, 0 where there was none.
pub(crate) fn start_clock(channel: &Channel) -> u64
    ensures { result ≡ drain_start channel.now.commands }
{
    match channel.recent(0) {
        Some(_) => channel.clock() + 1,
        None => 0,
    }
}

// A command goes at its earliest clock from the end of the last one on.
fn issue_next(channel: &mut Channel, numbers: &CostNumbers, cmd: Command, end: StepEnd) -> StepEnd
    requires may { MayGo channel.old.checked (progress_of channel.old end.clock) cmd }
    requires early { GoesEarly channel.old cmd end.clock }
    requires oldest { FitsOldest channel.old cmd }
    requires cost { end.cost + command_cost numbers.now cmd < 2 ^ 64 }
    ensures on { GoesNext numbers.now cmd channel.old channel.new end result }
    ensures stepped { IsStepped channel.new }
{
    let clock = match channel.earliest(cmd) {
        Some(least) => least.max(end.clock),
        None => unreachable!(),
    };
    channel.issue(cmd, clock);
    StepEnd {
        clock: clock + 1,
        cost: end.cost + numbers.command_cost(&cmd),
    }
}

// Whether a bank of the rank is open.
fn has_open_bank(channel: &Channel, rank: u64) -> bool
    requires rank { rank < channel.now.checked.geometry.ranks }
    requires awake { AreAwake channel.now.checked channel.now.commands }
    ensures { result ≡ has_open_bank channel.now.checked.geometry rank channel.now.commands }
{
    channel.earliest(Command::PreAll { rank }).is_some()
}

// The first clock from this one on by which every bank and rank has rested, where all banks are closed.
fn rested_clock(channel: &Channel, clock: u64) -> u64
    requires awake { AreAwake channel.now.checked channel.now.commands }
    requires closed { AreClosed channel.now.checked channel.now.commands }
    requires from { drain_start channel.now.commands ≤ clock }
    ensures { result ≡ max clock (rest_clock channel.now.checked.timing channel.now.commands) }
{
    channel.always();
    let mut rested = clock;
    for rank in 0..channel.checked().geometry.ranks {
        match channel.earliest(Command::Sre { rank }) {
            Some(least) => rested = rested.max(least),
            None => unreachable!(),
        }
    }
    rested
}

/// The close step of a drain, which starts it: a precharge of each rank with an open bank, and the wait until every bank and
/// rank has rested.
pub fn close_step(channel: &mut Channel, numbers: &CostNumbers) -> StepEnd
    requires can { CanDrain channel.old.checked channel.old.commands }
    requires limits { AreCostsInLimits numbers.now }
    ensures goes { GoesTo numbers.now (close_step_of channel.old.checked.timing
        channel.old.checked.geometry (drain_start_of channel.old)) 0 channel.old channel.new result }
    ensures between { MayEnter channel.new result.clock }
    ensures clocks { result.clock + channel.old.checked.geometry.ranks ≤ closed_by channel.old }
    ensures cost { result.cost ≤ 4000000 }
{
    let mut end = StepEnd {
        clock: start_clock(channel),
        cost: 0,
    };
    for rank in 0..channel.checked().geometry.ranks {
        if has_open_bank(channel, rank) {
            end = issue_next(channel, numbers, Command::PreAll { rank }, end);
        }
    }
    StepEnd {
        clock: rested_clock(channel, end.clock),
        cost: end.cost,
    }
}

// Whether the rank owes a REF at the clock.
fn owes_refresh(channel: &Channel, rank: u64, clock: u64) -> bool
    requires { rank < channel.now.checked.geometry.ranks }
    ensures { result ≡ owes_refresh channel.now.checked.timing channel.now.commands clock rank }
{
    channel.owed(rank, clock) > 0
}

// The refreshes of an entry: a REF of each rank that owes any where it starts, and the wait behind them.
fn refresh(channel: &mut Channel, numbers: &CostNumbers, clock: u64) -> StepEnd
    requires enter { MayEnter channel.old clock }
    requires early { IsEarly clock }
    requires limits { AreCostsInLimits numbers.now }
    ensures goes { GoesTo numbers.now (after_refreshes channel.old.checked.timing
        channel.old.checked.geometry (progress_of channel.old clock)) 0 channel.old channel.new result }
    ensures cost { result.cost ≤ 4000000 }
{
    let mut end = StepEnd { clock, cost: 0 };
    for rank in 0..channel.checked().geometry.ranks {
        if owes_refresh(channel, rank, clock) {
            end = issue_next(channel, numbers, Command::Ref { rank }, end);
        }
    }
    StepEnd {
        clock: rested_clock(channel, end.clock),
        cost: end.cost,
    }
}

/// The entry step of the oldest pending write, held or not, from the clock at which the step before it ended: the refreshes
/// that are owed, then the write's row is opened, written and closed, and the wait behind it. None, and nothing changes,
/// exactly where no write is pending.
pub fn entry_step(channel: &mut Channel, numbers: &CostNumbers, clock: u64) -> Option<StepEnd>
    requires enter { MayEnter channel.old clock }
    requires early { IsEarly clock }
    requires limits { AreCostsInLimits numbers.now }
    ensures enters { EntersOldest numbers.now channel.old clock result channel.new }
    ensures between { IfSome result (λ end. MayEnter channel.new end.clock) }
    ensures clocks { IfSome result (λ end. end.clock ≤ entered_by channel.old clock) }
    ensures cost { IfSome result (λ end. end.cost ≤ 7000000) }
    ensures stepped { IfSome result (λ end. IsStepped channel.new) }
{
    channel.always();
    let (_number, place) = channel.oldest()?;
    let refreshed = refresh(channel, numbers, clock);
    let at = place.bank_address();
    let row = place.row;
    let column = place.column;
    let opened = issue_next(channel, numbers, Command::Act { at, row }, refreshed);
    let written = issue_next(channel, numbers, Command::Wr { at, column }, opened);
    let closed = issue_next(channel, numbers, Command::Pre { at }, written);
    Some(StepEnd {
        clock: rested_clock(channel, closed.clock),
        cost: closed.cost,
    })
}

/// The end of a drain, from the clock at which the step before it ended: an SRE of each rank. The channel sleeps then.
pub fn self_refresh(channel: &mut Channel, numbers: &CostNumbers, clock: u64) -> StepEnd
    requires enter { MayEnter channel.old clock }
    requires early { IsEarly clock }
    requires limits { AreCostsInLimits numbers.now }
    ensures goes { GoesTo numbers.now (after_self_refresh channel.old.checked.timing
        channel.old.checked.geometry (progress_of channel.old clock)) 0 channel.old channel.new result }
    ensures cost { result.cost ≤ 4000000 }
    ensures stepped { IsStepped channel.new }
    ensures asleep { channel.new.phase ≡ Asleep }
{
    let mut end = StepEnd { clock, cost: 0 };
    for rank in 0..channel.checked().geometry.ranks {
        end = issue_next(channel, numbers, Command::Sre { rank }, end);
    }
    end
}
