// The precharges that are still to come.
ghost use Rattle.std.specs.Prelude.{◌≡◌, ℕ, ◌≤◌, ◌<◌, ◌^◌, ◌++◌, List, None, Some, length, slice_index_or};
ghost use Rattle.ddr4_timing.specs.Places.{HasBank};
ghost use Rattle.ddr4_timing.specs.TimingState.{Keeps};
ghost use Rattle.ddr4_timing.specs.declared.command.Command.TheVariants.{Pre};
ghost use Rattle.ddr4_timing.specs.declared.command.Stamped.{Stamped};
ghost use Rattle.auto_precharge.specs.Unfolding.{AreFrom, ArePlaced, due, gone, rest};
ghost use Rattle.auto_precharge.specs.declared.waiting.Closing.{Closing};

use ddr4_timing::command::{Command, Stamped};
use ddr4_timing::place::BankAddress;
use ddr4_timing::timing::CommandRules;
use ddr4_timing::timing_state::TimingState;

/// A precharge that a read or a write brings with it: its bank, its clock, and the line of that command.
#[derive(Clone, Copy, Debug, PartialEq, Eq)]
pub struct Closing {
    pub at: BankAddress,
    pub clock: u64,
    pub line: u64,
}

impl Closing {
    /// It as a command.
    pub(crate) fn command(&self) -> Stamped
        ensures { result ≡ record { clock = self.now.clock; cmd = Pre self.now.at } }
    {
        Stamped {
            clock: self.clock,
            cmd: Command::Pre { at: self.at },
        }
    }
}

// A precharge goes where it is before the clock.
fn go_one(state: &mut TimingState, rules: &CommandRules, slot: Option<Closing>, clock: u64)
    requires { clock < 2 ^ 63 }
    ensures { (list : List Stamped) → Keeps rules.now.timing rules.now.geometry state.old list →
        ((p : Closing) → slot ≡ Some p → HasBank rules.now.geometry p.at) →
        Keeps rules.now.timing rules.now.geometry state.new (list ++ gone clock slot) }
{
    let Some(closing) = slot else {
        return;
    };
    if closing.clock >= clock || !closing.at.lies_in(&rules.geometry) {
        return;
    }
    let cmd = Command::Pre { at: closing.at };
    state.issue(&rules.timing, &rules.geometry, &cmd, closing.clock);
}

// The precharges before a clock go, in the order of their banks.
pub(crate) fn go_due(
    state: &mut TimingState,
    rules: &CommandRules,
    closings: &[Option<Closing>],
    clock: u64,
)
    requires { clock < 2 ^ 63 }
    ensures { (list : List Stamped) → Keeps rules.now.timing rules.now.geometry state.old list →
        ArePlaced rules.now.geometry closings.now →
        Keeps rules.now.timing rules.now.geometry state.new (list ++ due clock closings.now) }
{
    for i in 0..closings.len() {
        go_one(state, rules, closings[i], clock);
    }
}

// A precharge that is still to come behind a clock.
fn still_to_come(slot: Option<Closing>, clock: u64) -> Option<Closing>
    ensures { result ≡ rest clock slot }
{
    match slot {
        Some(closing) if clock <= closing.clock => Some(closing),
        _ => None,
    }
}

// Those before a clock are no longer to come.
pub(crate) fn drop_due(closings: &mut [Option<Closing>], clock: u64)
    ensures length { length closings.new ≡ length closings.old }
    ensures rest { (i : ℕ) → slice_index_or closings.new i None
        ≡ rest clock (slice_index_or closings.old i None) }
{
    for i in 0..closings.len() {
        closings[i] = still_to_come(closings[i], clock);
    }
}

// The lesser of a clock and that of a precharge.
fn earlier(soonest: u64, slot: Option<Closing>) -> u64
    ensures less { result ≤ soonest }
    ensures least { (p : Closing) → slot ≡ Some p → result ≤ p.clock }
{
    match slot {
        Some(closing) => soonest.min(closing.clock),
        None => soonest,
    }
}

// A clock that none of them is before.
pub(crate) fn soonest_of(closings: &[Option<Closing>]) -> u64
    ensures { AreFrom result closings.now }
{
    let mut soonest = u64::MAX;
    for i in 0..closings.len() {
        soonest = earlier(soonest, closings[i]);
    }
    soonest
}
