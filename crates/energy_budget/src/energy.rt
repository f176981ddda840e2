// A gauge as its callers see it.
ghost use Rattle.std.specs.Prelude.{◌≡◌, ◌-◌, ◌^◌, min};
ghost use Rattle.energy_budget.specs.Gauge.{Gauge, ReadsLevel, PaysCost};
ghost use Rattle.energy_budget.specs.declared.energy.GaugeCall.TheVariants.{Sense, Tick};

use thiserror::Error;

/// A payment was refused.
#[derive(Clone, Copy, Debug, PartialEq, Eq, Error)]
#[error("the energy is spent")]
pub struct Dark;

/// What a call of a gauge is: a reading on mains, one at a step of a save or at the loss of mains, or a payment on backup.
#[derive(Clone, Copy, Debug, PartialEq, Eq)]
pub enum GaugeCall {
    Sense,
    Tick,
    Pay,
}

/// A gauge of the energy for a closing save, in whole units.
///
/// On mains the level falls only in `sense` and `tick`, each time by at most the gauge's own leak, and may rise; both
/// answer the level after that. On backup a payment lowers it by at most the cost, and is refused only where the level is
/// under the cost. A gauge may break these rules, and counts a fault exactly in each call that does.
///
/// No call takes memory.
pub trait Energy {
    /// What contracts see of the gauge.
    ghost gauge: { Self → Gauge };

    /// The level.
    fn sense(&mut self) -> u64
        ensures { ReadsLevel Sense (gauge self.old) result (gauge self.new) };

    /// The level, at a step of a save on mains or at the loss of mains.
    fn tick(&mut self) -> u64
        ensures { ReadsLevel Tick (gauge self.old) result (gauge self.new) };

    /// Takes the cost from the level, or refuses to.
    fn pay(&mut self, cost: u64) -> Result<(), Dark>
        ensures { PaysCost (gauge self.old) cost result (gauge self.new) };

    /// The number of faults so far, or the largest number where there were more.
    fn faults(&self) -> u64
        ensures { result ≡ min (gauge self.now).faults (2 ^ 64 - 1) };
}
