// A gauge for tests and scripts.
ghost use Rattle.std.specs.Prelude.{◌≡◌, ◌+◌, ◌-◌, ◌≤◌, ◌↔◌, Some, None, IsOk, OnOk, OnErr, if◌then◌else◌, nat_lt};
ghost use Rattle.std.specs.Option.{option_map};
ghost use Rattle.energy_budget.specs.Gauge.{ReadsLevel, PaysCost};
ghost use Rattle.energy_budget.specs.declared.energy.GaugeCall.TheVariants.{Sense, Tick};

use crate::tally::Tally;
use crate::{Dark, Energy, GaugeCall};
use ghost_trace::Trace;

/// A gauge whose level is set from outside. Each reading takes its leak from the level, and each payment the cost, never
/// below 0.
///
/// Under a lie it shows its level as ever, and so many units can be paid, whatever the level is: it refuses a payment that
/// the level had, or grants one that the level had not.
#[derive(Drop)]
pub struct Meter {
    level: u64,
    leak: u64,
    lie: Option<u64>,
    faults: Tally,
    calls: Trace<GaugeCall>,
}

impl Meter {
    ghost use Rattle.energy_budget.specs.Meter.{level_of, leak_of, lie_of, fault_count_of, meter_gauge, payable_of};

    /// A meter with this level, which loses the leak at each reading.
    pub fn with(level: u64, leak: u64) -> Meter
        ensures level { level_of result ≡ level }
        ensures leak { leak_of result ≡ leak }
        ensures lie { lie_of result ≡ None }
        ensures faults { fault_count_of result ≡ 0 }
    {
        Meter {
            level,
            leak,
            lie: None,
            faults: Tally::new(),
            calls: Trace::new(),
        }
    }

    /// A meter with the same level, leak, faults and calls, under the same lie.
    pub fn copy(&self) -> Meter
        ensures gauge { meter_gauge result ≡ meter_gauge self.now }
        ensures lie { lie_of result ≡ lie_of self.now }
    {
        Meter {
            level: self.level,
            leak: self.leak,
            lie: self.lie,
            faults: self.faults.copy(),
            calls: self.calls.copy(),
        }
    }

    /// Sets the level. One below the last is counted as a fault.
    pub fn set(&mut self, level: u64)
        ensures gauge { meter_gauge self.new ≡ record (meter_gauge self.old) {
          level = level;
          faults = fault_count_of self.old + (if nat_lt level (level_of self.old) then 1 else 0);
        } }
        ensures lie { lie_of self.new ≡ lie_of self.old }
    {
        if level < self.level {
            self.faults.add();
        }
        self.level = level;
    }

    /// From now on so many units can be paid, whatever the level.
    pub fn lie(&mut self, units: u64)
        ensures gauge { meter_gauge self.new ≡ meter_gauge self.old }
        ensures lie { lie_of self.new ≡ Some units }
    {
        self.lie = Some(units);
    }

    /// The level is what can be paid, as at first.
    pub fn end_lie(&mut self)
        ensures gauge { meter_gauge self.new ≡ meter_gauge self.old }
        ensures lie { lie_of self.new ≡ None }
    {
        self.lie = None;
    }

    // Reads the level in a call of this kind, which takes the leak from it.
    fn read(&mut self, kind: GaugeCall) -> u64
        ensures reads { ReadsLevel kind (meter_gauge self.old) result (meter_gauge self.new) }
        ensures level { level_of self.new ≡ level_of self.old - leak_of self.old }
        ensures faults { fault_count_of self.new ≡ fault_count_of self.old }
        ensures lie { lie_of self.new ≡ lie_of self.old }
    {
        self.calls.note(&kind);
        let shown = self.level.saturating_sub(self.leak);
        self.level = shown;
        shown
    }

    // Takes a cost from the level and from what can be paid.
    fn take(&mut self, cost: u64)
        requires { cost ≤ payable_of self.old }
        ensures gauge { meter_gauge self.new
            ≡ record (meter_gauge self.old) { level = level_of self.old - cost } }
        ensures lie { lie_of self.new ≡ option_map (λ units. units - cost) (lie_of self.old) }
    {
        self.level = self.level.saturating_sub(cost);
        if let Some(units) = self.lie {
            self.lie = Some(units - cost);
        }
    }
}

impl Energy for Meter {
    ghost use Rattle.energy_budget.specs.Meter.{level_of, leak_of, lie_of, fault_count_of, meter_gauge, payable_of};

    ghost gauge = { meter_gauge };

    fn sense(&mut self) -> u64
        ensures reads { ReadsLevel Sense (meter_gauge self.old) result (meter_gauge self.new) }
        ensures level { level_of self.new ≡ level_of self.old - leak_of self.old }
        ensures faults { fault_count_of self.new ≡ fault_count_of self.old }
        ensures lie { lie_of self.new ≡ lie_of self.old }
    {
        self.read(GaugeCall::Sense)
    }

    fn tick(&mut self) -> u64
        ensures reads { ReadsLevel Tick (meter_gauge self.old) result (meter_gauge self.new) }
        ensures level { level_of self.new ≡ level_of self.old - leak_of self.old }
        ensures faults { fault_count_of self.new ≡ fault_count_of self.old }
        ensures lie { lie_of self.new ≡ lie_of self.old }
    {
        self.read(GaugeCall::Tick)
    }

    fn pay(&mut self, cost: u64) -> Result<(), Dark>
        ensures pays { PaysCost (meter_gauge self.old) cost result (meter_gauge self.new) }
        ensures paid { IsOk result ↔ (cost ≤ payable_of self.old) }
        ensures ok { OnOk result (level_of self.new ≡ level_of self.old - cost) }
        ensures units { OnOk result
            (lie_of self.new ≡ option_map (λ units. units - cost) (lie_of self.old)) }
        ensures err { OnErr result (level_of self.new ≡ level_of self.old) }
        ensures lie { OnErr result (lie_of self.new ≡ lie_of self.old) }
    {
        self.calls.note(&GaugeCall::Pay);
        if self.lie.unwrap_or(self.level) < cost {
            if cost <= self.level {
                self.faults.add();
            }
            return Err(Dark);
        }
        self.take(cost);
        Ok(())
    }

    fn faults(&self) -> u64 {
        self.faults.shown()
    }
}
