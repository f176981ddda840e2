// What the banks of a channel are made for.
ghost use Rattle.std.specs.Prelude.{◌≡◌};
ghost use Rattle.ddr4_timing.specs.Limits.{AreInLimits, HasFewBanks};
ghost use Rattle.ddr4_timing.specs.declared.timing.Geometry.{Geometry};
ghost use Rattle.ddr4_timing.specs.declared.timing.Timing.{Timing};

use ddr4_timing::timing::{Checked, CommandRules, Geometry, Timing};

/// Timing numbers and a geometry within the limits that the timing rules of a channel's commands need: those of a checked
/// profile, or those by which commands alone are checked.
pub trait TimingRules: Copy {
    ghost timing: { Self → Timing };

    ghost geometry: { Self → Geometry };

    /// The timing numbers.
    fn timing(&self) -> &Timing
        ensures is { result.now ≡ timing self.now }
        ensures limits { AreInLimits result.now };

    /// The geometry.
    fn geometry(&self) -> &Geometry
        ensures is { result.now ≡ geometry self.now }
        ensures few { HasFewBanks result.now };
}

impl TimingRules for Checked {
    ghost timing = { λ c. c.timing };

    ghost geometry = { λ c. c.geometry };

    #[inline(always)]
    fn timing(&self) -> &Timing {
        &self.timing
    }

    #[inline(always)]
    fn geometry(&self) -> &Geometry {
        &self.geometry
    }
}

impl TimingRules for CommandRules {
    ghost timing = { λ r. r.timing };

    ghost geometry = { λ r. r.geometry };

    #[inline(always)]
    fn timing(&self) -> &Timing {
        &self.timing
    }

    #[inline(always)]
    fn geometry(&self) -> &Geometry {
        &self.geometry
    }
}
