// A profile.
ghost use Rattle.energy_budget.specs.CostNumbers.{AreCostsInLimits};
ghost use Rattle.nv_profile.specs.Limits.{AreSizes};

use crate::sizes::ModuleSizes;
use ddr4_timing::timing::Checked;
use energy_budget::CostNumbers;
use interleave_map::Interleaving;

/// The numbers that a module is made of, all within their limits.
#[derive(Clone, Copy, Debug)]
pub struct Profile {
    pub checked: Checked,
    pub costs: CostNumbers,
    pub sizes: ModuleSizes,
    pub map: Interleaving,
    ghost are_costs: { AreCostsInLimits costs },
    ghost are_sizes: { AreSizes sizes },
}
