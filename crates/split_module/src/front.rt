// The front of a module whose channels are behind locks of their own.
ghost use Rattle.module_saves.specs.Saving.{IsOfLines};

use energy_budget::Costs;
use module_core::Front;

/// The front of a module without its channels, and what it has to know of them: how many credits are out on all of them, how many
/// lines they have, and what a closing save costs.
#[derive(Drop)]
pub struct SplitFront {
    pub front: Front,
    pub out: u64,
    pub lines: u64,
    pub costs: Costs,
    pub ghost running: { IsOfLines lines front.saves.saving },
}
