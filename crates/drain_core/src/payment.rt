// Who is asked for the actions of a drain.
ghost use Rattle.std.specs.Prelude.{◌≡◌, Result, Ok};
ghost use Rattle.energy_budget.specs.declared.action.Action.{Action};
ghost use Rattle.energy_budget.specs.declared.energy.Dark.{Dark};
ghost use Rattle.drain_core.specs.Paying.{PaysAction};

use energy_budget::{Action, Costs, Dark, Energy};

// Who is asked for each action of a drain before it is made.
pub(crate) trait Payment {
    // What asking for an action may answer, and what it makes of this.
    ghost pays: { Self → Action → Result (Unit {0}) Dark → Self → Type 0 };

    // Grants the action, or refuses it.
    fn pay(&mut self, action: Action) -> Result<(), Dark>
        ensures { pays self.old action result self.new };
}

// Grants each action for nothing.
#[derive(Drop)]
pub(crate) struct Granted;

impl Payment for Granted {
    ghost pays = { λ old action result new. result ≡ Ok tt };

    fn pay(&mut self, _action: Action) -> Result<(), Dark> {
        Ok(())
    }
}

// Pays what each action costs from a gauge.
#[derive(Drop)]
pub(crate) struct FromGauge<'e, E: Energy> {
    pub(crate) costs: Costs,
    pub(crate) energy: &'e mut E,
}

impl<'e, E: Energy> Payment for FromGauge<'e, E> {
    ghost pays = { λ old action result new.
        (new.energy.ghost_name ≡ old.energy.ghost_name) × (new.costs ≡ old.costs)
        × PaysAction old.costs (E.gauge old.energy.now) action result (E.gauge new.energy.now) };

    fn pay(&mut self, action: Action) -> Result<(), Dark> {
        self.energy.pay(self.costs.cost(action))
    }
}
