// What the sums say in other words.
ghost use Rattle.std.specs.Prelude.{◌≡◌, ℕ, ◌≤◌, ◌+◌, ◌*◌, List, ◌∷◌, ◌++◌, length, sum, All, Result, IsOk};
ghost use Rattle.energy_budget.specs.declared.energy.GaugeCall.{GaugeCall};
ghost use Rattle.energy_budget.specs.Gauge.{Gauge, ReadsLevel, PaysCost, KeepsFaults, IsHonestThrough};
ghost use Rattle.energy_budget.specs.declared.action.Action.{Action};
ghost use Rattle.energy_budget.specs.declared.energy.Dark.{Dark};
ghost use Rattle.energy_budget.specs.declared.costs.Costs.{Costs};
ghost use Rattle.energy_budget.specs.CostNumbers.{page_cost_of, frame_cost_of, repeat_cost_of};
ghost use Rattle.energy_budget.specs.Costs.{close_cost, entry_cost};
ghost use Rattle.energy_budget.specs.Actions.{cost_of, total_cost, dearest_of, drain_actions, page_actions, save_actions, closing_actions};
ghost use Rattle.energy_budget.specs.Sums.{reserve, steps, save_ticks, backing_level, floor_level, needed_level};

/// The sums in closed form. With one more pending write there is one more entry step to pay, and the leak of one more tick.
pub fn sums_in_closed_form()
    ensures reserve { (costs : Costs) (k : ℕ)
        → reserve costs k ≡ costs.channels * close_cost costs + k * entry_cost costs
        + costs.pages * page_cost_of costs.numbers + frame_cost_of costs.numbers
        + costs.retries * repeat_cost_of costs.numbers }
    ensures steps { (costs : Costs) (k : ℕ)
        → steps costs k ≡ k + costs.channels + costs.pages + 6 + costs.retries }
    ensures floor { (costs : Costs) (k : ℕ)
        → floor_level costs k ≡ reserve costs k + costs.numbers.leak * (steps costs k + 1) }
    ensures need { (costs : Costs) (k : ℕ)
        → needed_level costs k ≡ floor_level costs k + costs.numbers.leak }
    ensures next_reserve { (costs : Costs) (k : ℕ)
        → reserve costs (k + 1) ≡ reserve costs k + entry_cost costs }
    ensures next_steps { (costs : Costs) (k : ℕ) → steps costs (k + 1) ≡ steps costs k + 1 }
    ensures next_floor { (costs : Costs) (k : ℕ)
        → floor_level costs (k + 1) ≡ floor_level costs k + entry_cost costs + costs.numbers.leak }
    ensures next_need { (costs : Costs) (k : ℕ)
        → needed_level costs (k + 1)
        ≡ needed_level costs k + entry_cost costs + costs.numbers.leak }
{}

/// With no fewer pending writes no sum is smaller, and with no fewer ticks no backing. The floor backs a disarming save, of
/// which each step ticks once: a mark and a sync three times, the pages, and those that are made again (`floor_backs`). A reading
/// that is enough to acknowledge writes backs it after one more reading too (`need_backs`).
pub fn sums_rise()
    ensures reserve { (costs : Costs) (j k : ℕ) → j ≤ k → reserve costs j ≤ reserve costs k }
    ensures backing { (costs : Costs) (j k ticks : ℕ) → j ≤ k
        → backing_level costs j ticks ≤ backing_level costs k ticks }
    ensures ticks { (costs : Costs) (k fewer ticks : ℕ) → fewer ≤ ticks
        → backing_level costs k fewer ≤ backing_level costs k ticks }
    ensures floor { (costs : Costs) (j k : ℕ) → j ≤ k → floor_level costs j ≤ floor_level costs k }
    ensures need { (costs : Costs) (j k : ℕ) → j ≤ k → needed_level costs j ≤ needed_level costs k }
    ensures floor_backs { (costs : Costs) (k : ℕ)
        → backing_level costs k (save_ticks costs) ≤ floor_level costs k }
    ensures need_backs { (costs : Costs) (k : ℕ)
        → backing_level costs k (save_ticks costs + 1) ≤ needed_level costs k }
{}

/// Whichever channels the writes are pending on, the reserve is the cost of the closing save's actions and of the steps that it
/// may make again, none of which costs more than the dearest, and the steps are their number. Of those that are still to come
/// each one that is paid for comes off.
pub fn cost_of_a_closing_save()
    ensures reserve { (costs : Costs) (pending : List ℕ) → length pending ≡ costs.channels
        → total_cost costs (closing_actions costs.pages pending)
        + costs.retries * repeat_cost_of costs.numbers ≡ reserve costs (sum pending) }
    ensures steps { (costs : Costs) (pending : List ℕ) → length pending ≡ costs.channels
        → length (closing_actions costs.pages pending) + costs.retries
        ≡ steps costs (sum pending) }
    ensures dearest { (costs : Costs)
        → cost_of costs (dearest_of costs.numbers) ≡ repeat_cost_of costs.numbers }
    ensures repeats { (costs : Costs) (pages : ℕ)
        → All (λ action. cost_of costs action ≤ repeat_cost_of costs.numbers)
        (save_actions pages) }
    ensures action { (costs : Costs) (action : Action) (rest : List Action)
        → total_cost costs (action ∷ rest) ≡ cost_of costs action + total_cost costs rest }
    ensures lists { (costs : Costs) (first rest : List Action)
        → total_cost costs (first ++ rest) ≡ total_cost costs first + total_cost costs rest }
    ensures drain { (costs : Costs) (k : ℕ)
        → total_cost costs (drain_actions k) ≡ close_cost costs + k * entry_cost costs }
    ensures pages { (costs : Costs) (pages : ℕ)
        → total_cost costs (page_actions (pages + 1))
        ≡ page_cost_of costs.numbers + total_cost costs (page_actions pages) }
    ensures save { (costs : Costs) (pages : ℕ)
        → total_cost costs (save_actions pages)
        ≡ pages * page_cost_of costs.numbers + frame_cost_of costs.numbers }
{}

/// An honest reading answers the level, which has fallen by no more than the leak. So it takes one tick from a backing, and
/// leaves the reserve of any. An honest gauge that has the cost of an action and of the rest pays it, and then has that of
/// the rest. A gauge that is honest through calls, none of which lowers its count of faults, is honest through the first and
/// the last of them.
pub fn honest_gauges()
    ensures falls { (kind : GaugeCall) (leak answer : ℕ) (old new : Gauge)
        → ReadsLevel kind old answer new → IsHonestThrough leak old new
        → old.level ≤ new.level + leak }
    ensures told { (kind : GaugeCall) (leak answer : ℕ) (old new : Gauge)
        → ReadsLevel kind old answer new → IsHonestThrough leak old new → answer ≡ new.level }
    ensures backs { (kind : GaugeCall) (costs : Costs) (k ticks answer : ℕ) (old new : Gauge)
        → ReadsLevel kind old answer new → IsHonestThrough costs.numbers.leak old new
        → backing_level costs k (ticks + 1) ≤ old.level → backing_level costs k ticks ≤ new.level }
    ensures reserves { (kind : GaugeCall) (costs : Costs) (k ticks answer : ℕ) (old new : Gauge)
        → ReadsLevel kind old answer new → IsHonestThrough costs.numbers.leak old new
        → backing_level costs k ticks ≤ old.level → reserve costs k ≤ new.level }
    ensures paid { (leak cost rest : ℕ) (result : Result (Unit {0}) Dark) (old new : Gauge)
        → PaysCost old cost result new → IsHonestThrough leak old new
        → cost + rest ≤ old.level → IsOk result }
    ensures rest { (leak cost rest : ℕ) (result : Result (Unit {0}) Dark) (old new : Gauge)
        → PaysCost old cost result new → IsHonestThrough leak old new
        → cost + rest ≤ old.level → rest ≤ new.level }
    ensures first { (leak : ℕ) (old mid new : Gauge) → KeepsFaults old mid → KeepsFaults mid new
        → IsHonestThrough leak old new → IsHonestThrough leak old mid }
    ensures last { (leak : ℕ) (old mid new : Gauge) → KeepsFaults old mid → KeepsFaults mid new
        → mid.leak ≡ old.leak → IsHonestThrough leak old new → IsHonestThrough leak mid new }
{}
