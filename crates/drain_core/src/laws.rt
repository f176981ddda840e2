// What the drain's definition comes to. The functions have no code.
ghost use Rattle.std.specs.Prelude.{◌≡◌, ℕ, ◌+◌, ◌*◌, ◌^◌, ◌<◌, ◌≤◌, All, List, length};
ghost use Rattle.ddr4_timing.specs.Lawful.{IsLawful};
ghost use Rattle.ddr4_timing.specs.Limits.{entry_of, close_of};
ghost use Rattle.ddr4_timing.specs.Places.{LiesIn};
ghost use Rattle.ddr4_timing.specs.declared.command.Stamped.{Stamped};
ghost use Rattle.ddr4_timing.specs.declared.place.Place.{Place};
ghost use Rattle.ddr4_timing.specs.declared.timing.Checked.{Checked};
ghost use Rattle.energy_budget.specs.Costs.{AreReckonedFor, close_cost, entry_cost};
ghost use Rattle.energy_budget.specs.declared.costs.Costs.{Costs};
ghost use Rattle.frfcfs.specs.Margin.{KeepsMargin, last_clock};
ghost use Rattle.drain_core.specs.Drain.{Progress, drain_start, close_step_of, entry_step_of, entry_steps_of, after_self_refresh, drain_of, drain_clocks, drain_spent};
ghost use Rattle.chan_core.specs.Always.{IsChannel};
ghost use Rattle.chan_core.specs.Phases.{AreAwake};
ghost use Rattle.chan_core.specs.State.{ChannelState, clock_of};
ghost use Rattle.chan_core.specs.declared.phase.Phase.TheVariants.{Running};
ghost use Rattle.drain_core.specs.Standing.{CanDrain, AfterClose, AfterDrain, AfterEntries, IsBetweenSteps, AfterSleep};

/// A channel whose refreshes have their time, as every one has that its scheduler alone gave commands, may be drained as
/// long as its clock is below 2^62 and no rank had its SRE.
pub fn margin_lets_drain()
    ensures { (c : Checked) (list : List Stamped) → IsLawful c list → KeepsMargin c list
        → AreAwake c list → last_clock list < 2 ^ 62 → CanDrain c list }
{}

/// Such a channel may be drained, whatever was put into it, read, held and collected.
pub fn running_channel_may_drain()
    ensures { (s : ChannelState) → IsChannel s → s.phase ≡ Running → clock_of s < 2 ^ 62
        → CanDrain s.checked s.commands }
{}

/// The steps of a drain, one by one: each ends where the next may begin. All their commands are lawful where they go.
pub fn steps_of_a_drain()
    ensures close { (c : Checked) (list : List Stamped) → CanDrain c list → AfterClose c list
        (close_step_of c.timing c.geometry (record { list = list; clock = drain_start list })) }
    ensures entry { (c : Checked) (p : Progress) (place : Place) → IsBetweenSteps c p
        → LiesIn c.geometry place → AfterEntries c p 1 (entry_step_of c.timing c.geometry place p) }
    ensures entries { (c : Checked) (p : Progress) (places : List Place) → IsBetweenSteps c p
        → All (LiesIn c.geometry) places
        → AfterEntries c p (length places) (entry_steps_of c.timing c.geometry places p) }
    ensures sleep { (c : Checked) (p : Progress) → IsBetweenSteps c p
        → AfterSleep c p (after_self_refresh c.timing c.geometry p) }
{}

/// A whole drain of writes at places of the geometry is lawful, takes no longer than a close step and an entry for each of
/// them, and puts every rank to sleep (`lawful`). Its clocks go from its start to one past its last command (`clocks`); of at
/// most 64 writes they don't run past 2^63 (`ends`). It spends no more than a close step and an entry for each of the writes
/// cost (`cost`).
pub fn whole_drain()
    ensures lawful { (c : Checked) (list : List Stamped) (places : List Place) → CanDrain c list
        → All (LiesIn c.geometry) places
        → AfterDrain c list (length places) (drain_of c.timing c.geometry list places) }
    ensures clocks { (c : Checked) (list : List Stamped) (places : List Place) → CanDrain c list
        → All (LiesIn c.geometry) places → drain_clocks c.timing c.geometry list places
        ≤ close_of c.timing c.geometry + length places * entry_of c.timing c.geometry }
    ensures ends { (c : Checked) (list : List Stamped) (places : List Place) → CanDrain c list
        → All (LiesIn c.geometry) places → length places ≤ 64
        → (drain_of c.timing c.geometry list places).clock < 2 ^ 63 }
    ensures cost { (c : Checked) (costs : Costs) (list : List Stamped) (places : List Place)
        → AreReckonedFor c costs → CanDrain c list → All (LiesIn c.geometry) places
        → drain_spent costs.numbers c.timing c.geometry list places
        ≤ close_cost costs + length places * entry_cost costs }
{}
