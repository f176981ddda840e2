// What a stop leaves of the writes.
ghost use Rattle.std.specs.Prelude.{◌∷◌, ◌++◌, List};
ghost use Rattle.energy_budget.specs.Charging.{RisesTo};
ghost use Rattle.nv_machine.specs.Headline.{AnyGauge};
ghost use Rattle.nv_machine.specs.Lives.{Lived, LivedBy, LivedUntil, AreChained};
ghost use Rattle.nv_machine.specs.State.{Setup, World};
ghost use Rattle.nv_machine.specs.StoppedRuns.{SurvivesStops};
ghost use Rattle.nv_machine.specs.Survival.{IsSurvived};

/// **Stopped at any moment, even within a device write, restore gives the memory after a prefix of the accepted writes; with
/// an honest gauge and no device fault in a closing save, one that holds every write acknowledged persistent; otherwise the
/// newest complete image's, named PossibleLoss whenever an acknowledged write could be missing.**
///
/// It is said of the last of the lives in a chain; each front of a chain is a chain, so it is true of each life.
pub fn survives_any_stop()
    ensures survived { (life : Lived) (lives : List Lived)
        → AreChained (life ∷ lives) → IsSurvived life lives }
    ensures fronts { (lives more : List Lived)
        → AreChained (lives ++ more) → AreChained lives }
{}

/// The same of a life so far, whatever runs it. A stop at any moment since it began, within an event or a device write too, ends a
/// life: the events that were answered by then, and the one within which the stop came. Behind lives of which the last one left
/// what this one was opened with it is the last of their chain.
///
/// Of the gauge it takes nothing: each call may have been handed another one. A life with one gauge is one of these too, and keeps
/// that it has one.
pub fn runs_survive()
    ensures any_gauge { (setup : Setup) (now : World) (so : LivedBy AnyGauge setup now)
        → SurvivesStops AnyGauge setup now so }
    ensures one_gauge { (setup : Setup) (now : World) (so : LivedUntil setup now)
        → SurvivesStops RisesTo setup now so }
{}
