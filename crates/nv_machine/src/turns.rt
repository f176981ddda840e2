// Events in turn.
ghost use Rattle.std.specs.Prelude.{◌++◌, List, []};
ghost use Rattle.nv_machine.specs.declared.events.Event.{Event};
ghost use Rattle.nv_machine.specs.declared.events.Reply.{Reply};
ghost use Rattle.nv_machine.specs.State.{Setup, World};
ghost use Rattle.nv_machine.specs.Headline.{AnyRun, MayPause, Pause, Run, paused};

/// Two runs in turn are one, and a pause is a run of no event: the gauge is charged, or the stored writes are cut. So what single
/// calls come to is what the list of their events comes to, whatever pauses are between two of them. It is so of runs with whatever
/// gauges as well, and a run with one gauge is one of these.
pub fn runs_join()
    ensures joined { (setup : Setup) (events : List Event) (replies : List Reply)
        (more : List Event) (others : List Reply) (old mid new : World)
        → Run setup events replies old mid → Run setup more others mid new
        → Run setup (events ++ more) (replies ++ others) old new }
    ensures any_joined { (setup : Setup) (events : List Event) (replies : List Reply)
        (more : List Event) (others : List Reply) (old mid new : World)
        → AnyRun setup events replies old mid → AnyRun setup more others mid new
        → AnyRun setup (events ++ more) (replies ++ others) old new }
    ensures any { (setup : Setup) (events : List Event) (replies : List Reply) (old new : World)
        → Run setup events replies old new → AnyRun setup events replies old new }
    ensures paused { (setup : Setup) (world : World) (pause : Pause)
        → MayPause world pause → Run setup [] [] world (paused pause world) }
{}
