// What only grows.
ghost use Rattle.std.specs.Prelude.{◌≡◌, ◌++◌, List};
ghost use Rattle.nv_machine.specs.declared.events.Event.{Event};
ghost use Rattle.nv_machine.specs.declared.events.Reply.{Reply};
ghost use Rattle.nv_machine.specs.State.{Setup, Machine, World, all_of};
ghost use Rattle.nv_machine.specs.Machine.{MachineStep};
ghost use Rattle.nv_machine.specs.Guard.{IsGuarded};
ghost use Rattle.nv_machine.specs.Headline.{AnyRun, Run};
ghost use Rattle.nv_machine.specs.Rising.{AreNumberedFrom, KeepsHistory, Rises, RisesAlong, accepted_in, added};

/// In any event the history of a life only grows, and what was accepted or persistent is so still: in a step of the machine,
/// in each event of a run, and from its first moment to its last. So a write that was accepted stands at its number from then
/// on, and the memory after so many writes stays what it was. An event adds the write that it accepted, and no other;
/// so a run adds those that its replies accepted, whatever the gauge does between them, and each was told its place.
pub fn history_grows()
    ensures event { (setup : Setup) (event : Event) (reply : Reply) (old new : World)
        → MachineStep setup event reply old new
        → IsGuarded old.machine → Rises old.machine new.machine }
    ensures adds { (setup : Setup) (event : Event) (reply : Reply) (old new : World)
        → MachineStep setup event reply old new → IsGuarded old.machine
        → new.machine.life.writes ≡ old.machine.life.writes ++ added event reply }
    ensures along { (setup : Setup) (events : List Event) (replies : List Reply)
        (old new : World) (run : Run setup events replies old new)
        → IsGuarded old.machine
        → RisesAlong setup events replies old new run }
    ensures whole { (setup : Setup) (events : List Event) (replies : List Reply)
        (old new : World) → Run setup events replies old new
        → IsGuarded old.machine → Rises old.machine new.machine }
    ensures accepts { (setup : Setup) (events : List Event) (replies : List Reply)
        (old new : World) → AnyRun setup events replies old new
        → IsGuarded old.machine
        → new.machine.life.writes ≡ old.machine.life.writes ++ accepted_in events replies }
    ensures numbers { (setup : Setup) (events : List Event) (replies : List Reply)
        (old new : World) → AnyRun setup events replies old new
        → IsGuarded old.machine → AreNumberedFrom (all_of old.machine) events replies }
    ensures stays { (old new : Machine) → Rises old new → KeepsHistory old new }
{}
