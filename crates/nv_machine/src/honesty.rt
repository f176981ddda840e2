// What an honest gauge is enough for.
ghost use Rattle.std.specs.Prelude.{◌≡◌, ◌++◌, All, List, [], false};
ghost use Rattle.save_device.specs.Device.{faults_of};
ghost use Rattle.arm_state.specs.Modes.{is_backed, is_stranded};
ghost use Rattle.energy_budget.specs.Gauge.{Gauge, IsHonestThrough};
ghost use Rattle.nv_machine.specs.declared.events.Event.{Event};
ghost use Rattle.nv_machine.specs.declared.events.Reply.{Reply};
ghost use Rattle.nv_machine.specs.State.{Setup, Machine, World};
ghost use Rattle.nv_machine.specs.Headline.{Run, IsBacked};
ghost use Rattle.nv_machine.specs.Honesty.{ArmsNone, IsBackedAt, IsHonestAlong, IsSparedAlong};
ghost use Rattle.nv_machine.specs.Honesty.{RunsSpared, SavesAllAlong};

/// Through a run with an honest gauge, and a device that is spared, the gauge backs what was acknowledged at each moment, and
/// a loss of mains while acknowledged writes were to be saved has saved all that were accepted. A disarmed machine needs no
/// backing to begin with. A gauge that has counted no fault from the first moment to the last was honest in each event and
/// between each two; and a device that has counted none was spared.
///
/// Whatever fails before a machine is armed for the first time spares it (`unarmed`), as a fault in an ordinary save that is made
/// again; and runs in turn that spare the device are one that does (`on`).
pub fn honest_run()
    ensures backed { (setup : Setup) (events : List Event) (replies : List Reply)
        (old new : World) (run : Run setup events replies old new)
        → IsHonestAlong setup events replies old new run
        → IsBackedAt setup old → IsBackedAt setup new }
    ensures saved { (setup : Setup) (events : List Event) (replies : List Reply)
        (old new : World) (run : Run setup events replies old new)
        → IsHonestAlong setup events replies old new run
        → IsBackedAt setup old
        → SavesAllAlong setup events replies old new run }
    ensures ends { (setup : Setup) (events : List Event) (replies : List Reply)
        (old new : World) (run : Run setup events replies old new)
        → IsHonestThrough setup.shape.costs.numbers.leak old.gauge new.gauge
        → IsSparedAlong setup events replies old new run
        → IsHonestAlong setup events replies old new run }
    ensures spared { (setup : Setup) (events : List Event) (replies : List Reply)
        (old new : World) (run : Run setup events replies old new)
        → is_stranded old.machine.mode ≡ false
        → faults_of new.device ≡ faults_of old.device
        → IsSparedAlong setup events replies old new run }
    ensures unarmed { (setup : Setup) (events : List Event) (replies : List Reply)
        (old new : World) (run : Run setup events replies old new)
        → is_backed old.machine.mode ≡ false → All ArmsNone replies
        → IsSparedAlong setup events replies old new run }
    ensures on { (setup : Setup) (events more : List Event) (replies others : List Reply)
        (old mid new : World) → RunsSpared setup events replies old mid
        → RunsSpared setup more others mid new
        → RunsSpared setup (events ++ more) (replies ++ others) old new }
    ensures begins { (setup : Setup) (machine : Machine) (gauge : Gauge)
        → is_backed machine.mode ≡ false → IsBacked setup machine gauge }
{}
