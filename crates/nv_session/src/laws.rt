// What the definitions say of a restore: after a save, and after a stop at any time.
ghost use Rattle.std.specs.Prelude.{◌≡◌, ℕ, List, [], false, Option, Some, Result};
ghost use Rattle.ddr4_timing.specs.declared.command.Stamped.{Stamped};
ghost use Rattle.arm_state.specs.declared.refusal.ArmRefusal.{ArmRefusal};
ghost use Rattle.arm_state.specs.declared.refusal.ReadRefusal.{ReadRefusal};
ghost use Rattle.arm_state.specs.Modes.{is_armed};
ghost use Rattle.energy_budget.specs.Charging.{RisesTo};
ghost use Rattle.energy_budget.specs.Gauge.{Gauge};
ghost use Rattle.energy_budget.specs.Meter.{meter_gauge};
ghost use Rattle.save_device.specs.Device.{MayLeave, present};
ghost use Rattle.save_image.specs.Image.{Image};
ghost use Rattle.slot_store.specs.Outcomes.{Outcome, restored};
ghost use Rattle.nv_machine.specs.State.{Machine, memory_after};
ghost use Rattle.nv_machine.specs.declared.events.Event.{Event};
ghost use Rattle.nv_machine.specs.declared.events.Reply.{Reply};
ghost use Rattle.nv_machine.specs.declared.events.StepReply.{StepReply};
ghost use Rattle.module_core.specs.declared.module.Module.{Module};
ghost use Rattle.slot_store.specs.declared.head.Head.{Head};
ghost use Rattle.module_core.specs.Stands.{Assembly, ModuleStands, assembly, lines_of_module, setup_of};
ghost use Rattle.nv_session.specs.declared.turns.LineSeen.{LineSeen};
ghost use Rattle.nv_session.specs.Coming.{IsOneEvent};
ghost use Rattle.nv_session.specs.declared.session.Session.{Session};
ghost use Rattle.nv_session.specs.Living.{GoesOnBy, HasLife, IsWork, SessionAt, device_state, session_at, set_to};
ghost use Rattle.nv_session.specs.SessionLives.{HasLived, HasLivedOn, SurvivesAnyStop};
ghost use Rattle.nv_session.specs.ReadTurns.{ReadsLine};
ghost use Rattle.nv_session.specs.SaveTurns.{MakesSave};
ghost use Rattle.nv_session.specs.Turns.{HasSaved, MakesOneStep};
ghost use Rattle.nv_session.specs.Restoring.{Revives, FindsSaved, FindsPrefix};

use crate::wires::Wires;
use channel_port::ChannelPort;

/// A save that is done, of a life that isn't armed, survives: whatever a stop leaves of the device then, a restore of it is
/// Complete, with the save's generation and its count n, and the life that it begins has the memory after the first n of
/// all writes.
pub fn restore_after_save<K: ChannelPort>()
    ensures { (old new : Assembly K.ChannelPort) (m : Machine) (generation count : ℕ)
        (bytes : List ℕ) (found : Head)
        → ModuleStands K.ChannelPort old.it old.device m
        → HasSaved generation count m → is_armed m.mode ≡ false
        → MayLeave (present old.device) bytes
        → Revives K.ChannelPort (restored (lines_of_module K.ChannelPort old.it) bytes) found
        new.it new.device
        → FindsSaved K.ChannelPort generation count (memory_after m count)
        found new.it new.device }
{}

/// A life that is stopped at any time between two calls, while it is armed, saving or in the dark too: whatever the stop
/// leaves of the device, a restore of it begins a life with the memory after the first n of all accepted writes, n being the
/// count that it tells. Told Complete, these hold every write that was persistent. They hold them whatever is told where
/// the module was disarmed or all was saved; and where Complete isn't told there was a cause for it.
pub fn restore_after_any_stop<K: ChannelPort>()
    ensures { (old new : Assembly K.ChannelPort) (m : Machine) (bytes : List ℕ) (found : Head)
        → ModuleStands K.ChannelPort old.it old.device m → MayLeave (present old.device) bytes
        → Revives K.ChannelPort (restored (lines_of_module K.ChannelPort old.it) bytes) found
        new.it new.device
        → FindsPrefix K.ChannelPort m found new.it new.device }
{}

/// The life of a session is one of those that `module_core` and `nv_machine` speak of. A restore begins it; each call of the
/// session goes on with it, be it one event or several; and so does a level that is set between two calls, which charges the
/// gauge or counts a fault. So what the laws say of lives they say of a session's, wherever a stop ends it.
pub fn sessions_live<K: ChannelPort>()
    ensures begins { (restores : Outcome) (found : Head) (now : Assembly K.ChannelPort)
        (revives : Revives K.ChannelPort restores found now.it now.device)
        → HasLived K.ChannelPort found revives.image [] []
        now (session_at (Some now.it) now.device now.gauge) }
    ensures one { (event : Event) (reply : Reply) (found : Head) (image : Image)
        (events : List Event) (replies : List Reply) (first : Assembly K.ChannelPort)
        (old new : SessionAt K.ChannelPort)
        → GoesOnBy K.ChannelPort (λ setup. IsOneEvent event reply) old new
        → HasLived K.ChannelPort found image events replies first old
        → HasLivedOn K.ChannelPort (IsOneEvent event reply) found image events replies first new }
    ensures work { (channel : ℕ) (command : Option Stamped) (found : Head) (image : Image)
        (events : List Event) (replies : List Reply) (first : Assembly K.ChannelPort)
        (old new : SessionAt K.ChannelPort)
        → GoesOnBy K.ChannelPort (λ setup. IsWork channel command) old new
        → HasLived K.ChannelPort found image events replies first old
        → HasLivedOn K.ChannelPort (IsWork channel command) found image events replies first new }
    ensures read { (line : ℕ) (result : Result LineSeen ReadRefusal) (found : Head) (image : Image)
        (events : List Event) (replies : List Reply) (first : Assembly K.ChannelPort)
        (old new : SessionAt K.ChannelPort)
        → GoesOnBy K.ChannelPort (λ setup. ReadsLine setup line result) old new
        → (lived : HasLived K.ChannelPort found image events replies first old)
        → HasLivedOn K.ChannelPort (ReadsLine (setup_of K.ChannelPort lived.it) line result)
        found image events replies first new }
    ensures step { (result : Result StepReply ArmRefusal) (found : Head) (image : Image)
        (events : List Event) (replies : List Reply) (first : Assembly K.ChannelPort)
        (old new : SessionAt K.ChannelPort)
        → GoesOnBy K.ChannelPort (λ setup. MakesOneStep result) old new
        → HasLived K.ChannelPort found image events replies first old
        → HasLivedOn K.ChannelPort (MakesOneStep result) found image events replies first new }
    ensures save { (result : Result StepReply ArmRefusal) (found : Head) (image : Image)
        (events : List Event) (replies : List Reply) (first : Assembly K.ChannelPort)
        (old new : SessionAt K.ChannelPort)
        → GoesOnBy K.ChannelPort (λ setup. MakesSave setup.shape.channels result) old new
        → (lived : HasLived K.ChannelPort found image events replies first old)
        → HasLivedOn K.ChannelPort
        (MakesSave (setup_of K.ChannelPort lived.it).shape.channels result)
        found image events replies first new }
    ensures level { (found : Head) (image : Image) (events : List Event) (replies : List Reply)
        (first : Assembly K.ChannelPort) (level : ℕ) (at : SessionAt K.ChannelPort)
        → HasLived K.ChannelPort found image events replies first at
        → HasLived K.ChannelPort found image events replies first
        (record at { gauge = set_to level at.gauge }) }
    ensures charged { (level : ℕ) (gauge : Gauge) → RisesTo gauge (set_to level gauge) }
{}

/// What a session keeps: the life that runs has answered some events since it was opened, with the session's device and its gauge.
/// So at each moment between two calls the laws of lives hold of it, and what `honest_modules` says of a gauge that is honest.
pub fn sessions_keep_lives<K: ChannelPort, A: Wires<K>>()
    ensures { (session : Session K A K.ChannelPort A.Wires) (it : Module K K.ChannelPort)
        → session.life ≡ Some it
        → HasLife K.ChannelPort
        (assembly it (device_state session.device) (meter_gauge session.gauge)) }
{}

/// **Stopped at any moment since its life began, within a call or a device write too, a session's restore is that of the theorem
/// `survives_any_stop`**, both halves of it: the memory after a prefix of the accepted writes, told Complete one that holds every
/// acknowledged write, and after an honest life one that holds them whatever is told. The life has the events that were answered
/// by then, and the one within which the stop came.
pub fn sessions_survive<K: ChannelPort>()
    ensures { (found : Head) (image : Image) (events : List Event) (replies : List Reply)
        (first : Assembly K.ChannelPort) (at : SessionAt K.ChannelPort)
        → SurvivesAnyStop K.ChannelPort found image events replies first at }
{}
