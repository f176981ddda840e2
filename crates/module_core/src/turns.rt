// Single calls, lists of them, and what an honest gauge is enough for in them.
ghost use Rattle.std.specs.Prelude.{◌≡◌, [], ◌∷◌, ◌++◌, All, List, ℕ};
ghost use Rattle.nv_machine.specs.Honesty.{ArmsNone};
ghost use Rattle.save_image.specs.Image.{Image};
ghost use Rattle.arm_state.specs.declared.loss.Loss.{Loss};
ghost use Rattle.nv_machine.specs.declared.events.Event.{Event};
ghost use Rattle.nv_machine.specs.declared.events.Event.TheVariants as event;
ghost use Rattle.nv_machine.specs.declared.events.Reply.{Reply};
ghost use Rattle.nv_machine.specs.declared.events.Reply.TheVariants as reply;
ghost use Rattle.module_core.specs.HonestCalls.{IsHonestSince, SavesWhereHonest, StaysHonest, StaysWhereHonest, WasSpared};
ghost use Rattle.module_core.specs.InTurn.{IsCharged, AnswersCall, AnswersCalls};
ghost use Rattle.module_core.specs.ModuleLives.{HasAnswered, HasAnsweredByAny, LifeSoFar, SurvivesByAny};
ghost use Rattle.module_core.specs.Opening.{opened_with};
ghost use Rattle.module_core.specs.Stands.{Assembly, IsCut, ModuleStands, assembly, world_of};
ghost use Rattle.module_core.specs.declared.module.Module.{Module};
ghost use Rattle.slot_store.specs.declared.head.Head.{Head};
ghost use Rattle.save_device.specs.Device.{DeviceState, faults_of};
ghost use Rattle.nv_machine.specs.Lives.{IsLeftAt, moments_since};
ghost use Rattle.energy_budget.specs.Gauge.{Gauge};

use channel_port::ChannelPort;

/// Calls of a module in turn, each with the same device and the same gauge, answer the list of their events, as `Module::run`
/// does: no call, one call, and calls after others. Between two of them the gauge may be charged, and the stored writes may be cut. So what the laws say of lists of
/// events they say of single calls: a life begins where a module stands for a new one, and goes on by calls.
pub fn calls_in_turn<K: ChannelPort>()
    ensures rests { (old new : Assembly K.ChannelPort) → IsCharged K.ChannelPort old new
        → AnswersCalls K.ChannelPort [] [] old new }
    ensures cuts { (old new : Module K K.ChannelPort) (device : DeviceState) (gauge : Gauge)
        → IsCut K.ChannelPort old new → AnswersCalls K.ChannelPort [] []
        (assembly old device gauge) (assembly new device gauge) }
    ensures calls { (event : Event) (reply : Reply) (old new : Assembly K.ChannelPort)
        → AnswersCall K.ChannelPort event reply old new
        → AnswersCalls K.ChannelPort (event ∷ []) (reply ∷ []) old new }
    ensures goes_on { (events more : List Event) (replies others : List Reply)
        (old mid new : Assembly K.ChannelPort)
        → AnswersCalls K.ChannelPort events replies old mid
        → AnswersCalls K.ChannelPort more others mid new
        → AnswersCalls K.ChannelPort (events ++ more) (replies ++ others) old new }
    ensures begins { (found : Head) (image : Image) (first : Assembly K.ChannelPort)
        → ModuleStands K.ChannelPort first.it first.device (opened_with found image)
        → HasAnswered K.ChannelPort found image [] [] first first }
    ensures lives { (found : Head) (image : Image) (events more : List Event)
        (replies others : List Reply) (first old new : Assembly K.ChannelPort)
        → HasAnswered K.ChannelPort found image events replies first old
        → AnswersCalls K.ChannelPort more others old new
        → HasAnswered K.ChannelPort found image (events ++ more) (replies ++ others) first new }
{}

/// What an honest gauge is enough for in the calls of a module, from the beginning of its life on. Where since then the gauge has
/// counted no fault, its leak isn't above that of the costs, and the device was spared, the gauge backs what was acknowledged; no
/// loss of mains was broken off; and unless acknowledged writes are still to be saved a stop leaves each of them. A loss of mains
/// while they are to be saved is answered `Saved` with all accepted writes, and a restore finds them all, complete, where the
/// device has failed in it no more often than its calls may be made again.
///
/// A device is spared that fails in ordinary saves and in arm calls, as often as it likes, and in each loss no more often than that;
/// one that has counted no fault was spared (`faultless`), and so was each one before the module was armed, whatever failed
/// (`unarmed`).
pub fn honest_modules<K: ChannelPort>()
    ensures calls { (events : List Event) (replies : List Reply) (old new : Assembly K.ChannelPort)
        → AnswersCalls K.ChannelPort events replies old new
        → StaysWhereHonest K.ChannelPort events replies old new }
    ensures lives { (now : Assembly K.ChannelPort) (so : LifeSoFar K.ChannelPort now)
        → IsHonestSince K.ChannelPort so.first now
        → WasSpared K.ChannelPort so.found so.image so.events so.replies so.first now so.answered
        → StaysHonest K.ChannelPort so.replies now }
    ensures faultless { (found : Head) (image : Image) (events : List Event)
        (replies : List Reply) (first now : Assembly K.ChannelPort)
        (answered : HasAnswered K.ChannelPort found image events replies first now)
        → faults_of now.device ≡ faults_of first.device
        → WasSpared K.ChannelPort found image events replies first now answered }
    ensures unarmed { (found : Head) (image : Image) (events : List Event)
        (replies : List Reply) (first now : Assembly K.ChannelPort)
        (answered : HasAnswered K.ChannelPort found image events replies first now)
        → All ArmsNone replies
        → WasSpared K.ChannelPort found image events replies first now answered }
    ensures loss { (lost : Loss) (old new : Assembly K.ChannelPort)
        → AnswersCall K.ChannelPort event.Lose (reply.Lose lost) old new
        → SavesWhereHonest K.ChannelPort lost old new }
{}

/// Each call of a module may be handed another gauge. What it began with and what it has answered since is a life all the same: it
/// goes on by calls, and between two of them by any other gauge; and a stop at any moment of it leaves what survives.
pub fn any_gauges<K: ChannelPort>()
    ensures begins { (found : Head) (image : Image) (first : Assembly K.ChannelPort)
        → ModuleStands K.ChannelPort first.it first.device (opened_with found image)
        → HasAnsweredByAny K.ChannelPort found image [] [] first first }
    ensures calls { (found : Head) (image : Image) (events more : List Event)
        (replies others : List Reply) (first old new : Assembly K.ChannelPort)
        → HasAnsweredByAny K.ChannelPort found image events replies first old
        → AnswersCalls K.ChannelPort more others old new
        → HasAnsweredByAny K.ChannelPort found image (events ++ more) (replies ++ others)
        first new }
    ensures gauges { (found : Head) (image : Image) (events : List Event) (replies : List Reply)
        (first old : Assembly K.ChannelPort) (other : Gauge)
        → HasAnsweredByAny K.ChannelPort found image events replies first old
        → HasAnsweredByAny K.ChannelPort found image events replies first
        (record old { gauge = other }) }
    ensures survives { (found : Head) (image : Image) (events : List Event)
        (replies : List Reply) (first now : Assembly K.ChannelPort)
        (lived : HasAnsweredByAny K.ChannelPort found image events replies first now)
        (bytes : List ℕ) → IsLeftAt (moments_since first.device now.device) bytes
        → SurvivesByAny K.ChannelPort found image events replies first
        (world_of K.ChannelPort now lived.last) bytes }
{}
