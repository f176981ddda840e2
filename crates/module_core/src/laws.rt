// What the calls of a module come to.
ghost use Rattle.std.specs.Prelude.{List};
ghost use Rattle.nv_machine.specs.declared.events.Event.{Event};
ghost use Rattle.nv_machine.specs.declared.events.Reply.{Reply};
ghost use Rattle.nv_machine.specs.State.{Machine};
ghost use Rattle.module_core.specs.IssuedRuns.{RunsIssue};
ghost use Rattle.module_core.specs.ModuleLives.{LivesEndAfterEvents, LivesEndAnywhere, LivesEndWithinEvent};
ghost use Rattle.module_core.specs.Rising.{HasMarksInOrder, MarksRise};
ghost use Rattle.module_core.specs.Stands.{Assembly, ModuleStands, Answers, AnswersAll};

use channel_port::ChannelPort;

/// What a module promises is a life. Opened as `Module::open` says, it answers events as `Module::run` says; then a stop after
/// them ends a life, and so does one at any moment of them, and at any moment of one event more.
pub fn modules_live<K: ChannelPort>()
    ensures after { LivesEndAfterEvents K.ChannelPort }
    ensures within { LivesEndWithinEvent K.ChannelPort }
    ensures anywhere { LivesEndAnywhere K.ChannelPort }
{}

/// The two marks of a module: persistent are at most the accepted writes, in each module that stands for a machine, and neither
/// mark falls in a call or through a list of events.
pub fn marks_rise<K: ChannelPort>()
    ensures ordered { (it : Assembly K.ChannelPort) (m : Machine)
        → ModuleStands K.ChannelPort it.it it.device m → HasMarksInOrder K.ChannelPort it.it }
    ensures call { (event : Event) (reply : Reply) (old new : Assembly K.ChannelPort) (m : Machine)
        → ModuleStands K.ChannelPort old.it old.device m → Answers K.ChannelPort event reply old new
        → MarksRise K.ChannelPort old.it new.it }
    ensures run { (events : List Event) (replies : List Reply) (old new : Assembly K.ChannelPort)
        (m : Machine) → ModuleStands K.ChannelPort old.it old.device m
        → AnswersAll K.ChannelPort events replies old new
        → MarksRise K.ChannelPort old.it new.it }
{}

/// What the channels of a module have issued is what its replies tell: through events in none of which a drain was begun, each
/// channel's list has the commands of its works behind those that it had, in turn, and no other. A module that was opened has issued
/// what its channels had.
pub fn runs_issue<K: ChannelPort>()
    ensures { RunsIssue K.ChannelPort }
{}
