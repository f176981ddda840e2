// What a stop leaves of a save.
ghost use Rattle.std.specs.Prelude.{◌∷◌, List, Ok};
ghost use Rattle.save_device.specs.Device.{LeavesOnly, StopsWithin, present};
ghost use Rattle.slot_store.specs.Outcomes.{restored};
ghost use Rattle.nv_machine.specs.declared.events.Event.{Event};
ghost use Rattle.nv_machine.specs.declared.events.Event.TheVariants as event;
ghost use Rattle.nv_machine.specs.declared.events.Reply.{Reply};
ghost use Rattle.nv_machine.specs.declared.events.Reply.TheVariants as reply;
ghost use Rattle.nv_machine.specs.State.{RunningSave, Setup, World};
ghost use Rattle.nv_machine.specs.Guard.{IsGuarded};
ghost use Rattle.nv_machine.specs.Headline.{HappensNext, Run};
ghost use Rattle.nv_machine.specs.SavedImages.{DisturbNoSave, DisturbsNoSave, IsOldOr};
ghost use Rattle.nv_machine.specs.SavedImages.{IsOldOrNew, IsSavingOver, IsUnsaving};

/// A save that is begun where no call of the device has failed since the last one, and that no fault and no disarming disturbs,
/// leaves the old image or the new one: a stop behind any of its events does, and one at any moment within the next. A reading that
/// doesn't turn, and what is refused or was so already, disturbs none.
///
/// A save may be given up for another one, by a disarming or by a low reading. Where it was before it opened its gate, so that the
/// newest image alone may be found, what is left is that image, or the one of the save that runs now (`instead`).
pub fn saves_leave_old_or_new()
    ensures between { (setup : Setup) (events : List Event) (replies : List Reply) (old new : World)
        → IsGuarded old.machine → IsUnsaving old.machine
        → (run : Run setup (event.SaveBegin ∷ events) (reply.SaveBegin (Ok tt) ∷ replies) old new)
        → DisturbNoSave setup events replies run.0 new run.2
        → StopsWithin (λ bytes. IsOldOrNew old.machine (restored setup.shape.lines bytes))
        (present new.device) }
    ensures within { (setup : Setup) (events : List Event) (replies : List Reply)
        (old mid new : World) (next : Event) (told : Reply)
        → IsGuarded old.machine → IsUnsaving old.machine
        → (run : Run setup (event.SaveBegin ∷ events) (reply.SaveBegin (Ok tt) ∷ replies) old mid)
        → DisturbNoSave setup events replies run.0 mid run.2
        → HappensNext setup next told mid new
        → DisturbsNoSave next told mid.machine.mode new.machine.mode
        → LeavesOnly mid.device new.device
        (λ bytes. IsOldOrNew old.machine (restored setup.shape.lines bytes)) }
    ensures instead { (setup : Setup) (first : Event) (told : Reply) (events : List Event)
        (replies : List Reply) (before old new : World) (save : RunningSave)
        → HappensNext setup first told before old → IsSavingOver save old.machine
        → (run : Run setup events replies old new) → DisturbNoSave setup events replies old new run
        → StopsWithin (λ bytes. IsOldOr save.made old.machine (restored setup.shape.lines bytes))
        (present new.device) }
{}
