// In which order writes wait.
ghost use Rattle.std.specs.Prelude.{◌≡◌, ◌+◌, Bool, List, length, sum_by};
ghost use Rattle.save_image.specs.Image.{Image};
ghost use Rattle.slot_store.specs.declared.slots.Slot.{Slot};
ghost use Rattle.channel_port.specs.declared.waiting.Waiting.{Waiting};
ghost use Rattle.channel_port.specs.Draining.{DrainOrder, entries_in};
ghost use Rattle.channel_port.specs.Waits.{Has};
ghost use Rattle.nv_machine.specs.declared.events.Event.{Event};
ghost use Rattle.nv_machine.specs.declared.events.Reply.{Reply};
ghost use Rattle.nv_machine.specs.State.{Setup, World};
ghost use Rattle.nv_machine.specs.Headline.{Run};
ghost use Rattle.nv_machine.specs.Losses.{EndsDark};
ghost use Rattle.nv_machine.specs.Opening.{new_life};
ghost use Rattle.nv_machine.specs.WaitingOrder.{GoesBefore, IsInOrder, WaitsNoMore};

/// Throughout a life writes wait channel by channel, and in each the oldest first. So where a loss of mains ends dark, each write
/// that waits no more is one of an earlier channel than each that waits still, or an older one of its channel; and as many wait
/// no more as entries were paid for.
pub fn oldest_go_first()
    ensures begins { (slot : Slot) (closed : Bool) (image : Image)
        → IsInOrder (new_life slot closed image) }
    ensures keeps { (setup : Setup) (events : List Event) (replies : List Reply) (old new : World)
        → Run setup events replies old new → IsInOrder old.machine → IsInOrder new.machine }
    ensures dark { (order : DrainOrder) (setup : Setup) (old new : World) (gone left : Waiting)
        → EndsDark order setup old new → IsInOrder old.machine
        → Has gone old.machine.waits.writes → WaitsNoMore gone new.machine.waits.writes
        → Has left new.machine.waits.writes → GoesBefore gone left }
    ensures count { (order : DrainOrder) (setup : Setup) (old new : World)
        (dark : EndsDark order setup old new)
        → length new.machine.waits.writes + sum_by entries_in dark.paid
        ≡ length old.machine.waits.writes }
{}
