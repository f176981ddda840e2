// What is known of a guarded machine.
ghost use Rattle.std.specs.Prelude.{◌≡◌, ◌≤◌, ℕ, Bool, false, Some, None};
ghost use Rattle.save_image.specs.Image.{Image};
ghost use Rattle.slot_store.specs.Rest.{only};
ghost use Rattle.slot_store.specs.declared.slots.Slot.{Slot};
ghost use Rattle.arm_state.specs.Modes.{has_ended, is_armed};
ghost use Rattle.nv_machine.specs.declared.events.Event.{Event};
ghost use Rattle.nv_machine.specs.declared.events.Reply.{Reply};
ghost use Rattle.nv_machine.specs.State.{Machine, RunningSave, Setup, World};
ghost use Rattle.nv_machine.specs.State.{all_of, memory_after, newest_of, start_of_life};
ghost use Rattle.nv_machine.specs.Machine.{MachineStep};
ghost use Rattle.nv_machine.specs.Guard.{HoldsCut, IsGuarded};
ghost use Rattle.nv_machine.specs.Headline.{MayCut};
ghost use Rattle.nv_machine.specs.Opening.{new_life};
ghost use Rattle.nv_machine.specs.SavedImages.{IsUnsaving};

/// A machine is guarded from the beginning of its life on, whatever happens to it. Other crates know of a guarded machine what
/// stands here, and don't open the word: its stored writes may be cut to the end of the newest image that is known settled, and
/// each image that a stop may make the newest holds all writes before the cut; the writes that the life was opened with are persistent, and the persistent ones are
/// accepted; mains aren't lost before it has ended; a save that runs makes the memory after as many writes as it counts, and
/// while not armed an image that isn't armed either; and between two saves a stop leaves the newest image alone, where no call
/// of the device has failed since the last one.
pub fn guarded_machines()
    ensures begins { (slot : Slot) (closed : Bool) (image : Image)
        → IsGuarded (new_life slot closed image) }
    ensures stays { (setup : Setup) (event : Event) (reply : Reply) (old new : World)
        → MachineStep setup event reply old new
        → IsGuarded old.machine → IsGuarded new.machine }
    ensures cut { (m : Machine) (cut : ℕ) → MayCut m cut
        → IsGuarded m → IsGuarded (record m { cut = cut }) }
    ensures holds_cut { (m : Machine) → IsGuarded m → HoldsCut m }
    ensures opened { (m : Machine) → IsGuarded m → start_of_life m.life ≤ m.life.persisted }
    ensures accepted { (m : Machine) → IsGuarded m → m.life.persisted ≤ all_of m }
    ensures mains { (m : Machine) → IsGuarded m → has_ended m.mode ≡ false → m.lost ≡ None }
    ensures memory { (m : Machine) (save : RunningSave)
        → IsGuarded m → m.store.saving ≡ Some save
        → save.made.memory ≡ memory_after m save.made.count }
    ensures unarmed { (m : Machine) (save : RunningSave)
        → IsGuarded m → m.store.saving ≡ Some save
        → is_armed m.mode ≡ false → save.made.arm ≡ 0 }
    ensures alone { (m : Machine) → IsGuarded m → IsUnsaving m
        → m.store.maybe ≡ only m.store.maybe.slot (newest_of m) }
{}
