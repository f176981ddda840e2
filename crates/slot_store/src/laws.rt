// What the definitions say in other words.
ghost use Rattle.std.specs.Prelude.{◌≡◌, ◌≢◌, ◌↔◌, ◌+◌, ◌<◌, ℕ, Bool, false, List, length, slice_range};
ghost use Rattle.save_device.specs.Device.{DeviceState, MayLeave, present};
ghost use Rattle.save_image.specs.Image.{Image, IsImage, image_bytes};
ghost use Rattle.save_image.specs.declared.reading.Version.{Version};
ghost use Rattle.slot_store.specs.declared.plan.Step.TheVariants.{Done};
ghost use Rattle.slot_store.specs.declared.saving.SaveRun.{SaveRun};
ghost use Rattle.slot_store.specs.declared.slots.Slot.{Slot};
ghost use Rattle.slot_store.specs.Slots.{device_size, slot_size, start_of, slot_state, Full};
ghost use Rattle.slot_store.specs.Outcomes.{Found, restored};
ghost use Rattle.slot_store.specs.Steps.{step_after, steps_left};
ghost use Rattle.slot_store.specs.Rest.{Candidates, IsAmong, IsAtRest, IsAtRestOn};
ghost use Rattle.slot_store.specs.Saving.{image_of, Leaves};
ghost use Rattle.slot_store.specs.Runs.{plan_of, next_of, Saving, IsGivenUp};

/// A slot holds an image exactly where its bytes are the image's in one of the versions, with the gate open, each byte of
/// them.
pub fn full_slots()
    ensures { (lines : ℕ) (slot : Slot) (bytes : List ℕ) (image : Image)
        → length bytes ≡ device_size lines
        → ((slot_state lines slot bytes ≡ Full image) ↔ (IsImage lines image
        × ((version : Version)
        × (slice_range bytes (start_of lines slot) (start_of lines slot + slot_size lines)
        ≡ image_bytes lines version image)))) }
{}

/// What a stop leaves of a device at rest: one of the candidates.
pub fn stop_at_rest()
    ensures { (candidates : Candidates) (newest : Image) (slot : Slot) (lines : ℕ) (closed : Bool)
        (state : DeviceState) (image : List ℕ) → IsAtRest candidates newest slot lines closed state
        → MayLeave (present state) image → IsAmong candidates (restored lines image) }
{}

/// The newest image of a device at rest is one of the candidates.
pub fn newest_at_rest()
    ensures { (candidates : Candidates) (newest : Image) (slot : Slot) (lines : ℕ) (closed : Bool)
        (state : DeviceState) → IsAtRest candidates newest slot lines closed state
        → IsAmong candidates (Found slot newest) }
{}

/// What a stop between two steps of a save leaves: what one in the coming step may leave.
pub fn stop_between_steps()
    ensures { (candidates : Candidates) (old : Image) (memory : List (List ℕ)) (run : SaveRun)
        (state : DeviceState) (image : List ℕ) → Saving candidates old memory run state
        → MayLeave (present state) image
        → Leaves candidates old (plan_of run) memory (next_of run) image }
{}

/// A save that is given up before it is done leaves a device at rest on the old image, after a failed step too: with the
/// candidates that there were until the gate is settled closed; from then on with the old image alone and a closed gate,
/// up to and including a step that would open it and wasn't tried; and then with the old image and the new one.
/// `SaveRun::is_closed` says whether the gate counts as closed.
pub fn given_up()
    ensures { (candidates : Candidates) (old : Image) (memory : List (List ℕ)) (run : SaveRun)
        (state : DeviceState) → Saving candidates old memory run state → next_of run ≢ Done
        → IsGivenUp candidates old memory run state }
{}

/// A save that is done leaves a device at rest on the new image alone.
pub fn save_done()
    ensures { (candidates : Candidates) (old : Image) (memory : List (List ℕ)) (run : SaveRun)
        (state : DeviceState) → Saving candidates old memory run state → next_of run ≡ Done
        → IsAtRestOn (plan_of run).slot (image_of (plan_of run) memory)
        (plan_of run).lines false state }
{}

/// Each step of a save leaves one less.
pub fn one_step_less()
    ensures { (run : SaveRun) → 0 < steps_left (plan_of run).lines (next_of run)
        → steps_left (plan_of run).lines (step_after (plan_of run).lines (next_of run)) + 1
        ≡ steps_left (plan_of run).lines (next_of run) }
{}

/// Where no step is left the save is done.
pub fn no_step_left()
    ensures { (run : SaveRun) → steps_left (plan_of run).lines (next_of run) ≡ 0
        → next_of run ≡ Done }
{}
