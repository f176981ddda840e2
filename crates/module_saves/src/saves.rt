// The saves of a module: the newest image, and a save that runs.
ghost use Rattle.std.specs.Prelude.{◌≡◌, ◌+◌, ◌-◌, ◌<◌, ◌≤◌, ◌^◌, ℕ, [], ◌∷◌, is_ok, None, Some, IsSome, IfOk};
ghost use Rattle.std.specs.Option.{ForSome, option_map};
ghost use Rattle.save_device.specs.Calls.{MakesCalls};
ghost use Rattle.slot_store.specs.declared.saving.SaveRun.{SaveRun};
ghost use Rattle.slot_store.specs.Slots.{IsCapacity, HasSize};
ghost use Rattle.slot_store.specs.Steps.{reach_of};
ghost use Rattle.slot_store.specs.Runs.{plan_of, next_of};
ghost use Rattle.nv_machine.specs.State.{RunningSave, Store};
ghost use Rattle.nv_machine.specs.Machine.{step_call};
ghost use Rattle.module_saves.specs.Saving.{count_in, IsFaultOf, IsOfLines, IsSizedFor, MakesAtMost, MakesBetween, TellsFault, TellsStep, store_after, IsSaveOver};

use save_device::SaveDevice;
use save_image::PAGE_BYTES;
use slot_store::{Newest, SaveRun, Step};

/// What becomes of a save in whose step the device failed.
#[derive(Clone, Copy, Debug, PartialEq, Eq)]
pub enum StepFault {
    /// The step is made again.
    Again,
    /// The save has ended.
    Ended,
}

/// What the module knows of its device.
#[derive(Drop)]
pub struct Saves {
    pub newest: Newest,
    /// The other slot's gate is known closed and settled.
    pub closed: bool,
    /// A call of the device failed since the last save.
    pub unsettled: bool,
    pub saving: Option<SaveRun>,
    pub ghost generation: { newest.generation < 2 ^ 63 },
    pub ghost over: { ForSome saving (IsSaveOver newest) },
}

impl Saves {
    ghost use Rattle.module_saves.specs.Saves.{BeginsSave, FailsIn, IsReadyFor, Learns, ReachesStore, StepTold};

    /// The coming step of the save that runs, if one does.
    pub fn next(&self) -> Option<Step>
        ensures is { result ≡ option_map next_of self.now.saving }
        ensures place { (lines : ℕ) → IsOfLines lines self.now.saving
            → ForSome result (λ step. reach_of step ≤ lines) }
    {
        match &self.saving {
            Some(run) => Some(run.next()),
            None => None,
        }
    }

    /// How many writes the save that runs has in its image.
    pub fn count(&self) -> Option<u64>
        ensures { result ≡ option_map count_in self.now.saving }
    {
        match &self.saving {
            Some(run) => Some(run.count()),
            None => None,
        }
    }

    /// Begins a save of this many writes, in place of one that runs.
    pub fn begin(&mut self, count: u64, armed: bool, lines: usize)
        requires generation { self.old.newest.generation < 2 ^ 63 - 1 }
        requires count { count ≤ 2 ^ 62 }
        requires capacity { IsCapacity lines }
        ensures { BeginsSave self.old count armed lines self.new }
    {
        let run = SaveRun::begin(self.newest, self.closed, count, armed, lines);
        self.saving = Some(run);
    }

    /// Makes the coming step of the save that runs, one call of the device, and says which it was, or none where it was the
    /// last one. After a fault the step is made again where the device has failed in the save less often than so, and else the
    /// save has ended.
    pub fn step<D: SaveDevice>(
        &mut self,
        device: &mut D,
        page: &[u8; PAGE_BYTES],
        repeats: u64,
    ) -> Result<Option<Step>, StepFault>
        requires runs { IsSome self.old.saving }
        requires size { IsSizedFor self.old.saving (D.state device.old) }
        ensures step { TellsStep self.old.saving result }
        ensures fault { TellsFault repeats self.old.saving result }
        ensures call { (run : SaveRun) → self.old.saving ≡ Some run
            → MakesCalls (step_call (plan_of run).closed (next_of run) ∷ []) (is_ok result)
            (D.state device.old).calls (D.state device.new).calls }

        // The device holds the store after the step, and the module knows it. A stop at any moment of the call leaves what
        // it might before or may after it.
        ensures makes { (lines : ℕ) (s : Store) (save : RunningSave)
            → IsReadyFor lines s save self.old page.now (D.state device.old)
            → ReachesStore lines s (store_after lines s save result)
            (D.state device.old) self.new (D.state device.new) }
        ensures told { StepTold result self.old self.new }
        ensures lines { (lines : ℕ) → IsOfLines lines self.old.saving
            → IsOfLines lines self.new.saving }
        ensures most { (most : ℕ) → MakesAtMost most self.old.saving
            → MakesAtMost most self.new.saving }
        ensures between { (least most : ℕ) → MakesBetween least most self.old.saving
            → MakesBetween least most self.new.saving }
        ensures size { (lines : ℕ) → HasSize lines (D.state device.old)
            → HasSize lines (D.state device.new) }
    {
        let Some(mut run) = self.saving.take() else {
            unreachable!();
        };
        let again = run.failures() < repeats;
        let Ok(step) = run.step(device, page) else {
            return Err(self.fail(run, again));
        };
        self.learn(&run);
        if run.newest().is_some() {
            return Ok(None);
        }
        self.saving = Some(run);
        Ok(Some(step))
    }

    // Keeps a save in whose step the device failed, where that is made again; else it has ended.
    fn fail(&mut self, run: SaveRun, again: bool) -> StepFault
        requires none { self.old.saving ≡ None }
        requires over { IsSaveOver self.old.newest run }
        ensures told { IsFaultOf again result }
        ensures newest { self.new.newest ≡ self.old.newest }
        ensures lines { (lines : ℕ) → (plan_of run).lines ≡ lines
            → IsOfLines lines self.new.saving }
        ensures most { (most : ℕ) → (plan_of run).generation ≤ most
            → MakesAtMost most self.new.saving }
        ensures between { (least most : ℕ) → least ≤ count_in run → count_in run ≤ most
            → MakesBetween least most self.new.saving }
        ensures fails { FailsIn run again result self.old self.new }
    {
        if !again {
            self.learn(&run);
            return StepFault::Ended;
        }
        self.closed = run.is_closed();
        self.saving = Some(run);
        StepFault::Again
    }

    // Keeps what a save says of the device, where it stands so: the image that it made, if it is done; whether the gate of its
    // slot is closed; and that the device failed in it, if it did.
    pub(crate) fn learn(&mut self, run: &SaveRun)
        requires { self.old.saving ≡ None }
        ensures { Learns run.now self.old self.new }
    {
        self.closed = run.is_closed();
        match run.newest() {
            Some(newest) => {
                self.newest = newest;
                self.unsettled = false;
            }
            None => self.unsettled = self.unsettled || run.has_failed(),
        }
    }
}
