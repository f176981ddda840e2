// The steps of a save on mains.
ghost use Rattle.std.specs.Prelude.{◌≡◌, ◌≤◌, ℕ, false, Some, IsSome};
ghost use Rattle.channel_set.specs.Issuing.{IssuesNone};
ghost use Rattle.channel_set.specs.Set.{shape_of, view_of};
ghost use Rattle.arm_state.specs.Modes.{has_ended, repeats_in};
ghost use Rattle.channel_port.specs.Shape.{Shape};
ghost use Rattle.slot_store.specs.Changes.{GivesPage};
ghost use Rattle.slot_store.specs.Slots.{HasSize};
ghost use Rattle.slot_store.specs.Steps.{reach_of};
ghost use Rattle.nv_machine.specs.State.{Machine, RunningSave};
ghost use Rattle.nv_machine.specs.Moves.{persisted_at_end};
ghost use Rattle.nv_machine.specs.Machine.{must_wait};

use crate::{Front, Module};
use arm_state::{Mode, Move};
use channel_port::ChannelPort;
use channel_set::ChannelSet;
use energy_budget::Energy;
use module_saves::StepFault;
use nv_machine::{Event, Reply, StepReply};
use save_device::SaveDevice;
use save_image::PAGE_BYTES;
use slot_store::Step;

// How many writes are persistent after the end of a save of so many.
fn persisted_after_save(mode: Mode, persisted: u64, count: u64) -> u64
    ensures { result ≡ persisted_at_end mode persisted count }
{
    if mode.is_armed() { persisted } else { count }
}

// The page of the arrays that a step of a save writes. Of a step that writes none it says nothing.
fn page_of_step<K: ChannelPort>(channels: &ChannelSet<K>, step: Step) -> [u8; PAGE_BYTES]
    requires { reach_of step ≤ (shape_of K.ChannelPort channels.now).lines }
    ensures { GivesPage (view_of K.ChannelPort channels.now).array step result }
{
    match step {
        Step::Page(page) => channels.page(page),
        _ => [0; PAGE_BYTES],
    }
}

impl Front {
    ghost use Rattle.module_saves.specs.Saving.{IsOfLines, IsSizedFor};
    ghost use Rattle.module_core.specs.Stands.{CountsSaved};
    ghost use Rattle.module_core.specs.Stepping.{CallsOnce, FrontMakesReadyStep};

    // Makes the coming step of the save that runs, one call of the device, which may fail in it so often before the save has ended.
    fn make_step<D: SaveDevice>(
        &mut self,
        device: &mut D,
        page: &[u8; PAGE_BYTES],
        repeats: u64,
    ) -> StepReply
        requires runs { IsSome self.old.saves.saving }
        requires size { IsSizedFor self.old.saves.saving (D.state device.old) }
        ensures made { (shape : Shape) → repeats ≡ repeats_in self.old.mode shape.costs.retries
            → FrontMakesReadyStep shape page.now result
            self.old (D.state device.old) self.new (D.state device.new) }
        ensures call { CallsOnce self.old.saves.saving result
            (D.state device.old) (D.state device.new) }
        ensures saved { CountsSaved (Reply.SaveStep result) self.old self.new }
        ensures terms { self.new.terms ≡ self.old.terms }
        ensures accepted { self.new.accepted ≡ self.old.accepted }
        ensures ended { has_ended self.new.mode ≡ has_ended self.old.mode }
        ensures lines { (lines : ℕ) → IsOfLines lines self.old.saves.saving
            → IsOfLines lines self.new.saves.saving }
        ensures size { (lines : ℕ) → HasSize lines (D.state device.old)
            → HasSize lines (D.state device.new) }
    {
        let Some(count) = self.saves.count() else {
            unreachable!();
        };
        match self.saves.step(device, page, repeats) {
            Err(StepFault::Again) => StepReply::Retry,
            Err(StepFault::Ended) => {
                self.mode = self.mode.after(Move::FailSave);
                StepReply::Fault
            }
            Ok(None) => {
                self.persisted = persisted_after_save(self.mode, self.persisted, count);
                self.saved = count;
                self.mode = self.mode.after(Move::EndSave);
                StepReply::Saved {
                    generation: self.saves.newest.generation,
                    count,
                }
            }
            Ok(Some(step)) => StepReply::Did(step),
        }
    }
}

impl<K: ChannelPort> Module<K> {
    ghost use Rattle.module_core.specs.Stepping.{CallsOnce, MakesReadyStep};
    ghost use Rattle.module_core.specs.Stands.{Matches, Answers, CountsSaved, HasDevice, KeepsStored, SameButHold, assembly, setup_of};

    // A write that the page of the coming step is to have waits for its array.
    fn must_wait(&self, step: Step) -> bool
        ensures { (m : Machine) (save : RunningSave) → Matches K.ChannelPort self.now m
            → m.store.saving ≡ Some save → save.next ≡ step → result ≡ must_wait m save }
    {
        let Some(count) = self.front.saves.count() else {
            return false;
        };
        match step {
            Step::Page(_) => self.channels.has_below(count),
            _ => false,
        }
    }

    // Ends the hold once the last page is written.
    fn release_behind_pages(&mut self)
        ensures { SameButHold K.ChannelPort self.old self.new }
    {
        let Some(step) = self.front.saves.next() else {
            return;
        };
        if matches!(step, Step::Header) {
            self.channels.hold(None);
        }
    }

    // How many steps in which the device fails the save that runs may make again.
    fn repeats(&self) -> u64
        ensures { result
            ≡ repeats_in self.now.front.mode (setup_of K.ChannelPort self.now).shape.costs.retries }
    {
        self.front.mode.repeats(self.channels.costs().retries)
    }

    // Makes the coming step of the save that runs.
    fn make_step<D: SaveDevice>(&mut self, device: &mut D, page: &[u8; PAGE_BYTES]) -> StepReply
        requires runs { IsSome self.old.front.saves.saving }
        requires size { HasDevice K.ChannelPort self.old (D.state device.old) }
        ensures made { MakesReadyStep K.ChannelPort page.now result
            self.old (D.state device.old) self.new (D.state device.new) }
        ensures call { CallsOnce self.old.front.saves.saving result
            (D.state device.old) (D.state device.new) }
        ensures saved { CountsSaved (Reply.SaveStep result) self.old.front self.new.front }
        ensures terms { self.new.front.terms ≡ self.old.front.terms }
        ensures issued { IssuesNone K.ChannelPort self.old.channels self.new.channels }
        ensures setup { setup_of K.ChannelPort self.new ≡ setup_of K.ChannelPort self.old }
        ensures size { HasDevice K.ChannelPort self.new (D.state device.new) }
    {
        let repeats = self.repeats();
        let reply = self.front.make_step(device, page, repeats);
        match reply {
            StepReply::Fault => self.channels.hold(None),
            StepReply::Did(_) => self.release_behind_pages(),
            _ => {}
        }
        reply
    }

    /// Makes the coming step of the save that runs, one call of the device, after a reading of the gauge. While armed a low
    /// reading begins the disarming in its place. `Waiting` says that a write which the page is to have isn't in its array.
    pub fn save_step<D: SaveDevice, E: Energy>(
        &mut self,
        device: &mut D,
        energy: &mut E,
    ) -> StepReply
        requires size { HasDevice K.ChannelPort self.old (D.state device.old) }
        ensures answers { Answers K.ChannelPort Event.SaveStep (Reply.SaveStep result)
            (assembly self.old (D.state device.old) (E.gauge energy.old))
            (assembly self.new (D.state device.new) (E.gauge energy.new)) }
        ensures stored { KeepsStored K.ChannelPort (Reply.SaveStep result) self.old self.new }
        ensures setup { setup_of K.ChannelPort self.new ≡ setup_of K.ChannelPort self.old }
        ensures size { HasDevice K.ChannelPort self.new (D.state device.new) }
    {
        let Some(step) = self.front.saves.next() else {
            return StepReply::NoSave;
        };
        if self.must_wait(step) {
            return StepReply::Waiting;
        }
        let reading = energy.tick();
        if self.take_reading(reading) {
            return StepReply::Turned;
        }
        let page = page_of_step(&self.channels, step);
        self.make_step(device, &page)
    }
}
