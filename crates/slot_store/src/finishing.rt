// All steps of a save that are still to come.
ghost use Rattle.std.specs.Prelude.{◌≡◌, ◌≤◌, length};
ghost use Rattle.slot_store.specs.Slots.{HasSize};
ghost use Rattle.slot_store.specs.Steps.{reach_of};
ghost use Rattle.slot_store.specs.Changes.{GivesPage};

use crate::{BrokenOff, SaveRun, SaveSource, Step};
use save_device::SaveDevice;
use save_image::PAGE_BYTES;

/// The page of a memory that a step writes, lent, or put together in `room`. A step that writes none is given zeros, and doesn't
/// read them.
pub fn page_for<'p, S: SaveSource>(
    source: &'p S,
    step: Step,
    room: &'p mut [u8; PAGE_BYTES],
) -> &'p [u8; PAGE_BYTES]
    requires { reach_of step ≤ length (S.memory source.now) }
    ensures { GivesPage (S.memory source.now) step result.now }
{
    match step {
        Step::Page(page) => source.page(page, room),
        _ => &[0; PAGE_BYTES],
    }
}

impl SaveRun {
    ghost use Rattle.slot_store.specs.Runs.{plan_of};
    ghost use Rattle.slot_store.specs.Finishing.{Finishes, underway};
    ghost use Rattle.slot_store.specs.Repeating.{FinishesRepeating};

    /// Makes all steps that are still to come, each one call of the device, and asks the source for each before it is made.
    /// It stops at the first that the source refuses, `Refused`, or in which the device fails, `Fault`: that step comes again,
    /// and none behind it is asked for or made. Once all were made, `newest` tells the image.
    pub fn finish<S: SaveSource, D: SaveDevice>(
        &mut self,
        source: &mut S,
        device: &mut D,
    ) -> Result<(), BrokenOff>
        requires lines { length (S.memory source.old) ≡ (plan_of self.old).lines }
        requires size { HasSize (plan_of self.old).lines (D.state device.old) }
        ensures { Finishes S.SaveSource result
            (underway source.old self.old (D.state device.old))
            (underway source.new self.new (D.state device.new)) }
    {
        let mut room = [0; PAGE_BYTES];
        for _made in 0..self.steps_left() {
            let step = self.next();
            let Ok(()) = source.ask(step) else {
                return Err(BrokenOff::Refused);
            };
            let page = page_for(source, step, &mut room);
            let Ok(_) = self.step(device, page) else {
                return Err(BrokenOff::Fault);
            };
        }
        Ok(())
    }

    /// The same, where a step in which the device failed is made again, so many times in all: it is asked for once more before
    /// that. The next failure is told, `Fault`.
    pub fn finish_repeating<S: SaveSource, D: SaveDevice>(
        &mut self,
        source: &mut S,
        device: &mut D,
        repeats: u64,
    ) -> Result<(), BrokenOff>
        requires lines { length (S.memory source.old) ≡ (plan_of self.old).lines }
        requires size { HasSize (plan_of self.old).lines (D.state device.old) }
        ensures { FinishesRepeating S.SaveSource repeats result
            (underway source.old self.old (D.state device.old))
            (underway source.new self.new (D.state device.new)) }
    {
        for _again in 0..repeats {
            match self.finish(source, device) {
                Ok(()) => return Ok(()),
                Err(BrokenOff::Refused) => return Err(BrokenOff::Refused),
                Err(BrokenOff::Fault) => {}
            }
        }
        self.finish(source, device)
    }
}
