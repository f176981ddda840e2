// The steps of a save, one after another: what each leaves, and what one that fails or is refused leaves, by hand.
ghost use Rattle.std.specs.Prelude.{◌≡◌, ⊤};
ghost use Rattle.slot_store.specs.Runs.{plan_of};

use crate::check::same;
use crate::slots::{CLOSED_FIRST, LINES, after_a_stop, formatted, memory};
use line_memory::Line;
use save_device::{Fuse, MemoryDevice, Pick, SaveDevice};
use save_image::page_bytes;
use slot_store::{BrokenOff, Newest, Refused, SaveRun, SaveSource, Slot, Step};

// A step of a save of a memory of zero lines.
fn step(run: &mut SaveRun, device: &mut Fuse<MemoryDevice>) -> Option<Step> {
    if !run.fits(device) {
        return None;
    }
    run.step(device, &[0; 4096]).ok()
}

#[test]
fn the_steps_of_a_save(rt: HostRuntime) {
    let newest = Newest {
        slot: Slot::Second,
        generation: 7,
    };
    let mut device = Fuse::new(formatted(&rt), 8);
    let mut run = SaveRun::begin(newest, false, 3, true, LINES);
    same(&rt, run.count(), 3);
    let mut said = String::new(rt.alloc());
    for left in [8, 7, 6, 5, 4, 3, 2, 1] {
        same(&rt, run.steps_left(), left);
        let step = step(&mut run, &mut device).expect(&rt, "a step");
        write!(said, "{step}, ").expect(&rt, "memory");
    }
    same(
        &rt,
        said.as_str(),
        "close, sync, page 0, page 1, header, sync, open, sync, ",
    );
    same(&rt, run.next(), Step::Done);
}

#[test]
fn a_failed_step_is_made_again(rt: HostRuntime) {
    let mut device = Fuse::new(formatted(&rt), 0);
    let mut run = SaveRun::begin(CLOSED_FIRST, true, 0, false, LINES);
    for left in [8, 7, 6, 5, 4, 3, 2, 1] {
        let coming = run.next();
        same(&rt, run.is_closed(), left > 1);
        device.left = 0;
        same(&rt, step(&mut run, &mut device), None);
        same(&rt, run.next(), coming);
        same(&rt, run.is_closed(), left > 2);
        device.left = 1;
        same(&rt, step(&mut run, &mut device), Some(coming));
    }
    same(&rt, device.faults(), 8);
    same(&rt, after_a_stop(rt.alloc(), device, Pick::Old), (2, 0));
}

/// Lines of which so many steps are granted.
#[derive(Drop)]
struct Rationed<'a> {
    lines: &'a [Line],
    left: u64,
}

impl SaveSource for Rationed<'_> {
    ghost memory = { λ rationed. rationed.lines.now };

    ghost asks = { λ old step result new. ⊤ };

    fn ask(&mut self, _step: Step) -> Result<(), Refused> {
        self.left = self.left.checked_sub(1).ok_or(Refused)?;
        Ok(())
    }

    fn page<'p>(&'p self, page: usize, room: &'p mut [u8; 4096]) -> &'p [u8; 4096] {
        *room = *page_bytes(self.lines, page);
        room
    }
}

// All steps of a save of a memory of this byte, of which so many are granted: the answer, and how many were.
fn finish(
    run: &mut SaveRun,
    device: &mut Fuse<MemoryDevice>,
    granted: u64,
) -> (Result<(), BrokenOff>, u64)
    requires { (plan_of run.old).lines ≡ LINES }
    ensures { (plan_of run.new).lines ≡ LINES }
{
    let lines = memory(0x11);
    let mut source = Rationed {
        lines: &lines,
        left: granted,
    };
    if !run.fits(device) {
        return (Ok(()), 0);
    }
    let ended = run.finish(&mut source, device);
    (ended, granted.saturating_sub(source.left))
}

// A save is broken off in its steps one after another, by a refusal and by a fault, and finished later.
#[test]
fn a_save_that_is_broken_off(rt: HostRuntime) {
    for steps in 0..8 {
        for (granted, passes, why) in [
            (steps, 8, BrokenOff::Refused),
            (8, steps, BrokenOff::Fault),
        ] {
            let mut device = Fuse::new(formatted(&rt), passes);
            let mut run = SaveRun::begin(CLOSED_FIRST, true, 1, false, LINES);
            let ended = finish(&mut run, &mut device, granted);
            same(&rt, ended, (Err(why), granted.min(steps + 1)));
            same(&rt, run.steps_left() as u64, 8 - steps);
            same(&rt, run.newest(), None);
            device.left = 8;
            same(&rt, finish(&mut run, &mut device, 8), (Ok(()), 8 - steps));
            same(&rt, device.left, steps);
            same(&rt, run.newest(), Some(CLOSED_FIRST.next()));
            same(&rt, after_a_stop(rt.alloc(), device, Pick::Old), (2, 0x11));
        }
    }
}
