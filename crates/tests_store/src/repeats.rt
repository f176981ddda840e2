// Steps of a save that are made again after a failure of the device.
use crate::check::same;
use crate::slots::{CLOSED_FIRST, LINES, after_a_stop, formatted, memory};
use save_device::{Fuse, OneFault, Pick, SaveDevice};
use slot_store::{BrokenOff, SaveRun, Step};

// A save over a device that fails, where a step may be made again so often: the answer, and how often the device has failed in it.
fn finish_over_faults<D: SaveDevice>(device: &mut D, repeats: u64) -> (Result<(), BrokenOff>, u64) {
    let lines = memory(0x11);
    let mut source = lines.as_slice();
    let mut run = SaveRun::begin(CLOSED_FIRST, true, 1, false, LINES);
    if !run.fits(device) {
        return (Ok(()), u64::MAX);
    }
    let ended = run.finish_repeating(&mut source, device, repeats);
    (ended, run.failures())
}

#[test]
fn a_failed_call_is_made_again(rt: HostRuntime) {
    for before in 0..8 {
        let mut device = OneFault::new(formatted(&rt), before);
        let broken = (Err(BrokenOff::Fault), 1);
        same(&rt, finish_over_faults(&mut device, 0), broken);
        let mut device = OneFault::new(formatted(&rt), before);
        same(&rt, finish_over_faults(&mut device, 1), (Ok(()), 1));
        let found = after_a_stop(rt.alloc(), Fuse::new(device.device, 0), Pick::Old);
        same(&rt, found, (2, 0x11));
    }
}

// Two calls fail, whichever they are, or one where they are the same. As many repeats are enough, and one fewer isn't.
#[test]
fn two_calls_are_made_again(rt: HostRuntime) {
    for first in 0..9 {
        for second in 0..9 {
            let mut device = OneFault::new(OneFault::new(formatted(&rt), second), first);
            let (ended, failures) = finish_over_faults(&mut device, 2);
            same(&rt, ended, Ok(()));
            assert!(rt; failures <= 2 && (failures > 0 || first == 8));
            let inner = device.device.device;
            let found = after_a_stop(rt.alloc(), Fuse::new(inner, 0), Pick::Old);
            same(&rt, found, (2, 0x11));
            let Some(fewer) = failures.checked_sub(1) else {
                continue;
            };
            let mut device = OneFault::new(OneFault::new(formatted(&rt), second), first);
            let broken = (Err(BrokenOff::Fault), failures);
            same(&rt, finish_over_faults(&mut device, fewer), broken);
        }
    }
}

// Every second call fails, three in all.
#[test]
fn every_second_call_is_made_again(rt: HostRuntime) {
    for repeats in [0, 1, 2, 3, 16] {
        let inner = OneFault::new(OneFault::new(formatted(&rt), 4), 2);
        let mut device = OneFault::new(inner, 1);
        let (ended, failures) = finish_over_faults(&mut device, repeats);
        same(&rt, ended.is_ok(), repeats >= 3);
        same(&rt, failures, 3.min(repeats + 1));
    }
}

// A device that fails for ever is given up once it has failed once more than it may.
#[test]
fn a_device_that_fails_for_ever(rt: HostRuntime) {
    for repeats in [0, 1, 2, 16] {
        let mut device = Fuse::new(formatted(&rt), 0);
        let mut run = SaveRun::begin(CLOSED_FIRST, true, 1, false, LINES);
        let lines = memory(0x11);
        let mut source = lines.as_slice();
        assert!(rt; run.fits(&device));
        let ended = run.finish_repeating(&mut source, &mut device, repeats);
        same(&rt, ended, Err(BrokenOff::Fault));
        same(
            &rt,
            (run.failures(), device.faults()),
            (repeats + 1, repeats + 1),
        );
        same(&rt, run.next(), Step::Close);
    }
}
