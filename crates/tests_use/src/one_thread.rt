// Persistent writes of one thread.
ghost use Rattle.module_core.specs.Stands.{HasDevice};

use crate::check::{AMPLE, fresh, same, tiny};
use arm_state::WriteRefusal;
use board_hosts::RecordedModule;
use channel_port::ChannelPort;
use ddr4_boards::{Ready, open};
use energy_budget::Meter;
use interleave_map::ReadyMap;
use line_memory::Write;
use module_core::Module;
use notice_book::Persisted;
use nv_machine::StepReply;
use nv_profile::Profile;
use persistent_write::{NotPersistent, write_persistent};
use save_device::{Fuse, SaveDevice};
use std::alloc::Global;
use std::process::Abort;
use std::thread::Threads;

/// The calls of a device that a restore of the small profile takes, and some steps of a save.
const CALLS: u64 = 9;

// A write of a line whose bytes are all its number's.
fn write_of(line: u64) -> Write {
    Write {
        line,
        data: [(line % 256) as u8; 64],
    }
}

// A module on a formatted device that passes so many calls, and what is tried of it.
fn with_module<R: Abort + Threads>(
    rt: &R,
    alloc: Global,
    profile: &Profile,
    calls: u64,
    case: Case,
) {
    let map = ReadyMap {
        interleaving: profile.map,
        checked: profile.checked,
    };
    let device = Fuse::new(fresh(rt, alloc, profile), calls);
    match open(rt, alloc, &map, profile, device, Meter::with(AMPLE, 1), 1) {
        Ok(ready) => try_case(rt, ready, case),
        Err(_) => panic!(*rt; "not opened"),
    }
}

/// What is tried.
#[derive(Clone, Copy)]
enum Case {
    Disarmed,
    Armed,
    BesideASave,
    Fault,
    Lost,
}

// What comes before the write.
fn prepare<K: ChannelPort + Drop, D: SaveDevice + Drop, R: Abort>(
    rt: &R,
    running: &mut Module<K>,
    device: &mut D,
    energy: &mut Meter,
    case: Case,
)
    requires { HasDevice K.ChannelPort running.old (D.state device.old) }
    ensures { HasDevice K.ChannelPort running.new (D.state device.new) }
{
    match case {
        Case::Armed => same(rt, running.arm(device, energy).is_ok(), true),
        Case::BesideASave => {
            same(rt, running.write(write_of(9)).is_ok(), true);
            same(rt, running.save_begin().is_ok(), true);
        }
        Case::Lost => {
            let _lost = running.power_loss(device, energy);
        }
        Case::Disarmed | Case::Fault => {}
    }
}

// Tries a case.
fn try_case<K: ChannelPort + Drop, D: SaveDevice + Drop, R: Abort>(
    rt: &R,
    ready: Ready<K, D, Meter>,
    case: Case,
) {
    let Ready { recorded, .. } = ready;
    let RecordedModule {
        mut running,
        mut device,
        mut energy,
        ..
    } = recorded;
    prepare(rt, &mut running, &mut device, &mut energy, case);
    let told = write_persistent(&mut running, &mut device, &mut energy, write_of(4));
    let wanted = match case {
        Case::Disarmed | Case::Armed => Ok(Persisted { number: 0, mark: 1 }),
        Case::BesideASave => Ok(Persisted { number: 1, mark: 2 }),
        Case::Fault => Err(NotPersistent::NotSaved {
            number: 0,
            last: StepReply::Fault,
        }),
        Case::Lost => Err(NotPersistent::Refused {
            why: WriteRefusal::Closed,
        }),
    };
    same(rt, told, wanted);
}

#[test]
fn a_write_is_made_persistent(rt: HostRuntime) {
    let profile = tiny(&rt, rt.alloc());
    with_module(&rt, rt.alloc(), &profile, u64::MAX, Case::Disarmed);
    with_module(&rt, rt.alloc(), &profile, u64::MAX, Case::Armed);
    with_module(&rt, rt.alloc(), &profile, u64::MAX, Case::BesideASave);
}

#[test]
fn a_write_that_is_not_persistent_says_why(rt: HostRuntime) {
    let profile = tiny(&rt, rt.alloc());
    with_module(&rt, rt.alloc(), &profile, CALLS, Case::Fault);
    with_module(&rt, rt.alloc(), &profile, u64::MAX, Case::Lost);
}
