// A loss of mains whose energy ends at each of its first actions. The costs are those of the small profile: a close step takes
// 439 units and an entry 513, so that channel 0 with its one write takes 952, and both channels take 1,391.
ghost use Rattle.std.specs.Prelude.{◌≡◌};

use crate::cases::{load_of, tiny};
use crate::check::same;
use crate::load::{Image, Load, restores_to};
use arm_state::Loss;
use chan_core::Channel;
use ddr4_boards::{formatted, open};
use ddr4_port::Ddr4Port;
use ddr4_timing::command::Command;
use ddr4_timing::place::BankAddress;
use energy_budget::Meter;
use interleave_map::{Interleaving, ReadyMap};
use module_core::Module;
use nv_profile::Profile;
use save_device::{MemoryDevice, SaveDevice};
use slot_store::Verdict;
use std::alloc::Global;
use std::process::Abort;
use std::thread::Threads;

/// What is enough to arm, and to accept a write.
const ENOUGH: u64 = 9_000;

const SECOND_SLOT: usize = 12_288;

/// What a loss of mains has left of a channel.
#[derive(Clone, Copy, Debug, PartialEq, Eq)]
pub struct Left {
    /// How many commands it has issued, and the last one.
    commands: u64,
    last: Option<Command>,
    /// How many writes wait in it, and the number of the oldest of them.
    pending: u64,
    oldest: Option<u64>,
}

fn left_in(channel: &Channel) -> Left {
    let mut commands = 0;
    let mut last = None;
    for i in 0..64 {
        if let Some(stamped) = channel.recent(i) {
            commands = i as u64 + 1;
            last = Some(stamped.cmd);
        }
    }
    Left {
        commands,
        last,
        pending: channel.pending() as u64,
        oldest: channel.oldest().map(|(number, _place)| number),
    }
}

fn left_on<R: Abort>(rt: &R, running: &Module<Ddr4Port<'_, ReadyMap>>, number: u64) -> Left {
    match running.channels().port(number) {
        Some(port) => left_in(port.channel()),
        None => panic!(*rt; "a channel"),
    }
}

/// The two channels are left so.
pub(crate) fn are_left<R: Abort>(
    rt: &R,
    running: &Module<Ddr4Port<'_, ReadyMap>>,
    first: Left,
    second: Left,
) {
    same(rt, left_on(rt, running, 0), first);
    same(rt, left_on(rt, running, 1), second);
}

/// The map that lays lines side by side.
pub(crate) fn map_of(profile: &Profile) -> ReadyMap
    ensures { result.checked ≡ profile.now.checked }
{
    ReadyMap {
        interleaving: Interleaving::Lines,
        checked: profile.checked,
    }
}

/// An armed module whose gauge shows so many units. One write waits in channel 0, whose row is open, and behind it those of
/// further lines.
pub(crate) fn armed_with<'m, R: Abort + Threads>(
    rt: &R,
    alloc: Global,
    profile: &Profile,
    map: &'m ReadyMap,
    further: &[u64],
    units: u64,
) -> Load<Ddr4Port<'m, ReadyMap>, MemoryDevice>
    requires geometry { map.now.checked.geometry ≡ profile.now.checked.geometry }
{
    let Ok(device) = formatted(alloc, profile) else {
        panic!(*rt; "a device");
    };
    let Ok(ready) = open(rt, alloc, map, profile, device, Meter::with(ENOUGH, 0), 1) else {
        panic!(*rt; "a module");
    };
    let mut load = load_of(rt, ready);
    load.arm_with_a_write(rt);
    for line in further.iter() {
        load.write(rt, *line);
    }
    load.gauge.set(units);
    load
}

/// The device restores to the image of before, and a loss may have happened since.
pub(crate) fn restores_to_the_old<R: Abort>(rt: &R, alloc: Global, device: &mut MemoryDevice) {
    let image = Image {
        generation: 1,
        count: 0,
        verdict: Verdict::PossibleLoss { after: 0 },
        first: 0,
        last: 0,
    };
    restores_to(rt, alloc, device, image);
}

// An armed module loses mains with so many units, and goes dark. One write waits in channel 0, whose row is open, and behind it
// those of further lines. The two channels are left so. The device, which restores to the image of before.
fn device_in_the_dark<R: Abort + Threads>(
    rt: &R,
    alloc: Global,
    further: &[u64],
    units: u64,
    first: Left,
    second: Left,
) -> MemoryDevice {
    let profile = tiny(rt, alloc);
    let map = map_of(&profile);
    let mut load = armed_with(rt, alloc, &profile, &map, further, units);
    same(rt, load.lose(), Loss::Dark);
    are_left(rt, &load.running, first, second);
    restores_to_the_old(rt, alloc, &mut load.device);
    let Load { device, .. } = load;
    device
}

// The same, where what the device holds isn't asked for.
fn goes_dark<R: Abort + Threads>(
    rt: &R,
    alloc: Global,
    further: &[u64],
    units: u64,
    first: Left,
    second: Left,
) {
    let _device = device_in_the_dark(rt, alloc, further, units, first, second);
}

pub(crate) const OPEN: Left = Left {
    commands: 1,
    last: Some(Command::Act {
        at: BankAddress {
            rank: 0,
            group: 0,
            bank: 0,
        },
        row: 0,
    }),
    pending: 1,
    oldest: Some(0),
};

const CLOSED: Left = Left {
    commands: 2,
    last: Some(Command::PreAll { rank: 0 }),
    pending: 1,
    oldest: Some(0),
};

// Behind the precharge the first entry's ACT, WR and PRE.
const ENTERED: Left = Left {
    commands: 5,
    last: Some(Command::Pre {
        at: BankAddress {
            rank: 0,
            group: 0,
            bank: 0,
        },
    }),
    pending: 1,
    oldest: Some(1),
};

// Behind the precharge the entry's ACT, WR and PRE, and the SRE.
pub(crate) const DRAINED: Left = Left {
    commands: 6,
    last: Some(Command::Sre { rank: 0 }),
    pending: 0,
    oldest: None,
};

pub(crate) const UNTOUCHED: Left = Left {
    commands: 0,
    last: None,
    pending: 0,
    oldest: None,
};

pub(crate) const ASLEEP: Left = Left {
    commands: 1,
    last: Some(Command::Sre { rank: 0 }),
    pending: 0,
    oldest: None,
};

#[test]
fn dark_before_the_first_action(rt: HostRuntime) {
    goes_dark(&rt, rt.alloc(), &[], 438, OPEN, UNTOUCHED);
}

#[test]
fn dark_behind_the_close_step(rt: HostRuntime) {
    goes_dark(&rt, rt.alloc(), &[], 439, CLOSED, UNTOUCHED);
    goes_dark(&rt, rt.alloc(), &[], 951, CLOSED, UNTOUCHED);
}

// The older of two writes is in the array, and the newer waits.
#[test]
fn dark_between_two_entries(rt: HostRuntime) {
    goes_dark(&rt, rt.alloc(), &[2], 952, ENTERED, UNTOUCHED);
    goes_dark(&rt, rt.alloc(), &[2], 1_464, ENTERED, UNTOUCHED);
}

#[test]
fn dark_behind_the_first_channel(rt: HostRuntime) {
    goes_dark(&rt, rt.alloc(), &[], 952, DRAINED, UNTOUCHED);
    goes_dark(&rt, rt.alloc(), &[], 1_390, DRAINED, UNTOUCHED);
}

#[test]
fn dark_behind_both_channels(rt: HostRuntime) {
    goes_dark(&rt, rt.alloc(), &[], 1_391, DRAINED, ASLEEP);
}

// Fails where the device has another byte at a place.
fn has_byte<R: Abort>(rt: &R, device: &mut MemoryDevice, at: usize, byte: u8) {
    let mut found = [0];
    assert!(*rt; at < device.len());
    device.read(at, &mut found).expect(rt, "a byte");
    same(rt, (at, found), (at, [byte]));
}

// Behind both channels the save closes its gate, for 50 units, and syncs, for 100. Then it writes two pages, 1,000 each, and the
// header, 50. What isn't paid for isn't written.
#[test]
fn dark_in_the_save(rt: HostRuntime) {
    for (units, line, text) in [
        (1_541, 0, 0),
        (2_540, 0, 0),
        (2_541, 0x44, 0),
        (3_590, 0x44, 0),
        (3_591, 0x44, 0x4e),
    ] {
        let mut device = device_in_the_dark(&rt, rt.alloc(), &[], units, DRAINED, ASLEEP);
        has_byte(&rt, &mut device, SECOND_SLOT + 4_096, line);
        has_byte(&rt, &mut device, SECOND_SLOT + 8, text);
    }
}
