//! A store as a program of another's would make it: four hosts write records, two wait until theirs are stored, the mains are lost
//! meanwhile, the device is restored, and a second life goes on.
#![tactic(auto)]

mod hosts;
mod records;

use crate::hosts::{Hosts, Kept, NotKept};
use crate::records::{Life, told_in};
use panguhero::{
    BoardEnd, LifeEnd, Loss, MemoryDevice, Meter, Profile, ProfileFault, Restored, TINY, Unchecked,
    formatted, read_profile, restore_device, with_board,
};
use std::alloc::Global;
use std::sync::Wait;
use std::thread::Threads;
use std::time::Clock;

/// How many hosts share the board.
const HOSTS: usize = 4;

/// More energy than any save takes, in units.
const AMPLE: u64 = 1 << 62;

/// What each host came to, and the device behind the life.
type Ended = BoardEnd<MemoryDevice, Meter, Result<Kept, NotKept>>;

// A life on a device.
fn live<R: Threads + Wait + Clock + Sync>(
    rt: &R,
    alloc: Global,
    profile: &Profile,
    device: MemoryDevice,
    life: Life,
) -> anyhow::Result<Ended> {
    let meter = Meter::with(AMPLE, 1);
    let hosts = Hosts::of(life);
    match with_board(rt, alloc, profile, device, meter, HOSTS, &hosts) {
        Ok(ended) => Ok(ended),
        Err(left) => Err(left.why.into()),
    }
}

// What the hosts of a life were told, and how its end was checked.
fn tell(rt: &HostRuntime, life: Life, ended: &Ended) -> anyhow::Result<()> {
    for (seat, host) in ended.hosts.iter().enumerate() {
        match &host.value {
            Ok(kept) => println!(*rt; "{life}, host {seat}: {kept}")?,
            Err(NotKept::Memory) => anyhow::bail!("host {seat}: out of memory"),
            Err(NotKept::Refused(why)) => anyhow::bail!("host {seat}: {why}"),
        }
    }
    match ended.loss {
        Some(Loss::Saved { .. }) => println!(*rt; "{life}: the loss saved all accepted writes")?,
        Some(Loss::Unsaved) => println!(*rt; "{life}: the loss found the board disarmed")?,
        other => println!(*rt; "{life}: {other:?}")?,
    }
    match ended.life.checked {
        Ok(_) => println!(*rt; "{life}: each receipt stands in the record of the life")?,
        Err(Unchecked::Memory) => anyhow::bail!("out of memory"),
        Err(why) => println!(*rt; "{life}: {why:?}")?,
    }
    Ok(())
}

// Compares all records that were told stored with what the device of a life restores to, and gives the device on.
fn compare(
    rt: &HostRuntime,
    life: Life,
    ended: Ended,
    restored: &Restored,
) -> anyhow::Result<MemoryDevice> {
    let BoardEnd {
        hosts,
        life: end,
        ..
    } = ended;
    let LifeEnd { device, .. } = end;
    let told = told_in(hosts.as_slice(), restored.lines.as_slice());
    println!(*rt; "{life}, restored {}: {told}", restored.head.verdict)?;
    Ok(device)
}

// Gives a text that is no profile: bad input, which is named.
fn give_no_profile(rt: &HostRuntime, alloc: Global) -> anyhow::Result<()> {
    match read_profile(alloc, b"channels = 2") {
        Err(ProfileFault::Refused) => println!(*rt; "a text that is no profile: Refused")?,
        Err(why) => return Err(why.into()),
        Ok(_) => anyhow::bail!("a text was read that is no profile"),
    }
    Ok(())
}

fn main(rt: HostRuntime) -> anyhow::Result<()> {
    give_no_profile(&rt, rt.alloc())?;
    let profile = read_profile(rt.alloc(), TINY.as_bytes())?;
    let device = formatted(rt.alloc(), &profile)?;
    let mut first = live(&rt, rt.alloc(), &profile, device, Life::First)?;
    tell(&rt, Life::First, &first)?;
    let restored = restore_device(&rt, rt.alloc(), &profile, &mut first.life.device)?;
    let device = compare(&rt, Life::First, first, &restored)?;
    let mut second = live(&rt, rt.alloc(), &profile, device, Life::Second)?;
    tell(&rt, Life::Second, &second)?;
    let restored = restore_device(&rt, rt.alloc(), &profile, &mut second.life.device)?;
    compare(&rt, Life::Second, second, &restored)?;
    Ok(())
}
