//! The libraries as a program calls them on one thread: a device is formatted, a module is restored, opened and runs a list of
//! events, and notices are called of the writes that are persistent then.
#![tactic(auto)]

use ddr4_module::{Sizes, wild_life};
use energy_budget::{Costs, Wild};
use interleave_map::{Interleaving, ReadyMap};
use line_memory::Write;
use notice_book::{Called, Notice, NoticeBook, Persisted};
use nv_machine::{Event, Reply};
use nv_profile::{Profile, TINY, read_profile};
use save_device::{Fuse, MemoryDevice, OneFault};
use slot_store::{device_size, format};
use std::alloc::{AllocError, Global};

/// The lines of the small profile.
const LINES: usize = 128;

/// The module arms, accepts two writes, and loses its mains.
const EVENTS: [Event; 5] = [
    Event::Sense,
    Event::Arm,
    Event::Write(Write {
        line: 0,
        data: [0x11; 64],
    }),
    Event::Write(Write {
        line: 1,
        data: [0x22; 64],
    }),
    Event::Lose,
];

// A device in memory with zero lines.
fn formatted(alloc: Global) -> anyhow::Result<MemoryDevice> {
    let bytes = Vec::from_elem(alloc, 0, device_size(LINES))?;
    let mut device = MemoryDevice::new(alloc, bytes)?;
    // the head of the new image says nothing that isn't known
    let _head = format(&mut device, LINES)?;
    Ok(device)
}

// A whole life, on a device that fails nowhere and a gauge that always suffices.
fn live(alloc: Global, profile: &Profile) -> anyhow::Result<Vec<Reply>> {
    let map = ReadyMap {
        interleaving: Interleaving::Lines,
        checked: profile.checked,
    };
    let mut device = OneFault::new(Fuse::new(formatted(alloc)?, u64::MAX), u64::MAX);
    let mut gauge = Wild::new(Vec::from_elem(alloc, u64::MAX, 4_096)?);
    let sizes = Sizes {
        depth: profile.sizes.depth,
        reads: profile.sizes.reads,
        trail: profile.sizes.trail,
        keeps_commands: false,
    };
    Ok(wild_life(
        alloc,
        &map,
        &profile.checked,
        Costs::of(&profile.checked, &profile.costs),
        sizes,
        &EVENTS,
        &mut device,
        &mut gauge,
    )?)
}

// Notices of three writes, and the answers of those that are below the mark.
fn deliver(alloc: Global, mark: u64) -> anyhow::Result<Vec<Called>> {
    let mut book = NoticeBook::with_room(alloc, 3)?;
    for number in 0..3 {
        let Ok(notice) = Box::new(alloc, |told: Persisted| told.mark) else {
            return Err(AllocError.into());
        };
        let notice: Notice = notice;
        if book.insert(number, notice).is_err() {
            anyhow::bail!("no room");
        }
    }
    Ok(book.deliver(alloc, mark)?)
}

fn main(rt: HostRuntime) -> anyhow::Result<()> {
    let alloc = rt.alloc();
    let profile = read_profile(alloc, TINY.as_bytes())?;
    let mut mark = 0;
    for reply in &live(alloc, &profile)? {
        println!(rt; "{reply:?}")?;
        if let Reply::Write(Ok(accepted)) = reply {
            mark = accepted.mark;
        }
    }
    for Called { number, answer } in deliver(alloc, mark)? {
        println!(rt; "notice of write {number}: the mark is {answer}")?;
    }
    Ok(())
}
