//! Records that are kept in a file: a journal in a module, whose device is the file.
//!
//!     example_journal FILE
//!
//! reads lines and answers each: `add TEXT`, `cut NUMBER`, `save`, `arm`, `lose`, `list`, `stored`. What `stored` tells behind a save
//! is found by the next start, wherever this one is ended; what it tells while armed is found behind `lose`.
#![tactic(auto)]

ghost use Rattle.std.specs.Prelude.{IfOk};
ghost use Rattle.line_memory.specs.Memory.{IsMemory};
ghost use Rattle.save_image.specs.Header.{Fits};
ghost use Rattle.slot_store.specs.Slots.{IsCapacity};

mod keeper;
mod request;

use crate::keeper::Keeper;
use crate::request::request_of;
use ddr4_timing::profiles::{SMALL, TINY};
use file_device::HostFile;
use interleave_map::{Interleaving, ReadyMap};
use journal_load::{begin, capacity_of};
use save_device::SaveDevice;
use sector_device::SectorDevice;
use slot_store::{Restored, device_size, format, restore};
use std::env;

// Whether a device has zeros alone.
fn is_unused<D: SaveDevice>(device: &mut D) -> anyhow::Result<bool> {
    let mut page = [0; 4096];
    let pages = device.len() / 4096;
    for number in 0..pages {
        let at = 4096 * number;
        if device.len() < at + 4096 {
            return Ok(false);
        }
        device.read(at, &mut page)?;
        if page.iter().any(|byte| *byte != 0) {
            return Ok(false);
        }
    }
    Ok(true)
}

// What a device restores to; one with zeros alone is formatted.
fn restore_or_format<D: SaveDevice>(
    rt: &HostRuntime,
    device: &mut D,
    lines: usize,
) -> anyhow::Result<Restored>
    requires { IsCapacity lines }
    ensures memory { IfOk result (λ it. IsMemory lines it.lines.items) }
    ensures numbers { IfOk result (λ it. Fits it.head.newest.generation it.head.count) }
{
    if is_unused(device)? && device.len() == device_size(lines) {
        format(device, lines)?;
        println!(rt; "formatted")?;
        return Ok(restore(rt.alloc(), device, lines)?);
    }
    match restore(rt.alloc(), device, lines) {
        Ok(restored) => {
            println!(rt; "restored {}", restored.head.verdict)?;
            Ok(restored)
        }
        Err(error) => anyhow::bail!("the store is not restored: {error}"),
    }
}

// Lives on a device: answers each line that is read.
fn live<D: SaveDevice + Drop>(
    rt: &HostRuntime,
    map: &ReadyMap,
    mut device: D,
) -> anyhow::Result<()> {
    let lines = capacity_of(&map.checked)?;
    let restored = restore_or_format(rt, &mut device, lines)?;
    let life = begin(rt.alloc(), map, restored, device)?;
    let numbers = life.journal().numbers();
    println!(rt; "records {} to {}", numbers.start, numbers.end)?;
    let mut keeper = Keeper { life };
    for line in rt.lines(rt.alloc()) {
        let line = line?;
        match request_of(line.as_str()) {
            Ok(request) => keeper.answer(rt, request)?,
            Err(none) => println!(rt; "{none}")?,
        }
    }
    Ok(())
}

fn main(rt: HostRuntime) -> anyhow::Result<()> {
    let words: Vec<String> = env::args(&rt)?.collect(rt.alloc())?;
    let [_, path] = words.as_slice() else {
        anyhow::bail!("the name of a file is wanted");
    };
    let checked = TINY.check(&SMALL)?;
    let map = ReadyMap {
        interleaving: Interleaving::Lines,
        checked,
    };
    let size = device_size(capacity_of(&map.checked)?);
    let device = SectorDevice::<HostFile>::open(&rt, path.as_str(), size)?;
    live(&rt, &map, device)
}
