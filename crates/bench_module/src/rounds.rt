// Rounds of a restore, writes, reads and a save, each of them timed.
use crate::measured::Measured;
use crate::opening::{capacity_of, open};
use crate::picks::{Pick, Picks};
use crate::plain::Plain;
use ddr4_timing::timing::Checked;
use interleave_map::ReadyMap;
use interleave_map::cells::line_count;
use save_device::MemoryDevice;
use slot_store::{device_size, format};
use std::alloc::Global;
use std::time::Instant;

/// How much is measured.
#[derive(Clone, Copy)]
pub struct Amount {
    pub rounds: u64,
    /// The writes of a round, and its reads.
    pub each: u64,
}

/// Nanoseconds of all rounds.
#[derive(Clone, Copy)]
pub struct Nanos {
    pub writes: u128,
    pub reads: u128,
    pub saves: u128,
    pub restores: u128,
}

/// What the rounds of a memory answered, and how long they took.
#[derive(Clone, Copy)]
pub struct RoundResults {
    picks: Picks,
    /// What was read, as one number.
    pub sum: u64,
    /// The generation of the last save.
    pub generation: u64,
    pub nanos: Nanos,
}

impl RoundResults {
    fn new(checked: &Checked) -> RoundResults {
        RoundResults {
            picks: Picks::new(line_count(checked)),
            sum: 0,
            generation: 0,
            nanos: Nanos {
                writes: 0,
                reads: 0,
                saves: 0,
                restores: 0,
            },
        }
    }

    fn write<T: Measured>(&mut self, memory: &mut T, each: u64) -> anyhow::Result<()> {
        for _ in 0..each {
            let Pick { line, byte } = self.picks.next();
            memory.write(line, [byte; 64])?;
        }
        Ok(())
    }

    fn read<T: Measured>(&mut self, memory: &mut T, each: u64) -> anyhow::Result<()> {
        for _ in 0..each {
            let bytes = memory.read(self.picks.next().line)?;
            self.sum = self.sum.wrapping_mul(31).wrapping_add(bytes[0] as u64);
        }
        Ok(())
    }

    // Writes, reads and saves.
    fn round<T: Measured>(
        &mut self,
        rt: &HostRuntime,
        memory: &mut T,
        each: u64,
    ) -> anyhow::Result<()> {
        let start = Instant::now(rt)?;
        self.write(memory, each)?;
        let writes = start.elapsed(rt)?.as_nanos();
        let start = Instant::now(rt)?;
        self.read(memory, each)?;
        let reads = start.elapsed(rt)?.as_nanos();
        let start = Instant::now(rt)?;
        self.generation = memory.save()?;
        let saves = start.elapsed(rt)?.as_nanos();
        self.nanos.add(writes, reads, saves);
        Ok(())
    }
}

impl Nanos {
    fn add(&mut self, writes: u128, reads: u128, saves: u128) {
        self.writes = self.writes.saturating_add(writes);
        self.reads = self.reads.saturating_add(reads);
        self.saves = self.saves.saturating_add(saves);
    }

    fn add_restore(&mut self, restores: u128) {
        self.restores = self.restores.saturating_add(restores);
    }
}

/// A device in memory, whose newest image has zero lines.
pub(crate) fn formatted(alloc: Global, checked: &Checked) -> anyhow::Result<MemoryDevice> {
    let lines = capacity_of(checked)?;
    let bytes = Vec::from_elem(alloc, 0, device_size(lines))?;
    let mut device = MemoryDevice::new(alloc, bytes)?;
    format(&mut device, lines)?;
    Ok(device)
}

// A module's round; the device after it.
fn module_round(
    rt: &HostRuntime,
    map: &ReadyMap,
    device: MemoryDevice,
    each: u64,
    tally: &mut RoundResults,
) -> anyhow::Result<MemoryDevice> {
    let start = Instant::now(rt)?;
    let mut load = open(rt.alloc(), map, device)?;
    tally.nanos.add_restore(start.elapsed(rt)?.as_nanos());
    tally.round(rt, &mut load, each)?;
    Ok(load.into_device())
}

/// The rounds of a module.
pub(crate) fn module_rounds(
    rt: &HostRuntime,
    map: &ReadyMap,
    amount: Amount,
) -> anyhow::Result<RoundResults> {
    let mut tally = RoundResults::new(&map.checked);
    let mut device = formatted(rt.alloc(), &map.checked)?;
    for _ in 0..amount.rounds {
        device = module_round(rt, map, device, amount.each, &mut tally)?;
    }
    Ok(tally)
}

// A plain array's round; the device after it.
fn plain_round(
    rt: &HostRuntime,
    checked: &Checked,
    device: MemoryDevice,
    each: u64,
    tally: &mut RoundResults,
) -> anyhow::Result<MemoryDevice> {
    let lines = capacity_of(checked)?;
    let start = Instant::now(rt)?;
    let mut plain = Plain::open(rt.alloc(), device, lines)?;
    tally.nanos.add_restore(start.elapsed(rt)?.as_nanos());
    tally.round(rt, &mut plain, each)?;
    Ok(plain.into_device())
}

/// The rounds of a plain array.
pub(crate) fn plain_rounds(
    rt: &HostRuntime,
    checked: &Checked,
    amount: Amount,
) -> anyhow::Result<RoundResults> {
    let mut tally = RoundResults::new(checked);
    let mut device = formatted(rt.alloc(), checked)?;
    for _ in 0..amount.rounds {
        device = plain_round(rt, checked, device, amount.each, &mut tally)?;
    }
    Ok(tally)
}
