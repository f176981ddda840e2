// Rounds of a thousand appends, a save and a truncation.
use crate::hand::writes_of_group;
use crate::processor::held_millis;
use channel_port::ChannelPort;
use ddr4_port::Ddr4Port;
use interleave_map::ReadyMap;
use interleave_map::cells::line_count;
use journal_lines::Index;
use journal_load::{JournalLife, begin, capacity_of, formatted};
use line_memory::{Write, zero_memory};
use save_device::{MemoryDevice, SaveDevice};
use slot_store::restore;
use std::alloc::Global;

/// The records of a round.
pub const EACH: u64 = 1_000;

/// How much is measured: the time is taken of a group of rounds at once.
#[derive(Clone, Copy)]
pub struct Amount {
    pub groups: u64,
    /// In a group.
    pub rounds: u64,
    pub timed: bool,
}

impl Amount {
    /// How many rounds there are in all.
    pub(crate) fn in_all(self) -> u64 {
        self.groups.saturating_mul(self.rounds)
    }
}

/// What was done, and how long it held a processor.
#[derive(Clone, Copy)]
pub struct Spent {
    pub records: u64,
    pub writes: u64,
    pub millis: u64,
}

/// How long something held a processor that began then.
pub(crate) fn held_since(rt: &HostRuntime, start: Option<u64>) -> u64 {
    held_millis(rt)
        .unwrap_or(0)
        .saturating_sub(start.unwrap_or(0))
}

/// A save, where the module isn't armed.
pub(crate) fn save_where<K: ChannelPort + Drop, D: SaveDevice + Drop>(
    life: &mut JournalLife<K, D>,
    armed: bool,
) -> anyhow::Result<()> {
    if !armed {
        life.save()?;
    }
    Ok(())
}

// A thousand records, and all of them truncated.
fn journal_round<K: ChannelPort + Drop, D: SaveDevice + Drop>(
    life: &mut JournalLife<K, D>,
    armed: bool,
    bytes: &[u8],
) -> anyhow::Result<()> {
    for _record in 0..EACH {
        life.append(bytes)?;
    }
    save_where(life, armed)?;
    let end = life.journal().end();
    life.truncate(end)?;
    Ok(())
}

// The writes of a round: the last of them, a truncation, behind a save.
fn hand_round<K: ChannelPort + Drop, D: SaveDevice + Drop>(
    life: &mut JournalLife<K, D>,
    armed: bool,
    writes: &[Write],
) -> anyhow::Result<()> {
    let last = writes.len().saturating_sub(1);
    for write in &writes[..last] {
        life.write(*write)?;
    }
    save_where(life, armed)?;
    for write in &writes[last..] {
        life.write(*write)?;
    }
    Ok(())
}

// The writes of some rounds.
fn hand_group<K: ChannelPort + Drop, D: SaveDevice + Drop>(
    life: &mut JournalLife<K, D>,
    armed: bool,
    rounds: &[Vec<Write>],
) -> anyhow::Result<()> {
    for writes in rounds {
        hand_round(life, armed, writes)?;
    }
    Ok(())
}

/// A life of zero lines on a device in memory.
pub(crate) fn fresh<'m>(
    alloc: Global,
    map: &'m ReadyMap,
) -> anyhow::Result<JournalLife<Ddr4Port<'m, ReadyMap>, MemoryDevice>> {
    let lines = capacity_of(&map.checked)?;
    let mut device = formatted(alloc, &map.checked)?;
    let restored = restore(alloc, &mut device, lines)?;
    begin(alloc, map, restored, device)
}

/// Rounds of a journal.
pub(crate) fn journal_rounds(
    rt: &HostRuntime,
    map: &ReadyMap,
    armed: bool,
    size: usize,
    amount: Amount,
) -> anyhow::Result<Spent> {
    let alloc = rt.alloc();
    let bytes = Vec::from_elem(alloc, 7, size)?;
    let mut life = fresh(alloc, map)?;
    if armed {
        life.arm()?;
    }
    let start = held_millis(rt);
    for _round in 0..amount.in_all() {
        journal_round(&mut life, armed, &bytes)?;
    }
    let millis = held_since(rt, start);
    let (writes, _) = life.marks();
    Ok(Spent {
        records: life.journal().end(),
        writes,
        millis,
    })
}

/// Rounds of the same writes by hand; the lists of a group are made before its time is taken.
pub(crate) fn hand_rounds(
    rt: &HostRuntime,
    map: &ReadyMap,
    armed: bool,
    size: usize,
    amount: Amount,
) -> anyhow::Result<Spent> {
    let alloc = rt.alloc();
    let bytes = Vec::from_elem(alloc, 7, size)?;
    let memory = zero_memory(alloc, line_count(&map.checked) as usize)?;
    let mut index = Index::open(alloc, &memory)?;
    let mut life = fresh(alloc, map)?;
    if armed {
        life.arm()?;
    }
    let mut millis = 0u64;
    for _group in 0..amount.groups {
        let rounds = writes_of_group(alloc, &mut index, &bytes, amount.rounds)?;
        let start = held_millis(rt);
        hand_group(&mut life, armed, &rounds)?;
        millis = millis.saturating_add(held_since(rt, start));
    }
    let (writes, _) = life.marks();
    Ok(Spent {
        records: index.end(),
        writes,
        millis,
    })
}
