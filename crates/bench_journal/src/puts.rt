// Rounds of a thousand puts into a table.
use crate::processor::held_millis;
use crate::rounds::{Amount, EACH, Spent, fresh, held_since, save_where};
use channel_port::ChannelPort;
use interleave_map::ReadyMap;
use interleave_map::cells::line_count;
use journal_load::JournalLife;
use journal_table::JournalTable;
use line_memory::zero_memory;
use save_device::SaveDevice;
use std::alloc::Global;

/// What a key has.
const VALUE: [u8; 100] = [7; 100];

// A value for each of a thousand keys, and a save where the module isn't armed.
fn put_round<K: ChannelPort + Drop, D: SaveDevice + Drop>(
    alloc: Global,
    life: &mut JournalLife<K, D>,
    table: &mut JournalTable,
    armed: bool,
) -> anyhow::Result<()> {
    for number in 0..EACH {
        life.put(alloc, table, &number.to_le_bytes(), &VALUE)?;
    }
    save_where(life, armed)
}

// Some rounds.
fn put_group<K: ChannelPort + Drop, D: SaveDevice + Drop>(
    alloc: Global,
    life: &mut JournalLife<K, D>,
    table: &mut JournalTable,
    armed: bool,
    rounds: u64,
) -> anyhow::Result<()> {
    for _round in 0..rounds {
        put_round(alloc, life, table, armed)?;
    }
    Ok(())
}

/// The bytes of the record of a put: the word, the length of the key, the key and the value.
pub(crate) const PUT_SIZE: usize = 1 + 8 + 8 + VALUE.len();

/// Rounds of puts, with a compaction between two groups, for which no time is taken.
pub(crate) fn put_rounds(
    rt: &HostRuntime,
    map: &ReadyMap,
    armed: bool,
    amount: Amount,
) -> anyhow::Result<Spent> {
    let alloc = rt.alloc();
    let memory = zero_memory(alloc, line_count(&map.checked) as usize)?;
    let mut table = JournalTable::open(alloc, &memory)?;
    let mut life = fresh(alloc, map)?;
    if armed {
        life.arm()?;
    }
    let mut millis = 0u64;
    for group in 0..amount.groups {
        if group > 0 {
            life.compact(alloc, &mut table)?;
        }
        let start = held_millis(rt);
        put_group(alloc, &mut life, &mut table, armed, amount.rounds)?;
        millis = millis.saturating_add(held_since(rt, start));
    }
    let (writes, _) = life.marks();
    Ok(Spent {
        records: amount.in_all().saturating_mul(EACH),
        writes,
        millis,
    })
}
