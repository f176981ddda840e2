// The writes of a journal's calls, as a list.
use crate::rounds::EACH;
use journal_lines::{Index, record_size};
use journal_load::Stall;
use line_memory::Write;
use std::alloc::Global;

// The writes of one append; the index goes on.
fn append(index: &mut Index, writes: &mut Vec<Write>, bytes: &[u8]) -> anyhow::Result<()> {
    index.reserve()?;
    if !index.has_room(bytes) {
        return Err(Stall::Room.into());
    }
    for number in 0..=record_size(bytes) {
        writes.push(index.append_write(bytes, number))?;
    }
    index.append(bytes);
    Ok(())
}

// The writes of a thousand appends and of a truncation behind them.
fn writes_of_round(alloc: Global, index: &mut Index, bytes: &[u8]) -> anyhow::Result<Vec<Write>> {
    let mut writes = Vec::new(alloc);
    for _record in 0..EACH {
        append(index, &mut writes, bytes)?;
    }
    let end = index.end();
    if index.gone() < end {
        writes.push(index.truncate_write(end))?;
        index.truncate(end);
    }
    Ok(writes)
}

/// The writes of some rounds, a list for each.
pub(crate) fn writes_of_group(
    alloc: Global,
    index: &mut Index,
    bytes: &[u8],
    rounds: u64,
) -> anyhow::Result<Vec<Vec<Write>>> {
    let mut lists = Vec::new(alloc);
    for _round in 0..rounds {
        lists.push(writes_of_round(alloc, index, bytes)?)?;
    }
    Ok(lists)
}
