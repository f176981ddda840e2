// Reading the lines in use of a memory.
ghost use Rattle.std.specs.Prelude.{All, ◌≡◌, ◌≢◌, ◌↔◌, ◌+◌, ◌-◌, ◌%◌, ◌<◌, ◌≤◌, ◌++◌, [], ◌∷◌, ℕ, List, length, take, drop, slice_index_or, IfOk, IfNone, IfSome, IsTrue};
ghost use Rattle.line_memory.specs.Memory.{line_of};
ghost use Rattle.journal_log.specs.Lines.{lines_of, size_of, spelled};
ghost use Rattle.journal_log.specs.Log.{ring_of, rotated};
ghost use Rattle.journal_lines.specs.Places.{places_of};
ghost use Rattle.journal_lines.specs.Scanning.{first_of, held_by, lines_in_use};

use crate::lines::{is_same, record_line, record_size};
use line_memory::{LINE_BYTES, Line};
use std::alloc::{AllocError, Global};
use std::collections::VecDeque;

/// The bytes of a record that a line holds.
pub fn held(line: &Line) -> &[u8]
    ensures { result.now ≡ held_by line.now }
{
    let end = (line[0] as usize + 2).min(LINE_BYTES);
    &line[2..end]
}

// The line of the ring with this place behind the first one in use.
fn ring_line(memory: &[Line], first: u64, number: u64) -> &Line
    requires first { first < length memory.now }
    requires number { number < length memory.now - 1 }
    ensures { result.now ≡ slice_index_or (rotated first (ring_of memory.now)) number [] }
{
    let ring = memory.len() as u64 - 1;
    let place = (first + number) % ring;
    &memory[1 + place as usize]
}

// The bytes of the record that begins at this line of those in use.
pub(crate) fn bytes_at(
    alloc: Global,
    memory: &[Line],
    first: u64,
    used: u64,
    from: u64,
) -> Result<Vec<u8>, AllocError>
    requires first { first < length memory.now }
    requires used { used < length memory.now }
    ensures { IfOk result (λ bytes.
        bytes.items ≡ first_of (drop from (lines_in_use memory.now first used))) }
{
    let mut bytes = Vec::new(alloc);
    for number in from..used {
        let line = ring_line(memory, first, number);
        bytes.extend_from_slice(held(line))?;
        if line[1] == 1 {
            return Ok(bytes);
        }
    }
    Ok(bytes)
}

// Whether the lines in use have a record's lines from this one on.
fn has_record(memory: &[Line], first: u64, used: u64, from: u64, bytes: &[u8]) -> bool
    requires first { first < length memory.now }
    requires used { used < length memory.now }
    requires from { from ≤ used }
    ensures { IsTrue result ↔ (take (size_of bytes.now)
        (drop from (lines_in_use memory.now first used)) ≡ lines_of bytes.now) }
{
    let size = record_size(bytes);
    if size as u64 > used - from {
        return false;
    }
    for number in 0..size {
        let line = ring_line(memory, first, from + number as u64);
        if !is_same(line, &record_line(bytes, number)) {
            return false;
        }
    }
    true
}

/// Where the records begin of which the lines in use are the lines; None exactly where they are those of no records.
pub(crate) fn places_in(
    alloc: Global,
    memory: &[Line],
    first: u64,
    used: u64,
) -> Result<Option<VecDeque<u64>>, AllocError>
    requires first { first < length memory.now }
    requires used { used < length memory.now }
    ensures some { IfOk result (λ found. IfSome found (λ places. (records : List (List ℕ))
        × (lines_in_use memory.now first used ≡ spelled records)
        × (places.items ≡ places_of (length memory.now) first records))) }
    ensures within { IfOk result (λ found. IfSome found (λ places.
        All (λ place. place < length memory.now) places.items)) }
    ensures few { IfOk result (λ found. IfSome found (λ places. length places.items ≤ used)) }
    ensures none { IfOk result (λ found. IfNone found ((records : List (List ℕ))
        → lines_in_use memory.now first used ≢ spelled records)) }
{
    let ring = memory.len() as u64 - 1;
    let mut places = VecDeque::new(alloc);
    let mut from = 0;
    while from < used {
        let bytes = bytes_at(alloc, memory, first, used, from)?;
        if !has_record(memory, first, used, from, &bytes) {
            return Ok(None);
        }
        places.reserve(1)?;
        places.push_back_reserved((first + from) % ring);
        from += record_size(&bytes) as u64;
    }
    Ok(Some(places))
}
