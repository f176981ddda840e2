// The writes of a journal's calls, and its index behind them.
ghost use Rattle.std.specs.Prelude.{◌≡◌, ◌↔◌, ◌+◌, ◌-◌, ◌%◌, ◌<◌, ◌≤◌, ◌^◌, [], ◌∷◌, length, drop, slice_get, take, ℕ, IfOk, IsTrue, Some};
ghost use Rattle.journal_log.specs.Lines.{size_of, sizes_of};
ghost use Rattle.journal_log.specs.Log.{Log, used_by};
ghost use Rattle.journal_log.specs.Calls.{Append, Truncate, call_writes, log_after};
ghost use Rattle.journal_lines.specs.Places.{IsBehind};

use crate::Index;
use crate::lines::{head_bytes, record_line, record_size};
use line_memory::Write;
use std::alloc::AllocError;
use std::collections::VecDeque;

// The first line in use behind some records, and how many lines are in use from there on.
#[derive(Clone, Copy)]
pub(crate) struct Behind {
    pub(crate) first: u64,
    pub(crate) used: u64,
}

// How many places on in a ring of so many another one is, less than once round.
pub(crate) fn ring_distance(from: u64, to: u64, ring: u64) -> u64
    requires from { from ≤ ring }
    requires to { to ≤ ring }
    requires small { ring ≤ 2 ^ 63 }
    ensures { (c : ℕ) → c < ring → to ≡ (from + c) % ring → result ≡ c }
{
    if to >= from {
        to - from
    } else {
        to + ring - from
    }
}

// The first places go.
fn drop_front(places: &mut VecDeque<u64>, count: usize)
    requires { count ≤ length places.old.items }
    ensures { places.new.items ≡ drop count places.old.items }
{
    for _place in 0..count {
        let Some(_place) = places.pop_front() else {
            unreachable!()
        };
    }
}

impl Index {
    ghost use Rattle.journal_lines.specs.Indexed.{HasRoom, HasSlot, IsIndexOf, IsSameIndex, IsWithin};

    /// Whether there is room for a record: lines for its bytes, and a number.
    pub fn has_room(&self, bytes: &[u8]) -> bool
        ensures { IsTrue result ↔ HasRoom self.now bytes.now }
    {
        let used = self.used + record_size(bytes) as u64;
        let count = self.places.len() as u64 + 1;
        used < self.lines
            && self.gone.checked_add(used).is_some()
            && self.gone.checked_add(count).is_some()
    }

    /// Takes memory for the place of one record more. It refuses only where there is none.
    pub fn reserve(&mut self) -> Result<(), AllocError>
        ensures ok { IfOk result (λ done. HasSlot self.new) }
        ensures same { IsSameIndex self.old self.new }
    {
        self.places.reserve(1)
    }

    /// The write with this number among those of an append: a line of the record, or behind its lines the head.
    pub fn append_write(&self, bytes: &[u8], number: usize) -> Write
        requires room { HasRoom self.now bytes.now }
        requires number { number ≤ size_of bytes.now }
        ensures { (log : Log) → IsIndexOf self.now log
            → slice_get (call_writes self.now.lines log (Append bytes.now)) number ≡ Some result }
    {
        let size = record_size(bytes);
        if number < size {
            let place = (self.first + self.used + number as u64) % (self.lines - 1);
            Write {
                line: 1 + place,
                data: record_line(bytes, number),
            }
        } else {
            Write {
                line: 0,
                data: head_bytes(self.gone, self.first, self.used + size as u64),
            }
        }
    }

    /// The index behind an append.
    pub fn append(&mut self, bytes: &[u8])
        requires room { HasRoom self.old bytes.now }
        requires slot { HasSlot self.old }
        ensures is { (log : Log) → IsIndexOf self.old log
            → IsIndexOf self.new (log_after self.old.lines log (Append bytes.now)) }
        ensures lines { self.new.lines ≡ self.old.lines }
    {
        let place = (self.first + self.used) % (self.lines - 1);
        self.places.push_back_reserved(place);
        self.used += record_size(bytes) as u64;
    }

    // What is in use behind the first records.
    pub(crate) fn behind(&self, cut: usize) -> Behind
        requires { cut ≤ length self.now.places.items }
        ensures place { result.first < self.now.lines }
        ensures most { result.used ≤ self.now.used }
        ensures is { (log : Log) → IsIndexOf self.now log → 0 < cut
            → IsBehind self.now.lines log cut result.first result.used }
    {
        if cut < self.places.len() {
            let first = self.places[cut];
            let lines = ring_distance(self.first, first, self.lines - 1);
            Behind {
                first,
                used: self.used.saturating_sub(lines),
            }
        } else {
            let ring = (self.lines - 1).max(1);
            Behind {
                first: (self.first + self.used) % ring,
                used: 0,
            }
        }
    }

    /// The write of a truncation.
    pub fn truncate_write(&self, upto: u64) -> Write
        requires { IsWithin self.now upto }
        ensures { (log : Log) → IsIndexOf self.now log
            → call_writes self.now.lines log (Truncate upto) ≡ result ∷ [] }
    {
        let behind = self.behind((upto - self.gone) as usize);
        Write {
            line: 0,
            data: head_bytes(upto, behind.first, behind.used),
        }
    }

    /// The index behind a truncation.
    pub fn truncate(&mut self, upto: u64)
        requires { IsWithin self.old upto }
        ensures is { (log : Log) → IsIndexOf self.old log
            → IsIndexOf self.new (log_after self.old.lines log (Truncate upto)) }
        ensures lines { self.new.lines ≡ self.old.lines }
    {
        let cut = (upto - self.gone) as usize;
        let Behind { first, used } = self.behind(cut);
        drop_front(&mut self.places, cut);
        self.gone = upto;
        self.first = first;
        self.used = used;
    }
}
