// The records of a journal, read from its memory.
ghost use Rattle.std.specs.Prelude.{◌≡◌, ◌⊎◌, ◌-◌, ◌<◌, ◌≤◌, [], ℕ, List, drop, length, slice_get, slice_index_or, IsTrue, ◌↔◌, IfNone, IfOk, IfSome, Some};
ghost use Rattle.line_memory.specs.Memory.{line_of};
ghost use Rattle.journal_log.specs.Lines.{lines_of, size_of, sizes_of};
ghost use Rattle.journal_log.specs.Log.{Holds, Log};

use crate::Index;
use crate::calls::ring_distance;
use crate::scanning::bytes_at;
use line_memory::Line;
use std::alloc::{AllocError, Global};

impl Index {
    ghost use Rattle.journal_lines.specs.Indexed.{HasNumber, IsIndexOf, end_of_index};

    /// The bytes of the record with this number, from the memory that the journal lies in; none exactly where it was truncated or
    /// isn't there yet. Refused only where there is no memory for them.
    pub fn record(
        &self,
        alloc: Global,
        memory: &[Line],
        number: u64,
    ) -> Result<Option<Vec<u8>>, AllocError>
        requires { length memory.now ≡ self.now.lines }
        ensures some { IfOk result (λ found. IfSome found (λ bytes. (log : Log)
            → IsIndexOf self.now log → Holds memory.now log
            → slice_get log.records (number - log.gone) ≡ Some bytes.items)) }
        ensures within { IfOk result (λ found. IfSome found (λ bytes.
            (self.now.gone ≤ number) × (number < end_of_index self.now))) }
        ensures none { IfOk result (λ found. IfNone found
            ((number < self.now.gone) ⊎ (end_of_index self.now ≤ number))) }
    {
        if number < self.gone || self.end() <= number {
            return Ok(None);
        }
        let place = self.places[(number - self.gone) as usize];
        let from = ring_distance(self.first, place, self.lines - 1);
        let bytes = bytes_at(alloc, memory, self.first, self.used, from)?;
        Ok(Some(bytes))
    }

    /// Whether the record with this number is there.
    pub fn has(&self, number: u64) -> bool
        ensures { IsTrue result ↔ HasNumber self.now number }
    {
        self.gone <= number && number < self.end()
    }

    // How many lines are in use behind the first records.
    fn lines_behind(&self, cut: usize) -> u64
        requires { cut ≤ length self.now.places.items }
        ensures most { result ≤ self.now.used }
        ensures is { (log : Log) → IsIndexOf self.now log
            → result ≡ sizes_of (drop cut log.records) }
    {
        if cut == 0 {
            self.used
        } else {
            self.behind(cut).used
        }
    }

    /// How many lines the record with this number takes.
    pub fn lines_of_record(&self, number: u64) -> u64
        requires { HasNumber self.now number }
        ensures most { result < self.now.lines }
        ensures is { (log : Log) (bytes : List ℕ) → IsIndexOf self.now log
            → slice_get log.records (number - log.gone) ≡ Some bytes → result ≡ size_of bytes }
    {
        let cut = (number - self.gone) as usize;
        self.lines_behind(cut)
            .saturating_sub(self.lines_behind(cut + 1))
    }

    /// The line of the memory that holds this one of a record's lines, counted from its first.
    pub fn line_of_record(&self, number: u64, at: u64) -> u64
        requires number { HasNumber self.now number }
        requires at { at < self.now.lines }
        ensures { (log : Log) (memory : List (List ℕ)) (bytes : List ℕ)
            → IsIndexOf self.now log → Holds memory log → length memory ≡ self.now.lines
            → slice_get log.records (number - log.gone) ≡ Some bytes → at < size_of bytes
            → line_of memory result ≡ slice_index_or (lines_of bytes) at [] }
    {
        let begin = self.places[(number - self.gone) as usize];
        1 + (begin + at) % (self.lines - 1).max(1)
    }
}
