// A journal, and its calls.
ghost use Rattle.std.specs.Prelude.{◌≡◌, ◌⊎◌, ◌++◌, ◌∷◌, [], ◌-◌, ◌<◌, ◌≤◌, ◌↔◌, Err, IfErr, IfOk, IfSome, IfNone, IsTrue, Ok, List, ℕ, length, nat_lt, slice_get, take, Some};
ghost use Rattle.journal_log.specs.Lines.{lines_of};
ghost use Rattle.journal_log.specs.Log.{Holds, Log};
ghost use Rattle.journal_log.specs.Calls.{Append, Truncate, call_writes};
ghost use Rattle.journal_lines.specs.Indexed.{HasRoom, IsIndexOf, IsWithin, end_of_index};
ghost use Rattle.module_core.specs.Stands.{setup_of};
ghost use Rattle.module_journal.specs.Heads.{stored_upto, untold};
ghost use Rattle.module_journal.specs.Writing.{HasWritten, IsIndexBehind, IsMade, IsRefused};

use crate::writing::put;
use arm_state::WriteRefusal;
use channel_port::ChannelPort;
use journal_lines::{Index, OpenRefusal, record_size};
use line_memory::Line;
use module_core::Module;
use nv_machine::{Accepted, Reply};
use std::alloc::{AllocError, Global};
use std::collections::VecDeque;
use std::ops::Range;
use thiserror::Error;

/// Why a record wasn't appended. Nothing of it is in the journal, and a later append takes its lines.
#[derive(Clone, Copy, Debug, PartialEq, Eq, Error)]
pub enum AppendRefusal {
    /// The journal has too few lines left.
    #[error("no space")]
    NoSpace,
    /// There is no memory for the record's place.
    #[error("out of memory")]
    Memory,
    /// The module refused a write. `Full` is told where its channel had no room at each of the tries.
    #[error("{0}")]
    Refused(WriteRefusal),
}

/// Why no record was cut.
#[derive(Clone, Copy, Debug, PartialEq, Eq, Error)]
pub enum TruncateRefusal {
    /// The number is below the first record's, or past the end.
    #[error("no such record")]
    NoSuchRecord,
    /// The module refused the head's write.
    #[error("{0}")]
    Refused(WriteRefusal),
}

/// A record that was appended: its number, and what the module answered to the head's write. It is told stored once that write's
/// number is below a mark, and at once where it is below the answer's own.
#[derive(Clone, Copy, Debug, PartialEq, Eq)]
pub struct Appended {
    pub record: u64,
    pub head: Accepted,
}

/// A journal in a module. There is one for each that was opened, since it can't be copied.
#[derive(Debug, Drop)]
pub struct Journal {
    pub(crate) index: Index,
    // the numbers of the writes of the heads of the last records, those that no mark has told stored yet
    pub(crate) heads: VecDeque<u64>,
}

impl Appended {
    /// Whether a mark tells that the record is stored: the number of its head's write is below it.
    pub fn is_stored(&self, mark: u64) -> bool
        ensures { result ≡ nat_lt self.now.head.number mark }
    {
        self.head.number < mark
    }
}

// The heads go that a mark tells, up to the first one that it doesn't.
fn drop_told(heads: &mut VecDeque<u64>, mark: u64)
    ensures { heads.new.items ≡ untold mark heads.old.items }
{
    for _turn in 0..heads.len() {
        let head = heads[0];
        if head >= mark {
            return;
        }
        let _told = heads.pop_front();
    }
}

impl Journal {
    ghost use Rattle.module_journal.specs.Refusals.{IsAppendRefused, IsTruncateRefused};

    /// The journal that a memory holds, which a module is opened with; refused `NotJournal` exactly where it holds none.
    pub fn open(alloc: Global, memory: &[Line]) -> Result<Journal, OpenRefusal>
        ensures ok { IfOk result (λ journal.
            (log : Log) × Holds memory.now log × IsIndexOf journal.index log) }
        ensures lines { IfOk result (λ journal. journal.index.lines ≡ length memory.now) }
        ensures heads { IfOk result (λ journal. journal.heads.items ≡ []) }
        ensures none { IfErr result (λ refusal. refusal ≡ OpenRefusal.NotJournal
            → (log : Log) → Holds memory.now log → ⊥) }
    {
        match Index::open(alloc, memory) {
            Ok(index) => Ok(Journal {
                index,
                heads: VecDeque::new(alloc),
            }),
            Err(refusal) => Err(refusal),
        }
    }

    /// Where its records lie.
    pub fn index(&self) -> &Index
        ensures { result.now ≡ self.now.index }
    {
        &self.index
    }

    /// The number of the first record that is there: how many were cut.
    pub fn first(&self) -> u64
        ensures { result ≡ self.now.index.gone }
    {
        self.index.gone()
    }

    /// The number behind the last record.
    pub fn end(&self) -> u64
        ensures { result ≡ end_of_index self.now.index }
    {
        self.index.end()
    }

    /// How many records are there.
    pub fn len(&self) -> u64
        ensures { result ≡ length self.now.index.places.items }
    {
        let Range { start, end } = self.numbers();
        end - start
    }

    /// Whether no record is there.
    pub fn is_empty(&self) -> bool
        ensures { IsTrue result ↔ (length self.now.index.places.items ≡ 0) }
    {
        self.len() == 0
    }

    /// The numbers of the records that are there, in their order: what to go over with `record`.
    pub fn numbers(&self) -> Range<u64>
        ensures start { result.start ≡ self.now.index.gone }
        ensures end { result.end ≡ end_of_index self.now.index }
    {
        self.first()..self.end()
    }

    /// The number up to which a mark, or one that was asked of before, tells all records stored: those that the journal was opened
    /// with, and of those that were appended since each whose head's write, and those before it, has a number below the mark.
    pub fn stored(&mut self, mark: u64) -> u64
        ensures upto { result ≡ stored_upto mark self.old.index self.old.heads.items }
        ensures heads { self.new.heads.items ≡ untold mark self.old.heads.items }
        ensures index { self.new.index ≡ self.old.index }
    {
        drop_told(&mut self.heads, mark);
        self.end().saturating_sub(self.heads.len() as u64)
    }

    /// The bytes of the record with this number, from the memory that the journal lies in, as a restore found it; none exactly where
    /// it was truncated or isn't there yet. Refused only where there is no memory for them.
    pub fn record(
        &self,
        alloc: Global,
        memory: &[Line],
        number: u64,
    ) -> Result<Option<Vec<u8>>, AllocError>
        requires { length memory.now ≡ self.now.index.lines }
        ensures some { IfOk result (λ found. IfSome found (λ bytes. (log : Log)
            → IsIndexOf self.now.index log → Holds memory.now log
            → slice_get log.records (number - log.gone) ≡ Some bytes.items)) }
        ensures within { IfOk result (λ found. IfSome found (λ bytes.
            (self.now.index.gone ≤ number) × (number < end_of_index self.now.index))) }
        ensures none { IfOk result (λ found. IfNone found
            ((number < self.now.index.gone) ⊎ (end_of_index self.now.index ≤ number))) }
    {
        self.index.record(alloc, memory, number)
    }

    // Writes the lines of a record.
    fn write_lines<K: ChannelPort>(
        &self,
        nvdimm: &mut Module<K>,
        bytes: &[u8],
    ) -> Result<(), WriteRefusal>
        requires { HasRoom self.now.index bytes.now }
        ensures done { IfOk result (λ done. (log : Log) → IsIndexOf self.now.index log
            → HasWritten K.ChannelPort (take (length (lines_of bytes.now))
            (call_writes self.now.index.lines log (Append bytes.now))) nvdimm.old nvdimm.new) }
        ensures refused { IfErr result (λ refusal.
            IsRefused K.ChannelPort refusal self.now.index (Append bytes.now) nvdimm.old nvdimm.new) }
        ensures setup { setup_of K.ChannelPort nvdimm.new ≡ setup_of K.ChannelPort nvdimm.old }
    {
        for number in 0..record_size(bytes) {
            let write = self.index.append_write(bytes, number);
            if let Err(refusal) = put(nvdimm, write) {
                return Err(refusal);
            }
        }
        Ok(())
    }

    /// Appends a record: its lines are written, and the head last. A refusal leaves the records as they are.
    pub fn append<K: ChannelPort>(
        &mut self,
        nvdimm: &mut Module<K>,
        bytes: &[u8],
    ) -> Result<Appended, AppendRefusal>
        ensures done { IfOk result (λ appended.
            IsMade K.ChannelPort (Reply.Write (Ok appended.head)) self.old.index
            (Append bytes.now) nvdimm.old nvdimm.new) }
        ensures room { IfOk result (λ appended. HasRoom self.old.index bytes.now) }
        ensures record { IfOk result (λ appended. appended.record ≡ end_of_index self.old.index) }
        ensures is { IfOk result (λ appended.
            IsIndexBehind (Append bytes.now) self.old.index self.new.index) }
        ensures heads { IfOk result (λ appended.
            self.new.heads.items ≡ self.old.heads.items ++ appended.head.number ∷ []) }
        ensures kept { IfErr result (λ refusal. (log : Log) → IsIndexOf self.old.index log
            → IsIndexOf self.new.index log) }
        ensures untold { IfErr result (λ refusal. self.new.heads.items ≡ self.old.heads.items) }
        ensures refused { IfErr result (λ refusal. IsAppendRefused K.ChannelPort refusal
            self.old.index bytes.now nvdimm.old nvdimm.new) }
        ensures lines { self.new.index.lines ≡ self.old.index.lines }
        ensures setup { setup_of K.ChannelPort nvdimm.new ≡ setup_of K.ChannelPort nvdimm.old }
    {
        if self.index.reserve().is_err() || self.heads.reserve(1).is_err() {
            return Err(AppendRefusal::Memory);
        }
        if !self.index.has_room(bytes) {
            return Err(AppendRefusal::NoSpace);
        }
        if let Err(refusal) = self.write_lines(nvdimm, bytes) {
            return Err(AppendRefusal::Refused(refusal));
        }
        let record = self.index.end();
        let write = self.index.append_write(bytes, record_size(bytes));
        match put(nvdimm, write) {
            Ok(head) => {
                self.index.append(bytes);
                self.heads.push_back_reserved(head.number);
                Ok(Appended { record, head })
            }
            Err(refusal) => Err(AppendRefusal::Refused(refusal)),
        }
    }

    /// Cuts the records below a number, by one write of the head. None where there are none. A refusal leaves the records as they are.
    pub fn truncate<K: ChannelPort>(
        &mut self,
        nvdimm: &mut Module<K>,
        upto: u64,
    ) -> Result<Option<Accepted>, TruncateRefusal>
        ensures done { IfOk result (λ cut. IfSome cut (λ head.
            IsMade K.ChannelPort (Reply.Write (Ok head)) self.old.index
            (Truncate upto) nvdimm.old nvdimm.new)) }
        ensures is { IfOk result (λ cut. IfSome cut (λ head.
            IsIndexBehind (Truncate upto) self.old.index self.new.index)) }
        ensures within { IfOk result (λ cut. IfSome cut (λ head. IsWithin self.old.index upto)) }
        ensures none { IfOk result (λ cut. IfNone cut
            ((upto ≡ self.old.index.gone) × (self.new ≡ self.old) × (nvdimm.new ≡ nvdimm.old))) }
        ensures kept { IfErr result (λ refusal. self.new ≡ self.old) }
        ensures heads { self.new.heads ≡ self.old.heads }
        ensures refused { IfErr result (λ refusal. IsTruncateRefused K.ChannelPort refusal
            self.old.index upto nvdimm.old nvdimm.new) }
        ensures lines { self.new.index.lines ≡ self.old.index.lines }
        ensures setup { setup_of K.ChannelPort nvdimm.new ≡ setup_of K.ChannelPort nvdimm.old }
    {
        if upto < self.index.gone() || self.index.end() < upto {
            return Err(TruncateRefusal::NoSuchRecord);
        }
        if upto == self.index.gone() {
            return Ok(None);
        }
        let write = self.index.truncate_write(upto);
        match put(nvdimm, write) {
            Ok(head) => {
                self.index.truncate(upto);
                Ok(Some(head))
            }
            Err(refusal) => Err(TruncateRefusal::Refused(refusal)),
        }
    }
}
