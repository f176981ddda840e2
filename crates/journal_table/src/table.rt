// A table, and its calls.
ghost use Rattle.std.specs.Prelude.{◌≡◌, ◌≢◌, IfErr, IfNone, IfOk, IfSome, List, None, Ok, ℕ, length, option_map};
ghost use Rattle.journal_log.specs.Log.{Holds, Log};
ghost use Rattle.journal_log.specs.Calls.{Append, log_after};
ghost use Rattle.module_core.specs.Stands.{setup_of};
ghost use Rattle.table_log.specs.Changes.{Put, Remove, record_of};
ghost use Rattle.table_log.specs.Tables.{Changes, IsTable, Table, table_after, value_in};
ghost use Rattle.journal_table.specs.Values.{held};

use crate::compaction::{cut, rewrite};
use crate::record::{remove_record, spell_put};
use crate::values::{forget, make_room, replace, values_of};
use channel_port::ChannelPort;
use journal_lines::OpenRefusal;
use line_memory::Line;
use module_core::Module;
use module_journal::{AppendRefusal, Appended, Journal, TruncateRefusal};
use nv_machine::{Accepted, Reply};
use std::alloc::Global;
use std::collections::HashMap;
use thiserror::Error;

/// Why no table was opened.
#[derive(Clone, Copy, Debug, PartialEq, Eq, Error)]
pub enum TableRefusal {
    /// The memory holds no journal.
    #[error("not a journal")]
    NotJournal,
    /// A record of the journal is no change of a table.
    #[error("not a table")]
    NotTable,
    /// There is no memory for the keys and values.
    #[error("out of memory")]
    Memory,
}

/// Why a compaction was broken off. No key has another value for it, and a later one goes on.
#[derive(Clone, Copy, Debug, PartialEq, Eq, Error)]
pub enum CompactRefusal {
    /// What a key has wasn't appended once more.
    #[error("{0}")]
    Rewrite(AppendRefusal),
    /// The changes before that weren't cut.
    #[error("{0}")]
    Cut(TruncateRefusal),
}

/// A table on a journal in a module. It holds the keys and values that live, beside their records in the module.
#[derive(Drop)]
pub struct JournalTable {
    pub(crate) journal: Journal,
    pub(crate) values: HashMap<Vec<u8>, Vec<u8>>,
    // the record of the last put, whose memory the next one's takes
    pub(crate) spelled: Vec<u8>,
}

impl JournalTable {
    ghost use Rattle.module_journal.specs.Refusals.{IsAppendRefused};
    ghost use Rattle.module_journal.specs.Writing.{IsMade};
    ghost use Rattle.journal_table.specs.Standing.{IsTableOf};
    ghost use Rattle.journal_table.specs.Calling.{IsCompacted, IsKeptUp};
    ghost use Rattle.journal_lines.specs.Indexed.{HasRoom};

    /// The table that a memory holds, which a module is opened with: refused `NotJournal` exactly where it holds no journal, and
    /// `NotTable` exactly where its records are those of no table.
    pub fn open(alloc: Global, memory: &[Line]) -> Result<JournalTable, TableRefusal>
        ensures ok { IfOk result (λ it.
            (log : Log) × (table : Table) × Holds memory.now log × IsTableOf it log table) }
        ensures lines { IfOk result (λ it. it.journal.index.lines ≡ length memory.now) }
        ensures none { IfErr result (λ refusal. refusal ≡ TableRefusal.NotJournal
            → (log : Log) → Holds memory.now log → ⊥) }
        ensures other { IfErr result (λ refusal. refusal ≡ TableRefusal.NotTable
            → (log : Log) (table : Table) → Holds memory.now log → IsTable log table → ⊥) }
    {
        let journal = match Journal::open(alloc, memory) {
            Ok(journal) => journal,
            Err(OpenRefusal::NotJournal) => return Err(TableRefusal::NotJournal),
            Err(OpenRefusal::Memory) => return Err(TableRefusal::Memory),
        };
        match values_of(alloc, &journal, memory) {
            Ok(values) => Ok(JournalTable {
                journal,
                values,
                spelled: Vec::new(alloc),
            }),
            Err(refusal) => Err(refusal),
        }
    }

    /// The value of a key, where it has one. No module is asked.
    pub fn get(&self, key: &[u8]) -> Option<&[u8]>
        ensures { (log : Log) (table : Table) → IsTableOf self.now log table
            → option_map (λ value. value.now) result ≡ value_in key.now table }
    {
        match self.values.get(key) {
            Some(value) => Some(value.as_slice()),
            None => None,
        }
    }

    /// The journal, to be asked which records are there.
    pub fn journal(&self) -> &Journal
        ensures { result.now ≡ self.now.journal }
    {
        &self.journal
    }

    /// A key gets a value: one record is appended. A refusal leaves the table as it is.
    pub fn put<K: ChannelPort>(
        &mut self,
        alloc: Global,
        nvdimm: &mut Module<K>,
        key: &[u8],
        value: &[u8],
    ) -> Result<Appended, AppendRefusal>
        ensures done { IfOk result (λ appended.
            IsMade K.ChannelPort (Reply.Write (Ok appended.head)) self.old.journal.index
            (Append (record_of (Put key.now value.now))) nvdimm.old nvdimm.new) }
        ensures room { IfOk result (λ appended.
            HasRoom self.old.journal.index (record_of (Put key.now value.now))) }
        ensures is { IfOk result (λ appended. (log : Log) (table : Table)
            → IsTableOf self.old log table → IsTableOf self.new
            (log_after self.old.journal.index.lines log (Append (record_of (Put key.now value.now))))
            (table_after table (Changes (Put key.now value.now)))) }
        ensures kept { IfErr result (λ refusal. (log : Log) (table : Table)
            → IsTableOf self.old log table → IsTableOf self.new log table) }
        ensures refused { IfErr result (λ refusal. IsAppendRefused K.ChannelPort refusal
            self.old.journal.index (record_of (Put key.now value.now)) nvdimm.old nvdimm.new) }
        ensures lines { self.new.journal.index.lines ≡ self.old.journal.index.lines }
        ensures setup { setup_of K.ChannelPort nvdimm.new ≡ setup_of K.ChannelPort nvdimm.old }
    {
        if spell_put(&mut self.spelled, key, value).is_err() {
            return Err(AppendRefusal::Memory);
        }
        // all memory is taken before the append
        let Some(held) = self.values.get_mut(key) else {
            return self.put_new(alloc, nvdimm, key, value);
        };
        if make_room(held, value).is_err() {
            return Err(AppendRefusal::Memory);
        }
        match self.journal.append(nvdimm, &self.spelled) {
            Ok(appended) => {
                replace(held, value);
                Ok(appended)
            }
            Err(refusal) => Err(refusal),
        }
    }

    // A key that has no value gets one, where its record is spelled.
    fn put_new<K: ChannelPort>(
        &mut self,
        alloc: Global,
        nvdimm: &mut Module<K>,
        key: &[u8],
        value: &[u8],
    ) -> Result<Appended, AppendRefusal>
        requires { self.old.spelled.items ≡ record_of (Put key.now value.now) }
        ensures done { IfOk result (λ appended.
            IsMade K.ChannelPort (Reply.Write (Ok appended.head)) self.old.journal.index
            (Append (record_of (Put key.now value.now))) nvdimm.old nvdimm.new) }
        ensures room { IfOk result (λ appended.
            HasRoom self.old.journal.index (record_of (Put key.now value.now))) }
        ensures is { IfOk result (λ appended. (log : Log) (table : Table)
            → IsTableOf self.old log table → IsTableOf self.new
            (log_after self.old.journal.index.lines log (Append (record_of (Put key.now value.now))))
            (table_after table (Changes (Put key.now value.now)))) }
        ensures kept { IfErr result (λ refusal. (log : Log) (table : Table)
            → IsTableOf self.old log table → IsTableOf self.new log table) }
        ensures refused { IfErr result (λ refusal. IsAppendRefused K.ChannelPort refusal
            self.old.journal.index (record_of (Put key.now value.now)) nvdimm.old nvdimm.new) }
        ensures lines { self.new.journal.index.lines ≡ self.old.journal.index.lines }
        ensures setup { setup_of K.ChannelPort nvdimm.new ≡ setup_of K.ChannelPort nvdimm.old }
    {
        let Ok(key) = key.to_vec(alloc) else {
            return Err(AppendRefusal::Memory);
        };
        let Ok(value) = value.to_vec(alloc) else {
            return Err(AppendRefusal::Memory);
        };
        if self.values.reserve(1).is_err() {
            return Err(AppendRefusal::Memory);
        }
        match self.journal.append(nvdimm, &self.spelled) {
            Ok(appended) => {
                if self.values.insert(key, value).is_err() {
                    unreachable!()
                }
                Ok(appended)
            }
            Err(refusal) => Err(refusal),
        }
    }

    /// A key goes, where it has a value: one record is appended. None where it has none. A refusal leaves the table as it is.
    pub fn remove<K: ChannelPort>(
        &mut self,
        alloc: Global,
        nvdimm: &mut Module<K>,
        key: &[u8],
    ) -> Result<Option<Appended>, AppendRefusal>
        ensures done { IfOk result (λ gone. IfSome gone (λ appended.
            IsMade K.ChannelPort (Reply.Write (Ok appended.head)) self.old.journal.index
            (Append (record_of (Remove key.now))) nvdimm.old nvdimm.new)) }
        ensures room { IfOk result (λ gone. IfSome gone (λ appended.
            HasRoom self.old.journal.index (record_of (Remove key.now)))) }
        ensures is { IfOk result (λ gone. IfSome gone (λ appended. (log : Log) (table : Table)
            → IsTableOf self.old log table → IsTableOf self.new
            (log_after self.old.journal.index.lines log (Append (record_of (Remove key.now))))
            (table_after table (Changes (Remove key.now))))) }
        ensures none { IfOk result (λ gone. IfNone gone ((held self.old.values key.now ≡ None)
            × (self.new ≡ self.old) × (nvdimm.new ≡ nvdimm.old))) }
        ensures kept { IfErr result (λ refusal. (log : Log) (table : Table)
            → IsTableOf self.old log table → IsTableOf self.new log table) }
        ensures refused { IfErr result (λ refusal. IsAppendRefused K.ChannelPort refusal
            self.old.journal.index (record_of (Remove key.now)) nvdimm.old nvdimm.new) }
        ensures lines { self.new.journal.index.lines ≡ self.old.journal.index.lines }
        ensures setup { setup_of K.ChannelPort nvdimm.new ≡ setup_of K.ChannelPort nvdimm.old }
    {
        if !self.values.contains_key(key) {
            return Ok(None);
        }
        let Ok(record) = remove_record(alloc, key) else {
            return Err(AppendRefusal::Memory);
        };
        match self.journal.append(nvdimm, &record) {
            Ok(appended) => {
                forget(&mut self.values, key);
                Ok(Some(appended))
            }
            Err(refusal) => Err(refusal),
        }
    }

    /// Appends what each key has once more, and then cuts all changes before that, by one write. None where there were no changes. A
    /// refusal, or a stop anywhere, breaks it off and changes no value; the lines that it took go with a later compaction.
    pub fn compact<K: ChannelPort>(
        &mut self,
        alloc: Global,
        nvdimm: &mut Module<K>,
    ) -> Result<Option<Accepted>, CompactRefusal>
        ensures done { IfOk result (λ cut. (log : Log) (table : Table)
            → IsTableOf self.old log table
            → IsCompacted K.ChannelPort self.old.journal.index.lines log table self.new
            nvdimm.old nvdimm.new) }
        ensures part { IfErr result (λ refusal. (log : Log) (table : Table)
            → IsTableOf self.old log table
            → IsKeptUp K.ChannelPort self.old.journal.index.lines log table self.new
            nvdimm.old nvdimm.new) }
        ensures lines { self.new.journal.index.lines ≡ self.old.journal.index.lines }
        ensures setup { setup_of K.ChannelPort nvdimm.new ≡ setup_of K.ChannelPort nvdimm.old }
    {
        let end = self.journal.end();
        if let Err(refusal) = rewrite(alloc, &mut self.journal, nvdimm, &self.values) {
            return Err(CompactRefusal::Rewrite(refusal));
        }
        match cut(&mut self.journal, nvdimm, end) {
            Ok(cut) => Ok(cut),
            Err(refusal) => Err(CompactRefusal::Cut(refusal)),
        }
    }
}
