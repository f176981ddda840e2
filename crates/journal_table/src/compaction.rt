// The calls of a compaction on a table's journal.
ghost use Rattle.std.specs.Prelude.{All, ◌≡◌, ◌∷◌, [], IfErr, IfNone, IfOk, IfSome, List, ℕ, length};
ghost use Rattle.journal_log.specs.Log.{Log};
ghost use Rattle.journal_lines.specs.Indexed.{IsIndexOf};
ghost use Rattle.module_core.specs.Stands.{setup_of};
ghost use Rattle.table_log.specs.Changes.{Put};
ghost use Rattle.table_log.specs.Tables.{Cuts, IsLawful, IsTable, Rewrites, Table, value_in};
ghost use Rattle.journal_table.specs.Calling.{HasCalled, HasKeptUp, rewrites_of, whole_call};
ghost use Rattle.journal_table.specs.Values.{IsHeld, held};

use crate::record::put_record;
use channel_port::ChannelPort;
use module_core::Module;
use module_journal::{AppendRefusal, Journal, TruncateRefusal};
use nv_machine::Accepted;
use std::alloc::Global;
use std::collections::HashMap;

// What a key has is appended once more.
fn rewrite_one<K: ChannelPort>(
    alloc: Global,
    journal: &mut Journal,
    nvdimm: &mut Module<K>,
    key: &[u8],
    value: &[u8],
) -> Result<(), AppendRefusal>
    ensures done { IfOk result (λ done. (log : Log) (table : Table)
        → IsIndexOf journal.old.index log → IsLawful table (Rewrites (Put key.now value.now))
        → HasCalled K.ChannelPort journal.old.index.lines
        (whole_call (Rewrites (Put key.now value.now)) ∷ [])
        log table journal.new.index nvdimm.old nvdimm.new) }
    ensures part { IfErr result (λ refusal. (log : Log) (table : Table)
        → IsIndexOf journal.old.index log
        → HasKeptUp K.ChannelPort journal.old.index.lines
        log table journal.new.index nvdimm.old nvdimm.new) }
    ensures lines { journal.new.index.lines ≡ journal.old.index.lines }
    ensures setup { setup_of K.ChannelPort nvdimm.new ≡ setup_of K.ChannelPort nvdimm.old }
{
    let Ok(record) = put_record(alloc, key, value) else {
        return Err(AppendRefusal::Memory);
    };
    match journal.append(nvdimm, &record) {
        Ok(_) => Ok(()),
        Err(refusal) => Err(refusal),
    }
}

/// What each key has is appended once more. A refusal breaks it off.
pub(crate) fn rewrite<K: ChannelPort>(
    alloc: Global,
    journal: &mut Journal,
    nvdimm: &mut Module<K>,
    values: &HashMap<Vec<u8>, Vec<u8>>,
) -> Result<(), AppendRefusal>
    ensures done { IfOk result (λ done. (log : Log) (table : Table)
        → IsIndexOf journal.old.index log
        → ((key : List ℕ) → held values.now key ≡ value_in key table)
        → HasCalled K.ChannelPort journal.old.index.lines (rewrites_of values.now.entries)
        log table journal.new.index nvdimm.old nvdimm.new) }
    ensures part { IfErr result (λ refusal. (log : Log) (table : Table)
        → IsIndexOf journal.old.index log
        → ((key : List ℕ) → held values.now key ≡ value_in key table)
        → HasKeptUp K.ChannelPort journal.old.index.lines
        log table journal.new.index nvdimm.old nvdimm.new) }
    ensures found { All (IsHeld values.now) values.now.entries }
    ensures lines { journal.new.index.lines ≡ journal.old.index.lines }
    ensures setup { setup_of K.ChannelPort nvdimm.new ≡ setup_of K.ChannelPort nvdimm.old }
{
    for (key, value) in values.iter() {
        if let Err(refusal) = rewrite_one(alloc, journal, nvdimm, key, value) {
            return Err(refusal);
        }
    }
    Ok(())
}

/// The changes below a number are cut.
pub(crate) fn cut<K: ChannelPort>(
    journal: &mut Journal,
    nvdimm: &mut Module<K>,
    upto: u64,
) -> Result<Option<Accepted>, TruncateRefusal>
    ensures some { IfOk result (λ cut. IfSome cut (λ head. (log : Log) (table : Table)
        → IsIndexOf journal.old.index log → IsLawful table (Cuts upto)
        → HasCalled K.ChannelPort journal.old.index.lines (whole_call (Cuts upto) ∷ [])
        log table journal.new.index nvdimm.old nvdimm.new)) }
    ensures none { IfOk result (λ cut. IfNone cut
        ((upto ≡ journal.old.index.gone) × (journal.new ≡ journal.old)
        × (nvdimm.new ≡ nvdimm.old))) }
    ensures part { IfErr result (λ refusal. (log : Log) (table : Table)
        → IsIndexOf journal.old.index log
        → HasKeptUp K.ChannelPort journal.old.index.lines
        log table journal.new.index nvdimm.old nvdimm.new) }
    ensures lines { journal.new.index.lines ≡ journal.old.index.lines }
    ensures setup { setup_of K.ChannelPort nvdimm.new ≡ setup_of K.ChannelPort nvdimm.old }
{
    journal.truncate(nvdimm, upto)
}
