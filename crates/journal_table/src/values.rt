// The values of a table's keys.
ghost use Rattle.std.specs.Prelude.{All, ◌≡◌, ◌-◌, ◌<◌, ◌≤◌, ◌^◌, List, ℕ, length, map, take, IfErr, IfOk, None, OnOk, vec_capacity};
ghost use Rattle.journal_log.specs.Log.{Holds, Log};
ghost use Rattle.journal_lines.specs.Indexed.{IsIndexOf};
ghost use Rattle.table_log.specs.Changes.{Change, Put, Remove, key_of, record_of, value_after, value_behind};
ghost use Rattle.table_log.specs.Tables.{IsTable, Table, value_in};
ghost use Rattle.journal_table.specs.Parts.{change_of};
ghost use Rattle.journal_table.specs.Values.{held};

use crate::record::{Parts, read_record};
use crate::table::TableRefusal;
use line_memory::Line;
use module_journal::Journal;
use std::alloc::{AllocError, Global};
use std::collections::HashMap;

// A key goes.
pub(crate) fn forget(values: &mut HashMap<Vec<u8>, Vec<u8>>, key: &[u8])
    ensures { (other : List ℕ) → held values.new other
        ≡ value_behind other (held values.old other) (Remove key.now) }
{
    let _value = values.remove(key);
}

/// Makes room for a value in place of another one.
pub(crate) fn make_room(held: &mut Vec<u8>, value: &[u8]) -> Result<(), AllocError>
    ensures same { held.new.items ≡ held.old.items }
    ensures room { OnOk result (length value.now ≤ vec_capacity held.new) }
{
    held.reserve(value.len().saturating_sub(held.len()))
}

/// A value comes in place of another one.
pub(crate) fn replace(held: &mut Vec<u8>, value: &[u8])
    requires { length value.now ≤ vec_capacity held.old }
    ensures { held.new.items ≡ value.now }
{
    held.clear();
    if held.extend_from_slice(value).is_err() {
        unreachable!()
    }
}

// What a record says is done.
fn apply(
    alloc: Global,
    values: &mut HashMap<Vec<u8>, Vec<u8>>,
    parts: Parts<'_>,
) -> Result<(), AllocError>
    ensures { OnOk result ((other : List ℕ) → held values.new other
        ≡ value_behind other (held values.old other) (change_of parts.entry)) }
{
    if !parts.is_put {
        forget(values, parts.key);
        return Ok(());
    }
    let key = parts.key.to_vec(alloc)?;
    let value = parts.value.to_vec(alloc)?;
    values.insert(key, value)?;
    Ok(())
}

/// The values that the records of a journal say, in the memory that holds it; refused `NotTable` exactly where they are those of no
/// table.
pub(crate) fn values_of(
    alloc: Global,
    journal: &Journal,
    memory: &[Line],
) -> Result<HashMap<Vec<u8>, Vec<u8>>, TableRefusal>
    requires { length memory.now ≡ journal.now.index.lines }
    ensures ok { IfOk result (λ values. (log : Log) → IsIndexOf journal.now.index log
        → Holds memory.now log → (table : Table) × IsTable log table
        × ((key : List ℕ) → held values key ≡ value_in key table)) }
    ensures none { IfErr result (λ refusal. refusal ≡ TableRefusal.NotTable → (log : Log)
        → IsIndexOf journal.now.index log → Holds memory.now log
        → (table : Table) → IsTable log table → ⊥) }
    ensures other { IfErr result (λ refusal. refusal ≡ TableRefusal.NotJournal → ⊥) }
{
    let mut values = HashMap::new(alloc);
    for number in journal.first()..journal.end() {
        let Ok(Some(bytes)) = journal.record(alloc, memory, number) else {
            return Err(TableRefusal::Memory);
        };
        let Some(parts) = read_record(&bytes) else {
            return Err(TableRefusal::NotTable);
        };
        if apply(alloc, &mut values, parts).is_err() {
            return Err(TableRefusal::Memory);
        }
    }
    Ok(values)
}
