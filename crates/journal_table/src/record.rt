// The records of a table's changes, as bytes.
ghost use Rattle.std.specs.Prelude.{◌≡◌, ◌≢◌, ◌∷◌, ◌++◌, ◌<◌, ◌≤◌, ◌^◌, List, ℕ, drop, length, take, IfNone, IfOk, IfSome, OnOk};
ghost use Rattle.std.specs.Int.{w64, from_le_bytes, to_le_bytes};
ghost use Rattle.table_log.specs.Changes.{Change, Put, Remove, key_of, record_of};
ghost use Rattle.journal_table.specs.Parts.{change_of};

use std::alloc::{AllocError, Global};

/// How many bytes stand before the key.
const BEFORE_KEY: usize = 9;

// What a record says, how long its key is, the key, and a value, in place of what the bytes were.
fn spell(bytes: &mut Vec<u8>, word: u8, key: &[u8], value: &[u8]) -> Result<(), AllocError>
    ensures { OnOk result (bytes.new.items
        ≡ word ∷ (to_le_bytes w64 (length key.now) ++ (key.now ++ value.now))) }
{
    let size = key.len().saturating_add(value.len());
    bytes.clear();
    bytes.reserve(size.saturating_add(BEFORE_KEY))?;
    bytes.push(word)?;
    bytes.extend_from_slice(&(key.len() as u64).to_le_bytes())?;
    bytes.extend_from_slice(key)?;
    bytes.extend_from_slice(value)?;
    Ok(())
}

// The same in new memory.
fn record_bytes(alloc: Global, word: u8, key: &[u8], value: &[u8]) -> Result<Vec<u8>, AllocError>
    ensures { IfOk result (λ bytes. bytes.items
        ≡ word ∷ (to_le_bytes w64 (length key.now) ++ (key.now ++ value.now))) }
{
    let mut bytes = Vec::new(alloc);
    spell(&mut bytes, word, key, value)?;
    Ok(bytes)
}

/// The record of a key that gets a value, in place of what the bytes were. Refused only where there is no memory for it.
pub(crate) fn spell_put(bytes: &mut Vec<u8>, key: &[u8], value: &[u8]) -> Result<(), AllocError>
    ensures { OnOk result (bytes.new.items ≡ record_of (Put key.now value.now)) }
{
    spell(bytes, 1, key, value)
}

/// The record of a key that gets a value. Refused only where there is no memory for it.
pub fn put_record(alloc: Global, key: &[u8], value: &[u8]) -> Result<Vec<u8>, AllocError>
    ensures { IfOk result (λ bytes. bytes.items ≡ record_of (Put key.now value.now)) }
{
    record_bytes(alloc, 1, key, value)
}

/// The record of a key that goes. Refused only where there is no memory for it.
pub fn remove_record(alloc: Global, key: &[u8]) -> Result<Vec<u8>, AllocError>
    ensures { IfOk result (λ bytes. bytes.items ≡ record_of (Remove key.now)) }
{
    record_bytes(alloc, 0, key, &[])
}

/// What a record says: the key gets the value, or goes.
#[derive(Clone, Copy)]
pub struct Parts<'a> {
    pub is_put: bool,
    pub key: &'a [u8],
    /// Of a key that goes none.
    pub value: &'a [u8],
}

// How many bytes of a record the key has.
fn key_length(bytes: &[u8]) -> u64
    requires { 9 ≤ length bytes.now }
    ensures { result ≡ from_le_bytes w64 (take 8 (drop 1 bytes.now)) }
{
    u64::from_le_bytes([
        bytes[1], bytes[2], bytes[3], bytes[4], bytes[5], bytes[6], bytes[7], bytes[8],
    ])
}

/// What the bytes of a record say of a table; None exactly where they are the record of no change.
pub fn read_record(bytes: &[u8]) -> Option<Parts<'_>>
    ensures some { IfSome result (λ parts. bytes.now ≡ record_of (change_of parts)) }
    ensures short { IfSome result (λ parts. length parts.key.now < 2 ^ 64) }
    ensures none { IfNone result ((change : Change) → length (key_of change) < 2 ^ 64
        → bytes.now ≢ record_of change) }
{
    if bytes.len() < BEFORE_KEY {
        return None;
    }
    let count = key_length(bytes);
    if count > (bytes.len() - BEFORE_KEY) as u64 {
        return None;
    }
    let end = BEFORE_KEY + count as usize;
    let is_put = bytes[0] == 1;
    if is_put || (bytes[0] == 0 && end == bytes.len()) {
        Some(Parts {
            is_put,
            key: &bytes[BEFORE_KEY..end],
            value: &bytes[end..],
        })
    } else {
        None
    }
}
