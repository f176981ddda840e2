// What a table of a profile has under a key.
ghost use Rattle.std.specs.Prelude.{◌≡◌, option_map, IfSome, IsNone};
ghost use Rattle.toml.specs.Data.{get_member};
ghost use Rattle.toml.specs.View.{view, table_view};
ghost use Rattle.nv_profile.specs.Nothing.{HoldsOfNone};
ghost use Rattle.nv_profile.specs.Tables.{size_of, has_key, number_at, HasNumber, HasNoNumber, HasNumberIfAny, HasNumbers, word_at, table_at};

use toml::{Table, Value};

/// How many keys the table has.
pub(crate) fn size(table: &Table) -> usize
    ensures { result ≡ size_of (table_view table.now) }
{
    table.len()
}

// The value under the key.
fn at<'a>(table: &'a Table, key: &str) -> Option<&'a Value>
    ensures { option_map (λ v. view v.now) result ≡ get_member key.now (table_view table.now) }
{
    table.get(key)
}

/// Whether a value stands under the key.
pub(crate) fn has(table: &Table, key: &str) -> bool
    ensures { result ≡ has_key key.now (table_view table.now) }
{
    at(table, key).is_some()
}

/// The number under the key, where a whole number stands there.
pub(crate) fn number(table: &Table, key: &str) -> Option<u64>
    ensures { result ≡ number_at key.now (table_view table.now) }
{
    let number = at(table, key)?.as_integer()?;
    u64::try_from(number).ok()
}

/// The numbers under six keys, in the order of the keys, where a whole number stands under each.
pub(crate) fn numbers(table: &Table, keys: [&str; 6]) -> Option<[u64; 6]>
    ensures some { IfSome result (HasNumbers keys.entry (table_view table.now)) }
    ensures none { IsNone result → HoldsOfNone (HasNumbers keys.entry (table_view table.now)) }
{
    let mut numbers = [0; 6];
    for (place, key) in keys.iter().enumerate() {
        numbers[place] = number(table, key)?;
    }
    Some(numbers)
}

/// The number under the key, where a whole number from `least` to `most` stands there.
pub(crate) fn number_within(table: &Table, key: &str, least: u64, most: u64) -> Option<u64>
    ensures some { IfSome result (HasNumber key.now (table_view table.now) least most) }
    ensures none { IsNone result → HasNoNumber key.now (table_view table.now) least most }
{
    match number(table, key) {
        Some(number) if least <= number && number <= most => Some(number),
        _ => None,
    }
}

/// The number under a key that may be missing, and is 0 then; else a whole number up to `most` that stands there.
pub(crate) fn number_if_any(table: &Table, key: &str, most: u64) -> Option<u64>
    ensures some { IfSome result (HasNumberIfAny key.now (table_view table.now) most) }
    ensures none { IsNone result
        → HoldsOfNone (HasNumberIfAny key.now (table_view table.now) most) }
{
    if has(table, key) {
        number_within(table, key, 0, most)
    } else {
        Some(0)
    }
}

/// The text under the key, where a text stands there.
pub(crate) fn word<'a>(table: &'a Table, key: &str) -> Option<&'a str>
    ensures { option_map (λ w. w.now) result ≡ word_at key.now (table_view table.now) }
{
    at(table, key)?.as_str()
}

/// The table under the key, where a table stands there.
pub(crate) fn inner<'a>(table: &'a Table, key: &str) -> Option<&'a Table>
    ensures { option_map (λ t. table_view t.now) result ≡ table_at key.now (table_view table.now) }
{
    at(table, key)?.as_table()
}
