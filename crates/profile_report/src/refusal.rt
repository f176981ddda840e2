// Why a text is no profile, each reason.
ghost use Rattle.std.specs.Prelude.{◌<◌, length, IfOk};
ghost use Rattle.ddr4_timing.specs.Checks.{FailsEntry};

use crate::limits::{COMMAND_TABLES, KnownTable, Limits, TABLE_NAMES, TABLES};
use ddr4_timing::timing::{FEWEST_LINES, Geometry, MOST_LINES, ProfileError, Timing};
use interleave_map::Interleaving;
use near_word::near_word;
use nv_profile::MOST_BYTES;
use std::alloc::{AllocError, Global};
use toml::de::Error;
use toml::{Table, Value, table_from_slice};

/// Why the bytes are no profile, in words: that the text is too long or isn't TOML, with the place where it breaks; else each
/// table and key that is missing, further or past its limits; and of tables without such a fault the first check of the timing and
/// the geometry that isn't passed. No reasons of a profile.
///
/// A text that has no tables but those of the timing and of the geometry is asked for the numbers by which commands alone are
/// checked.
pub fn reasons(alloc: Global, bytes: &[u8]) -> Result<Vec<String>, AllocError>
    ensures { MOST_BYTES < length bytes.now
        → IfOk result (λ reasons. 0 < length reasons.items) }
{
    let mut reasons = Vec::new(alloc);
    if bytes.len() > MOST_BYTES {
        reasons.push(format!(in alloc; "more than {MOST_BYTES} bytes")?)?;
        return Ok(reasons);
    }
    match table_from_slice(alloc, bytes) {
        Ok(table) => add_reasons(alloc, &table, &mut reasons)?,
        Err(error) if error.is_memory() => return Err(AllocError),
        Err(error) => reasons.push(why_no_toml(alloc, bytes, &error)?)?,
    }
    Ok(reasons)
}

// Where a text breaks.
fn why_no_toml(alloc: Global, bytes: &[u8], error: &Error) -> Result<String, AllocError> {
    let before = error.span().and_then(|span| bytes.get(..span.start));
    let ends = before
        .unwrap_or(&[])
        .iter()
        .filter(|byte| **byte == b'\n')
        .count();
    let line = ends.saturating_add(1);
    format!(in alloc; "no TOML, line {line}: {}", error.message())
}

fn add_reasons(alloc: Global, table: &Table, reasons: &mut Vec<String>) -> Result<(), AllocError> {
    if is_for_commands(table) {
        return add_command_reasons(alloc, table, reasons);
    }
    for known in &TABLES {
        add_inner(alloc, table, known, reasons)?;
    }
    add_tables(alloc, table, reasons)?;
    if reasons.is_empty() {
        if let Some(why) = why_of_checks(alloc, table)? {
            reasons.push(why)?;
        }
    }
    Ok(())
}

// Has it the tables of the timing and of the geometry, and no other?
fn is_for_commands(table: &Table) -> bool {
    table.len() == 2
        && COMMAND_TABLES
            .iter()
            .all(|known| table.get(known.name).is_some())
}

// The reasons why commands aren't checked by the numbers of a table.
fn add_command_reasons(
    alloc: Global,
    table: &Table,
    reasons: &mut Vec<String>,
) -> Result<(), AllocError> {
    for known in &COMMAND_TABLES {
        add_inner(alloc, table, known, reasons)?;
    }
    let geometry = geometry_of(table);
    if reasons.is_empty() && timing_of(table).check_commands(&geometry).is_err() {
        let groups = geometry.groups;
        reasons.push(format!(in alloc; "geometry.groups = {groups}, and 2 or 4 are allowed")?)?;
    }
    Ok(())
}

// Which tables aren't known.
fn add_tables(alloc: Global, table: &Table, reasons: &mut Vec<String>) -> Result<(), AllocError> {
    for (key, _value) in table {
        if !TABLES.iter().any(|known| known.name == key.as_str()) {
            let near = near_word(alloc, key.as_str(), &TABLE_NAMES)?;
            reasons.push(unknown(alloc, "", key.as_str(), near)?)?;
        }
    }
    Ok(())
}

// A key that isn't known, and the one that it nearly is.
fn unknown(
    alloc: Global,
    table: &str,
    key: &str,
    near: Option<&'static str>,
) -> Result<String, AllocError> {
    match near {
        Some(near) => format!(in alloc; "{table}{key} isn't known; {table}{near}?"),
        None => format!(in alloc; "{table}{key} isn't known"),
    }
}

// Why the table under a name isn't the one that is known.
fn add_inner(
    alloc: Global,
    table: &Table,
    known: &KnownTable,
    reasons: &mut Vec<String>,
) -> Result<(), AllocError> {
    let name = known.name;
    let Some(value) = table.get(name) else {
        reasons.push(format!(in alloc; "no table {name}")?)?;
        return Ok(());
    };
    let Some(inner) = value.as_table() else {
        reasons.push(format!(in alloc; "{name} is no table")?)?;
        return Ok(());
    };
    for limits in known.limits {
        add_numbers(alloc, name, inner, limits, reasons)?;
    }
    if name == "module" && map_of(inner).is_none() {
        reasons.push(format!(in alloc; "{name}.map is neither lines nor xor")?)?;
    }
    add_keys(alloc, inner, known, reasons)
}

fn map_of(module: &Table) -> Option<Interleaving> {
    Interleaving::named(module.get("map")?.as_str()?)
}

// Which keys of a table aren't known.
fn add_keys(
    alloc: Global,
    inner: &Table,
    known: &KnownTable,
    reasons: &mut Vec<String>,
) -> Result<(), AllocError> {
    let table = format!(in alloc; "{}.", known.name)?;
    for (key, _value) in inner {
        if !is_known(known, key.as_str()) {
            let near = near_key(alloc, known, key.as_str())?;
            reasons.push(unknown(alloc, &table, key.as_str(), near)?)?;
        }
    }
    Ok(())
}

// The key of the table that a key is nearly.
fn near_key(
    alloc: Global,
    known: &KnownTable,
    key: &str,
) -> Result<Option<&'static str>, AllocError> {
    for limits in known.limits {
        if let Some(near) = near_word(alloc, key, limits.keys)? {
            return Ok(Some(near));
        }
    }
    if known.name == "module" {
        return near_word(alloc, key, &["map"]);
    }
    Ok(None)
}

fn is_known(known: &KnownTable, key: &str) -> bool {
    for limits in known.limits {
        if limits.keys.iter().any(|known| *known == key) {
            return true;
        }
    }
    known.name == "module" && key == "map"
}

fn add_numbers(
    alloc: Global,
    name: &str,
    inner: &Table,
    limits: &Limits,
    reasons: &mut Vec<String>,
) -> Result<(), AllocError> {
    for key in limits.keys.iter().copied() {
        if let Some(why) = why_no_number(alloc, name, inner, key, limits)? {
            reasons.push(why)?;
        }
    }
    Ok(())
}

// Why no number within the limits stands under the key.
fn why_no_number(
    alloc: Global,
    name: &str,
    inner: &Table,
    key: &str,
    limits: &Limits,
) -> Result<Option<String>, AllocError> {
    let Limits {
        least,
        most,
        optional,
        ..
    } = *limits;
    let Some(value) = inner.get(key) else {
        if optional {
            return Ok(None);
        }
        return Ok(Some(format!(in alloc; "no key {name}.{key}")?));
    };
    let Some(number) = value.as_integer() else {
        return Ok(Some(format!(in alloc; "{name}.{key} is no whole number")?));
    };
    if is_within(number, least, most) {
        return Ok(None);
    }
    Ok(Some(format!(in alloc; "{name}.{key} = {number}, and {least} to {most} are allowed")?))
}

fn is_within(number: i64, least: u64, most: u64) -> bool {
    match u64::try_from(number) {
        Ok(number) => least <= number && number <= most,
        Err(_) => false,
    }
}

// The number under a key, 0 where there is none.
fn number(table: &Table, name: &str, key: &str) -> u64 {
    let value = table
        .get(name)
        .and_then(Value::as_table)
        .and_then(|inner| inner.get(key));
    let number = value.and_then(Value::as_integer).unwrap_or(0);
    u64::try_from(number).unwrap_or(0)
}

fn timing_of(table: &Table) -> Timing {
    let time = |key: &str| number(table, "timing", key);
    Timing {
        t_rcd: time("tRCD"),
        t_rp: time("tRP"),
        t_ras: time("tRAS"),
        cl: time("CL"),
        cwl: time("CWL"),
        t_ccd_s: time("tCCD_S"),
        t_ccd_l: time("tCCD_L"),
        t_rrd_s: time("tRRD_S"),
        t_rrd_l: time("tRRD_L"),
        t_faw: time("tFAW"),
        t_wr: time("tWR"),
        t_wtr_s: time("tWTR_S"),
        t_wtr_l: time("tWTR_L"),
        t_rtp: time("tRTP"),
        t_rtw: time("tRTW"),
        t_cs: time("tCS"),
        t_rfc: time("tRFC"),
        t_refi: time("tREFI"),
    }
}

fn geometry_of(table: &Table) -> Geometry {
    let size = |key: &str| number(table, "geometry", key);
    Geometry {
        channels: size("channels"),
        ranks: size("ranks"),
        groups: size("groups"),
        banks: size("banks"),
        rows: size("rows"),
        columns: size("columns"),
    }
}

// Which check of the timing and the geometry fails.
fn why_of_checks(alloc: Global, table: &Table) -> Result<Option<String>, AllocError> {
    let timing = timing_of(table);
    let geometry = geometry_of(table);
    let why = match timing.check(&geometry) {
        Ok(_) => return Ok(None),
        Err(ProfileError::Overflow) => format!(in alloc; "a time past its limits")?,
        Err(ProfileError::Geometry) => why_of_geometry(alloc, &geometry)?,
        Err(ProfileError::EntryTooLong) => why_of_entry(alloc, &timing, &geometry)?,
        Err(ProfileError::FawTooLong) => why_of_gaps(alloc, &timing)?,
    };
    Ok(Some(why))
}

fn why_of_geometry(alloc: Global, g: &Geometry) -> Result<String, AllocError> {
    for (key, number) in [
        ("channels", g.channels),
        ("ranks", g.ranks),
        ("groups", g.groups),
        ("rows", g.rows),
        ("columns", g.columns),
    ] {
        if !number.is_power_of_two() {
            return format!(in alloc; "geometry.{key} = {number} is no power of two");
        }
    }
    let banks = g
        .channels
        .saturating_mul(g.ranks)
        .saturating_mul(g.groups)
        .saturating_mul(g.banks);
    let lines = banks.saturating_mul(g.rows).saturating_mul(g.columns);
    format!(in alloc; "{lines} lines, and {FEWEST_LINES} to {MOST_LINES} are allowed")
}

fn why_of_entry(alloc: Global, t: &Timing, g: &Geometry) -> Result<String, AllocError>
    requires { FailsEntry t.now g.now }
{
    let entry = t.entry(g);
    let close = t.close(g);
    let needed = 2 * (entry + close) + 4 * g.ranks;
    format!(in alloc;
        "2 * (entry {entry} + close {close}) + 4 * ranks {} = {needed} is above tREFI = {}",
        g.ranks, t.t_refi
    )
}

// Which window or gap is too long.
fn why_of_gaps(alloc: Global, t: &Timing) -> Result<String, AllocError> {
    let cycle = t.t_ras.saturating_add(t.t_rp);
    for (key, time) in [
        ("tFAW", t.t_faw),
        ("tRRD_S", t.t_rrd_s),
        ("tRRD_L", t.t_rrd_l),
    ] {
        if time > cycle {
            return format!(in alloc; "{key} = {time} is above tRAS + tRP = {cycle}");
        }
    }
    let column = t.t_rp.saturating_add(t.t_rcd);
    let other_rank = t.t_cs.saturating_add(4);
    for (key, time) in [
        ("tRTW", t.t_rtw),
        ("tCCD_S", t.t_ccd_s),
        ("tCCD_L", t.t_ccd_l),
        ("4 + tCS", other_rank),
    ] {
        if time > column {
            return format!(in alloc; "{key} = {time} is above tRP + tRCD = {column}");
        }
    }
    format!(in alloc; "a gap is too long")
}
