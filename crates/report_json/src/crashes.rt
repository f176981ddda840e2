// What a crash may leave.
ghost use Rattle.std.specs.Prelude.{◌≡◌, IfOk, OnOk, codes, map};
ghost use Rattle.std.specs.Io.KnownBytes.{Appends};
ghost use Rattle.answer_json.specs.Answers.{verdict_name};
ghost use Rattle.answer_json.specs.Refusals.{slot_number};
ghost use Rattle.report_fields.specs.Fields.{fields_in};
ghost use Rattle.report_fields.specs.Parts.{AreTold, IsTold};
ghost use Rattle.report_json.specs.Crashes.{block_fields, block_in, blocks_in, counts_fields, counts_in, found_fields, found_kind, refusal_fields, refused_by, row_fields, stop_fields, table_in};
ghost use Rattle.crash_table.specs.declared.outcome.Found.TheVariants.{Image, Refused};
ghost use Rattle.slot_store.specs.declared.restoring.RestoreError.TheVariants.{Damaged};

use crate::written::write_told;
use crash_table::{AtStop, Block, Counts, Found, OutcomeCount, Stop, Table};
use nv_script::ScriptFault;
use report_fields::{Part, Told, tell};
use slot_store::{RestoreError, Slot, Verdict};
use std::alloc::{AllocError, Global};
use std::io::Write;

fn name_of(verdict: Verdict) -> &'static str
    ensures { result.now ≡ verdict_name verdict }
{
    match verdict {
        Verdict::Complete => "Complete",
        Verdict::PossibleLoss { .. } => "PossibleLoss",
    }
}

// What is told of an image that was restored.
fn tell_image(
    alloc: Global,
    generation: u64,
    count: u64,
    verdict: Verdict,
) -> Result<Told, AllocError>
    ensures { IfOk result (IsTold (codes "restored")
        (found_fields (Image generation count verdict))) }
{
    let parts = [
        Part::Word("generation "),
        Part::Number("generation", generation),
        Part::Word(", writes "),
        Part::Number("count", count),
        Part::Word(", "),
        Part::Name("verdict", name_of(verdict)),
    ];
    tell(alloc, "restored", &parts)
}

fn number_of(slot: Slot) -> u64
    ensures { result ≡ slot_number slot }
{
    match slot {
        Slot::First => 0,
        Slot::Second => 1,
    }
}

// What is told of a refusal, by its number and its name.
fn tell_refusal(alloc: Global, code: u64, reason: &'static str) -> Result<Told, AllocError>
    ensures { IfOk result (IsTold (codes "refused")
        (refused_by (refusal_fields code reason.now))) }
{
    let parts = [
        Part::Word("refused "),
        Part::HiddenName("call", "restore"),
        Part::Number("code", code),
        Part::Word(" "),
        Part::Name("reason", reason),
    ];
    tell(alloc, "refused", &parts)
}

// The same of a slot that is damaged.
fn tell_damaged(alloc: Global, slot: Slot) -> Result<Told, AllocError>
    ensures { IfOk result (IsTold (codes "refused") (found_fields (Refused (Damaged slot)))) }
{
    let parts = [
        Part::Word("refused "),
        Part::HiddenName("call", "restore"),
        Part::Number("code", 2),
        Part::Word(" "),
        Part::Name("reason", "Damaged"),
        Part::Word(" "),
        Part::Number("slot", number_of(slot)),
    ];
    tell(alloc, "refused", &parts)
}

// What is told where nothing was restored.
fn tell_refused(alloc: Global, error: RestoreError) -> Result<Told, AllocError>
    ensures { IfOk result (IsTold (codes "refused") (found_fields (Refused error))) }
{
    match error {
        RestoreError::NoImage => tell_refusal(alloc, 1, "NoImage"),
        RestoreError::Damaged { slot } => tell_damaged(alloc, slot),
        RestoreError::WrongSize => tell_refusal(alloc, 3, "WrongSize"),
        RestoreError::Device => tell_refusal(alloc, 4, "Device"),
        RestoreError::Memory => tell_refusal(alloc, 5, "Memory"),
    }
}

// What is told of the answer to a restore.
fn tell_found(alloc: Global, found: Found) -> Result<Told, AllocError>
    ensures { IfOk result (IsTold (found_kind found) (found_fields found)) }
{
    match found {
        Found::Image {
            generation,
            count,
            verdict,
        } => tell_image(alloc, generation, count, verdict),
        Found::Refused(error) => tell_refused(alloc, error),
    }
}

// What is told of an outcome: how often it was found, what a restore answered, and how many of the acknowledged writes that holds.
fn tell_row(alloc: Global, row: &OutcomeCount) -> Result<Told, AllocError>
    ensures { IfOk result (IsTold (codes "outcome") (row_fields row.now)) }
{
    let restore = tell_found(alloc, row.outcome.found)?;
    let held = row.outcome.held();
    let parts = [
        Part::Word("\n"),
        Part::Aligned("times", row.times, 8),
        Part::Word(" "),
        Part::Within("restore", &restore),
        Part::Word(", acknowledged "),
        Part::Number("held", held),
        Part::Word(" of "),
        Part::Number("acknowledged", row.outcome.told),
    ];
    tell(alloc, "outcome", &parts)
}

fn tell_rows(alloc: Global, rows: &[OutcomeCount]) -> Result<Vec<Told>, AllocError>
    ensures { IfOk result (λ told. AreTold (codes "outcome") (map row_fields rows.now) told.items) }
{
    let mut told = Vec::new(alloc);
    for row in rows {
        told.push(tell_row(alloc, row)?)?;
    }
    Ok(told)
}

// What is told of lines one behind another whose stops have the same outcomes.
fn tell_block(alloc: Global, block: &Block) -> Result<Told, AllocError>
    ensures { IfOk result (IsTold (codes "lines") (block_fields block.now)) }
{
    let outcomes = tell_rows(alloc, &block.rows)?;
    if block.first == block.last {
        let parts = [
            Part::Word("line "),
            Part::Number("first", block.first),
            Part::HiddenNumber("last", block.last),
            Part::Each("outcomes", &outcomes),
        ];
        return tell(alloc, "lines", &parts);
    }
    let parts = [
        Part::Word("lines "),
        Part::Number("first", block.first),
        Part::Word(" to "),
        Part::Number("last", block.last),
        Part::Each("outcomes", &outcomes),
    ];
    tell(alloc, "lines", &parts)
}

// What is told of one stop of a line: behind how many calls of the device all is dark, or that mains are lost behind it.
fn tell_stop(alloc: Global, at_stop: &AtStop) -> Result<Told, AllocError>
    ensures { IfOk result (IsTold (codes "stop") (stop_fields at_stop.now)) }
{
    let outcomes = tell_rows(alloc, &at_stop.rows)?;
    match at_stop.stop {
        Stop::Dark { calls } => {
            let parts = [
                Part::Word("line "),
                Part::Number("line", at_stop.line),
                Part::Word(", "),
                Part::Name("stop", "dark"),
                Part::Word(" behind "),
                Part::Number("calls", calls),
                Part::Word(" device calls"),
                Part::Each("outcomes", &outcomes),
            ];
            tell(alloc, "stop", &parts)
        }
        Stop::Loss => {
            let parts = [
                Part::Word("line "),
                Part::Number("line", at_stop.line),
                Part::Word(", mains lost behind it"),
                Part::HiddenName("stop", "loss"),
                Part::Each("outcomes", &outcomes),
            ];
            tell(alloc, "stop", &parts)
        }
    }
}

// What is told of how much was tried, and what was missing.
fn tell_counts(alloc: Global, counts: &Counts) -> Result<Told, AllocError>
    ensures { IfOk result (IsTold (codes "stops") (counts_fields counts.now)) }
{
    let parts = [
        Part::Word("stops "),
        Part::Number("stops", counts.stops),
        Part::Word(", acknowledged writes missing: with Complete "),
        Part::Number("missing_with_complete", counts.complete),
        Part::Word(", with PossibleLoss "),
        Part::Number("missing_with_possible_loss", counts.possible),
    ];
    tell(alloc, "stops", &parts)
}

/// Writes one stop of a line, with an outcome on each line behind the first, or as an object.
pub fn write_stop<W: Write>(
    alloc: Global,
    at_stop: &AtStop,
    is_json: bool,
    writer: &mut W,
) -> Result<(), ScriptFault>
    ensures { OnOk result (Appends (W.contents writer.old) (W.contents writer.new)
        (fields_in is_json (codes "stop") (stop_fields at_stop.now))) }
{
    write_told(alloc, &tell_stop(alloc, at_stop)?, is_json, writer)
}

/// Writes how much was tried, and what was missing: a line, or its object.
pub fn write_counts<W: Write>(
    alloc: Global,
    counts: &Counts,
    is_json: bool,
    writer: &mut W,
) -> Result<(), ScriptFault>
    ensures { OnOk result (Appends (W.contents writer.old) (W.contents writer.new)
        (counts_in is_json counts.now)) }
{
    write_told(alloc, &tell_counts(alloc, counts)?, is_json, writer)
}

// Writes lines one behind another whose stops have the same outcomes.
fn write_block<W: Write>(
    alloc: Global,
    block: &Block,
    is_json: bool,
    writer: &mut W,
) -> Result<(), ScriptFault>
    ensures { OnOk result (Appends (W.contents writer.old) (W.contents writer.new)
        (block_in is_json block.now)) }
{
    write_told(alloc, &tell_block(alloc, block)?, is_json, writer)
}

fn write_blocks<W: Write>(
    alloc: Global,
    blocks: &[Block],
    is_json: bool,
    writer: &mut W,
) -> Result<(), ScriptFault>
    ensures { OnOk result (Appends (W.contents writer.old) (W.contents writer.new)
        (blocks_in is_json blocks.now)) }
{
    for block in blocks {
        write_block(alloc, block, is_json, writer)?;
    }
    Ok(())
}

/// Writes a table: each block of it, and its counts.
pub fn write_table<W: Write>(
    alloc: Global,
    table: &Table,
    is_json: bool,
    writer: &mut W,
) -> Result<(), ScriptFault>
    ensures { OnOk result (Appends (W.contents writer.old) (W.contents writer.new)
        (table_in is_json table.now)) }
{
    write_blocks(alloc, table.blocks(), is_json, writer)?;
    write_counts(alloc, &table.counts(), is_json, writer)
}
