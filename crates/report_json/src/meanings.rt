// What a profile means.
ghost use Rattle.std.specs.Prelude.{◌≡◌, ◌≤◌, IfOk, OnOk, codes};
ghost use Rattle.std.specs.Io.KnownBytes.{Appends};
ghost use Rattle.report_fields.specs.Fields.{fields_in};
ghost use Rattle.report_fields.specs.Parts.{AreTold, IsTold};
ghost use Rattle.report_json.specs.Meanings.{command_meaning_fields, meaning_fields, save_fields, saves_fields};

use crate::written::write_told;
use energy_budget::Costs;
use nv_script::ScriptFault;
use profile_report::{CommandMeaning, Meaning};
use report_fields::{Part, Told, tell};
use std::alloc::{AllocError, Global};
use std::io::Write;

// What a save of so many pending writes takes.
fn tell_save(alloc: Global, costs: &Costs, pending: u64) -> Result<Told, AllocError>
    requires { pending ≤ 1024 }
    ensures { IfOk result (IsTold (codes "save") (save_fields costs.now pending)) }
{
    let steps = costs.steps(pending);
    let reserve = costs.reserve(pending);
    let floor = costs.floor(pending);
    let least = costs.need(pending);
    let parts = [
        Part::Word("\n"),
        Part::Word("pending "),
        Part::Number("pending", pending),
        Part::Word(": steps "),
        Part::Number("steps", steps),
        Part::Word(", reserve "),
        Part::Number("reserve", reserve),
        Part::Word(", floor "),
        Part::Number("floor", floor),
        Part::Word(", least reading "),
        Part::Number("least_reading", least),
    ];
    tell(alloc, "save", &parts)
}

// The saves that are told of a profile.
fn tell_saves(alloc: Global, meaning: &Meaning) -> Result<Vec<Told>, AllocError>
    ensures { IfOk result (λ saves.
        AreTold (codes "save") (saves_fields meaning.now) saves.items) }
{
    let mut saves = Vec::new(alloc);
    for pending in meaning.pending() {
        if let Some(pending) = pending {
            saves.push(tell_save(alloc, &meaning.costs, pending)?)?;
        }
    }
    Ok(saves)
}

// What a profile means: its lines, channels and map, the bytes of its device, the most clocks of an entry and of a close step, and
// what saves take.
fn tell_meaning(alloc: Global, meaning: &Meaning) -> Result<Told, AllocError>
    ensures { IfOk result (IsTold (codes "profile") (meaning_fields meaning.now)) }
{
    let map = meaning.profile.map.to_string(alloc)?;
    let saves = tell_saves(alloc, meaning)?;
    let parts = [
        Part::Word("lines "),
        Part::Number("lines", meaning.lines),
        Part::Word(" on "),
        Part::Number("channels", meaning.profile.checked.geometry.channels),
        Part::Word(" channels, map "),
        Part::Name("map", &map),
        Part::Word("\n"),
        Part::Word("device "),
        Part::Number("device_bytes", meaning.device_bytes),
        Part::Word(" bytes"),
        Part::Word("\n"),
        Part::Word("entry "),
        Part::Number("entry", meaning.entry),
        Part::Word(" clocks"),
        Part::Word("\n"),
        Part::Word("close step "),
        Part::Number("close", meaning.close),
        Part::Word(" clocks"),
        Part::Each("saves", &saves),
    ];
    tell(alloc, "profile", &parts)
}

// What numbers for commands alone mean: the channels, of each its ranks and banks, and the rows and columns of a bank.
fn tell_command_meaning(alloc: Global, meaning: &CommandMeaning) -> Result<Told, AllocError>
    ensures { IfOk result (IsTold (codes "rules") (command_meaning_fields meaning.now)) }
{
    let geometry = &meaning.rules.geometry;
    let parts = [
        Part::Word("commands on "),
        Part::Number("channels", geometry.channels),
        Part::Word(" channels, of each ranks "),
        Part::Number("ranks", geometry.ranks),
        Part::Word(", banks "),
        Part::Number("banks", meaning.banks),
        Part::Word("\n"),
        Part::Word("of each bank rows "),
        Part::Number("rows", geometry.rows),
        Part::Word(", columns "),
        Part::Number("columns", geometry.columns),
        Part::Word("\n"),
        Part::Word("no module: no tables costs and module"),
    ];
    tell(alloc, "rules", &parts)
}

/// Writes what a profile means: a line for each number, or an object.
pub fn write_meaning<W: Write>(
    alloc: Global,
    meaning: &Meaning,
    is_json: bool,
    writer: &mut W,
) -> Result<(), ScriptFault>
    ensures { OnOk result (Appends (W.contents writer.old) (W.contents writer.new)
        (fields_in is_json (codes "profile") (meaning_fields meaning.now))) }
{
    write_told(alloc, &tell_meaning(alloc, meaning)?, is_json, writer)
}

/// Writes what numbers for commands alone mean: a line for what is checked and one for what isn't made, or an object.
pub fn write_command_meaning<W: Write>(
    alloc: Global,
    meaning: &CommandMeaning,
    is_json: bool,
    writer: &mut W,
) -> Result<(), ScriptFault>
    ensures { OnOk result (Appends (W.contents writer.old) (W.contents writer.new)
        (fields_in is_json (codes "rules") (command_meaning_fields meaning.now))) }
{
    write_told(
        alloc,
        &tell_command_meaning(alloc, meaning)?,
        is_json,
        writer,
    )
}
