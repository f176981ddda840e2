// The lives of a run, and how long their requests waited.
ghost use Rattle.std.specs.Prelude.{◌≡◌, IfOk, OnOk, codes};
ghost use Rattle.std.specs.Io.KnownBytes.{Appends};
ghost use Rattle.report_fields.specs.Fields.{fields_in};
ghost use Rattle.report_fields.specs.Parts.{IsTold};
ghost use Rattle.statistics_report.specs.Waits.{life_fields, waits_fields};

use crate::written::write_of_trace;
use command_trace::TraceFault;
use report_fields::{Part, Told, tell};
use request_waits::Waits;
use std::alloc::{AllocError, Global};
use std::io::Write;

/// How long requests of one kind waited in a life, and how many of them still wait at its end.
#[derive(Clone, Copy, Debug)]
pub struct KindWaits {
    pub waits: Option<Waits>,
    pub waiting: usize,
}

// What is told of a life before its statistics: its number.
fn tell_life(alloc: Global, number: u64) -> Result<Told, AllocError>
    ensures { IfOk result (IsTold (codes "life") (life_fields number)) }
{
    let parts = [Part::Word("life "), Part::Number("life", number)];
    tell(alloc, "life", &parts)
}

// What is told of requests of this kind that waited.
fn tell_waits(alloc: Global, kind: &str, waits: &KindWaits) -> Result<Told, AllocError>
    ensures { IfOk result (IsTold (codes "waits") (waits_fields kind.now waits.now)) }
{
    let waiting = waits.waiting as u64;
    let Some(known) = waits.waits else {
        let parts = [
            Part::Name("kind", kind),
            Part::Word(" "),
            Part::Number("count", 0),
            Part::Word(" waiting "),
            Part::Number("waiting", waiting),
        ];
        return tell(alloc, "waits", &parts);
    };
    let parts = [
        Part::Name("kind", kind),
        Part::Word(" "),
        Part::Number("count", known.count as u64),
        Part::Word(" waiting "),
        Part::Number("waiting", waiting),
        Part::Word(" least "),
        Part::Number("least", known.least),
        Part::Word(" median "),
        Part::Number("median", known.median),
        Part::Word(" p99 "),
        Part::Number("p99", known.p99),
        Part::Word(" most "),
        Part::Number("most", known.most),
    ];
    tell(alloc, "waits", &parts)
}

/// Writes the number of a life of a run: a line, or its object.
pub fn write_life<W: Write>(
    alloc: Global,
    number: u64,
    is_json: bool,
    writer: &mut W,
) -> Result<(), TraceFault>
    ensures { OnOk result (Appends (W.contents writer.old) (W.contents writer.new)
        (fields_in is_json (codes "life") (life_fields number))) }
{
    write_of_trace(alloc, &tell_life(alloc, number)?, is_json, writer)
}

/// Writes how long the requests of this kind waited in a life: a line, or its object.
pub fn write_waits<W: Write>(
    alloc: Global,
    kind: &str,
    waits: &KindWaits,
    is_json: bool,
    writer: &mut W,
) -> Result<(), TraceFault>
    ensures { OnOk result (Appends (W.contents writer.old) (W.contents writer.new)
        (fields_in is_json (codes "waits") (waits_fields kind.now waits.now))) }
{
    write_of_trace(alloc, &tell_waits(alloc, kind, waits)?, is_json, writer)
}
