// What is told of a trace, written as a line.
ghost use Rattle.std.specs.Prelude.{OnOk};
ghost use Rattle.std.specs.Io.KnownBytes.{Appends};
ghost use Rattle.report_fields.specs.Parts.{told_in};

use command_trace::TraceFault;
use report_fields::Told;
use std::alloc::Global;
use std::io::Write;

/// Writes what is told of a trace or of a list of commands: its line, or its object as a line.
pub fn write_of_trace<W: Write>(
    alloc: Global,
    told: &Told,
    is_json: bool,
    writer: &mut W,
) -> Result<(), TraceFault>
    ensures { OnOk result (Appends (W.contents writer.old) (W.contents writer.new)
        (told_in is_json told.now)) }
{
    let text = told.written(alloc, is_json)?;
    match writer.write_all(text.as_bytes()) {
        Ok(()) => Ok(()),
        Err(_) => Err(TraceFault::Writer),
    }
}
