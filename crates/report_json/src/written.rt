// What is told, written as a line.
ghost use Rattle.std.specs.Prelude.{◌⊎◌, ◌≡◌, IfErr, OnOk};
ghost use Rattle.std.specs.Io.KnownBytes.{Appends};
ghost use Rattle.nv_script.specs.declared.reading.ScriptFault.TheVariants as fault;
ghost use Rattle.report_fields.specs.Parts.{told_in};

use nv_script::ScriptFault;
use report_fields::Told;
use std::alloc::Global;
use std::io::Write;

/// Writes what is told: its line, or its object as a line.
pub(crate) fn write_told<W: Write>(
    alloc: Global,
    told: &Told,
    is_json: bool,
    writer: &mut W,
) -> Result<(), ScriptFault>
    ensures written { OnOk result (Appends (W.contents writer.old) (W.contents writer.new)
        (told_in is_json told.now)) }
    ensures fault { IfErr result (λ why. (why ≡ fault.Writer) ⊎ (why ≡ fault.Memory)) }
{
    let text = told.written(alloc, is_json)?;
    match writer.write_all(text.as_bytes()) {
        Ok(()) => Ok(()),
        Err(_) => Err(ScriptFault::Writer),
    }
}
