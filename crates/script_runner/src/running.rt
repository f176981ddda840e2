// Scripts over two maps of a profile.
ghost use Rattle.std.specs.Prelude.{◌≡◌, List, [], IfErr, IfOk, IfSome, OnOk, All};
ghost use Rattle.ddr4_timing.specs.Limits.{lines_of};
ghost use Rattle.save_device.specs.Device.{IsSettled};
ghost use Rattle.save_device.specs.Memory.{state_of};
ghost use Rattle.slot_store.specs.Slots.{HasSize};
ghost use Rattle.nv_script.specs.declared.answer.Answer.{Answer};
ghost use Rattle.nv_script.specs.Line.{NamesChannelOf};
ghost use Rattle.script_runner.specs.Ended.{IsKeptOf, nothing};
ghost use Rattle.script_runner.specs.Wiring.{IsMapOf, IsWiredFor};
ghost use Rattle.script_runner.specs.Runs.{IsKeptRun, IsKeptRunOn, IsRun};
ghost use Rattle.script_runner.specs.Scripts.{EndsScript, EndsScriptBy, IsBadText, RunsScript};
ghost use Rattle.script_runner.specs.Story.{AreAllAnswered, AreCutShort, EndsBy, GoesOn};

use crate::book::CommandBook;
use crate::report::{Printer, Report};
use crate::script::{answer_lines, note_last};
use crate::wiring::Wiring;
use channel_port::ChannelPort;
use ddr4_port::Ddr4Port;
use interleave_map::cells::line_count;
use interleave_map::line_map::LineMap;
use nv_profile::Profile;
use nv_script::{ScriptFault, ScriptLine, read_script};
use nv_session::{Session, Wires};
use save_device::MemoryDevice;
use slot_store::device_size;
use std::alloc::Global;
use std::io::Write;

/// Runs lines, which name channels that exist, on a session over two lawful maps of the profile's geometry, and reports their
/// answers. From a format on each answer is true by the ones before it: a write's number is its place among the accepted
/// writes, a read has its line of the memory after them, within a life no mark falls, and a restore finds a prefix of them,
/// told Complete one that holds all that were told to be persistent, also behind one that was refused. Each line has all its
/// answers; where the report or memory gives out, so have the lines before that one. It gives the fault by which the report
/// refused an answer, or `Memory` where it refused none. Answers the device as the lines left it.
pub fn run_lines<M: LineMap, R: Report>(
    alloc: Global,
    profile: &Profile,
    lines: &[ScriptLine],
    lines_map: &M,
    xor_map: &M,
    report: &mut R,
) -> Result<MemoryDevice, ScriptFault>
    requires lines { All (NamesChannelOf profile.now.checked.geometry) lines.now }
    requires lines_map { IsMapOf M.LineMap profile.now.checked.geometry lines_map.now }
    requires xor_map { IsMapOf M.LineMap profile.now.checked.geometry xor_map.now }
    ensures answered { OnOk result (AreAllAnswered (lines_of profile.now.checked.geometry)
        lines.now (R.answers report.old) (R.answers report.new)) }
    ensures cut { IfErr result (λ fault. AreCutShort (lines_of profile.now.checked.geometry)
        lines.now (R.answers report.old) (R.answers report.new)) }
    ensures unrefused { OnOk result (R.refusals report.new ≡ R.refusals report.old) }
    ensures continued { OnOk result (GoesOn R.continues report.old report.new) }
    ensures fault { IfErr result (λ fault. EndsBy fault
        (R.refusals report.old) (R.refusals report.new)) }
{
    do_lines(alloc, profile, lines, lines_map, xor_map, report)
}

/// Runs lines as `run_lines` does, which makes this call, on a device of zero bytes, as `do_lines_kept` does.
pub fn do_lines<'m, M: LineMap, R: Report>(
    alloc: Global,
    profile: &Profile,
    lines: &[ScriptLine],
    lines_map: &'m M,
    xor_map: &'m M,
    report: &mut R,
) -> Result<MemoryDevice, ScriptFault>
    requires lines { All (NamesChannelOf profile.now.checked.geometry) lines.now }
    requires lines_map { IsMapOf M.LineMap profile.now.checked.geometry lines_map.now }
    requires xor_map { IsMapOf M.LineMap profile.now.checked.geometry xor_map.now }
    ensures answered { OnOk result (AreAllAnswered (lines_of profile.now.checked.geometry)
        lines.now (R.answers report.old) (R.answers report.new)) }
    ensures runs { IfOk result (λ device. IsRun ⟦<Ddr4Port<'m, M> as ChannelPort>⟧
        ⟦<Wiring<'m, M> as Wires<Ddr4Port<'m, M>>>⟧
        (IsWiredFor lines_map.now xor_map.now profile.now) profile.now
        lines.now (R.answers report.old) (R.answers report.new) device) }
    ensures cut { IfErr result (λ fault. AreCutShort (lines_of profile.now.checked.geometry)
        lines.now (R.answers report.old) (R.answers report.new)) }
    ensures unrefused { OnOk result (R.refusals report.new ≡ R.refusals report.old) }
    ensures continued { OnOk result (GoesOn R.continues report.old report.new) }
    ensures fault { IfErr result (λ fault. EndsBy fault
        (R.refusals report.old) (R.refusals report.new)) }
{
    let mut book = CommandBook::closed(alloc);
    do_lines_kept(alloc, profile, lines, lines_map, xor_map, report, &mut book)
}

/// Runs lines on a device of zero bytes, as `do_lines_on` does.
pub fn do_lines_kept<'m, M: LineMap, R: Report>(
    alloc: Global,
    profile: &Profile,
    lines: &[ScriptLine],
    lines_map: &'m M,
    xor_map: &'m M,
    report: &mut R,
    book: &mut CommandBook,
) -> Result<MemoryDevice, ScriptFault>
    requires lines { All (NamesChannelOf profile.now.checked.geometry) lines.now }
    requires lines_map { IsMapOf M.LineMap profile.now.checked.geometry lines_map.now }
    requires xor_map { IsMapOf M.LineMap profile.now.checked.geometry xor_map.now }
    requires book { IfSome book.old (λ kept. kept ≡ nothing) }
    ensures answered { OnOk result (AreAllAnswered (lines_of profile.now.checked.geometry)
        lines.now (R.answers report.old) (R.answers report.new)) }
    ensures runs { IfOk result (λ device. IsKeptRun ⟦<Ddr4Port<'m, M> as ChannelPort>⟧
        ⟦<Wiring<'m, M> as Wires<Ddr4Port<'m, M>>>⟧
        (IsWiredFor lines_map.now xor_map.now profile.now) profile.now
        lines.now (R.answers report.old) (R.answers report.new) book.new device) }
    ensures kept { OnOk result (IfSome book.new (IsKeptOf lines.now
        (R.answers report.old) (R.answers report.new))) }
    ensures cut { IfErr result (λ fault. AreCutShort (lines_of profile.now.checked.geometry)
        lines.now (R.answers report.old) (R.answers report.new)) }
    ensures unrefused { OnOk result (R.refusals report.new ≡ R.refusals report.old) }
    ensures continued { OnOk result (GoesOn R.continues report.old report.new) }
    ensures fault { IfErr result (λ fault. EndsBy fault
        (R.refusals report.old) (R.refusals report.new)) }
{
    let size = device_size(line_count(&profile.checked) as usize);
    let bytes = Vec::from_elem(alloc, 0, size)?;
    let device = MemoryDevice::new(alloc, bytes)?;
    do_lines_on(
        alloc, profile, lines, lines_map, xor_map, device, report, book,
    )
}

/// Runs lines on a device that has the size for the profile's lines, and is settled. The session begins with no life and a gauge that
/// shows 0 and has no leak; it does line by line, each with the line's own words, and each answer tells of what its line did: the
/// answers are those of a chain of lives, and what the channels of the last one have issued keeps the timing rules. Answers the device
/// as the lines left it. A new book that is open has all commands that the channels of each life have issued, those of the one that runs
/// at the end too, and how many they were before each line and at the end: of as many lives as the answers tell to begin. Where memory gave
/// out for them it has none.
pub fn do_lines_on<'m, M: LineMap, R: Report>(
    alloc: Global,
    profile: &Profile,
    lines: &[ScriptLine],
    lines_map: &'m M,
    xor_map: &'m M,
    device: MemoryDevice,
    report: &mut R,
    book: &mut CommandBook,
) -> Result<MemoryDevice, ScriptFault>
    requires lines { All (NamesChannelOf profile.now.checked.geometry) lines.now }
    requires lines_map { IsMapOf M.LineMap profile.now.checked.geometry lines_map.now }
    requires xor_map { IsMapOf M.LineMap profile.now.checked.geometry xor_map.now }
    requires size { HasSize (lines_of profile.now.checked.geometry) (state_of device) }
    requires book { IfSome book.old (λ kept. kept ≡ nothing) }
    requires settled { IsSettled (state_of device) }
    ensures answered { OnOk result (AreAllAnswered (lines_of profile.now.checked.geometry)
        lines.now (R.answers report.old) (R.answers report.new)) }
    ensures runs { IfOk result (λ after. IsKeptRunOn ⟦<Ddr4Port<'m, M> as ChannelPort>⟧
        ⟦<Wiring<'m, M> as Wires<Ddr4Port<'m, M>>>⟧
        (IsWiredFor lines_map.now xor_map.now profile.now) profile.now (state_of device).bytes
        lines.now (R.answers report.old) (R.answers report.new) book.new after) }
    ensures kept { OnOk result (IfSome book.new (IsKeptOf lines.now
        (R.answers report.old) (R.answers report.new))) }
    ensures cut { IfErr result (λ fault. AreCutShort (lines_of profile.now.checked.geometry)
        lines.now (R.answers report.old) (R.answers report.new)) }
    ensures unrefused { OnOk result (R.refusals report.new ≡ R.refusals report.old) }
    ensures continued { OnOk result (GoesOn R.continues report.old report.new) }
    ensures fault { IfErr result (λ fault. EndsBy fault
        (R.refusals report.old) (R.refusals report.new)) }
{
    let wiring = Wiring::new(lines_map, xor_map, profile).with_commands(book.is_open());
    let mut session = Session::over(device, profile, wiring);
    answer_lines(alloc, &mut session, lines, report, book)?;
    note_last(&session, book);
    Ok(session.into_device())
}

/// Reads a script and runs its lines as `do_lines` does, and reports their answers. `Line` names the first line that is none, and
/// comes before any line is run.
pub fn answer_script<'m, M: LineMap, R: Report>(
    alloc: Global,
    profile: &Profile,
    script: &[u8],
    lines_map: &'m M,
    xor_map: &'m M,
    report: &mut R,
) -> Result<MemoryDevice, ScriptFault>
    requires lines_map { IsMapOf M.LineMap profile.now.checked.geometry lines_map.now }
    requires xor_map { IsMapOf M.LineMap profile.now.checked.geometry xor_map.now }
    ensures runs { IfOk result (λ device. RunsScript ⟦<Ddr4Port<'m, M> as ChannelPort>⟧
        ⟦<Wiring<'m, M> as Wires<Ddr4Port<'m, M>>>⟧
        (IsWiredFor lines_map.now xor_map.now profile.now) profile.now
        script.now (R.answers report.old) (R.answers report.new) device) }
    ensures ends { IfErr result (λ fault. EndsScript profile.now.checked.geometry script.now fault
        (R.answers report.old) (R.answers report.new)) }
    ensures unrefused { OnOk result (R.refusals report.new ≡ R.refusals report.old) }
    ensures continued { OnOk result (GoesOn R.continues report.old report.new) }
    ensures fault { IfErr result (λ fault. EndsScriptBy fault
        (R.refusals report.old) (R.refusals report.new)) }
{
    let lines = read_script(alloc, script, &profile.checked.geometry)?;
    do_lines(alloc, profile, &lines, lines_map, xor_map, report)
}

/// Reads a script, runs it over two lawful maps of the profile's geometry as `answer_script` does, and writes each answer as a
/// line. Answers the device as the script left it. A script with a bad line writes nothing.
pub fn run_script<'m, M: LineMap, W: Write>(
    alloc: Global,
    profile: &Profile,
    script: &[u8],
    lines_map: &'m M,
    xor_map: &'m M,
    writer: &mut W,
) -> Result<MemoryDevice, ScriptFault>
    requires lines_map { IsMapOf M.LineMap profile.now.checked.geometry lines_map.now }
    requires xor_map { IsMapOf M.LineMap profile.now.checked.geometry xor_map.now }
    ensures runs { IfOk result (λ device. (answers : List Answer)
        × RunsScript ⟦<Ddr4Port<'m, M> as ChannelPort>⟧
        ⟦<Wiring<'m, M> as Wires<Ddr4Port<'m, M>>>⟧
        (IsWiredFor lines_map.now xor_map.now profile.now) profile.now
        script.now [] answers device) }
    ensures bad { IfErr result (IsBadText profile.now.checked.geometry script.now) }
{
    let mut printer = Printer::new(writer);
    answer_script(alloc, profile, script, lines_map, xor_map, &mut printer)
}
