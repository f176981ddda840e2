// Scripts on a store, whose device they begin with and leave there.
ghost use Rattle.std.specs.Prelude.{◌≡◌, IfErr, IfOk, IfSome, OnOk, length};
ghost use Rattle.save_device.specs.Memory.{state_of};
ghost use Rattle.script_runner.specs.Ended.{nothing};
ghost use Rattle.script_runner.specs.Scripts.{IsBadText};
ghost use Rattle.script_runner.specs.Story.{GoesOn};
ghost use Rattle.script_runner.specs.Wiring.{IsMapOf, IsWiredFor};
ghost use Rattle.store_file.specs.Stores.{IfHas, device_in};
ghost use Rattle.run_command.specs.Stored.{IfHad, IsSpared, RunsOnStore, RunsScriptOn, size_for};
ghost use Rattle.run_command.specs.Whole.{RunsWhole};

use crate::printer::AnswerPrinter;
use channel_port::ChannelPort;
use ddr4_port::Ddr4Port;
use file_device::OpenFault;
use interleave_map::cells::line_count;
use interleave_map::line_map::LineMap;
use nv_profile::Profile;
use nv_script::{ScriptFault, read_script};
use nv_session::Wires;
use save_device::{MemoryDevice, SaveDevice};
use script_runner::{CommandBook, Report, Wiring, do_lines_on};
use slot_store::device_size;
use std::alloc::{AllocError, Global};
use std::io::{self, ErrorKind, Write};
use std::rt::Files;
use store_file::{Form, Store, device_bytes, store_bytes};

/// Why a run on a store came to no end, or why it left nothing there.
#[derive(Clone, Copy, Debug)]
pub enum StoredFault {
    /// The store isn't read, or isn't replaced.
    Store(OpenFault),
    Script(ScriptFault),
}

impl From<ScriptFault> for StoredFault {
    fn from(fault: ScriptFault) -> StoredFault {
        StoredFault::Script(fault)
    }
}

impl From<OpenFault> for StoredFault {
    fn from(fault: OpenFault) -> StoredFault {
        StoredFault::Store(fault)
    }
}

impl From<io::Error> for StoredFault {
    fn from(error: io::Error) -> StoredFault {
        StoredFault::Store(OpenFault::Io(error))
    }
}

impl From<AllocError> for StoredFault {
    fn from(_: AllocError) -> StoredFault {
        StoredFault::Script(ScriptFault::Memory)
    }
}

/// Runs a script over two lawful maps of the profile's geometry, on a device that begins with these bytes, with the answers to a report.
/// Answers the device as the script left it, and a new book has the commands of the script's lives. A script with a bad line runs nothing.
pub fn report_on_bytes<'m, M: LineMap, R: Report>(
    alloc: Global,
    profile: &Profile,
    script: &[u8],
    lines_map: &'m M,
    xor_map: &'m M,
    bytes: Vec<u8>,
    report: &mut R,
    book: &mut CommandBook,
) -> Result<MemoryDevice, ScriptFault>
    requires lines_map { IsMapOf M.LineMap profile.now.checked.geometry lines_map.now }
    requires xor_map { IsMapOf M.LineMap profile.now.checked.geometry xor_map.now }
    requires size { length bytes.items ≡ size_for profile.now }
    requires book { IfSome book.old (λ kept. kept ≡ nothing) }
    ensures runs { IfOk result (λ device. RunsScriptOn ⟦<Ddr4Port<'m, M> as ChannelPort>⟧
        ⟦<Wiring<'m, M> as Wires<Ddr4Port<'m, M>>>⟧
        (IsWiredFor lines_map.now xor_map.now profile.now) profile.now
        bytes.items script.now (R.answers report.old) (R.answers report.new) book.new device) }
    ensures continued { OnOk result (GoesOn R.continues report.old report.new) }
    ensures bad { IfErr result (IsBadText profile.now.checked.geometry script.now) }
{
    let lines = read_script(alloc, script, &profile.checked.geometry)?;
    let device = MemoryDevice::new(alloc, bytes)?;
    do_lines_on(
        alloc, profile, &lines, lines_map, xor_map, device, report, book,
    )
}

/// The bytes of a device, as a read gives them.
pub(crate) fn bytes_of_device(
    alloc: Global,
    mut device: MemoryDevice,
) -> Result<Vec<u8>, AllocError>
    ensures { IfOk result (λ bytes. bytes.items ≡ (state_of device).bytes) }
{
    let mut bytes = Vec::from_elem(alloc, 0, device.len())?;
    let _done = device.read(0, &mut bytes);
    Ok(bytes)
}

// The device that a store has, and the store's form.
#[derive(Drop)]
struct Begun {
    bytes: Vec<u8>,
    form: Form,
}

// The device of so many bytes that a store has.
fn begin<S: Store>(alloc: Global, size: usize, store: &mut S) -> Result<Begun, StoredFault>
    ensures size { IfOk result (λ begun. length begun.bytes.items ≡ size) }
    ensures is { IfOk result (λ begun.
        IfHas (λ kept. begun.bytes.items ≡ device_in size kept) (S.kept store.old)) }
    ensures same { S.kept store.new ≡ S.kept store.old }
{
    let bytes = store.load(alloc, size)?;
    let form = Form::of(bytes.len(), size);
    match device_bytes(bytes, size) {
        Some(bytes) => Ok(Begun { bytes, form }),
        None => Err(StoredFault::from(io::Error::from(ErrorKind::InvalidData))),
    }
}

// Leaves a device of so many bytes in a store of this form.
fn leave<S: Store, R: Files + AllocGlobal>(
    rt: &R,
    device: MemoryDevice,
    size: usize,
    form: Form,
    store: &mut S,
) -> Result<(), StoredFault>
    ensures left { OnOk result
        (IfHas (λ kept. device_in size kept ≡ (state_of device).bytes) (S.kept store.new)) }
    ensures spared { IfErr result (λ fault. IsSpared fault (S.kept store.new ≡ S.kept store.old)
        (IfHas (λ kept. device_in size kept ≡ (state_of device).bytes) (S.kept store.new))) }
{
    let device = bytes_of_device(rt.alloc(), device)?;
    if device.len() != size {
        return Err(StoredFault::from(io::Error::from(ErrorKind::InvalidData)));
    }
    let bytes = store_bytes(rt.alloc(), &device, form)?;
    match store.replace(rt, &bytes) {
        Ok(()) => Ok(()),
        Err(error) => Err(StoredFault::Store(OpenFault::Io(error))),
    }
}

/// Runs a script on the device that a store has, with the answers to a printer. Once they are written out, the store has the device as the
/// script left it, and a new book the commands of the script's lives. Where the run comes to no end, the store stays as it was; where
/// only its replacing fails, it may have been replaced.
pub fn run_on_store<'m, 'w, M: LineMap, S: Store, R: Files + AllocGlobal, W: Write>(
    rt: &R,
    profile: &Profile,
    script: &[u8],
    lines_map: &'m M,
    xor_map: &'m M,
    store: &mut S,
    printer: &mut AnswerPrinter<'w, W>,
    book: &mut CommandBook,
) -> Result<(), StoredFault>
    requires lines_map { IsMapOf M.LineMap profile.now.checked.geometry lines_map.now }
    requires xor_map { IsMapOf M.LineMap profile.now.checked.geometry xor_map.now }
    requires book { IfSome book.old (λ kept. kept ≡ nothing) }
    ensures whole { OnOk result (RunsWhole profile.now script.now
        (⟦<AnswerPrinter<'w, W> as Report>⟧.answers printer.old)
        (⟦<AnswerPrinter<'w, W> as Report>⟧.answers printer.new)) }
    ensures continued { OnOk result (GoesOn ⟦<AnswerPrinter<'w, W> as Report>⟧.continues
        printer.old printer.new) }
    ensures stored { OnOk result (IfHad (RunsOnStore ⟦<Ddr4Port<'m, M> as ChannelPort>⟧
        ⟦<Wiring<'m, M> as Wires<Ddr4Port<'m, M>>>⟧
        (IsWiredFor lines_map.now xor_map.now profile.now) profile.now script.now
        (⟦<AnswerPrinter<'w, W> as Report>⟧.answers printer.old)
        (⟦<AnswerPrinter<'w, W> as Report>⟧.answers printer.new) book.new)
        (S.kept store.old) (S.kept store.new)) }
    ensures spared { IfErr result (λ fault. IsSpared fault (S.kept store.new ≡ S.kept store.old)
        (IfHad (RunsOnStore ⟦<Ddr4Port<'m, M> as ChannelPort>⟧
        ⟦<Wiring<'m, M> as Wires<Ddr4Port<'m, M>>>⟧
        (IsWiredFor lines_map.now xor_map.now profile.now) profile.now script.now
        (⟦<AnswerPrinter<'w, W> as Report>⟧.answers printer.old)
        (⟦<AnswerPrinter<'w, W> as Report>⟧.answers printer.new) book.new)
        (S.kept store.old) (S.kept store.new))) }
{
    let alloc = rt.alloc();
    let size = device_size(line_count(&profile.checked) as usize);
    let Begun { bytes, form } = begin(alloc, size, store)?;
    let device = report_on_bytes(
        alloc, profile, script, lines_map, xor_map, bytes, printer, book,
    )?;
    printer.flush()?;
    leave(rt, device, size, form, store)
}
