// A script, run.
ghost use Rattle.std.specs.Prelude.{◌≡◌, ◌⊎◌, [], None, false, IfOk, IfSome, IsErrAnd, OnOk};
ghost use Rattle.command_faults.specs.Exit.{status_of};
ghost use Rattle.command_faults.specs.Named.{OfScriptNamed};
ghost use Rattle.run_command.specs.Refused.{NamesNoCommands, NamesNoStore};
ghost use Rattle.run_command.specs.Whole.{IsRunTold, RunsWhole, WritesRun};
ghost use Rattle.script_runner.specs.Ended.{nothing};
ghost use Rattle.script_runner.specs.Story.{GoesOn};

use crate::lives::write_lives;
use crate::maps::report_on_maps;
use crate::printer::AnswerPrinter;
use crate::refused::{commands_refusal, refusal};
use crate::statistics::write_behind;
use crate::stored::{StoredFault, bytes_of_device, run_on_store};
use command_faults::{Failure, FileHost, ProgramFault, Reason, profile_of};
use file_device::OpenFault;
use interleave_map::{Interleaving, ReadyMap};
use nv_profile::Profile;
use nv_script::{Answer, SCRIPT_BYTES};
use save_device::MemoryDevice;
use script_runner::{CommandBook, Report};
use std::alloc::Global;
use std::io::{ErrorKind, Write};
use std::rt::Files;
use store_file::{StoreHost, leave_file};

/// A file for the bytes of a device.
#[derive(Clone, Copy, Drop)]
pub enum StoreWord<'a> {
    /// It gets those behind the last line.
    Out(&'a str),
    /// The run begins with those that it has, and leaves its own there.
    Kept(&'a str),
}

/// What the words of a run name.
#[derive(Clone, Copy, Drop)]
pub struct RunWords<'a> {
    /// `tiny`, `tiny2`, or a profile's file.
    pub profile: &'a str,
    /// The script's file, or `-` for standard input.
    pub script: &'a str,
    pub store: Option<StoreWord<'a>>,
    /// Whether the answers are written as JSON.
    pub is_json: bool,
    /// Whether the statistics of each of the script's lives are written behind the answers.
    pub stats: bool,
    /// A file for all commands of the script's first life. Those of its later lives have files beside it.
    pub commands: Option<&'a str>,
}

/// Runs the script that the words name, with the answers to a writer, writes the device's bytes to the file of the store then, the
/// statistics of the script's lives behind the answers, and last their commands to their files. Words that name no file for a store
/// or for commands are refused with nothing written.
pub fn run_named<'a, R, W>(rt: &R, words: RunWords<'a>, writer: &mut W) -> Result<(), Failure<'a>>
where
    R: Files + FileHost + StoreHost + AllocGlobal,
    W: Write,
    ensures refused { NamesNoStore words.entry ⊎ NamesNoCommands words.entry
        → (writer.new ≡ writer.old)
        × IsErrAnd result (λ failure. status_of failure.fault ≡ 2) }
    ensures run { IfOk result (λ _. OfScriptNamed (R.gives rt.now)
        words.entry.profile.now words.entry.script.now
        (IsRunTold words.entry.is_json words.entry.stats
        (W.contents writer.old) (W.contents writer.new))) }
{
    if let Some(store) = words.store {
        if let Some(fault) = refusal(rt, store, words.profile, words.script) {
            return Err(Failure::from(fault));
        }
    }
    if let Some(fault) = commands_refusal(rt, words) {
        return Err(Failure::from(fault));
    }
    run_allowed(rt, words, writer)
}

// The same, with words that name files for all that is to be written.
fn run_allowed<'a, R, W>(rt: &R, words: RunWords<'a>, writer: &mut W) -> Result<(), Failure<'a>>
where
    R: Files + FileHost + StoreHost + AllocGlobal,
    W: Write,
    ensures { IfOk result (λ _. OfScriptNamed (R.gives rt.now)
        words.entry.profile.now words.entry.script.now
        (IsRunTold words.entry.is_json words.entry.stats
        (W.contents writer.old) (W.contents writer.new))) }
{
    let profile = profile_of(rt, words.profile)?;
    // as far as a good script can need them
    let script = rt.bytes_of(words.script, SCRIPT_BYTES)?;
    run_read(rt, &profile, &script, words, writer)
}

// The same, of a profile and a script that were read.
fn run_read<'a, R, W>(
    rt: &R,
    profile: &Profile,
    script: &[u8],
    words: RunWords<'a>,
    writer: &mut W,
) -> Result<(), Failure<'a>>
where
    R: Files + StoreHost + AllocGlobal,
    W: Write,
    ensures { IfOk result (λ _. IsRunTold words.entry.is_json words.entry.stats
        (W.contents writer.old) (W.contents writer.new) profile.now script.now) }
{
    let mut book = book_for(rt.alloc(), words);
    let answers = run_words(rt, profile, script, words, writer, &mut book)?;
    if !keeps_commands(words) {
        return Ok(());
    }
    let Some(run) = book.into_run() else {
        return Err(Failure::from(ProgramFault::Memory));
    };
    write_behind(
        rt.alloc(),
        profile,
        script,
        answers,
        &run,
        words.is_json,
        writer,
    )?;
    match words.commands {
        Some(name) => write_lives(rt, run.lives(), name),
        None => Ok(()),
    }
}

// Are the commands of a run with these words to be kept?
fn keeps_commands(words: RunWords<'_>) -> bool {
    words.stats || words.commands.is_some()
}

// The book of a run, whose commands are kept if they are asked for.
fn book_for(alloc: Global, words: RunWords<'_>) -> CommandBook
    ensures { IfSome result (λ kept. kept ≡ nothing) }
{
    if keeps_commands(words) {
        CommandBook::open(alloc)
    } else {
        CommandBook::closed(alloc)
    }
}

// Runs a script as the words say, all but its commands and statistics, and writes out the answers. Those that statistics are to be
// made of come back.
fn run_words<'a, R, W>(
    rt: &R,
    profile: &Profile,
    script: &[u8],
    words: RunWords<'a>,
    writer: &mut W,
    book: &mut CommandBook,
) -> Result<Option<Vec<Answer>>, Failure<'a>>
where
    R: Files + StoreHost + AllocGlobal,
    W: Write,
    requires { IfSome book.old (λ kept. kept ≡ nothing) }
    ensures told { IfOk result (λ _. WritesRun words.entry.is_json
        (W.contents writer.old) (W.contents writer.new) profile.now script.now) }
    ensures alone { IfOk result (λ answers. words.entry.stats ≡ false → answers ≡ None) }
{
    let mut printer = printer_for(rt.alloc(), words, writer);
    run_to_store(rt, profile, script, words.store, &mut printer, book)?;
    let answers = kept_answers(rt.alloc(), words.stats, &printer)?;
    // the writer is as the printer leaves it
    let _writer = printer.into_writer();
    Ok(answers)
}

// A copy of the answers that a printer kept, where they are asked for.
fn kept_answers<'a, 'w, W: Write>(
    alloc: Global,
    is_asked: bool,
    printer: &AnswerPrinter<'w, W>,
) -> Result<Option<Vec<Answer>>, Failure<'a>>
    ensures { IfOk result (λ answers. is_asked ≡ false → answers ≡ None) }
{
    if !is_asked {
        return Ok(None);
    }
    match printer.answers() {
        Some(answers) => Ok(Some(answers.to_vec(alloc)?)),
        None => Err(Failure::from(ProgramFault::Memory)),
    }
}

// What writes the answers as the words say, and keeps them where statistics are to be made of them.
fn printer_for<'w, W: Write>(
    alloc: Global,
    words: RunWords<'_>,
    writer: &'w mut W,
) -> AnswerPrinter<'w, W>
    ensures answers { ⟦<AnswerPrinter<'w, W> as Report>⟧.answers result ≡ [] }
    ensures form { result.is_json ≡ words.entry.is_json }
    ensures same_reference { result.writer.ghost_name ≡ writer.entry.ghost_name }
    ensures writer { result.writer.now ≡ writer.old }
{
    let mut printer = AnswerPrinter::new(alloc, words.is_json, writer);
    if words.stats {
        printer.keep();
    }
    printer
}

// Runs a script, writes out the answers, and leaves the device in the file of the store.
fn run_to_store<'a, 'w, R, W>(
    rt: &R,
    profile: &Profile,
    script: &[u8],
    store: Option<StoreWord<'a>>,
    printer: &mut AnswerPrinter<'w, W>,
    book: &mut CommandBook,
) -> Result<(), Failure<'a>>
where
    R: Files + StoreHost + AllocGlobal,
    W: Write,
    requires { IfSome book.old (λ kept. kept ≡ nothing) }
    ensures whole { OnOk result (RunsWhole profile.now script.now
        (⟦<AnswerPrinter<'w, W> as Report>⟧.answers printer.old)
        (⟦<AnswerPrinter<'w, W> as Report>⟧.answers printer.new)) }
    ensures continued { OnOk result (GoesOn ⟦<AnswerPrinter<'w, W> as Report>⟧.continues
        printer.old printer.new) }
{
    match store {
        Some(StoreWord::Kept(name)) => run_kept(rt, profile, script, name, printer, book),
        Some(StoreWord::Out(name)) => {
            let device = run_told(rt.alloc(), profile, script, printer, book)?;
            write_store(rt, device, name)
        }
        None => {
            run_told(rt.alloc(), profile, script, printer, book)?;
            Ok(())
        }
    }
}

// Runs a script on a device of zeros, and writes out the answers.
fn run_told<'a, 'w, W: Write>(
    alloc: Global,
    profile: &Profile,
    script: &[u8],
    printer: &mut AnswerPrinter<'w, W>,
    book: &mut CommandBook,
) -> Result<MemoryDevice, Failure<'a>>
    requires { IfSome book.old (λ kept. kept ≡ nothing) }
    ensures whole { OnOk result (RunsWhole profile.now script.now
        (⟦<AnswerPrinter<'w, W> as Report>⟧.answers printer.old)
        (⟦<AnswerPrinter<'w, W> as Report>⟧.answers printer.new)) }
    ensures continued { OnOk result (GoesOn ⟦<AnswerPrinter<'w, W> as Report>⟧.continues
        printer.old printer.new) }
{
    match report_on_maps(alloc, profile, script, printer, book) {
        Ok(device) => match printer.flush() {
            Ok(()) => Ok(device),
            Err(_) => Err(Failure::from(ProgramFault::File("-"))),
        },
        Err(fault) => {
            let geometry = &profile.checked.geometry;
            Err(Failure::of_script(alloc, fault, script, geometry))
        }
    }
}

// Runs a script on the store in the file of this name, and leaves its device there.
fn run_kept<'a, 'w, R, W>(
    rt: &R,
    profile: &Profile,
    script: &[u8],
    name: &str,
    printer: &mut AnswerPrinter<'w, W>,
    book: &mut CommandBook,
) -> Result<(), Failure<'a>>
where
    R: Files + StoreHost + AllocGlobal,
    W: Write,
    requires { IfSome book.old (λ kept. kept ≡ nothing) }
    ensures whole { OnOk result (RunsWhole profile.now script.now
        (⟦<AnswerPrinter<'w, W> as Report>⟧.answers printer.old)
        (⟦<AnswerPrinter<'w, W> as Report>⟧.answers printer.new)) }
    ensures continued { OnOk result (GoesOn ⟦<AnswerPrinter<'w, W> as Report>⟧.continues
        printer.old printer.new) }
{
    let mut store = match rt.open_kept(name) {
        Ok(store) => store,
        Err(fault) => return Err(of_store(rt.alloc(), fault)),
    };
    let lines = ReadyMap {
        interleaving: Interleaving::Lines,
        checked: profile.checked,
    };
    let xor = ReadyMap {
        interleaving: Interleaving::Xor,
        checked: profile.checked,
    };
    match run_on_store(rt, profile, script, &lines, &xor, &mut store, printer, book) {
        Ok(()) => Ok(()),
        Err(StoredFault::Store(fault)) => Err(of_store(rt.alloc(), fault)),
        Err(StoredFault::Script(fault)) => {
            let geometry = &profile.checked.geometry;
            Err(Failure::of_script(rt.alloc(), fault, script, geometry))
        }
    }
}

// What is wrong with a store, in the fault's own words.
fn of_store<'a>(alloc: Global, fault: OpenFault) -> Failure<'a> {
    let mut reason = None;
    if let OpenFault::Io(error) = fault {
        if error.kind() == ErrorKind::OutOfMemory {
            return Failure::from(ProgramFault::Memory);
        }
        reason = Reason::of_error(&error);
    }
    match fault.to_string(alloc) {
        Ok(why) => Failure {
            fault: ProgramFault::Store(why),
            reason,
        },
        Err(_) => Failure::from(ProgramFault::Memory),
    }
}

// Writes the bytes of a device, as a read gives them, to a file.
fn write_store<'a, R: Files + AllocGlobal>(
    rt: &R,
    device: MemoryDevice,
    name: &'a str,
) -> Result<(), Failure<'a>> {
    let bytes = bytes_of_device(rt.alloc(), device)?;
    match leave_file(rt, name, &bytes) {
        Ok(()) => Ok(()),
        Err(error) => Err(Failure::of_file(name, &error)),
    }
}
