// A store, the bytes of a device, and how it is shown.
ghost use Rattle.std.specs.Prelude.{◌≡◌, ◌↔◌, ◌++◌, List, length, IfOk, IfSome, IsNone, IsTrue, OnOk, codes};
ghost use Rattle.nv_script.specs.declared.answer.Answer.{Answer};
ghost use Rattle.slot_store.specs.Slots.{IsCapacity, device_size};
ghost use Rattle.command_line.specs.Store.{IsDeviceOf, IsStoreOf, HasNoLines, HoldsImage, ShowsNamed, TellsStore, content_of, shown_lines};
ghost use Rattle.command_line.specs.Verbs.{word_of};

use crate::command::{status_by, word_or};
use clap::ArgMatches;
use command_faults::{Failure, FileHost, flush};
use line_memory::{LINE_BYTES, Line};
use nv_script::{Answer, ScriptFault};
use run_command::AnswerPrinter;
use save_device::MemoryDevice;
use save_image::PAGE_LINES;
use script_runner::Report;
use slot_store::{MOST_LINES, RestoreError, device_size, restore};
use std::alloc::Global;
use std::io;
use std::process::ExitCode;
use store_file::{SPARE_PLACE, device_bytes};

/// No device has more bytes.
pub const STORE_BYTES: u64 = 8_396_800;

// How many lines the images of a store of so many bytes have.
fn lines_of(size: usize) -> Option<usize>
    ensures some { IfSome result (IsStoreOf size) }
    ensures none { IsNone result → HasNoLines size }
{
    let lines = size.checked_sub(8192)? / 128;
    if lines < PAGE_LINES
        || lines > MOST_LINES
        || lines % PAGE_LINES != 0
        || device_size(lines) != size
    {
        return None;
    }
    Some(lines)
}

// Reports a line, unless it is all zero.
fn answer_content<R: Report>(line: u64, bytes: &Line, report: &mut R) -> Result<(), ScriptFault>
    ensures { OnOk result
        (R.answers report.new ≡ R.answers report.old ++ content_of line bytes.now) }
{
    if *bytes == [0; LINE_BYTES] {
        return Ok(());
    }
    report.answer(Answer::Content {
        line,
        bytes: *bytes,
    })
}

// Reports each line of a memory that isn't all zero.
fn answer_contents<R: Report>(memory: &[Line], report: &mut R) -> Result<(), ScriptFault>
    ensures { OnOk result (R.answers report.new
        ≡ R.answers report.old ++ shown_lines memory.now (length memory.now)) }
{
    for (line, bytes) in memory.iter().enumerate() {
        answer_content(line as u64, bytes, report)?;
    }
    Ok(())
}

/// Reports what a restore of a store would answer, and each line of memory that isn't all zero; a size that no store has is
/// `WrongSize`. Answers whether the store holds an image; false where the refusal was reported. Want of memory is an `Err`.
#[tactic(auto, using(crate::proofs::Stores::tells_refusal))]
pub fn answer_store<R: Report>(
    alloc: Global,
    store: Vec<u8>,
    report: &mut R,
) -> Result<bool, ScriptFault>
    ensures holds { IfOk result (λ shown. IsTrue shown ↔ HoldsImage store.items) }
    ensures tells { IfOk result (λ shown. (answers : List Answer)
        × TellsStore store.items shown answers
        × (R.answers report.new ≡ R.answers report.old ++ answers)) }
{
    let Some(lines) = lines_of(store.len()) else {
        report.answer(Answer::RestoreRefused(RestoreError::WrongSize))?;
        return Ok(false);
    };
    let mut device = MemoryDevice::new(alloc, store)?;
    let restored = match restore(alloc, &mut device, lines) {
        Ok(restored) => restored,
        // a device in memory doesn't fail
        Err(RestoreError::Device | RestoreError::Memory) => return Err(ScriptFault::Memory),
        Err(error) => {
            report.answer(Answer::RestoreRefused(error))?;
            return Ok(false);
        }
    };
    report.answer(Answer::Restored {
        generation: restored.head.newest.generation,
        count: restored.head.count,
        verdict: restored.head.verdict,
    })?;
    answer_contents(&restored.lines, report)?;
    Ok(true)
}

/// Writes what `answer_store` reports, each answer as a line, of JSON if it is to be.
pub fn show_store<W: io::Write>(
    alloc: Global,
    store: Vec<u8>,
    is_json: bool,
    writer: &mut W,
) -> Result<bool, ScriptFault>
    ensures holds { IfOk result (λ shown. IsTrue shown ↔ HoldsImage store.items) }
    ensures tells { IfOk result (λ shown. (answers : List Answer)
        × TellsStore store.items shown answers) }
{
    let mut printer = AnswerPrinter::new(alloc, is_json, writer);
    answer_store(alloc, store, &mut printer)
}

// The bytes of a store's device. A store of no length that one has stays as it is.
fn device_of(store: Vec<u8>) -> Vec<u8>
    ensures { IsDeviceOf store.items result.items }
{
    let Some(size) = store.len().checked_sub(SPARE_PLACE) else {
        return store;
    };
    if lines_of(size).is_none() {
        return store;
    }
    let Some(device) = device_bytes(store, size) else {
        unreachable!();
    };
    device
}

/// Shows the store in the file that the words name; the exit status is 1 where nothing is restored from it.
pub(crate) fn show<'a, R, W>(
    rt: &R,
    matches: &ArgMatches<'a>,
    writer: &mut W,
) -> Result<ExitCode, Failure<'a>>
where
    R: FileHost + AllocGlobal,
    W: io::Write,
    ensures { IfOk result (ShowsNamed (R.gives rt.now)
        (word_of matches.now (codes "STORE") (codes "-"))) }
{
    // one byte more than a store may have
    let most = STORE_BYTES + SPARE_PLACE as u64 + 1;
    let store = rt.file_bytes(word_or(matches, "STORE", "-"), most)?;
    let device = device_of(store);
    let found = show_store(rt.alloc(), device, matches.get_flag("json"), writer)?;
    flush(writer)?;
    Ok(status_by(found))
}
