// A record of a journal, read line by line from its module.
ghost use Rattle.std.specs.Prelude.{◌≡◌, ◌<◌, ℕ, List, [], slice_get, slice_index_or, IfErr, IfNone, IfOk, IfSome, Some};
ghost use Rattle.journal_lines.specs.Indexed.{HasNumber};
ghost use Rattle.module_core.specs.Stands.{setup_of};
ghost use Rattle.nv_session.specs.Coming.{ComesAlone};
ghost use Rattle.journal_reads.specs.Reading.{IsLineRead, IsNotRead, ReadsRecord};

use arm_state::ReadRefusal;
use channel_port::ChannelPort;
use journal_lines::{Index, held};
use line_memory::Line;
use module_core::Module;
use module_journal::Journal;
use nv_session::{LineSeen, read};
use std::alloc::Global;
use thiserror::Error;

/// Why a record wasn't read. Nothing of the module has changed but what waits in its channels.
#[derive(Clone, Copy, Debug, PartialEq, Eq, Error)]
pub enum NotRead {
    /// There is no memory for its bytes.
    #[error("out of memory")]
    Memory,
    /// A line of it waits for more commands of its channel than are issued for one read.
    #[error("a line waits for its channel")]
    Waiting,
    /// The module refused to read a line of it.
    #[error("{0}")]
    Refused(ReadRefusal),
}

// Reads a line of the memory after all accepted writes.
fn read_line<K: ChannelPort>(nvdimm: &mut Module<K>, line: u64) -> Result<Line, NotRead>
    ensures comes { ComesAlone K.ChannelPort
        (IsLineRead (setup_of K.ChannelPort nvdimm.old) line result) nvdimm.old nvdimm.new }
    ensures setup { setup_of K.ChannelPort nvdimm.new ≡ setup_of K.ChannelPort nvdimm.old }
{
    match read(nvdimm, line) {
        Ok(LineSeen::Content(bytes)) => Ok(bytes),
        Ok(LineSeen::Waiting) => Err(NotRead::Waiting),
        Err(refusal) => Err(NotRead::Refused(refusal)),
    }
}

// Reads a record that is there, line by line.
fn read_lines<K: ChannelPort>(
    index: &Index,
    alloc: Global,
    nvdimm: &mut Module<K>,
    number: u64,
) -> Result<Vec<u8>, NotRead>
    requires { HasNumber index.now number }
    ensures done { IfOk result (λ bytes. ComesAlone K.ChannelPort
        (ReadsRecord index.now number bytes.items) nvdimm.old nvdimm.new) }
    ensures not { IfErr result (λ why. ComesAlone K.ChannelPort
        (IsNotRead (setup_of K.ChannelPort nvdimm.old) why) nvdimm.old nvdimm.new) }
    ensures setup { setup_of K.ChannelPort nvdimm.new ≡ setup_of K.ChannelPort nvdimm.old }
{
    let mut bytes = Vec::new(alloc);
    for at in 0..index.lines_of_record(number) {
        let line = match read_line(nvdimm, index.line_of_record(number, at)) {
            Ok(line) => line,
            Err(why) => return Err(why),
        };
        let Ok(()) = bytes.extend_from_slice(held(&line)) else {
            return Err(NotRead::Memory);
        };
    }
    Ok(bytes)
}

/// The bytes of the record with this number, as it lies in the module now; none exactly where it was truncated or isn't there yet, and
/// then nothing is called. Each of its lines is one read of the module, for which the line's channel is worked up to 64 times. So a
/// record is read as soon as it was appended, stored or not, while the module is saved, armed or written. All records that are there
/// are read by going over `Journal::numbers`.
pub fn get<K: ChannelPort>(
    journal: &Journal,
    alloc: Global,
    nvdimm: &mut Module<K>,
    number: u64,
) -> Result<Option<Vec<u8>>, NotRead>
    ensures some { IfOk result (λ found. IfSome found (λ bytes. ComesAlone K.ChannelPort
        (ReadsRecord journal.now.index number bytes.items) nvdimm.old nvdimm.new)) }
    ensures there { IfOk result (λ found. IfSome found (λ bytes.
        HasNumber journal.now.index number)) }
    ensures none { IfOk result (λ found. IfNone found
        ((HasNumber journal.now.index number → ⊥) × (nvdimm.new ≡ nvdimm.old))) }
    ensures not { IfErr result (λ why. ComesAlone K.ChannelPort
        (IsNotRead (setup_of K.ChannelPort nvdimm.old) why) nvdimm.old nvdimm.new) }
    ensures setup { setup_of K.ChannelPort nvdimm.new ≡ setup_of K.ChannelPort nvdimm.old }
{
    let index = journal.index();
    if !index.has(number) {
        return Ok(None);
    }
    match read_lines(index, alloc, nvdimm, number) {
        Ok(bytes) => Ok(Some(bytes)),
        Err(why) => Err(why),
    }
}
