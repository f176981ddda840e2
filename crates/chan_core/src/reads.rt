// Reads that were accepted and not collected yet.
ghost use Rattle.std.specs.Prelude.{◌≡◌, ◌<◌, Some, length, slice_get};
ghost use Rattle.chan_core.specs.declared.reads.OpenRead.{OpenRead};
ghost use Rattle.chan_core.specs.Reads.{AnswersSeq, HasSeq, IsIndexOfSerial, SeqsOfReadsRise, SerialsOfReadsRise};

use gap_list::GapList;
use line_memory::Line;

/// A read that was accepted and not collected yet.
#[derive(Clone, Copy, Debug, PartialEq, Eq)]
pub struct OpenRead {
    /// Its number among the reads of the channel that waited, from 0.
    pub serial: u128,
    /// The seq of its request.
    pub seq: u64,
    /// The line, as the host names it.
    pub line: u64,
    /// The line's cell in the channel.
    pub cell: u64,
    /// How many writes were accepted before the read.
    pub at: u64,
    /// The line's bytes, once the RD was issued.
    pub bytes: Option<Line>,
}

/// As many reads as may be are pending or not collected.
#[derive(Clone, Copy, Debug, PartialEq, Eq)]
pub struct ReadsFull;

/// Where the read of a serial stands.
pub(crate) fn index_of_serial(reads: &[OpenRead], serial: u128) -> Option<usize>
    requires { SerialsOfReadsRise reads.now }
    ensures { IsIndexOfSerial serial reads.now result }
{
    let index = reads.partition_point(|read| read.serial < serial);
    let read = reads.get(index)?;
    if read.serial == serial {
        Some(index)
    } else {
        None
    }
}

// Where the read of a seq stands, which is there.
fn index_of_seq(reads: &[OpenRead], seq: u64) -> usize
    requires rise { SeqsOfReadsRise reads.now }
    requires waits { HasSeq seq reads.now }
    ensures within { result < length reads.now }
    ensures is { (read : OpenRead) → slice_get reads.now result ≡ Some read → read.seq ≡ seq }
{
    reads.partition_point(|read| read.seq < seq)
}

/// Gives the read that a request is for its bytes: its serial.
pub(crate) fn answer(reads: &mut GapList<OpenRead>, seq: u64, bytes: Line) -> u128
    requires rise { SeqsOfReadsRise reads.old.items }
    requires waits { HasSeq seq reads.old.items }
    ensures answers { AnswersSeq seq bytes result reads.old.items reads.new.items }
    ensures most { reads.new.most ≡ reads.old.most }
{
    let index = index_of_seq(reads.as_slice(), seq);
    let read = reads.as_slice()[index];
    let bytes = Some(bytes);
    reads.set(index, OpenRead { bytes, ..read });
    read.serial
}
