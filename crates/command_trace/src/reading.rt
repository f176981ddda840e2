// The commands of a trace, read as a stream.
ghost use Rattle.std.specs.Prelude.{◌≡◌, ℕ, [], ◌++◌, IfOk, IfSome, List, Option, option_map};
ghost use Rattle.std.specs.Fmt.{with_newline};
ghost use Rattle.std.specs.Option.{option_to_list};
ghost use Rattle.csv.specs.Reading.{reader_state, strip_bom};
ghost use Rattle.csv.specs.Records.{fields_of};
ghost use Rattle.csv.specs.declared.parser.State.TheVariants.{StartRecord};
ghost use Rattle.command_trace.specs.Reading.{FitsChannels, IsFormWith};
ghost use Rattle.command_trace.specs.Rows.{RowSays, words_of_row};
ghost use Rattle.command_trace.specs.Traces.{HasRead, HasReadNext, ReadsRows, delimiter_of, rows_left};
ghost use Rattle.command_trace.specs.declared.entry.Located.{Located};

use crate::entry::Located;
use crate::no_command::NoCommand;
use crate::row::{Row, is_blank};
use csv::{ByteRecord, ErrorKind, ReaderBuilder, Terminator};
use ghost_trace::Trace;
use std::alloc::Global;
use std::io::{Chain, Read};
use thiserror::Error;
use trace_forms::ForeignForm;

/// The forms of a trace.
#[derive(Clone, Copy, Debug, PartialEq, Eq)]
pub enum Form {
    /// `CHANNEL CLOCK NAME` and the command's numbers, as this program prints commands. Where `others` is true, lines that
    /// are other answers of a run are passed over.
    Lines { others: bool },
    /// Comma separated values under the header `HEADER`.
    Table,
    /// Lines as others write them.
    Foreign(ForeignForm),
}

impl Form {
    // The byte between two words. Where it is 0, a line is one field.
    fn delimiter(&self) -> u8
        ensures { result ≡ delimiter_of self.now }
    {
        match self {
            Form::Lines { .. } => b' ',
            Form::Table => b',',
            Form::Foreign(_) => 0,
        }
    }
}

/// The first row of a table.
pub const HEADER: [&str; 8] = [
    "clock",
    "command",
    "channel",
    "rank",
    "bankgroup",
    "bank",
    "row",
    "column",
];

/// Why a trace can't be read.
#[derive(Debug, Drop, Error)]
pub enum TraceFault {
    /// The line is no command.
    #[error("trace line {line}")]
    Line { line: u64, why: NoCommand },
    /// The reader failed.
    #[error("reader")]
    Reader,
    /// What was to be told couldn't be written.
    #[error("writer")]
    Writer,
    #[error("memory")]
    Memory,
}

impl From<csv::Error> for TraceFault {
    fn from(error: csv::Error) -> TraceFault {
        match error.kind() {
            ErrorKind::OutOfMemory => TraceFault::Memory,
            _ => TraceFault::Reader,
        }
    }
}

/// Reads the commands of a trace one by one. Empty lines, and those that begin with `#`, are passed over.
#[derive(Drop)]
pub struct TraceReader<R> {
    alloc: Global,
    rows: csv::Reader<Chain<R, &'static [u8]>>,
    row: ByteRecord,
    form: Form,
    channels: u64,
    has_header: bool,
    pub given: Trace<Located>,
}

// Rows of so many fields as there are, each a line.
fn rows_of<R: Read + Drop>(
    alloc: Global,
    source: R,
    delimiter: u8,
) -> csv::Reader<Chain<R, &'static [u8]>>
    ensures reads { ReadsRows delimiter result }
    ensures state { reader_state result ≡ StartRecord }
    ensures source { rows_left R.remaining result
        ≡ option_map strip_bom (with_newline (R.remaining source)) }
{
    // behind the last line too stands an end of line, so that each row is the line before the reader's
    let ended = source.chain(b"\n".as_slice());
    ReaderBuilder::new()
        .has_headers(false)
        .flexible(true)
        .quoting(false)
        .comment(Some(b'#'))
        .terminator(Terminator::Any(b'\n'))
        .delimiter(delimiter)
        .from_reader(alloc, ended)
}

/// The form of a trace, by its first line that is neither empty nor a comment: a table where that has a comma.
pub fn form_of<R: Read + Drop>(alloc: Global, source: R, others: bool) -> Result<Form, TraceFault>
    ensures { IfOk result (IsFormWith others) }
{
    let mut rows = rows_of(alloc, source, b',');
    let mut row = ByteRecord::new(alloc);
    for _ in 0..u64::MAX {
        if !rows.read_byte_record(&mut row)? || !is_blank(&row) {
            break;
        }
    }
    if row.len() > 1 {
        Ok(Form::Table)
    } else {
        Ok(Form::Lines { others })
    }
}

impl<R: Read + Drop> TraceReader<R> {
    /// The commands of a trace of this form, whose channels are numbered below `channels`.
    pub fn new(alloc: Global, source: R, form: Form, channels: u64) -> TraceReader<R>
        ensures form { result.form ≡ form }
        ensures channels { result.channels ≡ channels }
        ensures given { result.given.items ≡ [] }
        ensures read { HasRead R.remaining (R.remaining source) result [] }
    {
        TraceReader {
            alloc,
            rows: rows_of(alloc, source, form.delimiter()),
            row: ByteRecord::new(alloc),
            form,
            channels,
            has_header: false,
            given: Trace::new(),
        }
    }

    // The command of the row that was read last; none where it is empty, the header of a table, or another answer of a run.
    #[inline(always)]
    fn command_of_row(&mut self) -> Result<Option<Located>, TraceFault>
        ensures fits { IfOk result (λ found. IfSome found (λ l.
            FitsChannels self.old.channels l.entry)) }
        ensures says { IfOk result (λ found. RowSays self.old.form self.old.has_header
            (words_of_row (fields_of self.old.row)) found self.new.has_header) }
        ensures kept { (self.new.channels ≡ self.old.channels) × (self.new.given ≡ self.old.given) }
        ensures form { self.new.form ≡ self.old.form }
        ensures rows { self.new.rows ≡ self.old.rows }
    {
        if is_blank(&self.row) {
            return Ok(None);
        }
        let row = Row {
            fields: &self.row,
            line: self.rows.position().line().saturating_sub(1),
            channels: self.channels,
        };
        match &self.form {
            Form::Lines { others } => {
                if *others && row.is_other() {
                    return Ok(None);
                }
                Ok(Some(row.command_of_line()?))
            }
            Form::Table => {
                if self.has_header {
                    return Ok(Some(row.command_in_table()?));
                }
                if !row.is_header() {
                    return Err(row.refused(NoCommand::Header));
                }
                self.has_header = true;
                Ok(None)
            }
            Form::Foreign(form) => Ok(Some(row.command_of_others(self.alloc, form)?)),
        }
    }

    /// The next command, or none at the end of the trace. A line that is no command, whose channel isn't there or whose clock
    /// is 2^63 or more is refused by its number.
    #[inline(always)]
    pub fn next(&mut self) -> Result<Option<Located>, TraceFault>
        ensures fits { IfOk result (λ found. IfSome found (λ l.
            FitsChannels self.old.channels l.entry)) }
        ensures channels { self.new.channels ≡ self.old.channels }
        ensures form { self.new.form ≡ self.old.form }
        ensures given { IfOk result (λ found. self.new.given.items
            ≡ self.old.given.items ++ option_to_list found) }
        ensures reads { (bytes : Option (List ℕ)) (found : List Located) →
            HasRead R.remaining bytes self.old found →
            IfOk result (HasReadNext R.remaining bytes self.old.form self.new found) }
    {
        for _ in 0..u64::MAX {
            if !self.rows.read_byte_record(&mut self.row)? {
                return Ok(None);
            }
            let read = self.command_of_row();
            match &read {
                Ok(None) => continue,
                Ok(Some(found)) => self.given.note(found),
                Err(_) => {}
            }
            return read;
        }
        // more rows than can be counted
        Err(TraceFault::Reader)
    }
}
