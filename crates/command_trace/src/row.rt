// A row of a trace, and the command that it is.
ghost use Rattle.std.specs.Prelude.{◌≡◌, ◌<◌, ◌≤◌, ◌^◌, ℕ, [], All, IfOk, IfSome, IsNone, IsTrue, List, OnOk, Some, length, option_map, slice_get};
ghost use Rattle.csv.specs.Records.{field_at, fields_of};
ghost use Rattle.command_trace.specs.Kinds.{IsSpelling, name_of_kind};
ghost use Rattle.command_trace.specs.Reading.{FitsChannels};
ghost use Rattle.command_trace.specs.Rows.{IsBlank, IsDecimal, IsLineInForm, IsLineOf, IsOther, IsRowOf, WritesAt, WritesBank, WritesCommand, WritesNone, bare, columns_left, header, words_of_row};

use crate::entry::{ChannelCommand, Located};
use crate::foreign::found_in_form;
use crate::kind::CommandKind;
use crate::no_command::NoCommand;
use crate::reading::{HEADER, TraceFault};
use csv::ByteRecord;
use ddr4_timing::command::{Command, Stamped};
use ddr4_timing::place::BankAddress;
use std::alloc::Global;
use trace_forms::ForeignForm;

// So many decimal digits fit 64 bits, whatever they are.
const FITTING_DIGITS: usize = 19;

// What a line calls a bank's group, and a table.
const GROUP: &str = "group";

const BANK_GROUP: &str = "bankgroup";

// A row of a trace whose channels are numbered below `channels`, on the line of this number.
#[derive(Clone, Copy)]
pub(crate) struct Row<'a> {
    pub(crate) fields: &'a ByteRecord,
    pub(crate) line: u64,
    pub(crate) channels: u64,
}

// A number: decimal digits alone, that fit 64 bits.
#[inline(always)]
fn number(field: &[u8]) -> Option<u64>
    ensures some { IfSome result (IsDecimal field.now) }
    ensures none { IsNone result → (n : ℕ) → IsDecimal field.now n → 2 ^ 64 ≤ n }
{
    if field.is_empty() {
        return None;
    }
    if field.len() > FITTING_DIGITS {
        return long_number(field);
    }
    let mut value: u64 = 0;
    for byte in field {
        if !byte.is_ascii_digit() {
            return None;
        }
        // so few digits come to less than 2^64
        value = value.wrapping_mul(10).wrapping_add((*byte - b'0') as u64);
    }
    Some(value)
}

// A number of so many digits that it may not fit.
#[inline(never)]
fn long_number(field: &[u8]) -> Option<u64>
    requires { 0 < length field.now }
    ensures some { IfSome result (IsDecimal field.now) }
    ensures none { IsNone result → (n : ℕ) → IsDecimal field.now n → 2 ^ 64 ≤ n }
{
    let mut value: u64 = 0;
    for byte in field {
        if !byte.is_ascii_digit() {
            return None;
        }
        value = value.checked_mul(10)?.checked_add((*byte - b'0') as u64)?;
    }
    Some(value)
}

// A field without a carriage return at its end.
#[inline(always)]
fn bare(field: &[u8]) -> &[u8]
    ensures { result.now ≡ bare field.now }
{
    let Some(last) = field.len().checked_sub(1) else {
        return field;
    };
    if field[last] == b'\r' {
        &field[..last]
    } else {
        field
    }
}

// The word in a place.
#[inline(always)]
fn bytes_at(row: &ByteRecord, place: usize) -> Option<&[u8]>
    ensures { option_map (λ word. word.now) result
        ≡ slice_get (words_of_row (fields_of row.now)) place }
{
    Some(bare(row.get(place)?))
}

// Is it a line with nothing but a carriage return?
#[inline(always)]
pub(crate) fn is_blank(row: &ByteRecord) -> bool
    ensures { IsTrue result → IsBlank (words_of_row (fields_of row.now)) }
{
    row.len() == 1 && is_empty_at(row, 0)
}

// Is there an empty word in a place?
#[inline(always)]
fn is_empty_at(row: &ByteRecord, place: usize) -> bool
    ensures { IsTrue result → slice_get (words_of_row (fields_of row.now)) place ≡ Some [] }
{
    match bytes_at(row, place) {
        Some(bytes) => bytes.is_empty(),
        None => false,
    }
}

// The word in a place, where it is text.
#[inline(always)]
fn word_at(row: &ByteRecord, place: usize) -> Option<&str>
    ensures { IfSome result (λ word.
        slice_get (words_of_row (fields_of row.now)) place ≡ Some word.now) }
{
    match std::str::from_utf8(bytes_at(row, place)?) {
        Ok(word) => Some(word),
        Err(_) => None,
    }
}

// Is this the word in a place?
fn is_word_at(row: &ByteRecord, place: usize, wanted: &str) -> bool
    ensures { IsTrue result →
        slice_get (words_of_row (fields_of row.now)) place ≡ Some wanted.now }
{
    match word_at(row, place) {
        Some(word) => word == wanted,
        None => false,
    }
}

impl Row<'_> {
    // Its line is no command.
    pub(crate) fn refused(&self, why: NoCommand) -> TraceFault {
        TraceFault::Line {
            line: self.line,
            why,
        }
    }

    // The number in a place.
    #[inline(always)]
    fn number_in(&self, place: usize) -> Option<u64>
        ensures some { IfSome result
            (WritesAt (words_of_row (fields_of self.now.fields.now)) place) }
        ensures none { IsNone result
            → WritesNone (words_of_row (fields_of self.now.fields.now)) place }
    {
        number(bytes_at(self.fields, place)?)
    }

    // The number in a place, which stands for this part.
    #[inline(always)]
    fn number_at(&self, place: usize, part: &'static str) -> Result<u64, TraceFault>
        ensures { IfOk result (WritesAt (words_of_row (fields_of self.now.fields.now)) place) }
    {
        match self.number_in(place) {
            Some(value) => Ok(value),
            None => Err(self.refused(NoCommand::Number { part })),
        }
    }

    // The bank that it names. Lines and tables call its group differently.
    #[inline(always)]
    fn bank_at(&self, group: &'static str) -> Result<BankAddress, TraceFault>
        ensures { IfOk result (WritesBank (words_of_row (fields_of self.now.fields.now))) }
    {
        let rank = self.number_at(3, "rank")?;
        let group = self.number_at(4, group)?;
        let bank = self.number_at(5, "bank")?;
        Ok(BankAddress { rank, group, bank })
    }

    // The command of a kind, whose column stands in this place.
    #[inline(always)]
    fn command_at(
        &self,
        kind: CommandKind,
        group: &'static str,
        place: usize,
    ) -> Result<Command, TraceFault>
        ensures { IfOk result
            (WritesCommand place (words_of_row (fields_of self.now.fields.now)) kind) }
    {
        match kind {
            CommandKind::Act => Ok(Command::Act {
                at: self.bank_at(group)?,
                row: self.number_at(6, "row")?,
            }),
            CommandKind::Rd | CommandKind::Rda => Ok(Command::Rd {
                at: self.bank_at(group)?,
                column: self.number_at(place, "column")?,
            }),
            CommandKind::Wr | CommandKind::Wra => Ok(Command::Wr {
                at: self.bank_at(group)?,
                column: self.number_at(place, "column")?,
            }),
            CommandKind::Pre => Ok(Command::Pre {
                at: self.bank_at(group)?,
            }),
            CommandKind::PreAll => Ok(Command::PreAll {
                rank: self.number_at(3, "rank")?,
            }),
            CommandKind::Ref => Ok(Command::Ref {
                rank: self.number_at(3, "rank")?,
            }),
            CommandKind::Sre => Ok(Command::Sre {
                rank: self.number_at(3, "rank")?,
            }),
        }
    }

    // Its command, where its channel is there and its clock is one that a check takes.
    #[inline(always)]
    fn taken(&self, entry: ChannelCommand, closes: bool) -> Result<Located, TraceFault>
        ensures fits { IfOk result (λ found. FitsChannels self.now.channels found.entry) }
        ensures is { IfOk result (λ found. found
            ≡ record { line = self.now.line; entry = entry; closes = closes }) }
    {
        if entry.channel >= self.channels {
            return Err(self.refused(NoCommand::Channel {
                channel: entry.channel,
                channels: self.channels,
            }));
        }
        if entry.command.clock >= 1 << 63 {
            return Err(self.refused(NoCommand::Clock));
        }
        Ok(Located {
            line: self.line,
            entry,
            closes,
        })
    }

    // The kind that a line names.
    #[inline(always)]
    fn kind_of_line(&self) -> Result<CommandKind, TraceFault>
        ensures { IfOk result (λ kind. slice_get
            (words_of_row (fields_of self.now.fields.now)) 2 ≡ Some (name_of_kind kind)) }
    {
        match word_at(self.fields, 2) {
            Some(name) => match CommandKind::named(name) {
                Some(kind) => Ok(kind),
                None => Err(self.refused(NoCommand::Name)),
            },
            None => Err(self.refused(NoCommand::Name)),
        }
    }

    // The command of a line as this program prints it.
    #[inline(always)]
    pub(crate) fn command_of_line(&self) -> Result<Located, TraceFault>
        ensures fits { IfOk result (λ found. FitsChannels self.now.channels found.entry) }
        ensures says { IfOk result (IsLineOf (words_of_row (fields_of self.now.fields.now))) }
    {
        let Some(count) = self.fields.len().checked_sub(3) else {
            return Err(self.refused(NoCommand::Words));
        };
        let channel = self.number_at(0, "channel")?;
        let clock = self.number_at(1, "clock")?;
        let kind = self.kind_of_line()?;
        if count != kind.parts().len() {
            return Err(self.refused(NoCommand::Parts { kind }));
        }
        let cmd = self.command_at(kind, GROUP, 6)?;
        let command = Stamped { clock, cmd };
        self.taken(ChannelCommand { channel, command }, kind.closes())
    }

    // The kind that a row of a table names.
    #[inline(always)]
    fn kind_in_table(&self) -> Result<CommandKind, TraceFault>
        ensures { IfOk result (λ kind. (name : List ℕ)
            × (slice_get (words_of_row (fields_of self.now.fields.now)) 1 ≡ Some name)
            × IsSpelling kind name) }
    {
        match word_at(self.fields, 1) {
            Some(name) => match CommandKind::spelled(name) {
                Some(kind) => Ok(kind),
                None => Err(self.refused(NoCommand::Name)),
            },
            None => Err(self.refused(NoCommand::Name)),
        }
    }

    // Refuses a number in a column of a table that a kind has none for.
    fn leaves_columns(&self, kind: CommandKind) -> Result<(), TraceFault>
        ensures { OnOk result (All
            (λ column. slice_get (words_of_row (fields_of self.now.fields.now)) column ≡ Some [])
            (columns_left kind)) }
    {
        for column in kind.columns_left() {
            if !is_empty_at(self.fields, *column) {
                let part = HEADER.get(*column).copied().unwrap_or("number");
                return Err(self.refused(NoCommand::Further { part, kind }));
            }
        }
        Ok(())
    }

    // The command of a row of a table.
    pub(crate) fn command_in_table(&self) -> Result<Located, TraceFault>
        ensures fits { IfOk result (λ found. FitsChannels self.now.channels found.entry) }
        ensures says { IfOk result (IsRowOf (words_of_row (fields_of self.now.fields.now))) }
    {
        let found = self.fields.len();
        if found != HEADER.len() {
            return Err(self.refused(NoCommand::Columns { found }));
        }
        let kind = self.kind_in_table()?;
        let cmd = self.command_at(kind, BANK_GROUP, 7)?;
        self.leaves_columns(kind)?;
        let channel = self.number_at(2, "channel")?;
        let clock = self.number_at(0, "clock")?;
        let command = Stamped { clock, cmd };
        self.taken(ChannelCommand { channel, command }, kind.closes())
    }

    // The command of a line in a form of others: its row is one field.
    #[inline(never)]
    pub(crate) fn command_of_others(
        &self,
        alloc: Global,
        form: &ForeignForm,
    ) -> Result<Located, TraceFault>
        ensures fits { IfOk result (λ found. FitsChannels self.now.channels found.entry) }
        ensures says { IfOk result
            (IsLineInForm form.now (words_of_row (fields_of self.now.fields.now))) }
    {
        match word_at(self.fields, 0) {
            Some(text) if self.fields.len() == 1 => {
                match found_in_form(alloc, form, text, self.line)? {
                    Ok(found) => self.taken(found.entry, found.closes),
                    Err(why) => Err(self.refused(why)),
                }
            }
            _ => Err(self.refused(NoCommand::Form {
                wanted: form.wanted(),
            })),
        }
    }

    // Is this another answer of a run than a command? Those of a channel alone begin with a number.
    pub(crate) fn is_other(&self) -> bool
        ensures { IsTrue result → IsOther (words_of_row (fields_of self.now.fields.now)) }
    {
        match self.number_in(0) {
            None => true,
            Some(_channel) => self.fields.len() == 2 && is_word_at(self.fields, 1, "idle"),
        }
    }

    // Is it the first row of a table?
    pub(crate) fn is_header(&self) -> bool
        ensures { IsTrue result → words_of_row (fields_of self.now.fields.now) ≡ header }
    {
        for (place, name) in HEADER.iter().enumerate() {
            if !is_word_at(self.fields, place, name) {
                return false;
            }
        }
        self.fields.len() == HEADER.len()
    }
}
