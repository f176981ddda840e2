// The command of a line in a form of others.
ghost use Rattle.std.specs.Prelude.{◌≢◌, None, IfErr, IfOk};
ghost use Rattle.command_trace.specs.Foreign.{LineSays, LineSaysNone, SaysBank, SaysChannel, SaysCommand, SaysKind, SaysLocated, SaysNoBank, SaysNoCommand, SaysNoKind, SaysNoNumber, SaysNone};
ghost use Rattle.trace_forms.specs.Columns.{place_of};
ghost use Rattle.trace_forms.specs.Forms.{IsNumberOf};
ghost use Rattle.trace_forms.specs.Words.{texts_of};
ghost use Rattle.trace_forms.specs.declared.part.Part.TheVariants.{Channel};

use crate::entry::{ChannelCommand, Located};
use crate::kind::CommandKind;
use crate::no_command::NoCommand;
use ddr4_timing::command::{Command, Stamped};
use ddr4_timing::place::BankAddress;
use std::alloc::{AllocError, Global};
use trace_forms::{ForeignForm, Part};

// The number of a part.
fn number_in(form: &ForeignForm, words: &[&str], part: Part) -> Result<u64, NoCommand>
    ensures said { IfOk result (IsNumberOf form.now (texts_of words.now) part) }
    ensures none { IfErr result (λ why. SaysNoNumber form.now (texts_of words.now) part) }
{
    match form.number(words, part) {
        Some(number) => Ok(number),
        None if form.place(part).is_none() => Err(NoCommand::Unnamed { part: part.name() }),
        None if form.is_hex(part) => Err(NoCommand::Hex { part: part.name() }),
        None => Err(NoCommand::Number { part: part.name() }),
    }
}

// The bank that the words name.
#[tactic(auto, using(crate::proofs::ForeignLines::no_rank_of_bank, crate::proofs::ForeignLines::no_group_of_bank, crate::proofs::ForeignLines::no_number_of_bank))]
fn bank_in(form: &ForeignForm, words: &[&str]) -> Result<BankAddress, NoCommand>
    ensures said { IfOk result (SaysBank form.now (texts_of words.now)) }
    ensures none { IfErr result (λ why. SaysNoBank form.now (texts_of words.now)) }
{
    let rank = number_in(form, words, Part::Rank)?;
    let group = number_in(form, words, Part::Group)?;
    let bank = number_in(form, words, Part::Bank)?;
    Ok(BankAddress { rank, group, bank })
}

// The command of a kind, by the parts that it has a use for.
#[tactic(auto, using(crate::proofs::ForeignLines::no_bank, crate::proofs::ForeignLines::no_row, crate::proofs::ForeignLines::no_column, crate::proofs::ForeignLines::no_rank))]
fn command_in(form: &ForeignForm, words: &[&str], kind: CommandKind) -> Result<Command, NoCommand>
    ensures said { IfOk result (SaysCommand form.now (texts_of words.now) kind) }
    ensures none { IfErr result (λ why. SaysNoCommand form.now (texts_of words.now) kind) }
{
    match kind {
        CommandKind::Act => Ok(Command::Act {
            at: bank_in(form, words)?,
            row: number_in(form, words, Part::Row)?,
        }),
        CommandKind::Rd | CommandKind::Rda => Ok(Command::Rd {
            at: bank_in(form, words)?,
            column: number_in(form, words, Part::Column)?,
        }),
        CommandKind::Wr | CommandKind::Wra => Ok(Command::Wr {
            at: bank_in(form, words)?,
            column: number_in(form, words, Part::Column)?,
        }),
        CommandKind::Pre => Ok(Command::Pre {
            at: bank_in(form, words)?,
        }),
        CommandKind::PreAll => Ok(Command::PreAll {
            rank: number_in(form, words, Part::Rank)?,
        }),
        CommandKind::Ref => Ok(Command::Ref {
            rank: number_in(form, words, Part::Rank)?,
        }),
        CommandKind::Sre => Ok(Command::Sre {
            rank: number_in(form, words, Part::Rank)?,
        }),
    }
}

// The kind of the command that the words name.
#[tactic(auto, using(crate::proofs::ForeignLines::no_name, crate::proofs::ForeignLines::no_spelling))]
fn kind_in(form: &ForeignForm, words: &[&str]) -> Result<CommandKind, NoCommand>
    ensures said { IfOk result (SaysKind form.now (texts_of words.now)) }
    ensures none { IfErr result (λ why. SaysNoKind form.now (texts_of words.now)) }
{
    let Some(name) = form.word(words, Part::Command) else {
        return Err(NoCommand::Name);
    };
    match CommandKind::spelled(name) {
        Some(kind) => Ok(kind),
        None => Err(NoCommand::Name),
    }
}

// The number of the channel, 0 where no column says it.
fn channel_in(form: &ForeignForm, words: &[&str]) -> Result<u64, NoCommand>
    ensures said { IfOk result (SaysChannel form.now (texts_of words.now)) }
    ensures there { IfErr result (λ why. place_of form.now.columns Channel ≢ None) }
    ensures none { IfErr result (λ why. SaysNoNumber form.now (texts_of words.now) Channel) }
{
    match form.channel(words) {
        Some(channel) => Ok(channel),
        None => Err(NoCommand::Number { part: "channel" }),
    }
}

// The command that the words of a line say.
#[tactic(auto, using(crate::proofs::ForeignLines::no_kind, crate::proofs::ForeignLines::no_clock, crate::proofs::ForeignLines::no_channel, crate::proofs::ForeignLines::no_command))]
fn located_in(form: &ForeignForm, words: &[&str], line: u64) -> Result<Located, NoCommand>
    ensures said { IfOk result (SaysLocated form.now (texts_of words.now) line) }
    ensures none { IfErr result (λ why. SaysNone form.now (texts_of words.now)) }
{
    let kind = kind_in(form, words)?;
    let clock = number_in(form, words, Part::Clock)?;
    let channel = channel_in(form, words)?;
    let cmd = command_in(form, words, kind)?;
    Ok(Located {
        line,
        entry: ChannelCommand {
            channel,
            command: Stamped { clock, cmd },
        },
        closes: kind.closes(),
    })
}

/// The command of a line in a form of others, on the line of this number. A part that it has no use for may say anything. A line
/// is refused where it says no command whose numbers fit 64 bits.
#[tactic(auto, using(crate::proofs::ForeignLines::no_words, crate::proofs::ForeignLines::no_line, crate::proofs::ForeignLines::says_line))]
pub fn found_in_form(
    alloc: Global,
    form: &ForeignForm,
    text: &str,
    line: u64,
) -> Result<Result<Located, NoCommand>, AllocError>
    ensures said { IfOk result (λ found. IfOk found (LineSays form.now text.now line)) }
    ensures none { IfOk result (λ found.
        IfErr found (λ why. LineSaysNone form.now text.now line)) }
{
    match form.words(alloc, text)? {
        Some(words) => Ok(located_in(form, &words, line)),
        None => Ok(Err(NoCommand::Form {
            wanted: form.wanted(),
        })),
    }
}
