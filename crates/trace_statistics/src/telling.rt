// The statistics of a trace, written.
ghost use Rattle.std.specs.Prelude.{◌≡◌, ◌<◌, ℕ, List, OnOk, [], if◌then◌else◌};
ghost use Rattle.std.specs.Io.KnownBytes.{Appends};
ghost use Rattle.auto_precharge.specs.declared.issued.Issued.{Issued};
ghost use Rattle.command_trace.specs.Channels.{issued_to};
ghost use Rattle.trace_statistics.specs.Numbers.{is_none};
ghost use Rattle.trace_statistics.specs.Standing.{ChannelStands};
ghost use Rattle.trace_statistics.specs.Telling.{AreLinesOf, IsMeasured, TellsBelow, TellsNumbered, TellsRank, TellsStatistics, bank_numbered, told_bank};
ghost use Rattle.trace_statistics.specs.Texts.{bank_line, channel_line, rank_line};

use crate::channel::Channel;
use crate::margins::Margins;
use crate::numbers::{BankNumbers, RankNumbers};
use crate::statistics::TraceStatistics;
use crate::stream::Measured;
use command_trace::{MOST_CHANNELS, TraceFault};
use ddr4_timing::place::BankAddress;
use ddr4_timing::timing::CommandRules;
use std::fmt;
use std::io::Write;

// The numbers of banks, with what they come to by the last clock of their channel.
#[derive(Clone, Copy)]
struct Told {
    numbers: BankNumbers,
    last: u64,
}

impl fmt::Display for Told {
    ghost use Rattle.std.specs.Prelude.{Some};
    ghost use Rattle.trace_statistics.specs.Texts.{told_text};

    ghost output = { λ told. Some (told_text told) };

    #[tactic(auto, unfolding(crate::specs::Texts::told_text))]
    fn fmt<W: fmt::Write>(&self, f: &mut fmt::Formatter<W>) -> fmt::Result {
        let share = self.numbers.share(self.last);
        let (percent, tenths, hundredths) = (share / 100, share / 10 % 10, share % 10);
        let (numbers, bytes) = (self.numbers, self.numbers.bytes(self.last));
        write!(
            f,
            "{numbers} bus {percent}.{tenths}{hundredths}% bytes {bytes}"
        )
    }
}

/// Writes the statistics of each channel whose commands are lawful: a line of the channel, one of each bank that had a command, and
/// one of each rank.
pub fn write_statistics<W: Write>(
    rules: &CommandRules,
    measured: &Measured,
    writer: &mut W,
) -> Result<(), TraceFault>
    ensures { IsMeasured rules.now measured.now → OnOk result ((text : List ℕ)
        × TellsStatistics rules.now measured.now.check.given.items text
        × Appends (W.contents writer.old) (W.contents writer.new) text) }
{
    for channel in 0..rules.geometry.channels {
        if measured.check.is_lawful(rules, channel) {
            write_lines(rules, channel, &measured.statistics, writer)?;
        }
    }
    Ok(())
}

// Writes the lines of a channel.
fn write_lines<W: Write>(
    rules: &CommandRules,
    channel: u64,
    statistics: &TraceStatistics,
    writer: &mut W,
) -> Result<(), TraceFault>
    requires { channel < MOST_CHANNELS }
    ensures { statistics.now.rules ≡ rules.now → OnOk result ((text : List ℕ)
        × AreLinesOf rules.now channel (issued_to channel statistics.now.given.items) text
        × Appends (W.contents writer.old) (W.contents writer.new) text) }
{
    let of = statistics.channel(channel);
    let total = Told {
        numbers: of.total(),
        last: of.last(),
    };
    write_channel(channel, total, &of.shared(), writer)?;
    write_banks(rules, channel, of, writer)?;
    write_ranks(rules, channel, statistics, writer)
}

// Writes the line of a channel.
#[tactic(auto, unfolding(crate::specs::Texts::channel_line))]
fn write_channel<W: Write>(
    channel: u64,
    total: Told,
    shared: &RankNumbers,
    writer: &mut W,
) -> Result<(), TraceFault>
    ensures { OnOk result (Appends (W.contents writer.old) (W.contents writer.new)
        (channel_line channel total shared.now)) }
{
    match writeln!(writer, "{channel} channel {total} {shared}") {
        Ok(()) => Ok(()),
        Err(_) => Err(TraceFault::Writer),
    }
}

/// The bank of this number below 128, in the order of ranks, of their groups and of the banks of these.
pub fn bank_numbered(number: u64) -> BankAddress
    ensures { result ≡ bank_numbered number }
{
    BankAddress {
        rank: number / 16,
        group: number / 4 % 4,
        bank: number % 4,
    }
}

// Writes the line of each bank of a channel that had a command.
fn write_banks<W: Write>(
    rules: &CommandRules,
    channel: u64,
    of: &Channel,
    writer: &mut W,
) -> Result<(), TraceFault>
    ensures { (list : List Issued) → ChannelStands of.now list → OnOk result ((text : List ℕ)
        × TellsBelow (TellsNumbered (told_bank channel list) rules.now list) 128 text
        × Appends (W.contents writer.old) (W.contents writer.new) text) }
{
    let last = of.last();
    for number in 0..128 {
        let at = bank_numbered(number);
        if at.lies_in(&rules.geometry) {
            let numbers = of.bank(rules, at);
            write_bank(channel, at, Told { numbers, last }, writer)?;
        }
    }
    Ok(())
}

// Writes the line of a bank, where it had a command.
fn write_bank<W: Write>(
    channel: u64,
    at: BankAddress,
    told: Told,
    writer: &mut W,
) -> Result<(), TraceFault>
    ensures { OnOk result (Appends (W.contents writer.old) (W.contents writer.new)
        (if is_none told.numbers then [] else bank_line channel at told)) }
{
    if told.numbers.is_none() {
        Ok(())
    } else {
        write_bank_line(channel, at, told, writer)
    }
}

// Writes the line of a bank.
#[tactic(auto, unfolding(crate::specs::Texts::bank_line))]
fn write_bank_line<W: Write>(
    channel: u64,
    at: BankAddress,
    told: Told,
    writer: &mut W,
) -> Result<(), TraceFault>
    ensures { OnOk result (Appends (W.contents writer.old) (W.contents writer.new)
        (bank_line channel at told)) }
{
    let (rank, group, bank) = (at.rank, at.group, at.bank);
    match writeln!(writer, "{channel} bank {rank} {group} {bank} {told}") {
        Ok(()) => Ok(()),
        Err(_) => Err(TraceFault::Writer),
    }
}

// Writes the line of each rank of a channel.
fn write_ranks<W: Write>(
    rules: &CommandRules,
    channel: u64,
    statistics: &TraceStatistics,
    writer: &mut W,
) -> Result<(), TraceFault>
    requires { channel < MOST_CHANNELS }
    ensures { statistics.now.rules ≡ rules.now → OnOk result ((text : List ℕ)
        × TellsBelow (TellsRank (rank_line channel) rules.now
        (issued_to channel statistics.now.given.items)) rules.now.geometry.ranks text
        × Appends (W.contents writer.old) (W.contents writer.new) text) }
{
    for rank in 0..rules.geometry.ranks {
        write_rank(channel, rank, &statistics.margins(channel, rank), writer)?;
    }
    Ok(())
}

// Writes the line of a rank.
#[tactic(auto, unfolding(crate::specs::Texts::rank_line))]
fn write_rank<W: Write>(
    channel: u64,
    rank: u64,
    margins: &Margins,
    writer: &mut W,
) -> Result<(), TraceFault>
    ensures { OnOk result (Appends (W.contents writer.old) (W.contents writer.new)
        (rank_line channel rank margins.now)) }
{
    match writeln!(writer, "{channel} rank {rank} {margins}") {
        Ok(()) => Ok(()),
        Err(_) => Err(TraceFault::Writer),
    }
}
