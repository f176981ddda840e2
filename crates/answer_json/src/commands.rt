// What is told of a command.
ghost use Rattle.std.specs.Prelude.{[], ◌∷◌, ◌++◌, codes};
ghost use Rattle.answer_json.specs.Commands.{bank_pieces, command_pieces, issued_pieces, numbered_pieces};
ghost use Rattle.answer_json.specs.Told.{IsTold, counts, names, pieces_of};

use crate::told::{Part, Told, four, name, number, seven, six};
use ddr4_timing::command::{Command, Stamped};
use ddr4_timing::place::BankAddress;

/// What is told of a command of a channel: the channel, the clock, the name and the numbers of its place.
pub fn told_of_command(channel: u64, command: &Stamped) -> Told
    ensures { IsTold (codes "command") (issued_pieces channel command.now) result }
{
    told_behind(number("channel", channel), command)
}

/// The same with its line in a trace in place of its channel.
pub fn told_of_numbered(line: u64, command: &Stamped) -> Told
    ensures { IsTold (codes "command") (numbered_pieces line command.now) result }
{
    told_behind(number("line", line), command)
}

// What is told of a command behind a first part.
fn told_behind(first: Part, command: &Stamped) -> Told
    ensures { IsTold (codes "command") (pieces_of first ++ counts (codes "clock") command.now.clock
        ∷ command_pieces command.now.cmd) result }
{
    let clock = number("clock", command.clock);
    match command.cmd {
        Command::Act { at, row } => in_row(first, clock, "ACT", at, number("row", row)),
        Command::Rd { at, column } => in_row(first, clock, "RD", at, number("column", column)),
        Command::Wr { at, column } => in_row(first, clock, "WR", at, number("column", column)),
        Command::Pre { at } => of_bank(first, clock, at),
        Command::PreAll { rank } => of_rank(first, clock, "PREA", rank),
        Command::Ref { rank } => of_rank(first, clock, "REF", rank),
        Command::Sre { rank } => of_rank(first, clock, "SRE", rank),
    }
}

// A command with a row or a column.
fn in_row(first: Part, clock: Part, command: &'static str, at: BankAddress, last: Part) -> Told
    ensures { IsTold (codes "command") (pieces_of first ++ pieces_of clock
        ++ names (codes "command") command.now ∷ bank_pieces at ++ pieces_of last) result }
{
    seven(
        "command",
        first,
        clock,
        name("command", command),
        number("rank", at.rank),
        number("group", at.group),
        number("bank", at.bank),
        last,
    )
}

fn of_bank(first: Part, clock: Part, at: BankAddress) -> Told
    ensures { IsTold (codes "command") (pieces_of first ++ pieces_of clock
        ++ names (codes "command") (codes "PRE") ∷ bank_pieces at) result }
{
    six(
        "command",
        first,
        clock,
        name("command", "PRE"),
        number("rank", at.rank),
        number("group", at.group),
        number("bank", at.bank),
    )
}

fn of_rank(first: Part, clock: Part, command: &'static str, rank: u64) -> Told
    ensures { IsTold (codes "command") (pieces_of first ++ pieces_of clock
        ++ names (codes "command") command.now ∷ counts (codes "rank") rank ∷ []) result }
{
    four(
        "command",
        first,
        clock,
        name("command", command),
        number("rank", rank),
    )
}
