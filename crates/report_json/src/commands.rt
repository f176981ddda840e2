// What is told of a command of a trace.
ghost use Rattle.std.specs.Prelude.{◌∷◌, ◌++◌, IfOk, codes};
ghost use Rattle.report_fields.specs.Fields.{names};
ghost use Rattle.report_fields.specs.Parts.{IsTold};
ghost use Rattle.report_json.specs.Verdicts.{bank_fields, numbered_by, numbered_fields, spaced};

use command_trace::NumberedCommand;
use ddr4_timing::command::Command;
use ddr4_timing::place::BankAddress;
use report_fields::{Part, Told, tell};
use std::alloc::{AllocError, Global};

/// What is told of a command and its line.
pub(crate) fn tell_numbered(alloc: Global, command: &NumberedCommand) -> Result<Told, AllocError>
    ensures { IfOk result (IsTold (codes "command") (numbered_fields command.now)) }
{
    match command.command.cmd {
        Command::Act { at, row } => tell_placed(alloc, command, "ACT", at, "row", row),
        Command::Rd { at, column } => tell_placed(alloc, command, "RD", at, "column", column),
        Command::Wr { at, column } => tell_placed(alloc, command, "WR", at, "column", column),
        Command::Pre { at } => tell_precharge(alloc, command, at),
        Command::PreAll { rank } => tell_of_rank(alloc, command, "PREA", rank),
        Command::Ref { rank } => tell_of_rank(alloc, command, "REF", rank),
        Command::Sre { rank } => tell_of_rank(alloc, command, "SRE", rank),
    }
}

// A command with a row or a column.
fn tell_placed(
    alloc: Global,
    command: &NumberedCommand,
    name: &'static str,
    at: BankAddress,
    last: &'static str,
    value: u64,
) -> Result<Told, AllocError>
    ensures { IfOk result (IsTold (codes "command") (numbered_by command.now
        (names (codes "command") name.now ∷ bank_fields at ++ spaced last.now value))) }
{
    let parts = [
        Part::Word("line "),
        Part::Number("line", command.line),
        Part::Word(": "),
        Part::Number("clock", command.command.clock),
        Part::Word(" "),
        Part::Name("command", name),
        Part::Word(" "),
        Part::Number("rank", at.rank),
        Part::Word(" "),
        Part::Number("group", at.group),
        Part::Word(" "),
        Part::Number("bank", at.bank),
        Part::Word(" "),
        Part::Number(last, value),
    ];
    tell(alloc, "command", &parts)
}

fn tell_precharge(
    alloc: Global,
    command: &NumberedCommand,
    at: BankAddress,
) -> Result<Told, AllocError>
    ensures { IfOk result (IsTold (codes "command") (numbered_by command.now
        (names (codes "command") (codes "PRE") ∷ bank_fields at))) }
{
    let parts = [
        Part::Word("line "),
        Part::Number("line", command.line),
        Part::Word(": "),
        Part::Number("clock", command.command.clock),
        Part::Word(" "),
        Part::Name("command", "PRE"),
        Part::Word(" "),
        Part::Number("rank", at.rank),
        Part::Word(" "),
        Part::Number("group", at.group),
        Part::Word(" "),
        Part::Number("bank", at.bank),
    ];
    tell(alloc, "command", &parts)
}

// A command of a whole rank.
fn tell_of_rank(
    alloc: Global,
    command: &NumberedCommand,
    name: &'static str,
    rank: u64,
) -> Result<Told, AllocError>
    ensures { IfOk result (IsTold (codes "command") (numbered_by command.now
        (names (codes "command") name.now ∷ spaced (codes "rank") rank))) }
{
    let parts = [
        Part::Word("line "),
        Part::Number("line", command.line),
        Part::Word(": "),
        Part::Number("clock", command.command.clock),
        Part::Word(" "),
        Part::Name("command", name),
        Part::Word(" "),
        Part::Number("rank", rank),
    ];
    tell(alloc, "command", &parts)
}
