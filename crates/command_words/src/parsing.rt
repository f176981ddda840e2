// The parser of the words.
ghost use Rattle.std.specs.Prelude.{◌≡◌, IfOk};
ghost use Rattle.clap.specs.Words.{SameNames, shape_of, subcommand_names};
ghost use Rattle.command_words.specs.Verbs.{verb_names};

use crate::table::{WHY, verbs};
use crate::verb::{Operand, Switch, Verb, WordKind};
use clap::{Arg, ArgAction, ArgGroup, Command, value_parser};
use std::alloc::{AllocError, Global};

/// The shells that completions are written for.
const SHELLS: &[&str] = &["bash", "zsh", "fish"];

/// The forms in which others write traces.
const FORMS: &[&str] = &["ramulator2", "dramsim3", "plain"];

/// The parser of the program's words, which has a subcommand for each verb.
pub fn parser<'a>(alloc: Global, version: &'a str) -> Result<Command<'a>, AllocError>
    ensures { IfOk result (λ program. subcommand_names program ≡ verb_names) }
{
    let why = switch_word(alloc, &WHY).global(true);
    let mut program = Command::new(alloc, "nvctl")
        .about("Runs scripts on an NVDIMM-N controller")
        .version(version)
        .arg(why)?
        .subcommand_required(true);
    for verb in verbs() {
        program = program.subcommand(verb_command(alloc, verb)?)?;
    }
    Ok(program)
}

// A verb's own words.
fn verb_command<'a>(alloc: Global, verb: &Verb) -> Result<Command<'a>, AllocError>
    ensures { IfOk result (λ command. (shape_of command).name ≡ verb.now.name.now) }
{
    let command = Command::new(alloc, verb.name).about(verb.about);
    let command = with_operands(alloc, command, verb.operands)?;
    let command = with_switches(alloc, command, verb.switches)?;
    if verb.any_of.is_empty() {
        return Ok(command);
    }
    let group = ArgGroup::new(alloc, "any")
        .args(verb.any_of)?
        .multiple(true)
        .required(true);
    command.group(group)
}

fn with_operands<'a>(
    alloc: Global,
    command: Command<'a>,
    operands: &[Operand],
) -> Result<Command<'a>, AllocError>
    ensures { IfOk result (λ grown. SameNames command.entry grown) }
{
    let mut command = command;
    for operand in operands {
        command = command.arg(operand_word(alloc, operand))?;
    }
    Ok(command)
}

fn with_switches<'a>(
    alloc: Global,
    command: Command<'a>,
    switches: &[Switch],
) -> Result<Command<'a>, AllocError>
    ensures { IfOk result (λ grown. SameNames command.entry grown) }
{
    let mut command = command;
    for switch in switches {
        command = command.arg(switch_word(alloc, switch))?;
    }
    Ok(command)
}

fn operand_word<'a>(alloc: Global, operand: &Operand) -> Arg<'a> {
    let word = Arg::new(alloc, operand.name)
        .required(operand.is_required)
        .help(operand.help);
    of_kind(word, operand.kind)
}

fn switch_word<'a>(alloc: Global, switch: &Switch) -> Arg<'a> {
    let word = Arg::new(alloc, switch.name)
        .long(switch.name)
        .help(switch.help);
    match switch.value {
        Some(value) => of_kind(word.value_name(value.name), value.kind),
        None => word.action(ArgAction::SetTrue),
    }
}

fn of_kind<'a>(word: Arg<'a>, kind: WordKind) -> Arg<'a> {
    match kind {
        WordKind::Number => word.value_parser(value_parser!(u64)),
        WordKind::Shell => word.value_parser(SHELLS),
        WordKind::Form => word.value_parser(FORMS),
        WordKind::Profile | WordKind::File | WordKind::Term | WordKind::Columns => word,
    }
}
