// The form of a trace that the words name.
ghost use Rattle.std.specs.Prelude.{◌≡◌, ◌⊎◌, IfErr, IfOk, codes};
ghost use Rattle.clap.specs.Words.{first_value, found_of};
ghost use Rattle.command_faults.specs.declared.fault.ProgramFault.TheVariants.{Columns, Memory};
ghost use Rattle.command_line.specs.Forms.{IsFormAsked};

use clap::ArgMatches;
use command_faults::{Failure, ProgramFault, Reason};
use command_trace::Form;
use std::alloc::Global;
use trace_forms::{ForeignForm, FormFault};

/// The form that the words ask for, by its name or by its columns; none where they leave it to the trace. Both at once, and a list
/// that names no columns, are refused.
pub(crate) fn form_asked(
    alloc: Global,
    matches: &ArgMatches<'_>,
) -> Result<Option<Form>, Failure<'static>>
    ensures form { IfOk result (IsFormAsked (first_value (found_of matches.now) (codes "form"))
        (first_value (found_of matches.now) (codes "columns"))) }
    ensures fault { IfErr result (λ failure. (failure.fault ≡ Columns)
        ⊎ (failure.fault ≡ Memory)) }
{
    match (matches.get_str("form"), matches.get_str("columns")) {
        (None, None) => Ok(None),
        (Some(_), Some(_)) => Err(refused("--form or --columns is given, not both")),
        (Some(name), None) => match ForeignForm::named(name) {
            Some(form) => Ok(Some(Form::Foreign(form))),
            None => Err(refused("forms are ramulator2, dramsim3 and plain")),
        },
        (None, Some(names)) => match ForeignForm::of_columns(alloc, names) {
            Ok(form) => Ok(Some(Form::Foreign(form))),
            Err(FormFault::Memory) => Err(Failure::from(ProgramFault::Memory)),
            Err(why) => Err(Failure {
                fault: ProgramFault::Columns,
                reason: why.to_string(alloc).ok().map(Reason::Told),
            }),
        },
    }
}

fn refused(reason: &'static str) -> Failure<'static>
    ensures { result.fault ≡ Columns }
{
    Failure {
        fault: ProgramFault::Columns,
        reason: Some(Reason::Known(reason)),
    }
}
