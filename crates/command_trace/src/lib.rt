//! Traces of DDR4 commands: the lines of one, read as a stream, and whether the commands of each channel are lawful.
//!
//! A `TraceCheck` takes the commands one by one and keeps a constant size for each channel. Where a channel's commands aren't
//! lawful, `diagnose` tells why the first that isn't may not follow those before it.
#![tactic(auto)]

mod asked;
mod diagnosis;
mod entry;
mod foreign;
mod front;
mod kind;
mod no_command;
mod reading;
mod reason;
mod row;
mod source;
mod tally;
mod trace_check;
mod why;

pub use asked::Asked;
pub use diagnosis::{Diagnosis, Listed, NumberedCommand, check_trace, list_commands, list_issued};
pub use entry::{ChannelCommand, Located};
pub use foreign::found_in_form;
pub use front::CommandChecker;
pub use kind::{CommandKind, name_of};
pub use no_command::NoCommand;
pub use reading::{Form, HEADER, TraceFault, TraceReader, form_of};
pub use reason::Reason;
pub use source::Source;
pub use tally::{BrokenRule, tallies};
pub use trace_check::{MOST_CHANNELS, TraceCheck};
pub use why::diagnose;
