//! Schedules of DDR4 commands as pictures: SVG, with a lane a bank, and VCD, with the state of each bank.
//!
//! `shapes_of` says what is drawn of a list of commands, `told_schedule` of a script; `write_svg` and `write_vcd` write it.
#![tactic(auto)]

mod axis;
mod entries;
mod fault;
mod flaws;
mod lanes;
mod layout;
mod placing;
mod range;
mod schedule;
mod shapes;
mod stood_for;
mod svg;
mod telling;
mod trace;
mod vcd;

pub use entries::{has_closing, read_found};
pub use fault::DrawFault;
pub use flaws::{Flaw, flaws_of};
pub use lanes::{Lane, LaneKind};
pub use layout::Layout;
pub use schedule::{EventKind, Schedule, ScheduleEvent};
pub use shapes::{Shape, bar_of_row, shapes_of};
pub use stood_for::entries_drawn;
pub use svg::write_svg;
pub use telling::told_schedule;
pub use trace::trace_schedule;
pub use vcd::write_vcd;
