//! Runs scripts on a session over DDR4 channels, and reports what each line is answered.
#![tactic(auto)]

mod answers;
mod book;
mod laws;
mod report;
mod running;
mod script;
mod wiring;

pub use answers::{
    arm_answer, disarm_answer, read_answer, restore_answer, save_answer, step_answer, work_answer,
    write_answer,
};
pub use book::{CommandBook, KeptRun, LifeBook, LifeCommands};
pub use laws::{scripts_survive, scripts_tell_lists};
pub use report::{Printer, Report};
pub use running::{do_lines, do_lines_kept, do_lines_on, run_lines, run_script};
pub use script::{answer_line, is_busy, turns_of};
pub use wiring::Wiring;
