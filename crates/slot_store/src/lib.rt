//! Save images in the two slots of a device: formatting, a save step by step, and what a device restores to.
//!
//! A device has two slots, each a header page and the lines of the memory. A slot counts where its gate, the commit byte
//! that it begins with, is open, and of two images the one of the greater generation is the newest. A save goes to the
//! other slot: it closes the gate there, makes that durable, writes pages and header, makes these durable, opens the gate
//! and makes that durable, so that a stop at any moment leaves the old image or the new one: the clause `old_or_new` of
//! `save`.
//!
//! One loop makes the steps of a save, `SaveRun::finish`, and asks its source for each before it is made. `save` and `format`
//! are uses of it, and so is a save that pays for its steps: its source pays where it is asked.
//!
//! One restore, too, compares the lines of both slots with their digests: in turn as `restore`, side by side as
//! `restore_at_once`.
#![tactic(auto)]

mod arming;
mod checking;
mod choosing;
mod finishing;
mod formatting;
mod head;
mod headers;
mod laws;
mod plan;
mod restoring;
mod saving;
mod slots;
mod source;
mod whole;

pub use arming::mark_armed;
pub use finishing::page_for;
pub use formatting::format;
pub use head::Head;
pub use laws::{
    full_slots, given_up, newest_at_rest, no_step_left, one_step_less, save_done, stop_at_rest,
    stop_between_steps,
};
pub use plan::{Newest, Plan, Step};
pub use restoring::{RestoreError, Restored, Verdict, restore, restore_at_once};
pub use saving::SaveRun;
pub use slots::{MOST_LINES, Slot, device_size};
pub use source::{BrokenOff, Refused, SaveSource};
pub use whole::{SaveFault, save};
