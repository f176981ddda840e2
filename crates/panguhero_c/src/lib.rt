//! A module for callers in C and in plain Rust: a handle stands for a module with its device and its gauge, and each export is one
//! call of them; or it is a whole life on the bytes of a store. No export asks anything of its caller that it could test: what it
//! refuses it answers by a code (`reply_codes`), with numbers beside it. `include/panguhero.h` has the calls as C sees them, and what a
//! caller in C owes.
#![tactic(auto)]

mod calls;
mod control;
mod crash;
mod exports;
mod handle;
mod lives_calls;
mod maybe_box;
mod opened;
mod opening;
mod store_calls;
mod wiring;

pub use control::{
    ph_accepted, ph_arm, ph_disarm, ph_mode, ph_persist, ph_save_step, ph_sense, ph_set_energy,
    ph_sizes, ph_work,
};
pub use crash::{ph_stop_after, ph_stopped};
pub use exports::{
    ph_close, ph_collect, ph_mark, ph_open_memory, ph_power_loss, ph_read, ph_save, ph_text,
    ph_write,
};
pub use handle::Handle;
pub use lives_calls::{ph_format, ph_live, ph_restore};
pub use reply_codes::Numbers;
pub use store_calls::{ph_next_change, ph_open_noted, ph_open_store, ph_store_bytes};
pub use whole_lives::{Answer, Ask};
