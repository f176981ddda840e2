//! What lies behind the board's lock, where each channel has a lock of its own, and what is done with it and the part of one
//! channel.
//!
//! A `Desk` has the front of the module, the device, the gauge, the record of the life, the marks, and what is known of each
//! channel by its log. It stands for some machine whenever its lock is free (`specs/Desk.antt`, `specs/Kept.antt`). Who holds the
//! board's lock and one channel's settles that channel first, and then writes or reads; of no other channel is anything asked.
//! For a call of the whole module the channels' locks are taken one behind another: each channel lends its port to a module that is
//! asked, and has it back before its lock is let go.
#![tactic(auto)]

mod all_locks;
mod board_port;
mod calling;
mod closing;
mod desk;
mod hosting;
mod laws;
mod lent_desk;
mod loans;
mod locked_desk;
mod noting;
mod pieces;
mod reading;
mod resting;
mod settling;
mod writing;

pub use all_locks::{lose, whole};
pub use board_port::BoardPort;
pub use calling::{
    ArmCall, CutCall, DisarmCall, SaveBeginCall, SaveStepCall, SenseCall, WholeCall,
};
pub use closing::gather_all;
pub use desk::Desk;
pub use laws::{credits_add_up, desks_keep_lives, desks_survive, desks_tell_lives};
pub use locked_desk::LockedDesk;
pub use noting::{look_at, note_write};
