//! The modes of a module, what moves it from one to another, why it refuses what it is asked, and what becomes of a loss of
//! mains.
#![tactic(auto)]

pub mod laws;
mod loss;
mod mode;
mod moves;
mod refusal;

pub use loss::Loss;
pub use mode::Mode;
pub use moves::Move;
pub use refusal::{
    ArmRefusal, ArmReply, DisarmReply, ReadRefusal, SaveState, WriteRefusal, energy_refusal,
};
