//! What a module knows of its device: the newest image, and a save that runs, made step by step, or to its end with each step paid
//! for first.
//!
//! The machine in `nv_machine` has the same as its store: `specs/Device.antt` says what the device holds while the machine has one,
//! and `specs/Saves.antt` what each call makes of both.
#![tactic(auto)]

mod closing;
mod copying;
mod saves;

pub use saves::{Saves, StepFault};
