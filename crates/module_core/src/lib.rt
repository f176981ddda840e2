//! A module: a memory whose writes are accepted at once, saved on a device, and persistent where it is armed, which puts its queues
//! into the persistence domain.
//!
//! Each call answers a step of the machine in `nv_machine`: `specs/Stands.antt` says which machine a module stands for, and
//! `specs/ModuleLives.antt` that its answers make lives of the headline.
#![tactic(auto)]

mod arming;
mod copying;
mod cutting;
mod front;
mod laws;
mod losing;
mod marks;
mod module;
mod numbers;
mod opening;
mod parts;
mod running;
mod stepping;
mod telling;
mod turns;

pub use front::Front;
pub use laws::{marks_rise, modules_live, runs_issue};
pub use module::Module;
pub use opening::LifeTerms;
pub use parts::TakenApart;
pub use turns::{any_gauges, calls_in_turn, honest_modules};
