//! The closed-page drain of a channel, as ADR (asynchronous DRAM refresh) is one: what it issues and when (`specs/Drain.antt`),
//! what it and its parts do to a channel (`specs/Steps.antt`), and what that comes to (`laws`).
#![tactic(auto)]

mod at_once;
mod channel_drain;
pub mod laws;
mod payment;
mod report;
mod steps;

pub use at_once::drain_all;
pub use channel_drain::{drain, drain_paying};
pub use report::DrainReport;
pub use steps::{StepEnd, close_step, entry_step, self_refresh};
pub use worker_turns::{Always, Gate, Turn};
