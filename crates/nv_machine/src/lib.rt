//! The machine that a module's replies are a run of, and its theorem. It names no code of a module: the types of events and replies,
//! the definitions in `specs`, and the laws that follow from them.
//!
//! `specs/Machine.antt` says which reply an event may have and what becomes of the state (`State.antt`, `Moves.antt`, `Losses.antt`);
//! `Guard.antt` what is true of each image that a stop may leave; `Headline.antt` what one event promises, and a run of events;
//! `Lives.antt` and `Survival.antt` what lives in a chain come to, wherever a stop ends them. The headline is `survives_any_stop`.
#![tactic(auto)]

mod events;
mod guard;
mod honesty;
mod lives;
mod order;
mod rising;
mod saves;
mod survival;
mod tickets;
mod turns;

pub use events::{Accepted, Event, Reply, StepReply};
pub use guard::guarded_machines;
pub use honesty::honest_run;
pub use lives::one_history;
pub use order::oldest_go_first;
pub use rising::history_grows;
pub use saves::saves_leave_old_or_new;
pub use survival::{runs_survive, survives_any_stop};
pub use tickets::tickets_are_new;
pub use turns::runs_join;
