//! The energy that a closing save takes, and the gauge that it is paid from.
//!
//! On backup a module drains its channels and saves, and pays for each action of that before it is made. `Costs` has the
//! sums that say how much it may come to, so that a write is acknowledged only where its save can be paid for.
#![tactic(auto)]

mod action;
mod costs;
mod energy;
pub mod laws;
mod meter;
mod tally;
mod wild;

pub use action::Action;
pub use costs::{CostNumbers, Costs, PAGE_LINES, TINY_COSTS};
pub use energy::{Dark, Energy, GaugeCall};
pub use meter::Meter;
pub use wild::Wild;
