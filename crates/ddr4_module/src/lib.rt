//! Modules over DDR4 channels, each opened with what a device restored to; and a whole life of one, on a device that fails at will
//! and with a gauge that answers at will.
#![tactic(auto)]

mod opening;
mod wild;

pub use opening::{Sizes, open};
pub use wild::wild_life;
