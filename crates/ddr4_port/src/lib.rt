//! A DDR4 channel as the lines of the host see it: a channel with its map is a port, and a memory has one port for each channel
//! of its geometry.
//!
//! What contracts see of a port is in `specs/Port.antt`, and which writes it carries in `specs/Carrying.antt`.
#![tactic(auto)]

mod copying;
mod making;
mod port;
mod rules;

pub use making::channels_with_memory;
pub use port::Ddr4Port;
pub use rules::keep_rules;
