//! Where each line lies: maps from the lines of a host to the places of a geometry and back.
//!
//! What stands on a map asks for a `LineMap` (`src/line_map.rt`). A `Map` is one of two closures that a caller made
//! (`src/map.rt`); what is asked of them, and what follows, is in `specs/Inverse.antt`. The two maps that a profile may name are
//! plain functions, `lines` and `xor`, each way, and a `ReadyMap` is either of them as a value (`src/ready.rt`). The place of a
//! line in the array of its channel is its cell, whatever the map (`src/cells.rt`).
#![tactic(auto)]

pub mod cells;
pub mod laws;
pub mod line_map;
pub mod lines;
pub mod map;
mod ready;
pub mod xor;

pub use ready::{Interleaving, ReadyMap};
