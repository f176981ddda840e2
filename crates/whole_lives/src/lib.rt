//! Whole lives on the bytes of a store that a caller keeps: they are formatted, told what they restore to, or lived on through a list of
//! events, and given back. Nothing stays from one call to the next.
#![tactic(auto)]

mod events;
mod lives;
mod stores;

pub use events::{Answer, Ask};
pub use lives::live;
pub use stores::{format_store, restore_store};
