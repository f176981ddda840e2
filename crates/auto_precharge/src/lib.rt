//! Reads and writes with auto-precharge: the list of commands that the commands of a channel stand for.
//!
//! Such a command stands for a read or a write, and for a precharge of its bank at the least clock that the rules allow behind it
//! (`specs/Unfolding.antt`). The rules stay those of `ddr4_timing`. An `Unfolding` tells whether a command may follow those
//! before it, in a constant size.
#![tactic(auto)]

mod full_list;
mod issued;
mod laws;
mod unfolding;
mod waiting;

pub use full_list::{FullList, unfold};
pub use issued::Issued;
pub use laws::plain_traces;
pub use unfolding::Unfolding;
pub use waiting::Closing;
