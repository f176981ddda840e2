//! The port of a channel: one channel of a module, as the lines of the host see it. Writes that are put into it wait until a
//! command takes them into its array, and reads are answered as the memory is after all writes before them.
//!
//! What a port is to its caller is `PortView` (`specs/View.antt`), what waits in it is in `specs/Waits.antt`, and what its calls
//! answer in `specs/Answers.antt`. What it carries is said of its own lines alone.
#![tactic(auto)]

mod answers;
mod port;
mod stage;
mod waiting;

pub use answers::{Collected, Done, Got, Served, Ticket};
pub use port::ChannelPort;
pub use stage::Stage;
pub use waiting::Waiting;
