//! A board from its opening to its end: `with_board` makes its name, a worker for each channel, a saver and a thread for each host,
//! has what a caller wants done (`BoardUse`) in those, joins them, and closes the board.
#![tactic(auto)]

mod ending;
mod hosting;
mod mains;
mod muster;
mod no_notices;
mod threads;
mod using;

pub use ending::{BoardEnd, LifeEnd, Unchecked};
pub use hosting::{BoardUse, HostEnd, MeteredBoard};
pub use mains::Mains;
pub use no_notices::NoNotices;
pub use using::{NotUsed, WhyNot, with_board};
