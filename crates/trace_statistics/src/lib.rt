//! What the commands of a trace come to, in numbers: of each bank and channel the commands by kind, the hits, misses and conflicts
//! of rows, and how much of its clocks the data bus carries data.
//!
//! A `TraceStatistics` takes the commands one by one and keeps a constant size for each bank.
#![tactic(auto)]

mod channel;
mod lists;
mod margins;
mod numbers;
mod phase;
mod rank;
mod statistics;
mod stream;
mod telling;

pub use channel::Channel;
pub use lists::measure_lists;
pub use margins::{ChannelMargins, Margins, RankMargins};
pub use numbers::{BankNumbers, RankNumbers};
pub use phase::Phase;
pub use statistics::TraceStatistics;
pub use stream::{Measured, measure, measure_trace};
pub use telling::{bank_numbered, write_statistics};
