//! The locks of a board's channels: what lies behind each, and what is done under that lock alone.
//!
//! A channel's `Part` is its port, the credits of its writes, and whether mains were lost. A credit is given with each write. It is
//! returned once a command takes the write into the array, and taken back where both locks are held, so that who holds the board's
//! lock alone counts as many writes on the channel as credits are out. What a part is to whoever knows the channel's log is
//! `PartStands` (`specs/Stands.antt`): the two sides meet by the log, and neither names the other.
//!
//! A `LockedChannel` has the channel's number, its part and the seat that knows its log. The part is there whenever the lock is free,
//! and it stands for the log (`specs/Slots.antt`), whoever had the lock meanwhile: a worker, a read that is served, or one who held
//! the board's lock too. Under a channel's lock alone its log stays as it is. The locks lie in a list: who takes one by its number
//! compares that with the number behind it.
#![tactic(auto)]

mod holding;
mod laws;
mod line_channels;
mod locked_channel;
mod locked_channels;
mod locks;
mod ordering;
mod part;
mod parts_name;
mod requests;
mod serving;
mod turns;
mod unlocked;
mod working;

pub use laws::credits_tell_what_waits;
pub use line_channels::LineChannels;
pub use locked_channel::LockedChannel;
pub use locked_channels::LockedChannels;
pub use locks::take_lock;
pub use part::Part;
pub use parts_name::PartsName;
pub use turns::ChannelTurn;
pub use unlocked::UnlockedChannels;
