//! A life of a module as one value: with its device and its gauge, and all calls that a caller makes of it. It is opened on a device,
//! with what that restores to or formatted, and each of its calls goes on with the one life that began then.
#![tactic(auto)]

mod control;
mod either;
mod laws;
mod life;
mod opening;
mod reading;
mod saving;
mod turns;

pub use either::EitherDevice;
pub use laws::open_lives_survive;
pub use life::OpenLife;
pub use opening::{Found, OpenFault, Opened, open, open_new};
pub use turns::LineRead;
