//! What a crash may leave of a script: the script is stopped at each device call of each line and by a loss of mains behind each
//! line, and what a restore finds is told line by line.
#![tactic(auto)]

mod answers;
mod counts;
mod leaving;
mod left;
mod outcome;
mod script;
mod standing;
mod stop;
mod table;
mod trials;
mod tried;

pub use counts::Counts;
pub use outcome::{Found, Outcome};
pub use script::Script;
pub use stop::{PICKS, Stop};
pub use table::{AtStop, Block, OutcomeCount, Table};
pub use trials::{Progress, Trials};
pub use tried::Tried;
