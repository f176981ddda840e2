// What is known of the newest image besides its memory.
use crate::{Newest, Verdict};

/// What is known of the newest image besides its memory: what a life begins with, and what the next save is made over.
#[derive(Clone, Copy, Debug, PartialEq, Eq)]
pub struct Head {
    pub newest: Newest,
    /// The number of writes that its memory is after, counted from the first life on.
    pub count: u64,
    /// The other slot's gate is known closed and settled.
    pub closed: bool,
    pub verdict: Verdict,
}
