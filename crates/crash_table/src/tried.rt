// What was tried.
use crate::outcome::Outcome;
use crate::stop::Stop;
use save_device::Pick;

/// A stop and a pick that were tried, and what the restore found.
#[derive(Clone, Copy, Debug, PartialEq, Eq)]
pub struct Tried {
    pub stop: Stop,
    pub pick: Pick,
    pub outcome: Outcome,
}
