// How far a channel is from its last command.

/// Who has issued a channel's commands, and what that says of its refreshes.
#[derive(Clone, Copy, Debug, PartialEq, Eq)]
pub enum Phase {
    /// The scheduler alone, by `work`: each rank is awake, and its next refresh has its time.
    Running,
    /// Single commands are issued, by `issue`, and not every rank had its SRE.
    Stepping,
    /// Single commands were issued, and every rank had its SRE: no further command may go.
    Asleep,
}
