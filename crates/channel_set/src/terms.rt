// What ports have in common.
use ddr4_timing::timing::Checked;

/// What all ports of a set have in common.
#[derive(Clone, Copy, Debug)]
pub struct PortTerms {
    /// The profile of all of them.
    pub checked: Checked,
    /// How many lines the memory has.
    pub lines: u64,
    /// How many writes may wait in each.
    pub depth: u64,
    /// How many reads of each may be open.
    pub most_reads: u64,
    /// From which number on writes stay out of the arrays, if there is one.
    pub hold: Option<u64>,
}
