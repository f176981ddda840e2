//! The scheduler of a channel: first ready, first come, first served (FR-FCFS).
//!
//! The choice is the least candidate in the order of Rixner and others, "Memory Access Scheduling", ISCA 2000, made total:
//! ranks whose refreshes are due come first, then column commands, then row commands, older requests first. The next
//! command is the choice at the first clock that has a candidate, and with it each rank keeps the time for its refresh
//! (`docs/REFRESH_MARGIN.md` has the arithmetic). The definitions are in `specs/`.
#![tactic(auto)]

mod best;
mod hits;
pub mod laws;
mod line_counts;
pub mod margin;
pub mod next;
mod noted_look;
pub mod queue;
mod scan;
mod search;
