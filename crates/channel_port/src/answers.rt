// What the channels answer.
use ddr4_timing::command::Stamped;
use line_memory::Line;

/// A read that was accepted and not collected yet, by its channel and its serial there.
#[derive(Clone, Copy, Debug, PartialEq, Eq)]
pub struct Ticket {
    pub channel: u64,
    /// Its number among the reads of the channel that waited, from 0. A channel can make more of them than 64 bits count.
    pub serial: u128,
}

/// The answer to a read.
#[derive(Clone, Copy, Debug, PartialEq, Eq)]
pub enum Got {
    /// The line's bytes.
    Now(Line),
    /// The bytes come with an RD of the channel, and are to be collected.
    Later(Ticket),
}

/// What there is for a ticket.
#[derive(Clone, Copy, Debug, PartialEq, Eq)]
pub enum Collected {
    /// The read's line, its bytes, and how many writes were accepted before it. The ticket is gone.
    Data { line: u64, bytes: Line, at: u64 },
    /// Its RD wasn't issued yet.
    Pending,
    /// It is no ticket, or was collected or lost.
    Unknown,
}

/// Whom a RD or WR served.
#[derive(Clone, Copy, Debug, PartialEq, Eq)]
pub enum Served {
    /// The write of this number is in its array now.
    Write { number: u64 },
    /// The read of this ticket has its bytes now.
    Read(Ticket),
}

/// One command that a channel issued.
#[derive(Clone, Copy, Debug, PartialEq, Eq)]
pub struct Done {
    pub command: Stamped,
    /// The write or read that it served, where it is a RD or WR.
    pub served: Option<Served>,
}
