// How a script is stopped.
use save_device::Pick;
use std::fmt;

/// What becomes of the bytes that a stop finds unsettled: the old ones, the new ones, and sixteen kinds of torn ones.
pub const PICKS: [Pick; 18] = [
    Pick::Old,
    Pick::New,
    Pick::Torn(0x00),
    Pick::Torn(0x11),
    Pick::Torn(0x22),
    Pick::Torn(0x33),
    Pick::Torn(0x44),
    Pick::Torn(0x55),
    Pick::Torn(0x66),
    Pick::Torn(0x77),
    Pick::Torn(0x88),
    Pick::Torn(0x99),
    Pick::Torn(0xaa),
    Pick::Torn(0xbb),
    Pick::Torn(0xcc),
    Pick::Torn(0xdd),
    Pick::Torn(0xee),
    Pick::Torn(0xff),
];

/// A stop within a line of a script, or behind it.
#[derive(Clone, Copy, Debug, PartialEq, Eq)]
pub enum Stop {
    /// Everything is dark behind so many device calls of the line. Where it makes no more, the stop is behind the line. No other
    /// call of it fails.
    Dark { calls: u64 },
    /// Mains are lost behind the line, and everything is dark once that is answered.
    Loss,
}

impl fmt::Display for Stop {
    fn fmt<W: fmt::Write>(&self, f: &mut fmt::Formatter<W>) -> fmt::Result {
        match self {
            Stop::Dark { calls } => write!(f, "dark behind {calls} device calls"),
            Stop::Loss => f.write_str("mains lost behind it"),
        }
    }
}
