// The lanes of a picture.
ghost use Rattle.std.specs.Prelude.{◌≡◌};
ghost use Rattle.schedule_drawing.specs.Lanes.{bank_lane, bus_lane, lane_of, rank_lane};

use command_trace::ChannelCommand;
use ddr4_timing::command::Command;
use ddr4_timing::place::BankAddress;
use std::fmt;

/// What a lane of a channel shows.
#[derive(Clone, Copy, Debug, PartialEq, Eq)]
pub enum LaneKind {
    /// A rank's refreshes, and its commands that are to no bank. Its banks stand below.
    Rank { rank: u64 },
    Bank { at: BankAddress },
    /// The data bus.
    Bus,
}

/// A lane of a channel.
#[derive(Clone, Copy, Debug, PartialEq, Eq)]
pub struct Lane {
    pub channel: u64,
    pub kind: LaneKind,
}

impl Lane {
    /// The lane of a bank.
    pub fn of_bank(channel: u64, at: BankAddress) -> Lane
        ensures { result ≡ bank_lane channel at }
    {
        Lane {
            channel,
            kind: LaneKind::Bank { at },
        }
    }

    /// The lane of a rank.
    pub fn of_rank(channel: u64, rank: u64) -> Lane
        ensures { result ≡ rank_lane channel rank }
    {
        Lane {
            channel,
            kind: LaneKind::Rank { rank },
        }
    }

    /// The lane of a channel's data bus.
    pub fn of_bus(channel: u64) -> Lane
        ensures { result ≡ bus_lane channel }
    {
        Lane {
            channel,
            kind: LaneKind::Bus,
        }
    }

    /// The lane of a command: its bank's, or its rank's where it names no bank.
    pub fn of(entry: &ChannelCommand) -> Lane
        ensures { result ≡ lane_of entry.now }
    {
        match entry.command.cmd {
            Command::Act { at, .. } => Lane::of_bank(entry.channel, at),
            Command::Rd { at, .. } => Lane::of_bank(entry.channel, at),
            Command::Wr { at, .. } => Lane::of_bank(entry.channel, at),
            Command::Pre { at } => Lane::of_bank(entry.channel, at),
            Command::PreAll { rank } => Lane::of_rank(entry.channel, rank),
            Command::Ref { rank } => Lane::of_rank(entry.channel, rank),
            Command::Sre { rank } => Lane::of_rank(entry.channel, rank),
        }
    }
}

impl fmt::Display for Lane {
    fn fmt<W: fmt::Write>(&self, f: &mut fmt::Formatter<W>) -> fmt::Result {
        match self.kind {
            LaneKind::Rank { rank } => write!(f, "channel {} rank {rank}", self.channel),
            LaneKind::Bank { at } => write!(f, "group {} bank {}", at.group, at.bank),
            LaneKind::Bus => write!(f, "data bus {}", self.channel),
        }
    }
}
