// The statistics of a trace.
ghost use Rattle.std.specs.Prelude.{◌≡◌, ◌<◌, ◌^◌, [], ◌∷◌, ◌++◌};
ghost use Rattle.trace_statistics.specs.MarginsStanding.{StandByAll};
ghost use Rattle.trace_statistics.specs.Standing.{StandForAll};

use crate::channel::Channel;
use crate::margins::{ChannelMargins, Margins};
use command_trace::{Located, MOST_CHANNELS};
use ddr4_timing::timing::CommandRules;
use ghost_trace::Trace;

/// The statistics of each channel of a trace: those of the commands that were taken.
///
/// Takes the same memory whatever comes.
#[derive(Drop)]
pub struct TraceStatistics {
    pub rules: CommandRules,
    channels: [Channel; 8],
    margins: [ChannelMargins; 8],
    pub given: Trace<Located>,
    ghost stands: { StandForAll channels given.items },
    ghost kept: { StandByAll rules.timing margins given.items },
}

impl TraceStatistics {
    ghost use Rattle.auto_precharge.specs.Unfolding.{plain_commands};
    ghost use Rattle.ddr4_timing.specs.Lawful.{IsInGeometry};
    ghost use Rattle.trace_statistics.specs.Margins.{AreMarginsOf};
    ghost use Rattle.command_trace.specs.Channels.{issued_to};
    ghost use Rattle.trace_statistics.specs.Standing.{ChannelStands};

    /// Before any command, by the numbers of a profile.
    pub fn new(rules: &CommandRules) -> TraceStatistics
        ensures rules { result.rules ≡ rules.now }
        ensures none { result.given.items ≡ [] }
    {
        TraceStatistics {
            rules: *rules,
            channels: [Channel::new(); 8],
            margins: [ChannelMargins::new(rules); 8],
            given: Trace::new(),
        }
    }

    /// Takes the next command in.
    pub fn take(&mut self, next: &Located)
        requires channel { next.now.entry.channel < MOST_CHANNELS }
        requires place { IsInGeometry self.old.rules.geometry next.now.entry.command.cmd }
        requires clock { next.now.entry.command.clock < 2 ^ 63 }
        ensures rules { self.new.rules ≡ self.old.rules }
        ensures adds { self.new.given.items ≡ self.old.given.items ++ next.now ∷ [] }
    {
        let channel = next.entry.channel as usize;
        let rules = self.rules;
        self.channels[channel].take(&rules, &next.issued());
        self.margins[channel].take(&rules, &next.issued());
        self.given.note(next);
    }

    /// The statistics of a channel.
    pub fn channel(&self, channel: u64) -> &Channel
        requires { channel < MOST_CHANNELS }
        ensures { ChannelStands result.now (issued_to channel self.now.given.items) }
    {
        &self.channels[channel as usize]
    }

    /// The margins of a rank.
    pub fn margins(&self, channel: u64, rank: u64) -> Margins
        requires channel { channel < MOST_CHANNELS }
        requires rank { rank < 8 }
        ensures { AreMarginsOf self.now.rules.timing rank
            (plain_commands (issued_to channel self.now.given.items)) result }
    {
        self.margins[channel as usize].rank(rank)
    }
}
