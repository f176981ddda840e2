// The commands of channels that are kept in lists, checked and counted.
ghost use Rattle.std.specs.Prelude.{◌≡◌, ◌<◌, ◌++◌, [], ◌∷◌, All, map};
ghost use Rattle.command_trace.specs.Channels.{FollowsAll};
ghost use Rattle.trace_statistics.specs.Lists.{IsEarly, AreEarly, located, located_from};
ghost use Rattle.trace_statistics.specs.Standing.{AreOfLawful};

use crate::stream::Measured;
use command_trace::{ChannelCommand, Located, MOST_CHANNELS};
use ddr4_timing::command::Stamped;
use ddr4_timing::timing::CommandRules;

// A command of a channel as one of a trace.
fn located(channel: u64, command: Stamped) -> Located
    ensures { result ≡ located channel command }
{
    Located {
        line: 0,
        entry: ChannelCommand { channel, command },
        closes: false,
    }
}

// Takes the commands of a channel in.
fn take_list(rules: &CommandRules, measured: &mut Measured, channel: u64, commands: &[Stamped])
    requires channel { channel < MOST_CHANNELS }
    requires follows { FollowsAll rules.now measured.old.check }
    requires lawful { AreOfLawful rules.now
        measured.old.check.given.items measured.old.statistics.given.items }
    requires rules { measured.old.statistics.rules ≡ rules.now }
    ensures follows { FollowsAll rules.now measured.new.check }
    ensures lawful { AreOfLawful rules.now
        measured.new.check.given.items measured.new.statistics.given.items }
    ensures rules { measured.new.statistics.rules ≡ rules.now }
    ensures given { All IsEarly commands.now → measured.new.check.given.items
        ≡ measured.old.check.given.items ++ map (λ x. located channel x) commands.now }
{
    for command in commands {
        if command.clock >= 1 << 63 {
            return;
        }
        measured.take(rules, &located(channel, *command));
    }
}

/// Checks the commands of the channels of a life, each the list of its number, and counts them: as those of a trace that has one
/// channel behind another. Past the eighth list, and in a list from clock 2^63 on, which no channel reaches, nothing is counted.
pub fn measure_lists(rules: &CommandRules, channels: &[Vec<Stamped>]) -> Measured
    ensures follows { FollowsAll rules.now result.check }
    ensures lawful { AreOfLawful rules.now
        result.check.given.items result.statistics.given.items }
    ensures rules { result.statistics.rules ≡ rules.now }
    ensures given { AreEarly (map (λ list. list.items) channels.now) →
        result.check.given.items ≡ located_from 0 (map (λ list. list.items) channels.now) }
{
    let mut measured = Measured::new(rules);
    for channel in 0..channels.len().min(MOST_CHANNELS as usize) {
        take_list(rules, &mut measured, channel as u64, &channels[channel]);
    }
    measured
}
