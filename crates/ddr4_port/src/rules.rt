// The timing rules, of what the channels of a memory have issued.
ghost use Rattle.std.specs.Prelude.{◌≡◌, Some, length, slice_get};
ghost use Rattle.ddr4_timing.specs.Lawful.{IsLawful};
ghost use Rattle.ddr4_port.specs.Port.{AreLawful, PortState};

use crate::Ddr4Port;
use channel_set::ChannelSet;
use interleave_map::line_map::LineMap;

// What the channel of a number has issued is lawful, where there is one.
fn channel_keeps_rules<M: LineMap>(channels: &ChannelSet<Ddr4Port<'_, M>>, number: u64)
    ensures { (port : PortState) → slice_get channels.now.ports.items number ≡ Some port
        → IsLawful channels.now.terms.checked port.channel.commands }
{
    if let Some(port) = channels.port(number) {
        // called for its contract
        port.channel().always();
    }
}

/// What each of the channels has issued keeps the timing rules of their profile. It changes nothing, and costs the number of
/// channels.
pub fn keep_rules<M: LineMap>(channels: &ChannelSet<Ddr4Port<'_, M>>)
    ensures { AreLawful (length channels.now.ports.items)
        channels.now.terms.checked channels.now.ports.items }
{
    for number in 0..channels.count() {
        channel_keeps_rules(channels, number);
    }
}
