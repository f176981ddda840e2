// The locks of the channels, as a board begins.
ghost use Rattle.std.specs.Prelude.{◌≡◌, ◌+◌, ◌++◌, ◌<◌, ◌≤◌, ℕ, [], length, min, vec_capacity};
ghost use Rattle.arm_state.specs.Modes.{has_ended};
ghost use Rattle.channel_log.specs.Seats.{all_logs};
ghost use Rattle.channel_locks.specs.Unlocked.{parts_of, port_in, ports_in};
ghost use Rattle.split_board.specs.FirstLogs.{AreFirstLogs, AreFirstPorts, AreFirstSlots};
ghost use Rattle.split_board.specs.FirstLogs.{channel_by};

use crate::first_logs::{deal_seats, note_writes};
use channel_locks::{LineChannels, LockedChannel, Part, PartsName, UnlockedChannels};
use channel_log::{ChannelLogs, ChannelSeat, FrontSeat};
use channel_port::ChannelPort;
use channel_set::PortTerms;
use line_memory::History;
use split_module::SplitFront;

// A channel, whose seat is the last one; so is its port, where the board has the channel.
fn channel_of<K: ChannelPort, B: PartsName>(
    ports: &mut Vec<K>,
    seats: &mut Vec<ChannelSeat>,
    ended: bool,
    number: u64,
) -> LockedChannel<K, B>
    requires count { length ports.old.items ≡ min (number + 1) B.ports }
    requires seats { length seats.old.items ≡ number + 1 }
    requires first { AreFirstSlots K.ChannelPort B.PartsName ended ports.old.items seats.old.items }
    ensures count { length ports.new.items ≡ min number B.ports }
    ensures seats { length seats.new.items ≡ number }
    ensures number { result.number ≡ number }
    ensures port { ports.old.items ≡ ports.new.items ++ port_in K.ChannelPort result.part }
    ensures first { AreFirstSlots K.ChannelPort B.PartsName ended ports.new.items seats.new.items }
{
    let Some(seat) = seats.pop() else {
        unreachable!();
    };
    if ports.len() as u64 <= number {
        return LockedChannel::new(number, None, seat);
    }
    let Some(port) = ports.pop() else {
        unreachable!();
    };
    LockedChannel::new(number, Some(Part::of(number, port, ended)), seat)
}

// Each channel with its seat, and its port where there is one, in a list without any, which has room for them.
fn channels_of<K: ChannelPort + Drop, B: PartsName>(
    ports: &mut Vec<K>,
    seats: &mut Vec<ChannelSeat>,
    ended: bool,
    room: Vec<LockedChannel<K, B>>,
) -> UnlockedChannels<K, B>
    requires count { length ports.old.items ≡ B.ports }
    requires few { B.ports ≤ 8 }
    requires seats { length seats.old.items ≡ 8 }
    requires first { AreFirstSlots K.ChannelPort B.PartsName ended ports.old.items seats.old.items }
    requires none { room.items ≡ [] }
    requires spacious { 8 ≤ vec_capacity room }
    ensures none { ports.new.items ≡ [] }
    ensures ports { ports.old.items
        ≡ ports_in K.ChannelPort (parts_of K.ChannelPort B.PartsName result) }
{
    let mut channels = room;
    for dealt in 0..8 {
        let channel = channel_of(ports, seats, ended, 7 - dealt);
        if channels.insert(0, channel).is_err() {
            unreachable!();
        }
    }
    UnlockedChannels { channels }
}

/// Each channel with its port where there is one, as it is. Its log tells the record's writes that lie on the channel, and what
/// its port has. Seats and channels lie in lists without any, which have room for them.
pub(crate) fn begin_channels<K: ChannelPort + Drop, B: PartsName>(
    logs: &ChannelLogs,
    known: &mut FrontSeat,
    mut seats: Vec<ChannelSeat>,
    lines: &LineChannels,
    history: &History,
    split: &SplitFront,
    terms: &PortTerms,
    mut ports: Vec<K>,
    room: Vec<LockedChannel<K, B>>,
) -> UnlockedChannels<K, B>
    requires logs { logs.now ≡ B.logs }
    requires known { known.old ≡ all_logs B.logs [] }
    requires none { seats.items ≡ [] }
    requires room { 8 ≤ vec_capacity seats }
    requires empty { room.items ≡ [] }
    requires spacious { 8 ≤ vec_capacity room }
    requires eight { (line : ℕ) → channel_by lines.now line < 8 }
    requires from { split.now.front.terms.start ≡ history.now.start }
    requires to { split.now.front.accepted ≡ history.now.start + length history.now.writes }
    requires count { length ports.items ≡ B.ports }
    requires few { B.ports ≤ 8 }
    requires ports { AreFirstPorts K.ChannelPort B.PartsName (has_ended split.now.front.mode)
        lines.now history.now terms.now.hold ports.items }
    ensures table { known.new.table ≡ B.logs }
    ensures ports { ports.items
        ≡ ports_in K.ChannelPort (parts_of K.ChannelPort B.PartsName result) }
    ensures first { AreFirstLogs K.ChannelPort lines.now history.now terms.now.hold
        (has_ended split.now.front.mode) ports.items known.new.logs }
{
    let ended = split.front.mode().has_ended();
    deal_seats(logs, known, &ports, terms.hold, ended, &mut seats);
    let (from, to) = (split.front.start(), split.front.accepted());
    note_writes(logs, known, &mut seats, lines, history, from, to);
    channels_of(&mut ports, &mut seats, ended, room)
}
