// Channels are put in the order of their numbers.
ghost use Rattle.std.specs.Prelude.{◌≡◌, ◌+◌, ◌<◌, ◌≤◌, All, IfSome, length, slice_get, take, vec_capacity, vec_len};
ghost use Rattle.channel_locks.specs.Numbers.{AreRising, has_number};

use crate::locked_channel::LockedChannel;
use crate::parts_name::PartsName;
use channel_log::{ChannelLogs, FrontSeat};
use channel_port::ChannelPort;
use std::marker::Brand;

// How many channels at the front of a list have lower numbers.
fn place_of<K: ChannelPort, B: PartsName>(channels: &Vec<LockedChannel<K, B>>, number: u64) -> usize
    ensures within { result ≤ vec_len channels.now }
    ensures lower { All (λ c. c.number < number) (take result channels.now.items) }
    ensures next { IfSome (slice_get channels.now.items result) (λ c. number ≤ c.number) }
{
    for place in 0..channels.len() {
        if channels[place].number >= number {
            return place;
        }
    }
    channels.len()
}

// Whether there is a channel at a place, and has a number.
fn has_number<K: ChannelPort, B: PartsName>(
    channels: &Vec<LockedChannel<K, B>>,
    place: usize,
    number: u64,
) -> bool
    ensures { result ≡ has_number K.ChannelPort B.PartsName number
        (slice_get channels.now.items place) }
{
    match channels.get(place) {
        Some(channel) => channel.number == number,
        None => false,
    }
}

/// Puts a channel behind those with lower numbers. None has its number: the seats of both would know the same log, and then one of
/// them an entry that the other doesn't know.
pub(crate) fn add_channel<K: ChannelPort + Drop, B: PartsName>(
    logs: &ChannelLogs,
    known: &mut FrontSeat,
    channels: &mut Vec<LockedChannel<K, B>>,
    mut channel: LockedChannel<K, B>,
)
    requires logs { logs.now ≡ B.logs }
    requires known { known.old.table ≡ B.logs }
    requires eight { length known.old.logs ≡ 8 }
    requires rising { AreRising K.ChannelPort B.PartsName 0 8 channels.old.items }
    requires room { vec_len channels.old < vec_capacity channels.old }
    ensures rising { AreRising K.ChannelPort B.PartsName 0 8 channels.new.items }
    ensures count { vec_len channels.new ≡ vec_len channels.old + 1 }
    ensures capacity { vec_capacity channels.old ≤ vec_capacity channels.new }
    ensures known { known.new ≡ known.old }
{
    channel.compare(logs, known);
    let place = place_of(channels, channel.number);
    if has_number(channels, place, channel.number) {
        let other = &mut channels[place];
        other.compare(logs, known);
        let LockedChannel { mut seat, .. } = channel;
        known.look::<Brand>(logs, &mut seat);
        other.compare(logs, known);
        unreachable!();
    }
    if channels.insert(place, channel).is_err() {
        unreachable!();
    }
}
