// What lies behind the channels' locks, without the locks.
ghost use Rattle.std.specs.Prelude.{◌≡◌, ◌≤◌, length, vec_capacity, vec_len};
ghost use Rattle.channel_locks.specs.Numbers.{AreNumbered};

use crate::locked_channel::LockedChannel;
use crate::locked_channels::{ChannelRoom, LockedChannels};
use crate::ordering::add_channel;
use crate::parts_name::PartsName;
use channel_log::{ChannelLogs, FrontSeat};
use channel_port::ChannelPort;
use std::sync::Mutex;

/// What is to lie behind the locks of all channels, or lay there once no thread shares them any more: eight channels, each of which
/// has its place as its number.
#[derive(Drop)]
pub struct UnlockedChannels<K: ChannelPort, B: PartsName> {
    pub channels: Vec<LockedChannel<K, B>>,
    pub ghost numbered: { AreNumbered K.ChannelPort B.PartsName 0 channels.items },
    pub ghost eight: { vec_len channels ≡ 8 },
    pub ghost spacious: { 8 ≤ vec_capacity channels },
}

impl<K: ChannelPort, B: PartsName> UnlockedChannels<K, B> {
    /// Puts each channel behind a lock of its own. No clause can name what lies behind a lock. The locks lie in a list without any,
    /// which has room for them.
    pub fn lock(self, room: Vec<Mutex<LockedChannel<K, B>>>) -> LockedChannels<K, B>
        requires none { vec_len room ≡ 0 }
        requires spacious { 8 ≤ vec_capacity room }
    {
        let mut channels = self.channels;
        let mut locks = room;
        for _locked in 0..8u64 {
            locks.push_reserved(Mutex::new(channels.remove(0)));
        }
        let room = ChannelRoom { channels };
        LockedChannels {
            locks,
            room: Mutex::new(room),
        }
    }
}

impl<K: ChannelPort + Drop, B: PartsName> LockedChannels<K, B> {
    /// What lay behind the locks, once no thread shares them any more. The channels are put in the order of their numbers, of which
    /// no two are the same, by what the seat of all channels knows. It takes no memory.
    pub fn into_inner(self, logs: &ChannelLogs, known: &mut FrontSeat) -> UnlockedChannels<K, B>
        requires logs { logs.now ≡ B.logs }
        requires known { known.old.table ≡ B.logs }
        requires eight { length known.old.logs ≡ 8 }
        ensures known { known.new ≡ known.old }
    {
        let mut locks = self.locks;
        let ChannelRoom { mut channels } = self.room.into_inner();
        for _unlocked in 0..8u64 {
            add_channel(logs, known, &mut channels, locks.remove(0).into_inner());
        }
        UnlockedChannels { channels }
    }
}
