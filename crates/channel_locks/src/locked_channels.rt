// The locks of all channels of a board, by number.
ghost use Rattle.std.specs.Prelude.{◌≡◌, ◌<◌, ◌≤◌, [], vec_capacity, vec_len};
ghost use Rattle.std.specs.Sync.Mutex.{mutex_guard_value};
ghost use Rattle.channel_port.specs.declared.answers.Collected.TheVariants.{Unknown};
ghost use Rattle.channel_locks.specs.Lent.{LentEnd, LentRoom, LentServe, LentTurn};

use crate::locked_channel::LockedChannel;
use crate::locks::take_lock;
use crate::parts_name::PartsName;
use crate::turns::ChannelTurn;
use channel_port::{ChannelPort, Collected, Ticket};
use std::sync::{Mutex, MutexGuard, Wait};
use std::thread;
use worker_turns::Gate;

/// Room for a board's channels, without any.
#[derive(Drop)]
pub(crate) struct ChannelRoom<K: ChannelPort, B: PartsName> {
    pub(crate) channels: Vec<LockedChannel<K, B>>,
    ghost empty: { channels.items ≡ [] },
    ghost spacious: { 8 ≤ vec_capacity channels },
}

/// A lock for each of eight channels, and room for what lies behind them. Behind the lock of a number lies the channel of that number.
/// The room has a lock too, which nobody takes: threads share no channel but behind one.
#[derive(Drop)]
pub struct LockedChannels<K: ChannelPort, B: PartsName> {
    pub(crate) locks: Vec<Mutex<LockedChannel<K, B>>>,
    pub(crate) room: Mutex<ChannelRoom<K, B>>,
    ghost eight: { vec_len locks ≡ 8 },
}

impl<K: ChannelPort, B: PartsName> LockedChannels<K, B> {
    /// Takes the lock of a channel. Which channel lies behind it the number there tells.
    pub fn take<R: Wait>(&self, rt: &R, number: u64) -> MutexGuard<'_, LockedChannel<K, B>>
        requires { number < 8 }
        ensures { (mutex_guard_value result).number ≡ number }
    {
        let guard = take_lock(rt, &self.locks[number as usize]);
        if guard.number == number {
            return guard;
        }
        // no other channel lies there, which no type can say
        for _ in rt.forever() {
            thread::yield_now();
        }
        unreachable!()
    }

    /// Takes a turn of a channel's worker, under that channel's lock alone, as `LockedChannel::take_turn`.
    pub fn turn<G: Gate, R: Wait>(&self, rt: &R, channel: u64, gate: &G) -> ChannelTurn
        requires { channel < 8 }
        ensures { LentTurn K.ChannelPort B.PartsName G.Gate channel gate.now result }
    {
        self.take(rt, channel).take_turn(gate)
    }

    /// What there is for a ticket, under its channel's lock alone. While that is nothing the channel works, as
    /// `LockedChannel::serve`. It is `Unknown` for one of no channel.
    pub fn serve<R: Wait>(&self, rt: &R, ticket: Ticket) -> Collected
        ensures lent { ticket.channel < 8 → LentServe K.ChannelPort B.PartsName ticket result }
        ensures none { 8 ≤ ticket.channel → result ≡ Unknown }
    {
        if ticket.channel >= 8 {
            return Collected::Unknown;
        }
        self.take(rt, ticket.channel).serve(ticket)
    }

    /// While a channel has no room for a write it works, under its lock alone, as `LockedChannel::make_room`.
    pub fn make_room<R: Wait>(&self, rt: &R, channel: u64)
        requires { channel < 8 }
        ensures { LentRoom K.ChannelPort B.PartsName channel }
    {
        self.take(rt, channel).make_room();
    }

    /// Were mains lost? The lock of channel 0, which each board has, is taken alone.
    pub fn has_ended<R: Wait>(&self, rt: &R) -> bool
        ensures { LentEnd K.ChannelPort B.PartsName 0 result }
    {
        self.take(rt, 0).has_ended()
    }
}
