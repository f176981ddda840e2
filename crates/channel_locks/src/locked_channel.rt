// What lies behind the lock of a channel, with the channel's number.
ghost use Rattle.std.specs.Prelude.{◌≡◌};
ghost use Rattle.channel_locks.specs.Slots.{IsPartWhereDue, IsSlotKept};

use crate::Part;
use crate::parts_name::PartsName;
use channel_log::{ChannelLogs, ChannelSeat, FrontSeat};
use channel_port::ChannelPort;
use std::marker::PhantomData;

/// The number of a channel, its part, and the seat that knows its log. There is no part for a channel that the board lacks.
#[derive(Drop)]
pub struct LockedChannel<K: ChannelPort, B: PartsName> {
    pub number: u64,
    pub part: Option<Part<K>>,
    pub seat: ChannelSeat,
    pub of: PhantomData<B>,
    pub ghost kept: { IsSlotKept K.ChannelPort B.PartsName part seat number },
}

impl<K: ChannelPort, B: PartsName> LockedChannel<K, B> {
    ghost use Rattle.channel_log.specs.Log.{IsLogOf};
    ghost use Rattle.channel_locks.specs.Lent.{IsOfChannel};

    /// The part of a channel, where the board has it, with the seat of the channel's log.
    pub fn new(number: u64, part: Option<Part<K>>, seat: ChannelSeat) -> LockedChannel<K, B>
        requires table { seat.table ≡ B.logs }
        requires channel { seat.channel ≡ number }
        requires part { ∥ IsPartWhereDue K.ChannelPort B.PartsName part number seat.log ∥₁ }
        ensures number { result.number ≡ number }
        ensures part { result.part ≡ part }
        ensures seat { result.seat ≡ seat }
    {
        LockedChannel {
            number,
            part,
            seat,
            of: PhantomData,
        }
    }

    /// A part that is there is the channel's.
    pub fn always(&self)
        ensures { IsOfChannel K.ChannelPort self.now.number self.now.part }
    {
        // the part keeps it by the fact of what lies behind the lock, so there is nothing to do
        let _ = &self.seat;
    }

    /// What the channel's seat knows the seat of all channels knows too.
    pub fn compare(&mut self, logs: &ChannelLogs, known: &mut FrontSeat)
        requires logs { logs.now ≡ B.logs }
        requires known { known.old.table ≡ B.logs }
        ensures number { self.new.number ≡ self.old.number }
        ensures part { self.new.part ≡ self.old.part }
        ensures seat { self.new.seat ≡ self.old.seat }
        ensures known { known.new ≡ known.old }
        ensures agreed { IsLogOf known.old.logs self.old.number self.old.seat.log }
    {
        known.compare(logs, &mut self.seat);
    }
}
