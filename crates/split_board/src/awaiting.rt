// A read that waits.
use crate::board::Board;
use crate::claim::Claim;
use arm_state::ReadRefusal;
use board_hosts::{BoardName, Seen};
use channel_locks::{LockedChannels, PartsName};
use channel_port::{ChannelPort, Collected, Ticket};
use energy_budget::Energy;
use notice_book::Notices;
use save_device::SaveDevice;
use std::sync::Wait;
use std::thread;
use worker_turns::{Lookout, await_read};

// What a board lends a read that waits.
#[derive(Drop)]
struct TicketLookout<'a, K: ChannelPort, B: PartsName, R> {
    rt: &'a R,
    channels: &'a LockedChannels<K, B>,
}

impl<K: ChannelPort, B: PartsName, R: Wait> Lookout for TicketLookout<'_, K, B, R> {
    ghost use Rattle.std.specs.Prelude.{◌≡◌};
    ghost use Rattle.split_board.specs.Turns.{LooksFor};

    ghost looks = { λ ticket answer old new. LooksFor K.ChannelPort B.PartsName ticket answer };

    ghost waits = { λ old new. new ≡ old };

    fn look(&mut self, ticket: Ticket) -> Collected {
        self.channels.serve(self.rt, ticket)
    }

    fn wait(&mut self) {
        thread::yield_now();
    }
}

impl<K: ChannelPort, D: SaveDevice, E: Energy, B: BoardName + PartsName, N: Notices> Board<
    K,
    D,
    E,
    B,
    N,
> {
    ghost use Rattle.split_board.specs.Turns.{AwaitsOwn};

    /// Waits for the read of a claim: its line, as it was when it was asked for. It works the claim's channel meanwhile, under that
    /// channel's lock alone, 64 commands at most before it gives way. A loss of mains ends it, and it is `Closed` then.
    pub fn await_line<R: Wait>(&self, rt: &R, claim: Claim<B>) -> Result<Seen, ReadRefusal>
        ensures { AwaitsOwn K.ChannelPort B.PartsName claim.ticket claim.line claim.at result }
    {
        let channels = &self.channels;
        let seen = await_read(rt, &mut TicketLookout { rt, channels }, claim.ticket)?;
        if seen.line != claim.line || seen.at != claim.at {
            return Err(ReadRefusal::Closed);
        }
        Ok(seen)
    }
}
