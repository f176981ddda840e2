// A call of the whole module: the channels' locks are taken, its module is put together, asked, and taken apart again.
ghost use Rattle.std.specs.Prelude.{◌≤◌};
ghost use Rattle.std.specs.Arc.{arc_value};
ghost use Rattle.board_desk.specs.Calling.{loss_course};
ghost use Rattle.board_desk.specs.Loans.{HaveLent};
ghost use Rattle.board_desk.specs.Locking.{CallTells, CalledFrom, CallsLocked, LosesLocked, LossTells};
ghost use Rattle.board_desk.specs.Views.{desk_of};

use crate::board_port::BoardPort;
use crate::calling::WholeCall;
use crate::desk::Desk;
use crate::lent_desk::LentDesk;
use crate::locked_desk::LockedDesk;
use crate::pieces::CalledPieces;
use arm_state::Loss;
use board_hosts::BoardName;
use channel_locks::{LockedChannels, PartsName};
use channel_port::ChannelPort;
use energy_budget::Energy;
use save_device::SaveDevice;
use std::sync::Wait;
use std::thread::Threads;
use worker_turns::Gate;

// A desk that is still apart behind a call, and what the call answered.
#[derive(Drop)]
struct CalledDesk<K: ChannelPort, D: SaveDevice, E: Energy, B: BoardName + PartsName, A> {
    lent: LentDesk<K, D, E, B>,
    answer: A,
}

impl<K: ChannelPort, D: SaveDevice, E: Energy, B: BoardName + PartsName> Desk<K, D, E, B> {
    // Makes a call of the module, once all channels have lent their ports.
    fn call<W: WholeCall<BoardPort<K, B>, D, E>>(self, call: W) -> CalledDesk<K, D, E, B, W::Answer>
        requires { ∥ HaveLent K.ChannelPort B.PartsName.own self.known.logs 8 self.room.items ∥₁ }
        ensures { CalledFrom K.ChannelPort D.SaveDevice E.Energy B.BoardName.own B.PartsName.own
            8 (W.course result.answer) (CallTells K.ChannelPort D.SaveDevice E.Energy
            B.BoardName.own B.PartsName.own (W.told result.answer))
            (desk_of K.ChannelPort D.SaveDevice E.Energy B.BoardName.own B.PartsName.own self)
            self.room.items result.lent.rest (arc_value result.lent.books.marks)
            result.lent.books.seat result.lent.books.tally.book.total result.lent.books.logs
            result.lent.books.known }
    {
        let LentDesk { rest, books } = self.apart();
        let CalledPieces { rest, answer } = rest.call(call);
        let lent = LentDesk { rest, books };
        CalledDesk { lent, answer }
    }

    // Mains were lost, once all channels have lent their ports.
    fn lose<G: Gate + Sync, R: Threads + Sync>(
        self,
        rt: &R,
        gate: &G,
    ) -> CalledDesk<K, D, E, B, Loss>
    where
        K: Send,
        B: Send,
        requires { ∥ HaveLent K.ChannelPort B.PartsName.own self.known.logs 8 self.room.items ∥₁ }
        ensures { CalledFrom K.ChannelPort D.SaveDevice E.Energy B.BoardName.own B.PartsName.own
            8 (loss_course result.answer) (LossTells K.ChannelPort D.SaveDevice E.Energy
            B.BoardName.own B.PartsName.own G.Gate gate.now result.answer)
            (desk_of K.ChannelPort D.SaveDevice E.Energy B.BoardName.own B.PartsName.own self)
            self.room.items result.lent.rest (arc_value result.lent.books.marks)
            result.lent.books.seat result.lent.books.tally.book.total result.lent.books.logs
            result.lent.books.known }
    {
        let LentDesk { rest, books } = self.apart();
        let CalledPieces { rest, answer } = rest.lose(rt, gate);
        let lent = LentDesk { rest, books };
        CalledDesk { lent, answer }
    }
}

// Takes the locks of the channels from a number on, in rising order: each is settled and lends its port. With the eighth lock held the
// module is put together and asked. Each channel has its port back before its lock is let go.
fn call_from<K, D, E, B, W, R>(
    rt: &R,
    channels: &LockedChannels<K, B>,
    number: u64,
    mut desk: Desk<K, D, E, B>,
    call: W,
) -> CalledDesk<K, D, E, B, W::Answer>
where
    K: ChannelPort + Drop,
    D: SaveDevice,
    E: Energy,
    B: BoardName + PartsName,
    W: WholeCall<BoardPort<K, B>, D, E>,
    R: Wait,
    requires number { number ≤ 8 }
    requires have { ∥ HaveLent K.ChannelPort B.PartsName.own
        desk.known.logs number desk.room.items ∥₁ }
    ensures { CalledFrom K.ChannelPort D.SaveDevice E.Energy B.BoardName.own B.PartsName.own
        number (W.course result.answer) (CallTells K.ChannelPort D.SaveDevice E.Energy
        B.BoardName.own B.PartsName.own (W.told result.answer))
        (desk_of K.ChannelPort D.SaveDevice E.Energy B.BoardName.own B.PartsName.own desk)
        desk.room.items result.lent.rest (arc_value result.lent.books.marks)
        result.lent.books.seat result.lent.books.tally.book.total result.lent.books.logs
        result.lent.books.known }
{
    if number == 8 {
        return desk.call(call);
    }
    let mut lock = channels.take(rt, number);
    let channel = &mut *lock;
    desk.settle(channel);
    desk.lend(number, &mut channel.part, &mut channel.seat);
    let CalledDesk { mut lent, answer } = call_from(rt, channels, number + 1, desk, call);
    lent.give_back(number, &mut channel.part, &mut channel.seat);
    CalledDesk { lent, answer }
}

// The same for a loss of mains.
fn lose_from<K, D, E, B, G, R>(
    rt: &R,
    channels: &LockedChannels<K, B>,
    number: u64,
    mut desk: Desk<K, D, E, B>,
    gate: &G,
) -> CalledDesk<K, D, E, B, Loss>
where
    K: ChannelPort + Drop + Send,
    D: SaveDevice,
    E: Energy,
    B: BoardName + PartsName + Send,
    G: Gate + Sync,
    R: Threads + Wait + Sync,
    requires number { number ≤ 8 }
    requires have { ∥ HaveLent K.ChannelPort B.PartsName.own
        desk.known.logs number desk.room.items ∥₁ }
    ensures { CalledFrom K.ChannelPort D.SaveDevice E.Energy B.BoardName.own B.PartsName.own
        number (loss_course result.answer) (LossTells K.ChannelPort D.SaveDevice E.Energy
        B.BoardName.own B.PartsName.own G.Gate gate.now result.answer)
        (desk_of K.ChannelPort D.SaveDevice E.Energy B.BoardName.own B.PartsName.own desk)
        desk.room.items result.lent.rest (arc_value result.lent.books.marks)
        result.lent.books.seat result.lent.books.tally.book.total result.lent.books.logs
        result.lent.books.known }
{
    if number == 8 {
        return desk.lose(rt, gate);
    }
    let mut lock = channels.take(rt, number);
    let channel = &mut *lock;
    desk.settle(channel);
    desk.lend(number, &mut channel.part, &mut channel.seat);
    let CalledDesk { mut lent, answer } = lose_from(rt, channels, number + 1, desk, gate);
    lent.give_back(number, &mut channel.part, &mut channel.seat);
    CalledDesk { lent, answer }
}

/// Makes a call of the whole module for who holds the board's lock: the locks of all channels are taken in rising order, each channel is
/// settled and lends its port, the module is put together and asked, and the ports go back. No channel issues a command. It takes no
/// memory.
pub fn whole<K, D, E, B, W, R>(
    rt: &R,
    locked: &mut LockedDesk<K, D, E, B>,
    channels: &LockedChannels<K, B>,
    call: W,
) -> W::Answer
where
    K: ChannelPort + Drop,
    D: SaveDevice + Drop,
    E: Energy + Drop,
    B: BoardName + PartsName,
    W: WholeCall<BoardPort<K, B>, D, E>,
    R: Wait,
    ensures { CallsLocked K.ChannelPort D.SaveDevice E.Energy B.BoardName.own B.PartsName.own
        (W.course result) (W.told result) locked.old.desk locked.new.desk }
{
    let Some(mut desk) = locked.desk.take() else {
        unreachable!();
    };
    desk.room.clear();
    let CalledDesk { lent, answer } = call_from(rt, channels, 0, desk, call);
    locked.desk = Some(lent.together());
    answer
}

/// Mains were lost, for who holds the board's lock, as at `whole`: where acknowledged writes are to be saved, the channels are drained
/// at once and all accepted writes saved, as `Module::power_loss_with`. Behind a loss whose drains were paid for the gate was asked
/// before the drain of each channel, and each is as its own drain leaves it. A loss that begins no drain issues no command.
pub fn lose<K, D, E, B, G, R>(
    rt: &R,
    locked: &mut LockedDesk<K, D, E, B>,
    channels: &LockedChannels<K, B>,
    gate: &G,
) -> Loss
where
    K: ChannelPort + Drop + Send,
    D: SaveDevice + Drop,
    E: Energy + Drop,
    B: BoardName + PartsName + Send,
    G: Gate + Sync,
    R: Threads + Wait + Sync,
    ensures { LosesLocked K.ChannelPort D.SaveDevice E.Energy B.BoardName.own B.PartsName.own
        G.Gate gate.now result locked.old.desk locked.new.desk }
{
    let Some(mut desk) = locked.desk.take() else {
        unreachable!();
    };
    desk.room.clear();
    let CalledDesk { lent, answer } = lose_from(rt, channels, 0, desk, gate);
    locked.desk = Some(lent.together());
    answer
}
