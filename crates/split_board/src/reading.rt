// A host's read.
ghost use Rattle.std.specs.Prelude.{◌≡◌, ◌<◌, IfErr, IfOk, Err, Ok};
ghost use Rattle.board_desk.specs.Answering.{IsAskedFor, IsTicketOf};
ghost use Rattle.board_hosts.specs.Client.{SeesNoLess};
ghost use Rattle.split_board.specs.Turns.{ServesFirst, ServesOnce, TellsOwn};
ghost use Rattle.split_board.specs.Hosts.{AnswersAskAtBoard, AnswersReadAtBoard, HasLostLine, HasReadLine, TellsAskAtBoard, asked_at};

use crate::board::Board;
use crate::claim::{Asked, Claim};
use arm_state::ReadRefusal;
use board_hosts::{BoardName, GotAt, Host, Seen};
use channel_locks::{LockedChannel, PartsName, take_lock};
use channel_port::{ChannelPort, Collected, Got, Ticket};
use energy_budget::Energy;
use notice_book::Notices;
use save_device::SaveDevice;
use std::marker::PhantomData;
use std::sync::Wait;

// What a host that asked for a line, behind so many writes, is told by what there is for its ticket.
fn told_for(line: u64, at: u64, ticket: Ticket, answer: Collected) -> Got
    ensures { TellsOwn line at ticket answer result }
{
    match answer {
        Collected::Data {
            line: other,
            bytes,
            at: behind,
        } if other == line && behind == at => Got::Now(bytes),
        _ => Got::Later(ticket),
    }
}

// Serves a read that has to wait, under the lock of its channel.
fn served<K: ChannelPort, B: PartsName>(
    channel: &mut LockedChannel<K, B>,
    line: u64,
    at: u64,
    got: Got,
) -> Got
    requires { IsTicketOf channel.old.number got }
    ensures serves { ServesFirst K.ChannelPort B.PartsName line at got result }
    ensures once { ServesOnce K.ChannelPort line at got result channel.old.part channel.new.part }
{
    match got {
        Got::Now(_) => got,
        Got::Later(ticket) => told_for(line, at, ticket, channel.serve(ticket)),
    }
}

impl<K: ChannelPort, D: SaveDevice, E: Energy, B: BoardName + PartsName, N: Notices> Board<
    K,
    D,
    E,
    B,
    N,
> {
    // Takes the board's lock and then the line's channel's, and reads. Where the read has to wait it is served under the channel's lock;
    // the board's is let go before.
    fn read_at<R: Wait>(
        &self,
        rt: &R,
        channel: u64,
        host: &mut Host<B>,
        line: u64,
    ) -> Result<GotAt, ReadRefusal>
        requires channel { channel < 8 }
        requires asked { IsAskedFor B.make line channel }
        ensures read { AnswersReadAtBoard K.ChannelPort D.SaveDevice E.Energy B.BoardName.own
            B.PartsName.own line result }
        ensures at { IfOk result (λ r. r.at ≡ host.new.accepted) }
        ensures rises { SeesNoLess host.old host.new }
        ensures writes { host.new.writes ≡ host.old.writes }
    {
        let mut locked = take_lock(rt, &self.desk);
        let Some(desk) = &mut locked.desk else {
            unreachable!();
        };
        let mut lent = self.channels.take(rt, channel);
        match desk.read_in(&mut *lent, host, line) {
            Ok(GotAt { got, at }) => {
                drop(locked);
                let got = served(&mut *lent, line, at, got);
                Ok(GotAt { got, at })
            }
            Err(refusal) => Err(refusal),
        }
    }

    /// Reads a line for a host, and waits for the answer: its own line, behind the writes that were accepted before it was asked for.
    /// The board's lock and the line's channel's are taken; the board's is let go once the read was answered. Where it has to wait its
    /// channel is worked under its lock alone, 64 commands at most before the lock is let go, again and again.
    pub fn read<R: Wait>(&self, rt: &R, host: &mut Host<B>, line: u64) -> Result<Seen, ReadRefusal>
        ensures line { IfOk result (λ s. s.line ≡ line) }
        ensures at { IfOk result (λ s. s.at ≡ host.new.accepted) }
        ensures read { IfOk result (λ s. HasReadLine K.ChannelPort D.SaveDevice E.Energy
            B.BoardName.own B.PartsName.own line s.data s.at) }
        ensures refused { IfErr result (HasLostLine K.ChannelPort D.SaveDevice E.Energy
            B.BoardName.own B.PartsName.own line) }
        ensures rises { SeesNoLess host.old host.new }
        ensures writes { host.new.writes ≡ host.old.writes }
    {
        let channel = self.channel_of(line);
        let GotAt { got, at } = self.read_at(rt, channel, host, line)?;
        match got {
            Got::Now(data) => Ok(Seen { line, data, at }),
            Got::Later(ticket) => {
                let of = PhantomData;
                self.await_line(
                    rt,
                    Claim {
                        ticket,
                        line,
                        at,
                        of,
                    },
                )
            }
        }
    }

    // Takes the board's lock and then the line's channel's, and asks for the line.
    fn ask_at<R: Wait>(
        &self,
        rt: &R,
        channel: u64,
        host: &mut Host<B>,
        line: u64,
    ) -> Result<GotAt, ReadRefusal>
        requires channel { channel < 8 }
        requires asked { IsAskedFor B.make line channel }
        ensures asked { AnswersAskAtBoard K.ChannelPort D.SaveDevice E.Energy B.BoardName.own
            B.PartsName.own line result }
        ensures at { IfOk result (λ r. r.at ≡ host.new.accepted) }
        ensures rises { SeesNoLess host.old host.new }
        ensures writes { host.new.writes ≡ host.old.writes }
    {
        let mut locked = take_lock(rt, &self.desk);
        let Some(desk) = &mut locked.desk else {
            unreachable!();
        };
        let mut lent = self.channels.take(rt, channel);
        desk.read_in(&mut *lent, host, line)
    }

    /// Asks for a line and goes on: the line as it was read, or a claim to it for `await_line`.
    pub fn ask<R: Wait>(
        &self,
        rt: &R,
        host: &mut Host<B>,
        line: u64,
    ) -> Result<Asked<B>, ReadRefusal>
        ensures asked { TellsAskAtBoard K.ChannelPort D.SaveDevice E.Energy B.BoardName.own
            B.PartsName.own line result }
        ensures at { IfOk result (λ a. asked_at a ≡ host.new.accepted) }
        ensures rises { SeesNoLess host.old host.new }
        ensures writes { host.new.writes ≡ host.old.writes }
    {
        let channel = self.channel_of(line);
        let GotAt { got, at } = self.ask_at(rt, channel, host, line)?;
        let of = PhantomData;
        match got {
            Got::Now(data) => Ok(Asked::Now(Seen { line, data, at })),
            Got::Later(ticket) => Ok(Asked::Later(Claim {
                ticket,
                line,
                at,
                of,
            })),
        }
    }
}
