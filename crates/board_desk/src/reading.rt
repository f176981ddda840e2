// A host's read, with the part of its line's channel.
ghost use Rattle.std.specs.Prelude.{◌≡◌, ◌<◌, IfErr, IfOk, Err, Ok};
ghost use Rattle.board_hosts.specs.SeenMarks.{IsNotAbove, seen_marks};

use crate::desk::Desk;
use crate::noting::look_at;
use arm_state::ReadRefusal;
use board_hosts::{BoardName, GotAt, HostSeat};
use channel_locks::{LockedChannel, PartsName};
use channel_port::ChannelPort;
use energy_budget::Energy;
use nv_machine::{Event, Reply};
use save_device::SaveDevice;
use split_module::{SplitFront, read_on};
use std::marker::Brand;

// How many writes were accepted.
fn accepted_by(split: &SplitFront) -> u64
    ensures { result ≡ split.now.front.accepted }
{
    split.front.accepted()
}

impl<K: ChannelPort, D: SaveDevice, E: Energy, B: BoardName + PartsName> Desk<K, D, E, B> {
    ghost use Rattle.board_desk.specs.Answering.{DeskAnswers, IsAskedFor, IsTicketOf, SameElsewhere};
    ghost use Rattle.board_desk.specs.Answering.{DoneWithLent, KeepsPort, ReadsLine};
    ghost use Rattle.board_desk.specs.Views.{SameButCounts, desk_of};

    /// Reads a line of the channel for a host, whose seat then sees the marks: the bytes or a ticket, and how many writes
    /// were accepted before. What the channel did since both locks were held is seen before, and its returned credits are taken
    /// back. The channel issues no command. A read that is refused or answered at once leaves no read open, and one with a ticket
    /// that one.
    pub fn read(
        &mut self,
        channel: &mut LockedChannel<K, B>,
        host: &mut HostSeat,
        line: u64,
    ) -> Result<GotAt, ReadRefusal>
        requires asked { IsAskedFor B.make line channel.old.number }
        requires host { host.old.board ≡ B.board }
        ensures ok { IfOk result (λ r. DeskAnswers B.PartsName.own channel.old.number
            (Event.Read line) (Reply.Read (Ok r.got))
            (desk_of K.ChannelPort D.SaveDevice E.Energy B.BoardName.own B.PartsName.own self.old)
            (desk_of K.ChannelPort D.SaveDevice E.Energy B.BoardName.own B.PartsName.own
            self.new)) }
        ensures err { IfErr result (λ refusal. DeskAnswers B.PartsName.own channel.old.number
            (Event.Read line) (Reply.Read (Err refusal))
            (desk_of K.ChannelPort D.SaveDevice E.Energy B.BoardName.own B.PartsName.own self.old)
            (desk_of K.ChannelPort D.SaveDevice E.Energy B.BoardName.own B.PartsName.own
            self.new)) }
        ensures ticket { IfOk result (λ r. IsTicketOf channel.old.number r.got) }
        ensures at { IfOk result (λ r. r.at ≡ self.old.split.front.accepted) }
        ensures reads { IfOk result (λ r. DoneWithLent K.ChannelPort
            (ReadsLine K.ChannelPort line channel.old.number r) channel.old.part channel.new.part) }
        ensures keeps { IfErr result (λ _. DoneWithLent K.ChannelPort
            (KeepsPort K.ChannelPort) channel.old.part channel.new.part) }
        ensures same { SameButCounts K.ChannelPort D.SaveDevice E.Energy B.BoardName.own
            B.PartsName.own self.old self.new }
        ensures elsewhere { SameElsewhere channel.old.number
            self.old.known.logs self.new.known.logs }
        ensures number { channel.new.number ≡ channel.old.number }
        ensures seen { host.new ≡ seen_marks B.board
            self.old.split.front.accepted self.old.split.front.persisted }
        ensures rises { IsNotAbove host.old host.new }
    {
        self.settle(channel);
        let Some(part) = &mut channel.part else {
            unreachable!();
        };
        channel.seat.always();
        let at = accepted_by(&self.split);
        self.seat.inform(&self.marks, host);
        match read_on(&self.split, part, line) {
            Ok(got) => {
                look_at::<Brand, K>(&self.logs, &mut self.known, &mut channel.seat, part);
                Ok(GotAt { got, at })
            }
            Err(refusal) => Err(refusal),
        }
    }
}
