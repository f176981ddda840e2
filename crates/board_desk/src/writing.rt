// A host's write and read, with the part of its line's channel.
ghost use Rattle.std.specs.Prelude.{◌≡◌, ◌+◌, ◌<◌, ◌++◌, length, IfErr, IfOk};
ghost use Rattle.board_hosts.specs.SeenMarks.{IsNotAbove, seen_marks};
ghost use Rattle.module_core.specs.Fronts.{AcceptsOne};
ghost use Rattle.nv_machine.specs.Rising.{added};
ghost use Rattle.board_hosts.specs.Marks.{ShowsNoMore};

use crate::desk::Desk;
use crate::noting::note_write;
use arm_state::WriteRefusal;
use board_hosts::{BoardName, BoardSeat, HostSeat, MarkBoard, publish};
use channel_locks::{LockedChannel, PartsName};
use channel_port::ChannelPort;
use energy_budget::Energy;
use line_memory::Write;
use nv_machine::{Accepted, Event, Reply};
use save_device::SaveDevice;
use split_module::{SplitFront, write_on};
use std::marker::Brand;
use std::sync::ledger::Share;

// The words are moved to the front's two numbers.
fn show(marks: &MarkBoard, seat: &mut BoardSeat, split: &SplitFront)
    requires board { seat.old.board ≡ marks.now }
    requires shown { ShowsNoMore split.now.front.accepted split.now.front.persisted seat.old }
    ensures { seat.new ≡ seen_marks marks.now split.now.front.accepted
        split.now.front.persisted }
{
    publish(marks, seat, split.front.accepted(), split.front.mark());
}

impl<K: ChannelPort, D: SaveDevice, E: Energy, B: BoardName + PartsName> Desk<K, D, E, B> {
    ghost use Rattle.board_desk.specs.Answering.{DeskAnswers, IsAskedFor, SameElsewhere};
    ghost use Rattle.board_desk.specs.Answering.{DoneWithLent, KeepsPort, PutsWrite};
    ghost use Rattle.board_desk.specs.Views.{KeepsAround, desk_of};

    /// Writes a line of the channel for a host, whose share counts the write if it was accepted, and whose seat then sees
    /// the marks. What the channel did since both locks were held is seen before, and its returned credits are taken back. The
    /// channel issues no command, and none of its reads is answered or collected.
    pub fn write(
        &mut self,
        channel: &mut LockedChannel<K, B>,
        host: &mut HostSeat,
        share: &mut Share<B>,
        write: Write,
    ) -> Result<Accepted, WriteRefusal>
        requires asked { IsAskedFor B.make write.line channel.old.number }
        requires host { host.old.board ≡ B.board }
        requires part { 0 < share.old.parts }
        ensures answers { DeskAnswers B.PartsName.own channel.old.number
            (Event.Write write) (Reply.Write result)
            (desk_of K.ChannelPort D.SaveDevice E.Energy B.BoardName.own B.PartsName.own self.old)
            (desk_of K.ChannelPort D.SaveDevice E.Energy B.BoardName.own B.PartsName.own self.new) }
        ensures accepts { IfOk result (λ accepted.
            AcceptsOne self.old.split.front accepted self.new.split.front) }
        ensures rest { KeepsAround K.ChannelPort D.SaveDevice E.Energy B.BoardName.own
            B.PartsName.own self.old self.new }
        ensures elsewhere { SameElsewhere channel.old.number
            self.old.known.logs self.new.known.logs }
        ensures puts { IfOk result (λ accepted. DoneWithLent K.ChannelPort
            (PutsWrite K.ChannelPort accepted.number) channel.old.part channel.new.part) }
        ensures keeps { IfErr result (λ _. DoneWithLent K.ChannelPort
            (KeepsPort K.ChannelPort) channel.old.part channel.new.part) }
        ensures number { channel.new.number ≡ channel.old.number }
        ensures history { self.new.history.writes
            ≡ self.old.history.writes ++ added (Event.Write write) (Reply.Write result) }
        ensures seen { host.new ≡ seen_marks B.board
            self.new.split.front.accepted self.new.split.front.persisted }
        ensures rises { IsNotAbove host.old host.new }
        ensures amount { share.new.amount
            ≡ share.old.amount + length (added (Event.Write write) (Reply.Write result)) }
        ensures parts { share.new.parts ≡ share.old.parts }
    {
        self.settle(channel);
        let Some(part) = &mut channel.part else {
            unreachable!();
        };
        channel.seat.always();
        let reply = write_on(&mut self.split, part, write);
        note_write::<Brand, K>(
            &self.logs,
            &mut self.known,
            &mut channel.seat,
            part,
            write,
            reply,
        );
        self.tally.note(&mut self.history, share, write, reply);
        show(&self.marks, &mut self.seat, &self.split);
        self.seat.inform(&self.marks, host);
        reply
    }
}
