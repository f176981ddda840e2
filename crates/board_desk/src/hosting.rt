// A host's write and read at a desk, as the host is told of them.
ghost use Rattle.std.specs.Prelude.{◌≡◌, IfErr, IfOk, Err, Ok};
ghost use Rattle.board_hosts.specs.Client.{SeesNoLess};

use crate::desk::Desk;
use arm_state::{ReadRefusal, WriteRefusal};
use board_hosts::{BoardName, GotAt, Host, Receipt};
use channel_locks::{LockedChannel, PartsName};
use channel_port::ChannelPort;
use energy_budget::Energy;
use line_memory::Write;
use nv_machine::{Event, Reply};
use save_device::SaveDevice;

impl<K: ChannelPort, D: SaveDevice, E: Energy, B: BoardName + PartsName> Desk<K, D, E, B> {
    ghost use Rattle.board_desk.specs.Answering.{DeskAnswers, IsAskedFor, IsTicketOf, SameElsewhere};
    ghost use Rattle.board_desk.specs.Answering.{DoneWithLent, KeepsPort, PutsWrite, ReadsLine};
    ghost use Rattle.board_desk.specs.Hosting.{HostWritesAtDesk};
    ghost use Rattle.board_desk.specs.Views.{KeepsAround, SameButCounts, desk_of};

    /// Writes a line for a host, with what lies behind the lock of the line's channel.
    pub fn write_in(
        &mut self,
        channel: &mut LockedChannel<K, B>,
        host: &mut Host<B>,
        write: Write,
    ) -> Result<Receipt, WriteRefusal>
        requires asked { IsAskedFor B.make write.line channel.old.number }
        ensures writes { HostWritesAtDesk K.ChannelPort D.SaveDevice E.Energy B.BoardName.own
            B.PartsName.own channel.old.number write result host.old host.new self.old self.new }
        ensures puts { IfOk result (λ receipt. DoneWithLent K.ChannelPort
            (PutsWrite K.ChannelPort receipt.number) channel.old.part channel.new.part) }
        ensures keeps { IfErr result (λ _. DoneWithLent K.ChannelPort
            (KeepsPort K.ChannelPort) channel.old.part channel.new.part) }
        ensures rises { SeesNoLess host.old host.new }
        ensures rest { KeepsAround K.ChannelPort D.SaveDevice E.Energy B.BoardName.own
            B.PartsName.own self.old self.new }
        ensures elsewhere { SameElsewhere channel.old.number
            self.old.known.logs self.new.known.logs }
        ensures number { channel.new.number ≡ channel.old.number }
    {
        let data = write.data;
        match self.write(channel, &mut host.seat, &mut host.share, write) {
            Ok(accepted) => Ok(Receipt {
                number: accepted.number,
                line: write.line,
                data,
            }),
            Err(refusal) => Err(refusal),
        }
    }

    /// Reads a line for a host, with what lies behind the lock of the line's channel: the bytes or a ticket of that channel, and
    /// how many writes were accepted before.
    pub fn read_in(
        &mut self,
        channel: &mut LockedChannel<K, B>,
        host: &mut Host<B>,
        line: u64,
    ) -> Result<GotAt, ReadRefusal>
        requires asked { IsAskedFor B.make line channel.old.number }
        ensures ok { IfOk result (λ r. DeskAnswers B.PartsName.own channel.old.number
            (Event.Read line) (Reply.Read (Ok r.got))
            (desk_of K.ChannelPort D.SaveDevice E.Energy B.BoardName.own B.PartsName.own self.old)
            (desk_of K.ChannelPort D.SaveDevice E.Energy B.BoardName.own B.PartsName.own
            self.new)) }
        ensures err { IfErr result (λ refusal. DeskAnswers B.PartsName.own channel.old.number
            (Event.Read line) (Reply.Read (Err refusal))
            (desk_of K.ChannelPort D.SaveDevice E.Energy B.BoardName.own B.PartsName.own self.old)
            (desk_of K.ChannelPort D.SaveDevice E.Energy B.BoardName.own B.PartsName.own
            self.new)) }
        ensures ticket { IfOk result (λ r. IsTicketOf channel.old.number r.got) }
        ensures at { IfOk result (λ r. r.at ≡ self.old.split.front.accepted) }
        ensures seen { IfOk result (λ r. r.at ≡ host.new.accepted) }
        ensures reads { IfOk result (λ r. DoneWithLent K.ChannelPort
            (ReadsLine K.ChannelPort line channel.old.number r) channel.old.part channel.new.part) }
        ensures keeps { IfErr result (λ _. DoneWithLent K.ChannelPort
            (KeepsPort K.ChannelPort) channel.old.part channel.new.part) }
        ensures rises { SeesNoLess host.old host.new }
        ensures writes { host.new.writes ≡ host.old.writes }
        ensures same { SameButCounts K.ChannelPort D.SaveDevice E.Energy B.BoardName.own
            B.PartsName.own self.old self.new }
        ensures elsewhere { SameElsewhere channel.old.number
            self.old.known.logs self.new.known.logs }
        ensures number { channel.new.number ≡ channel.old.number }
    {
        self.read(channel, &mut host.seat, line)
    }
}
