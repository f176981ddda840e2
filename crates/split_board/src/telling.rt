// The notices of a board.
ghost use Rattle.std.specs.Prelude.{◌≡◌, ◌≤◌, IfErr, IfOk, OnErr, OnOk};
ghost use Rattle.notice_book.specs.NoticeBooks.{refused_notice};
ghost use Rattle.board_hosts.specs.Client.{delivered_at, seen_at};

use crate::board::Board;
use board_hosts::{BoardName, Host, Receipt};
use channel_locks::PartsName;
use channel_port::ChannelPort;
use energy_budget::Energy;
use notice_book::{Called, InsertRefusal, Notices};
use save_device::SaveDevice;
use std::alloc::{AllocError, Global};
use std::sync::Wait;

impl<K: ChannelPort, D: SaveDevice, E: Energy, B: BoardName + PartsName, N: Notices> Board<
    K,
    D,
    E,
    B,
    N,
> {
    /// Calls the notices below a mark that the host loads anew, as `Host::deliver_in` at the book that the lock lends. It takes the
    /// lock of the notices alone.
    pub fn deliver(
        &self,
        rt: &impl Wait,
        alloc: Global,
        host: &mut Host<B>,
    ) -> Result<Vec<Called>, AllocError>
        ensures delivered { IfOk result (λ answers. (before : N) × (after : N)
            × N.delivers host.new.persisted before answers.items after) }
        ensures rises { host.old.persisted ≤ host.new.persisted }
        ensures once { OnOk result (host.new ≡ delivered_at host.new.persisted host.old) }
        ensures none { OnErr result (host.new ≡ seen_at host.new.persisted host.old) }
    {
        host.deliver_in(alloc, &mut *self.notices.lock(rt))
    }

    /// Puts a notice in, to be called once the receipt's write is persistent. It takes the lock of the notices alone. Refused
    /// `Full` where the book has no room, and else `Taken` where a notice of the number is there: the notice comes back.
    pub fn notify(
        &self,
        rt: &impl Wait,
        receipt: &Receipt,
        notice: N::Notice,
    ) -> Result<(), InsertRefusal<N::Notice>>
        requires { N.is_callable receipt.now.number notice }
        ensures added { OnOk result ((before : N) × (after : N)
            × N.inserts receipt.now.number notice before after) }
        ensures refused { IfErr result (λ refusal. (book : N)
            × N.refuses receipt.now.number book refusal) }
        ensures back { IfErr result (λ refusal. refused_notice refusal ≡ notice) }
    {
        self.notices.lock(rt).insert_notice(receipt.number, notice)
    }
}
