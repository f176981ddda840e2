// The end of a board.
ghost use Rattle.std.specs.Prelude.{◌≡◌, ◌+◌, ◌≤◌, All, length, sum_by};
ghost use Rattle.board_hosts.specs.Kept.{IsRecordKept};

use crate::board_name::BoardName;
use crate::held::Held;
use crate::host::Host;
use crate::recorded_module::RecordedModule;
use crate::tally::AcceptedCount;
use crate::{BoardSeat, MarkBoard};
use channel_port::ChannelPort;
use energy_budget::Energy;
use save_device::SaveDevice;
use std::sync::ledger::Share;

/// What a board leaves: the module with its record, the notices that were not called, and what became of receipts and answers. The
/// history goes from the write with the number `from` on; so many receipts and answers were checked against it, and so many are
/// past.
#[derive(Drop)]
pub struct Closed<K: ChannelPort, D, E, N> {
    pub recorded: RecordedModule<K, D, E>,
    pub notices: N,
    pub from: u64,
    pub checked: u64,
    pub past: u64,
}

/// Ends a host, whose share goes to the others'. It has seen no mark above the words.
pub fn end_host<B: BoardName>(
    marks: &MarkBoard,
    seat: &mut BoardSeat,
    rest: &mut Share<B>,
    host: Host<B>,
)
    requires board { marks.now ≡ B.board }
    requires seat { seat.old.board ≡ B.board }
    ensures same { seat.new ≡ seat.old }
    ensures below { host.persisted ≤ seat.old.persisted }
    ensures parts { rest.new.parts ≡ rest.old.parts + 1 }
    ensures amount { rest.new.amount ≡ rest.old.amount + host.writes }
{
    let Host {
        marks: _,
        seat: host_seat,
        share,
        delivered: _,
    } = host;
    seat.join(marks, host_seat);
    rest.merge(share);
}

impl<K: ChannelPort, D: SaveDevice, E: Energy, B: BoardName> Held<K, D, E, B> {
    /// Ends a life once all hosts of its board are back: none has seen a mark above the module's, their shares are all that the board
    /// counted, and the module comes back with its record, as it is. It takes no memory.
    pub fn end(self, hosts: Vec<Host<B>>) -> RecordedModule<K, D, E>
    where
        K: Drop,
        D: Drop,
        E: Drop,
        requires { length hosts.items ≡ B.parts }
        ensures same { result ≡ self.recorded }
        ensures kept { IsRecordKept K.ChannelPort D.SaveDevice E.Energy result }
        ensures shares { result.running.front.accepted
            ≡ result.running.front.terms.start + B.before + sum_by (λ h. h.writes) hosts.items }
        ensures marks { All (λ h. h.persisted ≤ result.running.front.persisted) hosts.items }
    {
        let Held {
            recorded,
            marks,
            mut seat,
            tally,
        } = self;
        let AcceptedCount { mut book, mut rest } = tally;
        for host in hosts {
            end_host(&marks, &mut seat, &mut rest, host);
        }
        book.audit(&mut rest);
        recorded
    }
}
