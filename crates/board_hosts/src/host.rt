// Who writes and reads.
ghost use Rattle.std.specs.Prelude.{◌≡◌, ◌<◌, ◌≤◌, [], IfOk, IfErr};
ghost use Rattle.std.specs.Arc.{arc_value};
ghost use Rattle.board_hosts.specs.Client.{SeesNoLess, client, seen_at};

use crate::board_name::BoardName;
use crate::{HostSeat, MarkBoard};
use channel_port::Got;
use ghost_trace::Trace;
use line_memory::Line;
use notice_book::Persisted;
use std::alloc::Global;
use std::marker::Model;
use std::sync::Arc;
use std::sync::ledger::Share;

/// A write that was accepted: its number, and what it wrote.
#[derive(Clone, Copy, Debug, PartialEq, Eq)]
pub struct Receipt {
    pub number: u64,
    pub line: u64,
    pub data: Line,
}

/// What was got of a line: its bytes or a ticket, and how many writes were accepted before it.
#[derive(Clone, Copy, Debug, PartialEq, Eq)]
pub struct GotAt {
    pub got: Got,
    pub at: u64,
}

/// A write that isn't known to be persistent: its number, and the mark that was found.
#[derive(Clone, Copy, Debug, PartialEq, Eq)]
pub struct Behind {
    pub seen: u64,
    pub found: u64,
}

/// A host of one board. Contracts see the marks that it has seen, how many of its writes were accepted, and the marks of its
/// deliveries.
#[derive(Drop)]
pub struct Host<B: BoardName> {
    pub marks: Arc<MarkBoard, Global>,
    pub seat: HostSeat,
    pub share: Share<B>,
    pub delivered: Trace<u64>,
}

impl<B: BoardName> Model for Host<B> {
    ghost use Rattle.std.specs.Prelude.{◌≡◌};
    ghost use Rattle.std.specs.Arc.{arc_value};
    ghost use Rattle.board_hosts.specs.Client.{Client, client};

    ghost Value = { Client };

    ghost view = { λ h.
        client h.seat.accepted h.seat.persisted h.share.amount h.delivered.items };

    ghost invariant = { λ h. (arc_value h.marks ≡ B.board)
        × (h.seat.board ≡ B.board) × (h.share.parts ≡ 1) };
}

impl<B: BoardName> Host<B> {
    /// A host with a seat of the board and one part of its ledger.
    pub fn new(marks: Arc<MarkBoard, Global>, seat: HostSeat, share: Share<B>) -> Host<B>
        requires board { arc_value marks ≡ B.board }
        requires seat { seat.board ≡ B.board }
        requires part { share.parts ≡ 1 }
        ensures { result ≡ client seat.accepted seat.persisted share.amount [] }
    {
        Host {
            marks,
            seat,
            share,
            delivered: Trace::new(),
        }
    }

    /// Loads how many writes are persistent, with no lock.
    pub fn mark(&mut self) -> u64
        ensures rises { self.old.persisted ≤ result }
        ensures seen { self.new ≡ seen_at result self.old }
    {
        self.seat.persisted(&self.marks)
    }

    /// Whether a write is persistent, by a mark that is loaded anew, with no lock.
    pub fn check(&mut self, receipt: &Receipt) -> Result<Persisted, Behind>
        ensures number { IfOk result (λ p. p.number ≡ receipt.now.number) }
        ensures below { IfOk result (λ p. p.number < p.mark) }
        ensures mark { IfOk result (λ p. p.mark ≡ self.new.persisted) }
        ensures seen { IfErr result (λ b. b.seen ≡ receipt.now.number) }
        ensures behind { IfErr result (λ b. b.found ≤ b.seen) }
        ensures found { IfErr result (λ b. b.found ≡ self.new.persisted) }
        ensures rises { SeesNoLess self.old self.new }
        ensures accepted { self.new.accepted ≡ self.old.accepted }
        ensures writes { self.new.writes ≡ self.old.writes }
        ensures delivered { self.new.delivered ≡ self.old.delivered }
    {
        let number = receipt.number;
        let mark = self.mark();
        if number < mark {
            Ok(Persisted { number, mark })
        } else {
            Err(Behind {
                seen: number,
                found: mark,
            })
        }
    }
}
