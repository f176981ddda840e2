// How many writes of the hosts were accepted.
ghost use Rattle.std.specs.Prelude.{◌≡◌, ◌+◌, ◌<◌, ◌++◌, ◌↔◌, length, IsTrue};
ghost use Rattle.std.specs.Result.{IsOk};
ghost use Rattle.line_memory.specs.History.{Recorded};
ghost use Rattle.nv_machine.specs.Rising.{added};

use crate::board_name::BoardName;
use arm_state::WriteRefusal;
use line_memory::{History, Write};
use nv_machine::{Accepted, Event, Reply};
use std::sync::ledger::{Book, Share};

/// The book of a board's ledger, and a share of no parts that the hosts' are merged into when the board is closed. Contracts
/// see the book's total, how many writes of the hosts were accepted.
#[derive(Drop)]
pub struct AcceptedCount<B: BoardName> {
    pub book: Book<B>,
    pub rest: Share<B>,
    pub ghost parts: { rest.parts ≡ 0 },
    pub ghost amount: { rest.amount ≡ 0 },
}

impl<B: BoardName> AcceptedCount<B> {
    /// Takes note of a write where it was accepted: in the history, and in the share of the host that wrote it.
    pub fn note(
        &mut self,
        history: &mut History,
        share: &mut Share<B>,
        write: Write,
        reply: Result<Accepted, WriteRefusal>,
    )
        requires room { IsOk reply → length history.old.writes < history.old.room }
        requires part { 0 < share.old.parts }
        ensures history { history.new ≡ record history.old {
          writes
              = history.old.writes ++ added (Event.Write write) (Reply.Write reply);
        } }
        ensures total { self.new.book.total
            ≡ self.old.book.total + length (added (Event.Write write) (Reply.Write reply)) }
        ensures amount { share.new.amount
            ≡ share.old.amount + length (added (Event.Write write) (Reply.Write reply)) }
        ensures parts { share.new.parts ≡ share.old.parts }
    {
        if let Ok(_) = reply {
            history.push(write);
            self.book.add(share, 1);
        }
    }
}
