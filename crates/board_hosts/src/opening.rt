// What a board's name is picked from.
ghost use Rattle.std.specs.Prelude.{◌≡◌, vec_len, IfOk};
ghost use Rattle.board_hosts.specs.SeenMarks.{AllHaveSeen, seen_marks};

use crate::{BoardSeat, HostSeat, MarkBoard};
use std::alloc::{AllocError, Global};
use std::marker::Model;
use std::sync::ledger::Blank;

/// The words and the ledger of a board that isn't there yet. Its caller makes it, and then picks the board's name (`BoardName`).
/// Contracts see which ledger and which words these are, for how many hosts, and what the words show.
#[derive(Drop)]
pub struct Opening {
    pub blank: Blank,
    pub marks: MarkBoard,
    pub seat: BoardSeat,
    pub seats: Vec<HostSeat>,
    pub mark: u64,
}

impl Model for Opening {
    ghost use Rattle.std.specs.Prelude.{◌≡◌, vec_len};
    ghost use Rattle.board_hosts.specs.SeenMarks.{AllHaveSeen, seen_marks};
    ghost use Rattle.board_hosts.specs.Opening.{OpeningView, opening};

    ghost Value = { OpeningView };

    ghost view = { λ o. opening o.blank.name o.blank.parts o.marks o.mark };

    ghost invariant = { λ o. let shown = seen_marks o.marks o.mark o.mark in
        (o.seat ≡ shown) × (vec_len o.seats ≡ o.blank.parts)
        × AllHaveSeen shown o.seats.items };
}

impl Opening {
    /// For so many hosts, and a module of which so many writes are persistent. It refuses only where there is no memory for
    /// the words.
    pub fn new(alloc: Global, mark: u64, hosts: usize) -> Result<Opening, AllocError>
        ensures hosts { IfOk result (λ o. o.parts ≡ hosts) }
        ensures mark { IfOk result (λ o. o.mark ≡ mark) }
    {
        let (marks, seat, seats) = MarkBoard::new(alloc, mark, hosts)?;
        let blank = Blank::new(hosts as u64);
        Ok(Opening {
            blank,
            marks,
            seat,
            seats,
            mark,
        })
    }
}
