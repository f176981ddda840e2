// The two words.
ghost use Rattle.std.specs.Prelude.{◌≡◌, vec_len, IfOk};
ghost use Rattle.board_hosts.specs.SeenMarks.{AllHaveSeen, seen_marks};

use crate::mark_rule::{MarkRule, MarkView};
use crate::mark_seats::{BoardSeat, HostSeat};
use atomic_table::Table;
use std::alloc::{AllocError, Global};
use std::marker::Model;

/// The words accepted and persisted. Contracts see which board it is.
#[derive(Drop)]
pub struct MarkBoard {
    pub(crate) table: Table<(), MarkView, u64, MarkRule, Global>,
}

impl Model for MarkBoard {
    ghost use Rattle.std.specs.Prelude.{◌≡◌};
    ghost use Rattle.atomic_table.specs.Seated.{TableId};

    ghost Value = { TableId };

    ghost view = { λ b. b.table.shared.table_id };

    ghost invariant = { (λ b. b.table.shared.table_id.words ≡ 2) };
}

impl MarkBoard {
    /// A board with both words at `count`, the seat that moves them, and as many seats that load them as `hosts`. It
    /// refuses only where there is no memory for them; no other call takes any.
    pub fn new(
        alloc: Global,
        count: u64,
        hosts: usize,
    ) -> Result<(MarkBoard, BoardSeat, Vec<HostSeat>), AllocError>
        ensures board { IfOk result (λ made. made.1 ≡ seen_marks made.0 count count) }
        ensures number { IfOk result (λ made. vec_len made.2 ≡ hosts) }
        ensures hosts { IfOk result (λ m. AllHaveSeen (seen_marks m.0 count count) m.2.items) }
    {
        let (table, seat) = Table::of_words(alloc, &[count, count], &count)?;
        let board = MarkBoard { table };
        let mut owner = BoardSeat { seat };
        let seats = split_hosts(alloc, &board, &mut owner, hosts)?;
        Ok((board, owner, seats))
    }
}

// As many new seats as `hosts`, which have seen as much as the board's.
fn split_hosts(
    alloc: Global,
    board: &MarkBoard,
    owner: &mut BoardSeat,
    hosts: usize,
) -> Result<Vec<HostSeat>, AllocError>
    requires { owner.old.board ≡ board.now }
    ensures number { IfOk result (λ seats. vec_len seats ≡ hosts) }
    ensures seats { IfOk result (λ seats. AllHaveSeen owner.old seats.items) }
    ensures same { owner.new ≡ owner.old }
{
    let mut seats = Vec::with_capacity(alloc, hosts)?;
    for _i in 0..hosts {
        seats.push_reserved(owner.split(board));
    }
    Ok(seats)
}
