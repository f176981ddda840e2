// The seats at the two words.
ghost use Rattle.std.specs.Prelude.{◌≡◌, ◌≤◌, max};
ghost use Rattle.board_hosts.specs.SeenMarks.{IsNotAbove, seen_marks};

use crate::mark_rule::{
    CompareJoined, JoinHost, LoadAccepted, LoadPersisted, MarkView, RaisePersisted, SplitHost,
    StoreAccepted, TeachHost,
};
use crate::mark_words::MarkBoard;
use atomic_table::Seat;
use std::marker::Model;

// The places of the words.
const ACCEPTED: usize = 0;

const PERSISTED: usize = 1;

/// The one seat that moves the words. Contracts see its board and both words.
#[derive(Drop)]
pub struct BoardSeat {
    pub(crate) seat: Seat<(), MarkView>,
}

impl Model for BoardSeat {
    ghost use Rattle.std.specs.Prelude.{◌≡◌, true, []};
    ghost use Rattle.board_hosts.specs.SeenMarks.{SeenMarks, seen_marks};

    ghost Value = { SeenMarks };

    ghost view = { λ s. seen_marks s.seat.table_id s.seat.me.0.accepted s.seat.me.0.persisted };

    ghost invariant = { λ s. (s.seat.me.0.owns ≡ true) × (s.seat.me.1 ≡ []) };
}

/// A seat that loads the words. Contracts see its board and the marks that it has seen.
#[derive(Drop)]
pub struct HostSeat {
    pub(crate) seat: Seat<(), MarkView>,
}

impl Model for HostSeat {
    ghost use Rattle.std.specs.Prelude.{◌≡◌, false, []};
    ghost use Rattle.board_hosts.specs.SeenMarks.{SeenMarks, seen_marks};

    ghost Value = { SeenMarks };

    ghost view = { λ s. seen_marks s.seat.table_id s.seat.me.0.accepted s.seat.me.0.persisted };

    ghost invariant = { λ s. (s.seat.me.0.owns ≡ false) × (s.seat.me.1 ≡ []) };
}

impl BoardSeat {
    /// Stores how many writes were accepted, which may not become fewer.
    pub fn accept(&mut self, board: &MarkBoard, count: u64)
        requires board { self.old.board ≡ board.now }
        requires rises { self.old.accepted ≤ count }
        ensures { self.new ≡ seen_marks board.now count self.old.persisted }
    {
        let table = &board.table.shared;
        table.store::<StoreAccepted>(&mut self.seat, ACCEPTED, count);
    }

    /// Raises how many writes are persistent, of those that were accepted. A smaller count than before changes nothing.
    pub fn raise(&mut self, board: &MarkBoard, count: u64)
        requires board { self.old.board ≡ board.now }
        requires accepted { count ≤ self.old.accepted }
        ensures { self.new ≡ record self.old { persisted = max self.old.persisted count } }
    {
        let table = &board.table.shared;
        table.fetch_max::<RaisePersisted>(&mut self.seat, PERSISTED, count);
    }

    /// Shows a host's seat both words. It had seen none above them, and from now on it has seen them.
    pub fn inform(&mut self, board: &MarkBoard, host: &mut HostSeat)
        requires board { self.old.board ≡ board.now }
        requires host { host.old.board ≡ board.now }
        ensures below { IsNotAbove host.old self.old }
        ensures host { host.new ≡ self.old }
        ensures same { self.new ≡ self.old }
    {
        let before = host.split(board);
        self.join(board, before);
        let HostSeat { seat } = self.split(board);
        let table = &board.table.shared;
        table.join_seat::<TeachHost>(&mut host.seat, seat);
    }

    /// Ends a host's seat. It has seen no mark above the words.
    pub fn join(&mut self, board: &MarkBoard, host: HostSeat)
        requires board { self.old.board ≡ board.now }
        requires host { host.board ≡ board.now }
        ensures below { IsNotAbove host self.old }
        ensures same { self.new ≡ self.old }
    {
        let HostSeat { seat } = host;
        let table = &board.table.shared;
        table.join_seat::<JoinHost>(&mut self.seat, seat);
        table.load::<CompareJoined>(&mut self.seat, ACCEPTED);
    }

    // A new host's seat that has seen both words.
    pub(crate) fn split(&mut self, board: &MarkBoard) -> HostSeat
        requires { self.old.board ≡ board.now }
        ensures seat { result ≡ self.old }
        ensures same { self.new ≡ self.old }
    {
        let seat = board.table.shared.split_seat::<SplitHost>(&mut self.seat);
        HostSeat { seat }
    }
}

impl HostSeat {
    /// Loads how many writes were accepted: never fewer than this seat has seen.
    pub fn accepted(&mut self, board: &MarkBoard) -> u64
        requires { self.old.board ≡ board.now }
        ensures rises { self.old.accepted ≤ result }
        ensures seen { self.new ≡ record self.old { accepted = result } }
    {
        let table = &board.table.shared;
        table.load::<LoadAccepted>(&mut self.seat, ACCEPTED)
    }

    /// Loads how many writes are persistent: never fewer than this seat has seen.
    pub fn persisted(&mut self, board: &MarkBoard) -> u64
        requires { self.old.board ≡ board.now }
        ensures rises { self.old.persisted ≤ result }
        ensures seen { self.new ≡ record self.old { persisted = result } }
    {
        let table = &board.table.shared;
        table.load::<LoadPersisted>(&mut self.seat, PERSISTED)
    }

    // A new seat that has seen as much.
    fn split(&mut self, board: &MarkBoard) -> HostSeat
        requires { self.old.board ≡ board.now }
        ensures seat { result ≡ self.old }
        ensures same { self.new ≡ self.old }
    {
        let seat = board.table.shared.split_seat::<SplitHost>(&mut self.seat);
        HostSeat { seat }
    }
}
