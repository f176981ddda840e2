// The rule that each step on the two words keeps, and what a step tells its seat.
use atomic_table::{Join, Play, Split, TableRule};

/// What a seat has seen, and what the seat that joined it last had seen. It exists in contracts alone.
pub struct MarkView {
    pub owns: bool,
    pub accepted: u64,
    pub persisted: u64,
    pub joined_accepted: u64,
    pub joined_persisted: u64,
}

/// What is persistent was accepted, both words equal the view of the board's seat, and no other view is above them.
pub struct MarkRule;

impl TableRule<(), MarkView, u64> for MarkRule {
    ghost use Rattle.board_hosts.specs.MarkRule.{KeepsMarkRule, board_view};

    ghost holds = { λ _. KeepsMarkRule };

    ghost first = { λ count. board_view count count };
}

/// The board's seat stores accepted.
pub struct StoreAccepted;

impl Play<(), MarkView> for StoreAccepted {
    ghost use Rattle.board_hosts.specs.MarkRule.{StoresAccepted};

    ghost then = { StoresAccepted };
}

/// The board's seat raises persisted.
pub struct RaisePersisted;

impl Play<(), MarkView> for RaisePersisted {
    ghost use Rattle.board_hosts.specs.MarkRule.{RaisesPersisted};

    ghost then = { RaisesPersisted };
}

/// A host's seat loads accepted.
pub struct LoadAccepted;

impl Play<(), MarkView> for LoadAccepted {
    ghost use Rattle.board_hosts.specs.MarkRule.{LoadsAccepted};

    ghost then = { LoadsAccepted };
}

/// A host's seat loads persisted.
pub struct LoadPersisted;

impl Play<(), MarkView> for LoadPersisted {
    ghost use Rattle.board_hosts.specs.MarkRule.{LoadsPersisted};

    ghost then = { LoadsPersisted };
}

/// The board's seat compares what a joined seat had seen with its own view.
pub struct CompareJoined;

impl Play<(), MarkView> for CompareJoined {
    ghost use Rattle.board_hosts.specs.MarkRule.{ComparesJoined};

    ghost then = { ComparesJoined };
}

/// A new host's seat has seen as much as the seat that it is split from.
pub struct SplitHost;

impl Split<MarkView> for SplitHost {
    ghost use Rattle.board_hosts.specs.MarkRule.{split_view};

    ghost left = { λ v. v };

    ghost right = { split_view };
}

/// A host's seat takes over what another has seen, which ends.
pub struct TeachHost;

impl Join<MarkView> for TeachHost {
    ghost use Rattle.board_hosts.specs.MarkRule.{host_view, taught_view};

    ghost both = { taught_view };

    ghost spent = { host_view 0 0 };
}

/// A host's seat ends, and what it had seen is kept to be compared.
pub struct JoinHost;

impl Join<MarkView> for JoinHost {
    ghost use Rattle.board_hosts.specs.MarkRule.{host_view, joined_view};

    ghost both = { joined_view };

    ghost spent = { host_view 0 0 };
}
