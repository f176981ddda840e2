// The name of a board.
use std::marker::Brand;
use std::sync::ledger::Ledger;

/// Names one board: the words of its marks, the ledger of its hosts' writes, and how many channels its module has. Each call of
/// a program picks it.
pub trait BoardName: Ledger {
    ghost use Rattle.std.specs.Prelude.{ℕ};
    ghost use Rattle.atomic_table.specs.Seated.{TableId};

    ghost board: { TableId };

    ghost channels: { ℕ };

    /// How many writes the life had accepted when the board was opened.
    ghost before: { ℕ };
}

impl BoardName for Brand {
    ghost use Rattle.board_hosts.specs.Boards.{no_board};

    ghost board = { no_board };

    ghost channels = { 0 };

    ghost before = { 0 };
}
