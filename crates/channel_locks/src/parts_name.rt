// The name of a board's parts.
use std::marker::Brand;

/// Names the parts of one board: the table of their logs, the memory with which the life began, how many channels there are, and
/// what their ports have in common. Each call of a program picks it.
pub trait PartsName {
    ghost use Rattle.std.specs.Prelude.{ℕ, List};
    ghost use Rattle.atomic_table.specs.Seated.{TableId};
    ghost use Rattle.channel_locks.specs.PortMakes.{PortMake};

    ghost logs: { TableId };

    ghost base: { List (List ℕ) };

    ghost ports: { ℕ };

    ghost make: { PortMake };
}

impl PartsName for Brand {
    ghost use Rattle.std.specs.Prelude.{[]};
    ghost use Rattle.channel_locks.specs.PortMakes.{no_logs, no_make};

    ghost logs = { no_logs };

    ghost base = { [] };

    ghost ports = { 0 };

    ghost make = { no_make };
}
