// The word on which both seats meet.
ghost use Rattle.std.specs.Prelude.{◌≡◌, [], IfOk};
ghost use Rattle.channel_log.specs.Seats.{all_logs};

use crate::entry::LogEntry;
use crate::rule::{LogRule, LogView};
use crate::seats::FrontSeat;
use atomic_table::Table;
use std::alloc::{AllocError, Global};
use std::marker::Model;

/// The table of the logs, by which seats meet. Contracts see which one it is.
#[derive(Drop)]
pub struct ChannelLogs {
    pub(crate) table: Table<LogEntry, LogView, u64, LogRule, Global>,
}

impl Model for ChannelLogs {
    ghost use Rattle.std.specs.Prelude.{◌≡◌};
    ghost use Rattle.atomic_table.specs.Seated.{TableId};

    ghost Value = { TableId };

    ghost view = { λ b. b.table.shared.table_id };

    ghost invariant = { (λ b. b.table.shared.table_id.words ≡ 1) };
}

impl ChannelLogs {
    /// A table with the seat that knows all logs; there is no channel yet. It refuses only where there is no memory for the
    /// word; no other call takes any.
    pub fn new(alloc: Global) -> Result<(ChannelLogs, FrontSeat), AllocError>
        ensures { IfOk result (λ made. made.1 ≡ all_logs made.0 []) }
    {
        let (table, seat) = Table::of_words(alloc, &[0], &0)?;
        let logs = ChannelLogs { table };
        let front = FrontSeat { seat };
        Ok((logs, front))
    }
}
