// The rule that each step keeps, and what a step tells its seat.
use crate::entry::LogEntry;
use crate::standing::Standing;
use atomic_table::{Join, Play, Split, TableRule};
use std::marker::{Model, PhantomData};

/// What a seat knows: all logs, as the front's seat does, and the log of one channel, as that channel's seat does. It exists
/// in contracts alone. A seat has both only within a call.
pub struct LogView {}

impl Model for LogView {
    ghost use Rattle.channel_log.specs.LogRule.{SeatView, first_view};

    ghost Value = { SeatView };

    ghost view = { λ _. first_view };
}

/// One seat knows all logs, and one seat for each channel the channel's log.
pub struct LogRule;

impl TableRule<LogEntry, LogView, u64> for LogRule {
    ghost use Rattle.channel_log.specs.LogRule.{KeepsLogRule, first_view};

    ghost holds = { λ _. KeepsLogRule };

    ghost first = { λ _. first_view };
}

/// An entry goes behind the log of a channel, with what waits on it from then on.
pub struct NoteEntry<W> {
    of: PhantomData<W>,
}

impl<W: Standing> Play<LogEntry, LogView> for NoteEntry<W> {
    ghost use Rattle.channel_log.specs.LogRule.{NotesEntry};

    ghost then = { NotesEntry W.waits };
}

/// A seat that knows both learns that they are the same.
pub struct CompareLogs;

impl Play<LogEntry, LogView> for CompareLogs {
    ghost use Rattle.channel_log.specs.LogRule.{ComparesLogs};

    ghost then = { ComparesLogs };
}

/// A further channel, whose log is empty.
pub struct DealChannel;

impl Split<LogView> for DealChannel {
    ghost use Rattle.channel_log.specs.LogRule.{channel_view, dealt_view};

    ghost left = { dealt_view };

    ghost right = { channel_view };
}

/// What the front knows leaves a seat.
pub struct LeaveSeat;

impl Split<LogView> for LeaveSeat {
    ghost use Rattle.channel_log.specs.LogRule.{channel_half, front_half};

    ghost left = { channel_half };

    ghost right = { front_half };
}

/// What the front knows comes to another seat.
pub struct EnterSeat;

impl Join<LogView> for EnterSeat {
    ghost use Rattle.channel_log.specs.LogRule.{both_halves, no_view};

    ghost both = { both_halves };

    ghost spent = { no_view };
}
