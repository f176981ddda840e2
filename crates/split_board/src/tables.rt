// What a board's name is picked from.
ghost use Rattle.std.specs.Prelude.{◌≡◌, [], IfOk};
ghost use Rattle.channel_log.specs.Seats.{all_logs};

use board_hosts::Opening;
use channel_log::{ChannelLogs, FrontSeat};
use std::alloc::{AllocError, Global};

/// The words, the ledger and the channels' logs of a board that isn't there yet. No channel has a log yet. Its caller makes them,
/// and then picks the board's name.
#[derive(Drop)]
pub struct BoardTables {
    pub opening: Opening,
    pub logs: ChannelLogs,
    pub known: FrontSeat,
    pub ghost none: { known ≡ all_logs logs [] },
}

impl BoardTables {
    /// With these words. It refuses only where there is no memory for the logs' word.
    pub fn new(alloc: Global, opening: Opening) -> Result<BoardTables, AllocError>
        ensures { IfOk result (λ tables. tables.opening ≡ opening) }
    {
        let (logs, known) = ChannelLogs::new(alloc)?;
        Ok(BoardTables {
            opening,
            logs,
            known,
        })
    }
}
