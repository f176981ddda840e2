// The logs of a board that begins.
ghost use Rattle.std.specs.Prelude.{◌≡◌, ◌+◌, ◌<◌, ◌≤◌, ◌++◌, ℕ, [], ◌∷◌, false, length};
ghost use Rattle.std.specs.Prelude.{slice_set, vec_capacity};
ghost use Rattle.std.specs.Option.{option_map};
ghost use Rattle.channel_log.specs.Log.{IsLogOf, credits_of, log_tells, untold};
ghost use Rattle.channel_log.specs.Seats.{AreOf, all_logs, one_log};
ghost use Rattle.board_desk.specs.Loans.{waits_of_port};
ghost use Rattle.split_board.specs.FirstLogs.{AreToldOfPorts, HaveSeats, TellNoWrite, TellWrites};
ghost use Rattle.split_board.specs.FirstLogs.{channel_by, told_without_writes};

use channel_locks::LineChannels;
use channel_log::{ChannelLogs, ChannelSeat, FrontSeat, Standing};
use channel_port::ChannelPort;
use line_memory::{History, Numbered};
use std::marker::Brand;

// From which number on the writes of a channel are held back is noted, and what waits on it.
fn note_hold<W: Standing>(
    logs: &ChannelLogs,
    known: &mut FrontSeat,
    seat: &mut ChannelSeat,
    hold: Option<u64>,
)
    requires tables { AreOf logs.now known.old seat.old }
    requires none { seat.old.log ≡ [] }
    ensures known { known.new ≡ record known.old {
      logs = slice_set known.old.logs seat.old.channel seat.new.log;
    } }
    ensures seat { seat.new ≡ record seat.old { log = seat.new.log } }
    ensures told { log_tells seat.new.log ≡ record untold { hold = hold; waits = W.waits } }
{
    match hold {
        Some(number) => known.hold_from::<W>(logs, seat, number),
        None => known.look::<W>(logs, seat),
    }
}

// Whether mains were lost is noted.
fn note_end<W: Standing>(
    logs: &ChannelLogs,
    known: &mut FrontSeat,
    seat: &mut ChannelSeat,
    ended: bool,
)
    requires tables { AreOf logs.now known.old seat.old }
    requires agreed { IsLogOf known.old.logs seat.old.channel seat.old.log }
    requires waits { (log_tells seat.old.log).waits ≡ W.waits }
    requires going { (log_tells seat.old.log).ended ≡ false }
    ensures known { known.new ≡ record known.old {
      logs = slice_set known.old.logs seat.old.channel seat.new.log;
    } }
    ensures seat { seat.new ≡ record seat.old { log = seat.new.log } }
    ensures told { log_tells seat.new.log ≡ record (log_tells seat.old.log) { ended = ended } }
{
    if ended {
        known.end::<W>(logs, seat);
    }
}

// How many writes wait in a port, at most 64; none where there is no port.
fn waiting_in<K: ChannelPort>(port: Option<&K>) -> u64
    ensures is { result ≡ length
        (waits_of_port K.ChannelPort (option_map (λ p. p.now) port.entry)).writes }
    ensures most { result ≤ 64 }
{
    match port {
        Some(port) => port.pending() as u64,
        None => 0,
    }
}

// A seat for a further channel, at which is noted what its port has. Its caller picks the name of what waits.
fn deal_one<W: Standing, K: ChannelPort>(
    logs: &ChannelLogs,
    known: &mut FrontSeat,
    port: Option<&K>,
    hold: Option<u64>,
    ended: bool,
) -> ChannelSeat
    requires waits { W.waits ≡ waits_of_port K.ChannelPort (option_map (λ p. p.now) port) }
    requires table { known.old.table ≡ logs.now }
    ensures seat { result ≡ one_log logs.now (length known.old.logs) result.log }
    ensures known { known.new ≡ all_logs logs.now (known.old.logs ++ result.log ∷ []) }
    ensures told { log_tells result.log
        ≡ told_without_writes K.ChannelPort hold ended (option_map (λ p. p.now) port.entry) }
    ensures few { credits_of result.log ≤ 64 }
{
    let _waiting = waiting_in(port);
    let mut seat = known.deal(logs);
    note_hold::<W>(logs, known, &mut seat, hold);
    note_end::<W>(logs, known, &mut seat, ended);
    seat
}

/// A seat for each of eight channels, at which is noted what the channel's port has, if there is one.
pub(crate) fn deal_seats<K: ChannelPort>(
    logs: &ChannelLogs,
    known: &mut FrontSeat,
    ports: &Vec<K>,
    hold: Option<u64>,
    ended: bool,
    seats: &mut Vec<ChannelSeat>,
)
    requires known { known.old ≡ all_logs logs.now [] }
    requires none { seats.old.items ≡ [] }
    requires room { 8 ≤ vec_capacity seats.old }
    ensures table { known.new.table ≡ logs.now }
    ensures seats { HaveSeats 8 known.new seats.new.items }
    ensures told { AreToldOfPorts K.ChannelPort hold ended ports.now.items 8 known.new.logs }
{
    for channel in 0..8 {
        let seat = deal_one::<Brand, K>(logs, known, ports.get(channel), hold, ended);
        seats.push_reserved(seat);
    }
}

/// The writes of a record are noted at the seats of their lines' channels.
pub(crate) fn note_writes(
    logs: &ChannelLogs,
    known: &mut FrontSeat,
    seats: &mut Vec<ChannelSeat>,
    lines: &LineChannels,
    history: &History,
    from: u64,
    to: u64,
)
    requires table { known.old.table ≡ logs.now }
    requires seats { HaveSeats 8 known.old seats.old.items }
    requires none { TellNoWrite known.old.logs }
    requires eight { (line : ℕ) → channel_by lines.now line < 8 }
    requires from { from ≡ history.now.start }
    requires to { to ≡ history.now.start + length history.now.writes }
    ensures table { known.new.table ≡ logs.now }
    ensures seats { HaveSeats 8 known.new seats.new.items }
    ensures told { TellWrites lines.now history.now (length history.now.writes)
        known.old.logs known.new.logs }
{
    for number in from..to {
        let Some(write) = history.accepted_write(number) else {
            unreachable!();
        };
        let channel = lines.channel_of(write.line);
        known.write::<Brand>(
            logs,
            &mut seats[channel as usize],
            Numbered { number, write },
        );
    }
}
