// Ports are lent by their channels to a whole module, and come back, one channel after another.
ghost use Rattle.std.specs.Prelude.{◌≡◌, ◌+◌, ◌++◌, ◌<◌, ◌≤◌, IfSome, None, length, min, slice_get, slice_set, take, true, vec_capacity, vec_len};
ghost use Rattle.channel_log.specs.Log.{IsLogOf, credits_of, log_tells};
ghost use Rattle.channel_log.specs.Seats.{AreOf};
ghost use Rattle.channel_locks.specs.PortMakes.{make_of};
ghost use Rattle.channel_locks.specs.Slots.{IsSlotKept};
ghost use Rattle.channel_locks.specs.Unlocked.{port_in};
ghost use Rattle.board_desk.specs.Loans.{ComesBack, HaveLent, IsReadyToLend, restated, waits_of_port};

use crate::board_port::BoardPort;
use crate::desk::Desk;
use board_hosts::BoardName;
use channel_locks::{Part, PartsName};
use channel_log::{ChannelLogs, ChannelSeat, FrontSeat, Standing};
use channel_port::ChannelPort;
use energy_budget::Energy;
use save_device::SaveDevice;
use std::marker::Brand;

impl<K: ChannelPort, D: SaveDevice, E: Energy, B: BoardName + PartsName> Desk<K, D, E, B> {
    ghost use Rattle.board_desk.specs.Views.{SameButLoans};

    /// A channel that was settled lends its port, where the board has the channel: it goes behind those of the channels before.
    pub(crate) fn lend(&mut self, number: u64, part: &mut Option<Part<K>>, seat: &mut ChannelSeat)
        requires kept { IsSlotKept K.ChannelPort B.PartsName.own part.old seat.old number }
        requires ready { IsReadyToLend K.ChannelPort part.old seat.old.log }
        requires have { ∥ HaveLent K.ChannelPort B.PartsName.own
            self.old.known.logs number self.old.room.items ∥₁ }
        ensures seat { seat.new ≡ seat.old }
        ensures agreed { IsLogOf self.new.known.logs number seat.new.log }
        ensures lent { part.new ≡ None }
        ensures port { self.new.room.items ≡ self.old.room.items ++ port_in K.ChannelPort part.old }
        ensures have { ∥ HaveLent K.ChannelPort B.PartsName.own
            self.new.known.logs (number + 1) self.new.room.items ∥₁ }
        ensures same { SameButLoans K.ChannelPort D.SaveDevice E.Energy B.BoardName.own
            B.PartsName.own self.old self.new }
    {
        self.known.compare(&self.logs, seat);
        if let Some(lent) = part.take() {
            self.room.push_reserved(BoardPort::of(lent.into_port()));
        }
    }
}

// From which number on the writes of a channel are held back is noted.
fn note_hold<W: Standing>(
    logs: &ChannelLogs,
    known: &mut FrontSeat,
    seat: &mut ChannelSeat,
    hold: Option<u64>,
)
    requires tables { AreOf logs.now known.old seat.old }
    ensures known { known.new ≡ record known.old {
      logs = slice_set known.old.logs seat.old.channel seat.new.log;
    } }
    ensures seat { seat.new ≡ record seat.old { log = seat.new.log } }
    ensures agreed { IsLogOf known.old.logs seat.old.channel seat.old.log }
    ensures told { log_tells seat.new.log ≡ record (log_tells seat.old.log) {
      hold = hold;
      waits = W.waits;
    } }
{
    match hold {
        Some(number) => known.hold_from::<W>(logs, seat, number),
        None => known.release::<W>(logs, seat),
    }
}

// That the life has ended is noted, where it has.
fn note_end<W: Standing>(
    logs: &ChannelLogs,
    known: &mut FrontSeat,
    seat: &mut ChannelSeat,
    ended: bool,
)
    requires tables { AreOf logs.now known.old seat.old }
    requires agreed { IsLogOf known.old.logs seat.old.channel seat.old.log }
    requires waits { (log_tells seat.old.log).waits ≡ W.waits }
    requires stays { (log_tells seat.old.log).ended ≡ true → ended ≡ true }
    ensures known { known.new ≡ record known.old {
      logs = slice_set known.old.logs seat.old.channel seat.new.log;
    } }
    ensures seat { seat.new ≡ record seat.old { log = seat.new.log } }
    ensures told { log_tells seat.new.log ≡ record (log_tells seat.old.log) { ended = ended } }
{
    if ended {
        known.end::<W>(logs, seat);
    }
}

// How many writes wait in a port, at most 64; none where there is no port.
fn waiting_in<K: ChannelPort>(port: &Option<K>) -> u64
    ensures is { result ≡ length (waits_of_port K.ChannelPort port.now).writes }
    ensures most { result ≤ 64 }
{
    match port {
        Some(port) => port.pending() as u64,
        None => 0,
    }
}

// What is known of a channel is noted at both seats, with what waits in its port. Its caller picks the name of that.
fn note_back<W: Standing, K: ChannelPort>(
    logs: &ChannelLogs,
    known: &mut FrontSeat,
    seat: &mut ChannelSeat,
    port: &Option<K>,
    hold: Option<u64>,
    ended: bool,
)
    requires waits { W.waits ≡ waits_of_port K.ChannelPort port.now }
    requires tables { AreOf logs.now known.old seat.old }
    requires stays { (log_tells seat.old.log).ended ≡ true → ended ≡ true }
    ensures known { known.new ≡ record known.old {
      logs = slice_set known.old.logs seat.old.channel seat.new.log;
    } }
    ensures seat { seat.new ≡ record seat.old { log = seat.new.log } }
    ensures agreed { IsLogOf known.old.logs seat.old.channel seat.old.log }
    ensures told { log_tells seat.new.log
        ≡ restated hold ended (waits_of_port K.ChannelPort port.now) (log_tells seat.old.log) }
    ensures few { credits_of seat.new.log ≤ 64 }
{
    let _waiting = waiting_in(port);
    note_hold::<W>(logs, known, seat, hold);
    note_end::<W>(logs, known, seat, ended);
}

// The port of this number, which is the last one, where there is one.
fn pop_at<K: ChannelPort, B: PartsName>(
    ports: &mut Vec<BoardPort<K, B>>,
    number: u64,
) -> Option<BoardPort<K, B>>
    requires { vec_len ports.old ≤ number + 1 }
    ensures port { result ≡ slice_get ports.old.items number }
    ensures rest { ports.new.items ≡ take number ports.old.items }
    ensures capacity { vec_capacity ports.new ≡ vec_capacity ports.old }
{
    if ports.len() as u64 > number {
        ports.pop()
    } else {
        None
    }
}

// The port itself, where there is one.
fn unpack<K: ChannelPort, B: PartsName>(port: Option<BoardPort<K, B>>) -> Option<K>
    ensures same { result ≡ port }
    ensures made { IfSome result (λ it. ∥ make_of (K.view it) ≡ B.make ∥₁) }
{
    match port {
        Some(port) => Some(port.into_port()),
        None => None,
    }
}

// A channel's port comes back from the end of those that were lent, where the board has the channel.
pub(crate) fn restore<K: ChannelPort + Drop, B: PartsName>(
    logs: &ChannelLogs,
    known: &mut FrontSeat,
    ports: &mut Vec<BoardPort<K, B>>,
    hold: Option<u64>,
    ended: bool,
    number: u64,
    part: &mut Option<Part<K>>,
    seat: &mut ChannelSeat,
)
    requires lent { part.old ≡ None }
    requires tables { AreOf logs.now known.old seat.old }
    requires table { seat.old.table ≡ B.logs }
    requires channel { seat.old.channel ≡ number }
    requires count { vec_len ports.old ≡ min (number + 1) B.ports }
    requires stays { (log_tells seat.old.log).ended ≡ true → ended ≡ true }
    requires due { ∥ ComesBack K.ChannelPort B.PartsName hold ended number
        (log_tells seat.old.log) ports.old.items ∥₁ }
    ensures count { vec_len ports.new ≡ min number B.ports }
    ensures capacity { vec_capacity ports.new ≡ vec_capacity ports.old }
    ensures ports { ports.new.items ≡ take number ports.old.items }
    ensures port { ports.old.items ≡ ports.new.items ++ port_in K.ChannelPort part.new }
    ensures kept { IsSlotKept K.ChannelPort B.PartsName part.new seat.new number }
    ensures known { known.new ≡ record known.old {
      logs = slice_set known.old.logs number seat.new.log;
    } }
    ensures agreed { IsLogOf known.old.logs number seat.old.log }
    ensures told { log_tells seat.new.log ≡ restated hold ended
        (waits_of_port K.ChannelPort (slice_get ports.old.items number))
        (log_tells seat.old.log) }
    ensures few { credits_of seat.new.log ≤ 64 }
{
    let port = unpack(pop_at(ports, number));
    note_back::<Brand, K>(logs, known, seat, &port, hold, ended);
    if let Some(port) = port {
        *part = Some(Part::of(number, port, ended));
    }
}
