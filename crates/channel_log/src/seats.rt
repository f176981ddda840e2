// The seats, and what they note.
ghost use Rattle.std.specs.Prelude.{◌≡◌, ◌+◌, ◌<◌, ◌≤◌, ◌++◌, [], ◌∷◌, AllPairs, length, true, false, Some, None};
ghost use Rattle.line_memory.specs.Parts.{AreBefore};
ghost use Rattle.channel_log.specs.declared.entry.LogEntry.TheVariants.{Wrote, Looked, HeldFrom, Released, Ended};
ghost use Rattle.channel_log.specs.Log.{IsLogOf, MayFollow, credits_of, credits_out, log_tells, note_of};
ghost use Rattle.channel_log.specs.LogRule.{both_halves, channel_half, front_half, noted_view};
ghost use Rattle.channel_log.specs.Seats.{AreOf, IsNoted, all_logs, one_log};

use crate::entry::LogEntry;
use crate::rule::{CompareLogs, DealChannel, EnterSeat, LeaveSeat, LogView, NoteEntry};
use crate::standing::Standing;
use crate::table::ChannelLogs;
use atomic_table::Seat;
use line_memory::Numbered;
use std::marker::Model;

/// The seat that knows the log of each channel, of which a table has one.
#[derive(Drop)]
pub struct FrontSeat {
    pub(crate) seat: Seat<LogEntry, LogView>,
}

impl Model for FrontSeat {
    ghost use Rattle.std.specs.Prelude.{◌≡◌, true, false, []};
    ghost use Rattle.channel_log.specs.Seats.{AllLogs, all_logs};

    ghost Value = { AllLogs };

    ghost view = { λ s. all_logs s.seat.table_id s.seat.me.0.logs };

    ghost invariant = { λ s. (s.seat.me.0.has_all ≡ true) × (s.seat.me.0.has_one ≡ false)
        × (s.seat.me.1 ≡ []) };
}

/// A seat that knows the log of its channel, of which each channel has one.
#[derive(Drop)]
pub struct ChannelSeat {
    pub(crate) seat: Seat<LogEntry, LogView>,
}

impl Model for ChannelSeat {
    ghost use Rattle.std.specs.Prelude.{◌≡◌, true, false, []};
    ghost use Rattle.channel_log.specs.Log.{IsLog};
    ghost use Rattle.channel_log.specs.Seats.{OneLog, one_log};

    ghost Value = { OneLog };

    ghost view = { λ s. one_log s.seat.table_id s.seat.me.0.channel s.seat.me.0.log };

    ghost invariant = { λ s. (s.seat.me.0.has_all ≡ false) × (s.seat.me.0.has_one ≡ true)
        × (s.seat.me.1 ≡ []) × IsLog s.seat.me.0.log };
}

// What the front knows goes from one seat to another.
fn hand_over(
    logs: &ChannelLogs,
    from: &mut Seat<LogEntry, LogView>,
    to: &mut Seat<LogEntry, LogView>,
)
    requires tables { (from.old.table_id ≡ logs.now) × (to.old.table_id ≡ logs.now) }
    requires knows { (from.old.me.0.has_all ≡ true) × (to.old.me.0.has_all ≡ false) }
    requires slots { (from.old.me.1 ≡ []) × (to.old.me.1 ≡ []) }
    ensures tables { (from.new.table_id ≡ logs.now) × (to.new.table_id ≡ logs.now) }
    ensures from { from.new.me ≡ (channel_half from.old.me.0, []) }
    ensures to { to.new.me ≡ (both_halves to.old.me.0 (front_half from.old.me.0), []) }
{
    let known = logs.table.shared.split_seat::<LeaveSeat>(from);
    logs.table.shared.join_seat::<EnterSeat>(to, known);
}

// An entry goes behind the log of the seat's channel.
fn note_at<W: Standing>(logs: &ChannelLogs, seat: &mut Seat<LogEntry, LogView>, entry: &LogEntry)
    requires table { seat.old.table_id ≡ logs.now }
    requires knows { (seat.old.me.0.has_all ≡ true) × (seat.old.me.0.has_one ≡ true) }
    requires slots { seat.old.me.1 ≡ [] }
    ensures table { seat.new.table_id ≡ seat.old.table_id }
    ensures seat { seat.new.me ≡ (noted_view (note_of entry.now W.waits) seat.old.me.0, []) }
    ensures agreed { IsLogOf seat.old.me.0.logs seat.old.me.0.channel seat.old.me.0.log }
{
    let table = &logs.table.shared;
    table.compare_exchange_with::<NoteEntry<W>>(seat, 0, 0, 0, entry);
}

// The seat learns that what it knows of its channel and what it knows of all is the same.
fn compare_at(logs: &ChannelLogs, seat: &mut Seat<LogEntry, LogView>)
    requires table { seat.old.table_id ≡ logs.now }
    requires knows { (seat.old.me.0.has_all ≡ true) × (seat.old.me.0.has_one ≡ true) }
    requires slots { seat.old.me.1 ≡ [] }
    ensures table { seat.new.table_id ≡ seat.old.table_id }
    ensures same { seat.new.me ≡ seat.old.me }
    ensures agreed { IsLogOf seat.old.me.0.logs seat.old.me.0.channel seat.old.me.0.log }
{
    logs.table.shared.load::<CompareLogs>(seat, 0);
}

impl FrontSeat {
    /// A seat for a further channel, whose log is empty. Channels are numbered from 0, as they are dealt.
    pub fn deal(&mut self, logs: &ChannelLogs) -> ChannelSeat
        requires { self.old.table ≡ logs.now }
        ensures seat { result ≡ one_log logs.now (length self.old.logs) [] }
        ensures front { self.new ≡ all_logs logs.now (self.old.logs ++ [] ∷ []) }
    {
        let seat = logs.table.shared.split_seat::<DealChannel>(&mut self.seat);
        ChannelSeat { seat }
    }

    /// What both seats know of the channel is the same, and so no more credits are out on it than in all.
    pub fn compare(&mut self, logs: &ChannelLogs, seat: &mut ChannelSeat)
        requires { AreOf logs.now self.old seat.old }
        ensures seat { seat.new ≡ seat.old }
        ensures front { self.new ≡ self.old }
        ensures agreed { IsLogOf self.old.logs seat.old.channel seat.old.log }
        ensures few { credits_of seat.old.log ≤ credits_out self.old.logs }
    {
        hand_over(logs, &mut self.seat, &mut seat.seat);
        compare_at(logs, &mut seat.seat);
        hand_over(logs, &mut seat.seat, &mut self.seat);
    }

    // Both seats note an entry of the channel.
    fn note<W: Standing>(&mut self, logs: &ChannelLogs, seat: &mut ChannelSeat, entry: LogEntry)
        requires tables { AreOf logs.now self.old seat.old }
        requires follows { MayFollow seat.old.log entry }
        ensures { IsNoted (note_of entry W.waits) self.old seat.old self.new seat.new }
    {
        hand_over(logs, &mut self.seat, &mut seat.seat);
        note_at::<W>(logs, &mut seat.seat, &entry);
        hand_over(logs, &mut seat.seat, &mut self.seat);
    }

    /// Notes that the channel was given a write, whose number is above those of its writes so far.
    pub fn write<W: Standing>(
        &mut self,
        logs: &ChannelLogs,
        seat: &mut ChannelSeat,
        write: Numbered,
    )
        requires tables { AreOf logs.now self.old seat.old }
        requires number { AreBefore write.number (log_tells seat.old.log).written }
        ensures noted { IsNoted (note_of (Wrote write) W.waits) self.old seat.old
            self.new seat.new }
        ensures told { log_tells seat.new.log ≡ record (log_tells seat.old.log) {
          written = (log_tells seat.old.log).written ++ write ∷ [];
          waits = W.waits;
        } }
        ensures out { credits_out self.new.logs + credits_of seat.old.log
            ≡ credits_out self.old.logs + length W.waits.writes }
    {
        self.note::<W>(logs, seat, LogEntry::Wrote(write));
    }

    /// Notes what waits on the channel, and nothing else.
    pub fn look<W: Standing>(&mut self, logs: &ChannelLogs, seat: &mut ChannelSeat)
        requires { AreOf logs.now self.old seat.old }
        ensures noted { IsNoted (note_of Looked W.waits) self.old seat.old self.new seat.new }
        ensures told { log_tells seat.new.log ≡ record (log_tells seat.old.log) {
          waits = W.waits;
        } }
        ensures out { credits_out self.new.logs + credits_of seat.old.log
            ≡ credits_out self.old.logs + length W.waits.writes }
    {
        self.note::<W>(logs, seat, LogEntry::Looked);
    }

    /// Notes that the channel's writes from a number on are held back from its array.
    pub fn hold_from<W: Standing>(
        &mut self,
        logs: &ChannelLogs,
        seat: &mut ChannelSeat,
        number: u64,
    )
        requires { AreOf logs.now self.old seat.old }
        ensures noted { IsNoted (note_of (HeldFrom number) W.waits) self.old seat.old
            self.new seat.new }
        ensures told { log_tells seat.new.log ≡ record (log_tells seat.old.log) {
          hold = Some number;
          waits = W.waits;
        } }
        ensures out { credits_out self.new.logs + credits_of seat.old.log
            ≡ credits_out self.old.logs + length W.waits.writes }
    {
        self.note::<W>(logs, seat, LogEntry::HeldFrom(number));
    }

    /// Notes that no write of the channel is held back any more.
    pub fn release<W: Standing>(&mut self, logs: &ChannelLogs, seat: &mut ChannelSeat)
        requires { AreOf logs.now self.old seat.old }
        ensures noted { IsNoted (note_of Released W.waits) self.old seat.old
            self.new seat.new }
        ensures told { log_tells seat.new.log ≡ record (log_tells seat.old.log) {
          hold = None;
          waits = W.waits;
        } }
        ensures out { credits_out self.new.logs + credits_of seat.old.log
            ≡ credits_out self.old.logs + length W.waits.writes }
    {
        self.note::<W>(logs, seat, LogEntry::Released);
    }

    /// Notes at the channel that the life has ended.
    pub fn end<W: Standing>(&mut self, logs: &ChannelLogs, seat: &mut ChannelSeat)
        requires { AreOf logs.now self.old seat.old }
        ensures noted { IsNoted (note_of Ended W.waits) self.old seat.old self.new seat.new }
        ensures told { log_tells seat.new.log ≡ record (log_tells seat.old.log) {
          ended = true;
          waits = W.waits;
        } }
        ensures out { credits_out self.new.logs + credits_of seat.old.log
            ≡ credits_out self.old.logs + length W.waits.writes }
    {
        self.note::<W>(logs, seat, LogEntry::Ended);
    }
}

impl ChannelSeat {
    /// What is true of each log: its numbers rise, so that none is given twice.
    pub fn always(&self)
        ensures { AllPairs (λ v w. v.number < w.number) (log_tells self.now.log).written }
    {
        // a log keeps it by the invariant of its seat, so there is nothing to do
        let _ = &self.seat;
    }
}
