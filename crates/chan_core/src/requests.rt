// The requests of a channel: its writes, its reads, and the writes that stay out of its array for now.
ghost use Rattle.std.specs.Prelude.{◌≡◌, ◌<◌, ◌↔◌, IfErr, IsOk, OnOk, OnErr, Some, None, length};
ghost use Rattle.wpq_core.specs.Writes.{ComeBefore, pending_write};
ghost use Rattle.chan_core.specs.Calls.{AddsWrite, AnswersCollect, AnswersGet, WritesAt, after_get, after_put, with_hold};
ghost use Rattle.chan_core.specs.Mapped.{IsPlaceOn, LiesOn};

use crate::channel::Channel;
use crate::reads::{OpenRead, ReadsFull, index_of_serial};
use channel_port::{Collected, Got, Ticket};
use ddr4_timing::place::Place;
use frfcfs::queue::is_held;
use interleave_map::cells::cell_of;
use interleave_map::line_map::LineMap;
use line_memory::{Line, Write};
use request_notes::pending::Kind;
use wpq_core::{PendingWrite, QueueFull};

impl Channel {
    /// Accepts a write of a line of this channel, with a number above those of all pending ones. The memory has it from now
    /// on; the array has it once its WR was issued. Refused, `QueueFull`, exactly where the queue holds its depth: the write comes
    /// back, and nothing changes. It costs the number of pending requests.
    pub fn put<M: LineMap>(
        &mut self,
        map: &M,
        number: u64,
        line: u64,
        bytes: Line,
    ) -> Result<(), QueueFull>
        requires lawful { M.is_lawful map.now }
        requires geometry { M.geometry_of map.now ≡ self.old.checked.geometry }
        requires line { LiesOn (M.place_of map.now) self.old line }
        requires above { ComeBefore number self.old.writes }
        ensures adds { OnOk result
            (AddsWrite self.old number (M.place_of map.now line) bytes self.new) }
        ensures memory { OnOk result (WritesAt self.old (M.place_of map.now line) bytes self.new) }
        ensures room { IsOk result ↔ (length self.old.writes < self.old.depth) }
        ensures refused { IfErr result (λ full. full.refused ≡ pending_write number line bytes) }
        ensures same { OnErr result (self.new ≡ self.old) }
        ensures rest { self.new ≡ after_put self.old self.new }
    {
        map.interleaves();
        let write = Write { line, data: bytes };
        self.put_at(number, write, map.place(line))
    }

    /// Accepts a write at the place of its line, as `put` does.
    pub fn put_at(&mut self, number: u64, write: Write, place: Place) -> Result<(), QueueFull>
        requires place { IsPlaceOn self.old place }
        requires above { ComeBefore number self.old.writes }
        ensures adds { OnOk result (AddsWrite self.old number place write.«data» self.new) }
        ensures memory { OnOk result (WritesAt self.old place write.«data» self.new) }
        ensures room { IsOk result ↔ (length self.old.writes < self.old.depth) }
        ensures refused { IfErr result (λ full.
            full.refused ≡ record { number = number; write = write }) }
        ensures same { OnErr result (self.new ≡ self.old) }
        ensures rest { self.new ≡ after_put self.old self.new }
    {
        let cell = cell_of(&self.memory.checked, &place) as u64;
        let Ok(()) = self.memory.queue.try_push(number, cell, write.data) else {
            return Err(QueueFull {
                refused: PendingWrite { number, write },
            });
        };
        let held = is_held(self.memory.hold, Kind::Write, number);
        self.memory
            .waiting
            .push(place, cell, Kind::Write, number, held);
        Ok(())
    }

    /// Reads a line of this channel; `at` is how many writes were accepted before, and comes back with the data. Where a
    /// pending write names the line, its newest one's data is the answer, `Now`; else the read waits for its RD, `Later`.
    /// Either way it is the line of the memory after all writes accepted so far. Refused exactly where as many reads as may
    /// be are pending or not collected, whatever writes are pending: nothing changes then. It costs the number of pending
    /// requests.
    pub fn get<M: LineMap>(&mut self, map: &M, line: u64, at: u64) -> Result<Got, ReadsFull>
        requires lawful { M.is_lawful map.now }
        requires geometry { M.geometry_of map.now ≡ self.old.checked.geometry }
        requires line { LiesOn (M.place_of map.now) self.old line }
        ensures answers { AnswersGet self.old (M.place_of map.now line) line at result self.new }
        ensures rest { self.new ≡ after_get self.old self.new }
    {
        map.interleaves();
        self.get_at(line, map.place(line), at)
    }

    /// Reads a line at its place, as `get` does.
    pub fn get_at(&mut self, line: u64, place: Place, at: u64) -> Result<Got, ReadsFull>
        requires { IsPlaceOn self.old place }
        ensures answers { AnswersGet self.old place line at result self.new }
        ensures rest { self.new ≡ after_get self.old self.new }
    {
        if self.is_full_of_reads() {
            return Err(ReadsFull);
        }
        let cell = cell_of(&self.memory.checked, &place) as u64;
        match self.memory.queue.newest_for(cell) {
            Some(bytes) => Ok(Got::Now(bytes)),
            None => {
                let (serial, seq) = (self.memory.serial, self.memory.waiting.next());
                self.memory.waiting.push(place, cell, Kind::Read, at, false);
                self.memory.reads.push(OpenRead {
                    serial,
                    seq,
                    line,
                    cell,
                    at,
                    bytes: None,
                });
                self.memory.serial += 1;
                Ok(Got::Later(Ticket {
                    channel: self.memory.channel,
                    serial,
                }))
            }
        }
    }

    /// What there is for a ticket: the data of its read once it was answered, and the ticket is gone then; `Pending` exactly
    /// where the read waits; `Unknown` exactly for what is no ticket of this channel or was collected. It finds it by halves, and
    /// moves the open reads before it or those behind it, whichever are fewer.
    pub fn collect(&mut self, ticket: Ticket) -> Collected
        ensures answers { AnswersCollect self.old ticket result self.new.tickets }
        ensures rest { self.new ≡ record self.old { tickets = self.new.tickets } }
    {
        if ticket.channel != self.memory.channel {
            return Collected::Unknown;
        }
        let Some(index) = index_of_serial(self.memory.reads.as_slice(), ticket.serial) else {
            return Collected::Unknown;
        };
        let read = self.memory.reads.as_slice()[index];
        match read.bytes {
            Some(bytes) => {
                self.memory.reads.take(index);
                Collected::Data {
                    line: read.line,
                    bytes,
                    at: read.at,
                }
            }
            None => Collected::Pending,
        }
    }

    /// From now on no write with this number or a greater one goes to the array, those that come later too. It costs the
    /// number of pending requests.
    pub fn hold_from(&mut self, number: u64)
        ensures { self.new ≡ with_hold self.old (Some number) }
    {
        self.memory.set_hold(Some(number));
    }

    /// Ends a hold. It costs the number of pending requests.
    pub fn release(&mut self)
        ensures { self.new ≡ with_hold self.old None }
    {
        self.memory.set_hold(None);
    }
}
