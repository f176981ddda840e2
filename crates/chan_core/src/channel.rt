// One channel.
ghost use Rattle.std.specs.Prelude.{◌≡◌, ◌≢◌, ℕ, ◌<◌, ◌≤◌, ◌^◌, ◌↔◌, ◌++◌, [], Some, None, IfOk, IfSome, IfNone, IsTrue, OnErr, count_by, length, nat_lt, slice_get};
ghost use Rattle.line_memory.specs.Memory.{zero_lines};
ghost use Rattle.wpq_core.specs.Writes.{ComeBefore};
ghost use Rattle.interleave_map.specs.Cells.{cells_of};
ghost use Rattle.chan_core.specs.State.{channel_memory, clock_of, last_commands, new_channel, stored_at};
ghost use Rattle.chan_core.specs.Mapped.{IsPlaceOn, LiesOn};
ghost use Rattle.chan_core.specs.Calls.{HasNothingToSend, IsFullOfReads, IsFullOfWrites, KeepsBelow, IssuesChoice, IssuesChoices, WritesAt, after_commands, loaded_at};
ghost use Rattle.chan_core.specs.declared.phase.Phase.TheVariants.{Stepping};
ghost use Rattle.chan_core.specs.Always.{IsChannel};

use crate::channel_memory::ChannelMemory;
use crate::phase::Phase;
use bank_core::banks::Banks;
use channel_port::Done;
use circular_buffer::HeapCircularBuffer;
use ddr4_timing::command::Stamped;
use ddr4_timing::place::Place;
use ddr4_timing::timing::Checked;
use frfcfs::next::next_command;
use frfcfs::queue::Queue;
use gap_list::GapList;
use interleave_map::cells::{cell_of, cells, line_count};
use interleave_map::line_map::LineMap;
use kept_trace::KeptTrace;
use line_memory::{Line, zero_memory};
use std::alloc::{AllocError, Global};
use std::marker::Model;
use wpq_core::Wpq;

/// How many of the last commands a channel remembers.
pub const RECENT: usize = 64;

/// One channel: its array of lines, its write queue and its reads, its banks and its clock.
///
/// Contracts see it as a `ChannelState` (`specs/State.antt`); `channel_memory` of it is its lines after all accepted writes.
/// What is true of every channel is `IsChannel` (`specs/Always.antt`), which `always` tells. The list of all its commands takes
/// no bytes, unless it is to be kept.
#[derive(Drop)]
pub struct Channel {
    pub(crate) banks: Banks,
    pub(crate) clock: u64,
    pub(crate) recent: HeapCircularBuffer<Stamped>,
    pub(crate) memory: ChannelMemory,
}

impl Model for Channel {
    ghost use Rattle.chan_core.specs.State.{ChannelState};

    ghost Value = { ChannelState };

    ghost use Rattle.chan_core.specs.Running.{IsRunning};

    ghost view = { λ c. c.memory };

    ghost invariant = { IsRunning };
}

impl Channel {
    /// A channel of zero lines, before any command, at clock 0. `channel` is its number in the geometry, `depth` how many
    /// writes may be pending and `reads` how many reads may be pending or not collected. It refuses only where there is no
    /// memory; no later call but `work_many` takes any.
    pub fn new(
        alloc: Global,
        checked: &Checked,
        channel: u64,
        depth: usize,
        reads: usize,
    ) -> Result<Channel, AllocError>
        requires depth { (1 ≤ depth) × (depth ≤ 64) }
        requires reads { reads ≤ 64 }
        ensures { IfOk result (λ new.
            new ≡ new_channel checked.now channel (zero_lines (cells_of checked.now.geometry))
            depth reads) }
    {
        let array = zero_memory(alloc, cells(checked))?;
        Ok(Channel {
            banks: Banks::new(checked),
            clock: 0,
            recent: HeapCircularBuffer::with_capacity(alloc, RECENT)?,
            memory: ChannelMemory {
                checked: *checked,
                channel,
                array,
                queue: Wpq::with_depth(alloc, depth)?,
                waiting: Queue::with_room(alloc, depth + reads)?,
                reads: GapList::with_room(alloc, reads)?,
                most_reads: reads,
                serial: 0,
                hold: None,
                issued: KeptTrace::new(),
                phase: Phase::Running,
            },
        })
    }

    /// Keeps all commands, so that `commands` gives them; none was issued yet. From now on a command takes memory. Where there is
    /// none for it, it goes all the same, and the commands are kept no longer.
    pub fn keep_commands(&mut self, alloc: Global)
        requires { self.old.commands ≡ [] }
        ensures { self.new ≡ self.old }
    {
        self.memory.keep_commands(alloc);
    }

    /// All commands that it has issued, the oldest first; None where they aren't kept, or memory gave out.
    pub fn commands(&self) -> Option<&[Stamped]>
        ensures { IfSome result (λ commands. commands.now ≡ self.now.commands) }
    {
        self.memory.issued.kept()
    }

    /// What is true of every channel. It has no code.
    pub fn always(&self)
        ensures { IsChannel self.now }
    {
        // called for its contract: the writes that wait are in the order of their numbers
        let _order = self.memory.waiting.requests();
    }

    /// Who has issued the channel's commands: what is known of its refreshes.
    pub fn phase(&self) -> Phase
        ensures { result ≡ self.now.phase }
    {
        self.memory.phase
    }

    /// The profile that it was made with.
    pub fn checked(&self) -> &Checked
        ensures { result.now ≡ self.now.checked }
    {
        &self.memory.checked
    }

    /// The clock of its last command, in clocks from its beginning; 0 where there was none. It is below 2^63.
    pub fn clock(&self) -> u64
        ensures is { result ≡ clock_of self.now }
        ensures early { result < 2 ^ 63 }
    {
        self.clock
    }

    /// Its number in the geometry.
    pub fn number(&self) -> u64
        ensures { result ≡ self.now.channel }
    {
        self.memory.channel
    }

    /// How many writes are pending, from 0 to its depth.
    pub fn pending(&self) -> usize
        ensures { result ≡ length self.now.writes }
    {
        self.memory.queue.len()
    }

    /// Whether `put` would refuse: whether as many writes are pending as its depth.
    pub fn is_full(&self) -> bool
        ensures { IsTrue result ↔ IsFullOfWrites self.now }
    {
        self.memory.queue.is_full()
    }

    /// How many reads wait or were answered and not collected.
    pub fn open_reads(&self) -> usize
        ensures { result ≡ length self.now.tickets }
    {
        self.memory.reads.len()
    }

    /// Whether `get` would refuse: whether as many reads as may be are pending or not collected.
    pub fn is_full_of_reads(&self) -> bool
        ensures { IsTrue result ↔ IsFullOfReads self.now }
    {
        self.open_reads() == self.memory.most_reads
    }

    /// Whether a line lies on this channel. In constant time, as far as the map's own computation is.
    pub fn has_line<M: LineMap>(&self, map: &M, line: u64) -> bool
        requires lawful { M.is_lawful map.now }
        requires geometry { M.geometry_of map.now ≡ self.now.checked.geometry }
        ensures { IsTrue result ↔ LiesOn (M.place_of map.now) self.now line }
    {
        line < line_count(&self.memory.checked) && map.place(line).channel == self.memory.channel
    }

    /// Whether nothing waits: no write is pending, and each read that was accepted has its answer.
    pub fn is_quiet(&self) -> bool
        ensures { IsTrue result ↔ (self.now.requests ≡ []) }
    {
        self.memory.waiting.requests().is_empty()
    }

    /// Sets a line of the array; it asks that nothing waits.
    pub fn load<M: LineMap>(&mut self, map: &M, line: u64, bytes: Line)
        requires lawful { M.is_lawful map.now }
        requires geometry { M.geometry_of map.now ≡ self.old.checked.geometry }
        requires line { LiesOn (M.place_of map.now) self.old line }
        requires quiet { self.old.requests ≡ [] }
        ensures loaded { self.new ≡ loaded_at self.old (M.place_of map.now line) bytes }
        ensures memory { WritesAt self.old (M.place_of map.now line) bytes self.new }
    {
        map.interleaves();
        self.load_at(map.place(line), bytes);
    }

    /// Sets the line at a place of this channel; it asks that nothing waits.
    pub fn load_at(&mut self, place: Place, bytes: Line)
        requires place { IsPlaceOn self.old place }
        requires quiet { self.old.requests ≡ [] }
        ensures loaded { self.new ≡ loaded_at self.old place bytes }
        ensures memory { WritesAt self.old place bytes self.new }
    {
        let cell = cell_of(&self.memory.checked, &place);
        self.memory.array[cell] = bytes;
    }

    /// A line of the array, without the writes that are pending.
    pub fn stored<M: LineMap>(&self, map: &M, line: u64) -> Line
        requires lawful { M.is_lawful map.now }
        requires geometry { M.geometry_of map.now ≡ self.now.checked.geometry }
        requires line { LiesOn (M.place_of map.now) self.now line }
        ensures { result ≡ stored_at self.now (M.place_of map.now line) }
    {
        map.interleaves();
        self.stored_at(map.place(line))
    }

    /// The line at a place of this channel in the array, without the writes that are pending.
    pub fn stored_at(&self, place: Place) -> Line
        requires { IsPlaceOn self.now place }
        ensures { result ≡ stored_at self.now place }
    {
        self.memory.array[cell_of(&self.memory.checked, &place)]
    }

    /// How many pending writes have a number below the limit. It costs the number of pending writes.
    pub fn below(&self, limit: u64) -> usize
        ensures { result ≡ count_by (λ w. nat_lt w.number limit) self.now.writes }
    {
        self.memory.queue.below(limit)
    }

    /// The least number that a further write may have; None where a pending write has the greatest number that there is.
    pub fn next_number(&self) -> Option<u64>
        ensures free { IfSome result (λ n. (m : ℕ) → (ComeBefore m self.now.writes ↔ (n ≤ m))) }
        ensures none { IfNone result ((m : ℕ) → ComeBefore m self.now.writes → 2 ^ 64 ≤ m) }
    {
        self.memory.queue.next_number()
    }

    /// Whether a further write may have this number: whether those of all pending ones are smaller.
    pub fn may_take(&self, number: u64) -> bool
        ensures { IsTrue result ↔ ComeBefore number self.now.writes }
    {
        self.memory.queue.may_take(number)
    }

    /// The i-th of the last 64 commands, oldest first; None past their end.
    pub fn recent(&self, i: usize) -> Option<Stamped>
        ensures { result ≡ slice_get (last_commands self.now.commands) i }
    {
        self.recent.get(i).copied()
    }

    /// Goes to the first clock from now on at which the first-ready, first-come-first-served choice has a candidate (Rixner
    /// and others, "Memory Access Scheduling", ISCA 2000), and issues it there. A WR takes its write to the array, a RD
    /// answers its read. So the memory stays what it was, that below a hold too, and an open read has the bytes that it was to
    /// have.
    ///
    /// None, and nothing changes, exactly where no request is eligible and no rank is in lead at the present clock, where
    /// every rank had its SRE, and from clock 2^62 on; while single commands are issued that isn't promised. It takes no
    /// memory but for commands that are kept, and costs the number of pending requests.
    pub fn work(&mut self) -> Option<Done>
        ensures none { self.old.phase ≢ Stepping → ((result ≡ None) ↔ HasNothingToSend self.old) }
        ensures stays { IfNone result (self.new ≡ self.old) }
        ensures issues { IfSome result (λ done. IssuesChoice self.old done self.new) }
        ensures memory { channel_memory self.new ≡ channel_memory self.old }
        ensures below { KeepsBelow self.old self.new }
        ensures rest { self.new ≡ after_commands self.old self.new }
    {
        let next = next_command(&self.banks, &self.memory.waiting, self.clock)?;
        let command = Stamped {
            clock: next.clock,
            cmd: next.cmd,
        };
        self.banks.issue(command.cmd, command.clock);
        let served = self.memory.issue(next.serves, command);
        self.clock = command.clock;
        self.recent.push_back(command);
        Some(Done { command, served })
    }

    /// Works up to n times, until there is nothing to do: the commands in their order. It refuses only where there is no
    /// memory for n of them; nothing has changed then.
    pub fn work_many(&mut self, alloc: Global, n: usize) -> Result<Vec<Stamped>, AllocError>
        ensures issues { IfOk result (λ commands. IssuesChoices self.old commands.items self.new) }
        ensures commands { IfOk result (λ commands.
            self.new.commands ≡ self.old.commands ++ commands.items) }
        ensures memory { channel_memory self.new ≡ channel_memory self.old }
        ensures below { KeepsBelow self.old self.new }
        ensures most { IfOk result (λ commands. length commands.items ≤ n) }
        ensures ended { IfOk result (λ commands. length commands.items < n →
            self.old.phase ≢ Stepping → HasNothingToSend self.new) }
        ensures rest { self.new ≡ after_commands self.old self.new }
        ensures same { OnErr result (self.new ≡ self.old) }
    {
        let mut commands = Vec::with_capacity(alloc, n)?;
        for _turn in 0..n {
            match self.work() {
                Some(done) => commands.push_reserved(done.command),
                None => return Ok(commands),
            }
        }
        Ok(commands)
    }
}
