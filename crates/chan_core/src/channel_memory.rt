// What a channel holds: its array, its pending writes, its open reads, and the list of its commands, which takes no bytes; and
// what a command does to it.
ghost use Rattle.std.specs.Prelude.{◌≡◌, ◌≢◌, ◌++◌, ◌∷◌, [], IfSome, Some, drop, length, slice_get, take};
ghost use Rattle.std.specs.List.{filter_map};
ghost use Rattle.line_memory.specs.declared.line.TheConstants.{LINE_BYTES};
ghost use Rattle.wpq_core.specs.Writes.{TakesWrite};
ghost use Rattle.wpq_core.specs.Queue as queues;
ghost use Rattle.wpq_core.specs.PendingMemory.{after_pending};
ghost use Rattle.frfcfs.specs.Next.{IsServable};
ghost use Rattle.chan_core.specs.State.{channel_memory, placed_write};
ghost use Rattle.chan_core.specs.Contents.{AreOldest, AreWhole, HasWriteNumbered, LeavesWrites};
ghost use Rattle.chan_core.specs.Singles.{FitsOldest, IssuesAlone, writes_by};
ghost use Rattle.chan_core.specs.declared.phase.Phase.TheVariants.{Running, Stepping};
ghost use Rattle.chan_core.specs.Phases.{TellsSleep};
ghost use Rattle.chan_core.specs.Calls.{KeepsBelow, LosesReads, ServesIndex, after_command, with_hold};

use crate::phase::Phase;
use crate::reads::{OpenRead, answer};
use channel_port::{Served, Ticket};
use ddr4_timing::command::{Command, Stamped};
use ddr4_timing::place::Place;
use ddr4_timing::timing::Checked;
use frfcfs::queue::Queue;
use gap_list::GapList;
use kept_trace::KeptTrace;
use line_memory::Line;
use request_notes::pending::{Kind, Pending};
use std::alloc::Global;
use std::marker::Model;
use wpq_core::Wpq;

#[derive(Drop)]
pub struct ChannelMemory {
    pub(crate) checked: Checked,
    pub(crate) channel: u64,
    pub(crate) array: Vec<Line>,
    pub(crate) queue: Wpq,
    pub(crate) waiting: Queue,
    pub(crate) reads: GapList<OpenRead>,
    pub(crate) most_reads: usize,
    // that of the next read that waits
    pub(crate) serial: u128,
    pub(crate) hold: Option<u64>,
    pub(crate) issued: KeptTrace<Stamped>,
    pub(crate) phase: Phase,
}

impl Model for ChannelMemory {
    ghost use Rattle.chan_core.specs.State.{ChannelState};

    ghost Value = { ChannelState };

    ghost use Rattle.chan_core.specs.Contents.{seen};
    ghost use Rattle.chan_core.specs.Inside.{contents_of, IsInside};

    ghost view = { λ m. seen (contents_of m) };

    ghost invariant = { IsInside };
}

impl ChannelMemory {
    /// Holds the writes from a number on, those that come later too; or none.
    pub(crate) fn set_hold(&mut self, from: Option<u64>)
        ensures { self.new ≡ with_hold self.old from }
    {
        self.waiting.hold(from);
        self.hold = from;
    }

    /// Keeps all commands, of which none was issued yet.
    pub(crate) fn keep_commands(&mut self, alloc: Global)
        requires { self.old.commands ≡ [] }
        ensures { self.new ≡ self.old }
    {
        self.issued.keep(alloc);
    }

    /// A command goes, and serves the request at an index, whose RD or WR it is: a write goes into the array, a read gets
    /// the bytes of its line there.
    pub(crate) fn issue(&mut self, index: Option<usize>, command: Stamped) -> Option<Served>
        requires { IfSome index (IsServable self.old.requests) }
        ensures same { self.new ≡ after_command self.old command self.new }
        ensures serves { ServesIndex index result self.old self.new }
        ensures memory { channel_memory self.new ≡ channel_memory self.old }
        ensures below { KeepsBelow self.old self.new }
    {
        self.issued.note(command);
        let Some(index) = index else {
            self.waiting.follow(&command.cmd);
            return None;
        };
        let request = self.waiting.requests()[index];
        self.waiting.take(index);
        match request.kind {
            Kind::Write => {
                let bytes = take_write(&mut self.queue, request.number);
                self.array[request.line as usize] = bytes;
                Some(Served::Write {
                    number: request.number,
                })
            }
            Kind::Read => {
                let bytes = self.array[request.line as usize];
                let serial = answer(&mut self.reads, request.seq, bytes);
                Some(Served::Read(Ticket {
                    channel: self.channel,
                    serial,
                }))
            }
        }
    }

    /// The scheduler's commands are at an end: all reads are lost.
    pub(crate) fn begin_steps(&mut self)
        requires { self.old.phase ≡ Running }
        ensures { LosesReads (record self.old { phase = Stepping }) self.new }
    {
        lose_reads(&mut self.reads, &mut self.waiting);
        self.phase = Phase::Stepping;
    }

    /// A single command goes: all reads are lost, and a WR takes the oldest write to the array, held or not.
    pub(crate) fn issue_alone(&mut self, command: Stamped, phase: Phase)
        requires oldest { FitsOldest self.old command.cmd }
        requires single { phase ≢ Running }
        requires asleep { TellsSleep phase self.old.checked (self.old.commands ++ command ∷ []) }
        ensures issues { IssuesAlone self.old command self.new }
        ensures memory { channel_memory self.new ≡ channel_memory self.old }
    {
        lose_reads(&mut self.reads, &mut self.waiting);
        store_by(
            command.cmd,
            &mut self.array,
            &mut self.queue,
            &mut self.waiting,
        );
        self.issued.note(command);
        self.phase = phase;
    }
}

/// The number and the place of the first write among requests.
pub(crate) fn oldest_write(requests: &[Pending]) -> Option<(u64, Place)>
    ensures { result ≡ slice_get (filter_map placed_write requests.now) 0 }
{
    for p in requests {
        if p.kind == Kind::Write {
            return Some((p.number, p.place));
        }
    }
    None
}

// Loses all reads. Where none is open nothing is done.
fn lose_reads(reads: &mut GapList<OpenRead>, waiting: &mut Queue)
    ensures none { reads.new.items ≡ [] }
    ensures most { reads.new.most ≡ reads.old.most }
    ensures waiting { LeavesWrites reads.old.items waiting.old waiting.new }
{
    if reads.as_slice().is_empty() {
        return;
    }
    reads.clear();
    waiting.keep_writes();
}

// Takes a write out that is there.
fn take_write(queue: &mut Wpq, number: u64) -> Line
    requires { HasWriteNumbered number queue.old.writes }
    ensures depth { queue.new.depth ≡ queue.old.depth }
    ensures takes { TakesWrite number queue.old.writes (Some result) queue.new.writes }
    ensures size { length result ≡ LINE_BYTES }
    ensures queue { queues.IsWriteQueue queue.new }
{
    let Some(bytes) = queue.take(number) else {
        unreachable!();
    };
    bytes
}

// The write of a single command goes to the array: the oldest one, where the command is a WR.
fn store_by(cmd: Command, array: &mut [Line], queue: &mut Wpq, waiting: &mut Queue)
    requires queue { queues.IsWriteQueue queue.old }
    requires oldest { writes_by cmd ≡ 1
        → AreOldest (length array.old) queue.old.writes waiting.old.requests }
    ensures array { array.new ≡ after_pending array.old (take (writes_by cmd) queue.old.writes) }
    ensures whole { AreWhole array.old → AreWhole array.new }
    ensures queue { queue.new
        ≡ record queue.old { writes = drop (writes_by cmd) queue.old.writes } }
    ensures waiting { waiting.new
        ≡ record waiting.old { requests = drop (writes_by cmd) waiting.old.requests } }
{
    if let Command::Wr { .. } = cmd {
        let oldest = waiting.take(0);
        let bytes = take_write(queue, oldest.number);
        array[oldest.line as usize] = bytes;
    }
}
