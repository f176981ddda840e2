// A memory of a life, and the writes that it accepted since.
ghost use Rattle.std.specs.Prelude.{◌≡◌, ◌==◌, ◌+◌, ◌<◌, ◌≤◌, ◌++◌, [], ◌∷◌, ◌↔◌, length, take, if◌then◌else◌, IfOk, IfErr, IsTrue};
ghost use Rattle.line_memory.specs.Memory.{after, after_write, line_of, memory_at};
ghost use Rattle.line_memory.specs.History.{IsSeenAt, cut_at, recorded, write_at};

use crate::{Line, Write};
use std::alloc::{AllocError, Global};
use std::collections::VecDeque;
use std::marker::Model;

/// What is stored of a life: a memory, and the writes that it accepted since. It begins with the life's first memory, and each
/// cut moves it on. Contracts see the lines of the memory, the number of the first write that it lacks, the writes from that
/// one on, and how many of them there is room for.
#[derive(Drop)]
pub struct History {
    base: Vec<Line>,
    pub(crate) start: u64,
    pub(crate) writes: VecDeque<Write>,
    room: usize,
}

impl Model for History {
    ghost use Rattle.std.specs.Prelude.{◌≤◌};
    ghost use Rattle.std.specs.VecDeque.{deque_len, deque_capacity};
    ghost use Rattle.line_memory.specs.History.{Recorded, recorded};

    ghost Value = { Recorded };

    ghost view = { λ r. recorded r.base.items r.start r.writes.items r.room };

    ghost invariant = { λ r. (deque_len r.writes ≤ r.room) × (r.room ≤ deque_capacity r.writes) };
}

// A line of this memory after the first `count` of these writes.
fn line_at(base: &[Line], writes: &VecDeque<Write>, line: u64, count: usize) -> Line
    requires line { line < length base.now }
    requires count { count ≤ length writes.now.items }
    ensures { result ≡ line_of (after base.now (take count writes.now.items)) line }
{
    let mut value = base[line as usize];
    for write in writes.range(..count) {
        if write.line == line {
            value = write.data;
        }
    }
    value
}

// The line that a write names gets its data.
fn put(memory: &mut Vec<Line>, write: Write)
    ensures { memory.new.items ≡ after_write memory.old.items write }
{
    let Write { line, data } = write;
    if (line as usize) < memory.len() {
        memory[line as usize] = data;
    }
}

impl History {
    /// The record of a life that begins with this memory, and accepts its first write under the number `start`. It refuses
    /// only where there is no memory for `room` writes, and then gives the lines back.
    pub fn new(
        alloc: Global,
        base: Vec<Line>,
        start: u64,
        room: usize,
    ) -> Result<History, (Vec<Line>, AllocError)>
        ensures ok { IfOk result (λ history. history ≡ recorded base.items start [] room) }
        ensures err { IfErr result (λ e. e.0 ≡ base) }
    {
        match VecDeque::with_capacity(alloc, room) {
            Ok(writes) => Ok(History {
                base,
                start,
                writes,
                room,
            }),
            Err(error) => Err((base, error)),
        }
    }

    /// Takes a write behind those that were accepted. It takes no memory.
    pub fn push(&mut self, write: Write)
        requires { length self.old.writes < self.old.room }
        ensures { self.new ≡ record self.old { writes = self.old.writes ++ write ∷ [] } }
    {
        self.writes.push_back_reserved(write);
    }

    /// The writes with numbers below `at` go into the memory, in the order of their numbers: each is looked at once, and those
    /// that stay aren't moved. It takes no memory.
    pub fn cut(&mut self, at: u64)
        requires from { self.old.start ≤ at }
        requires all { at ≤ self.old.start + length self.old.writes }
        ensures { self.new ≡ cut_at at self.old }
    {
        for _number in self.start..at {
            let Some(write) = self.writes.pop_front() else {
                unreachable!()
            };
            put(&mut self.base, write);
        }
        self.start = at;
    }

    /// The stored write of a number; None where the record has none of it.
    pub fn accepted_write(&self, number: u64) -> Option<Write>
        ensures { result ≡ write_at self.now.start self.now.writes number }
    {
        if number < self.start {
            return None;
        }
        self.writes.get((number - self.start) as usize).copied()
    }

    /// Whether the record knows a line after the first `at` accepted writes: there is such a line, and the number is between
    /// that of the record's memory and all that were accepted.
    pub fn knows(&self, line: u64, at: u64) -> bool
        ensures { IsTrue result ↔ IsSeenAt self.now line at }
    {
        (line as usize) < self.base.len()
            && self.start <= at
            && (at - self.start) as usize <= self.writes.len()
    }

    /// A line of the memory after the first `at` accepted writes.
    pub fn value_of(&self, line: u64, at: u64) -> Line
        requires { IsSeenAt self.now line at }
        ensures { result ≡ line_of
            (memory_at self.now.base self.now.start self.now.writes at) line }
    {
        let count = (at - self.start) as usize;
        line_at(&self.base, &self.writes, line, count)
    }
}
