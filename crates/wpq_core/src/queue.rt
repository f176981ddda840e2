// The queue, with its room reserved once.
ghost use Rattle.std.specs.Prelude.{◌≡◌, ℕ, ◌≤◌, ◌<◌, ◌^◌, ◌↔◌, [], length, nat_lt, count_by, IfErr, IfNone, IfOk, IfSome, IsOk, IsTrue, OnErr, OnOk};
ghost use Rattle.wpq_core.specs.Writes.{ComeBefore, IsNewest, IsPlaceOfWrite, NumbersRise, TakesWrite, pending_write};
ghost use Rattle.wpq_core.specs.Queue.{Queue, IsWriteQueue, PushesWrite};

use gap_list::GapList;
use line_memory::{Line, Write};
use std::alloc::{AllocError, Global};
use std::marker::Model;

/// A write that waits for its WR.
#[derive(Clone, Copy, Debug, PartialEq, Eq)]
pub struct PendingWrite {
    /// Its place among the accepted writes, from 0.
    pub number: u64,
    pub write: Write,
}

/// The queue has no room. The write comes back.
#[derive(Clone, Copy, Debug, PartialEq, Eq)]
pub struct QueueFull {
    pub refused: PendingWrite,
}

/// Pending writes in the order of their numbers, oldest first: at most `depth`, which is 1 to 64.
#[derive(Debug, Drop)]
pub struct Wpq {
    writes: GapList<PendingWrite>,
}

impl Model for Wpq {
    ghost Value = { Queue };

    ghost view = { λ q. record { depth = q.writes.most; writes = q.writes.items } };

    ghost invariant = { λ q. IsWriteQueue (record { depth = q.writes.most; writes = q.writes.items }) };
}

impl Wpq {
    /// A queue of no write, with room for `depth` of them, 1 to 64. It refuses only where there is no memory for them; no
    /// other call of a queue takes memory.
    pub fn with_depth(alloc: Global, depth: usize) -> Result<Wpq, AllocError>
        requires least { 1 ≤ depth }
        requires most { depth ≤ 64 }
        ensures empty { IfOk result (λ queue. queue ≡ record { depth = depth; writes = [] }) }
        ensures queue { IfOk result IsWriteQueue }
    {
        Ok(Wpq {
            writes: GapList::with_room(alloc, depth)?,
        })
    }

    /// A queue of the same writes, with room for as many. It refuses only where there is no memory for them.
    pub fn copy(&self, alloc: Global) -> Result<Wpq, AllocError>
        ensures { IfOk result (λ copy. copy ≡ self.now) }
    {
        Ok(Wpq {
            writes: self.writes.copy(alloc)?,
        })
    }

    /// How many writes are pending.
    pub fn len(&self) -> usize
        ensures { result ≡ length self.now.writes }
    {
        self.writes.len()
    }

    /// Whether none is pending.
    pub fn is_empty(&self) -> bool
        ensures { IsTrue result ↔ (self.now.writes ≡ []) }
    {
        self.writes().is_empty()
    }

    /// Whether `try_push` would refuse.
    pub fn is_full(&self) -> bool
        ensures { IsTrue result ↔ (length self.now.writes ≡ self.now.depth) }
    {
        self.writes.is_full()
    }

    /// The pending writes, oldest first.
    pub fn writes(&self) -> &[PendingWrite]
        ensures writes { result.now ≡ self.now.writes }
        ensures queue { IsWriteQueue self.now }
    {
        self.writes.as_slice()
    }

    /// The least number that a further write may have; None where a pending write has the greatest number that there is.
    pub fn next_number(&self) -> Option<u64>
        ensures free { IfSome result (λ n. (m : ℕ) → (ComeBefore m self.now.writes ↔ (n ≤ m))) }
        ensures none { IfNone result ((m : ℕ) → ComeBefore m self.now.writes → 2 ^ 64 ≤ m) }
    {
        match self.writes().last() {
            Some(newest) => newest.number.checked_add(1),
            None => Some(0),
        }
    }

    /// Whether a further write may have this number: whether those of all pending ones are smaller.
    pub fn may_take(&self, number: u64) -> bool
        ensures { IsTrue result ↔ ComeBefore number self.now.writes }
    {
        match self.writes().last() {
            Some(newest) => newest.number < number,
            None => true,
        }
    }

    /// How many pending writes have a number below the limit. It looks at each of them.
    pub fn below(&self, limit: u64) -> usize
        ensures { result ≡ count_by (λ pending. nat_lt pending.number limit) self.now.writes }
    {
        self.writes()
            .iter()
            .filter(|pending| pending.number < limit)
            .count()
    }

    /// The data of the newest pending write of a line; None exactly where none names the line. It looks at the pending
    /// writes from the newest on, up to that one.
    pub fn newest_for(&self, line: u64) -> Option<Line>
        ensures { IsNewest line self.now.writes result }
    {
        let place = self
            .writes()
            .iter()
            .rposition(|pending| pending.write.line == line)?;
        let newest = self.writes()[place];
        Some(newest.write.data)
    }

    /// Adds a write behind the others. Its number has to be above theirs. Refused, `QueueFull`, exactly where the queue holds
    /// its depth: the write comes back, and the queue is as it was. It takes no memory.
    pub fn try_push(&mut self, number: u64, line: u64, data: Line) -> Result<(), QueueFull>
        requires { ComeBefore number self.old.writes }
        ensures pushed { OnOk result (PushesWrite number line «data» self.old self.new) }
        ensures room { IsOk result ↔ (length self.old.writes < self.old.depth) }
        ensures refused { IfErr result (λ full. full.refused ≡ pending_write number line «data») }
        ensures same { OnErr result (self.new ≡ self.old) }
        ensures queue { IsWriteQueue self.new }
    {
        let pending = PendingWrite {
            number,
            write: Write { line, data },
        };
        if self.is_full() {
            return Err(QueueFull { refused: pending });
        }
        self.writes.push(pending);
        Ok(())
    }

    /// Takes the pending write of a number out and gives its data; None, and the queue stays, exactly where no pending
    /// write has the number. It finds it by halves, and moves those before it or those behind it, whichever are fewer.
    pub fn take(&mut self, number: u64) -> Option<Line>
        ensures depth { self.new.depth ≡ self.old.depth }
        ensures takes { TakesWrite number self.old.writes result self.new.writes }
        ensures queue { IsWriteQueue self.new }
    {
        let place = place_of(self.writes.as_slice(), number)?;
        Some(self.writes.take(place).write.data)
    }
}

// Where the write of a number stands, among writes whose numbers rise.
fn place_of(writes: &[PendingWrite], number: u64) -> Option<usize>
    requires { NumbersRise writes.now }
    ensures { IsPlaceOfWrite number writes.now result }
{
    let place = writes.partition_point(|pending| pending.number < number);
    let pending = writes.get(place)?;
    if pending.number == number {
        Some(place)
    } else {
        None
    }
}
