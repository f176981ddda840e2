// Channels of the same value.
ghost use Rattle.std.specs.Prelude.{◌≡◌, IfOk};

use crate::channel::Channel;
use crate::channel_memory::ChannelMemory;
use circular_buffer::HeapCircularBuffer;
use ddr4_timing::command::Stamped;
use same_values::copy_with_room;
use std::alloc::{AllocError, Global};

impl ChannelMemory {
    /// The same contents. Refused only where there is no memory.
    pub(crate) fn copy(&self, alloc: Global) -> Result<ChannelMemory, AllocError>
        ensures { IfOk result (λ copy. copy ≡ self.now) }
    {
        let array = copy_with_room(alloc, &self.array, self.array.len())?;
        let reads = self.reads.copy(alloc)?;
        let queue = self.queue.copy(alloc)?;
        let waiting = self.waiting.copy(alloc)?;
        let issued = self.issued.copy(alloc)?;
        Ok(ChannelMemory {
            checked: self.checked,
            channel: self.channel,
            array,
            queue,
            waiting,
            reads,
            most_reads: self.most_reads,
            serial: self.serial,
            hold: self.hold,
            issued,
            phase: self.phase,
        })
    }
}

// The same commands, with the same capacity.
fn copy_of_recent(
    alloc: Global,
    recent: &HeapCircularBuffer<Stamped>,
) -> Result<HeapCircularBuffer<Stamped>, AllocError>
    ensures { IfOk result (λ copy. copy ≡ recent.now) }
{
    let commands = recent.to_vec(alloc)?;
    let mut copy = HeapCircularBuffer::with_capacity(alloc, recent.capacity())?;
    copy.fill_from_slice(&commands);
    Ok(copy)
}

impl Channel {
    /// A channel with the same lines, pending writes, open reads and commands, which are kept where they are kept here. Refused only
    /// where there is no memory.
    pub fn copy(&self, alloc: Global) -> Result<Channel, AllocError>
        ensures { IfOk result (λ copy. copy ≡ self.now) }
    {
        let recent = copy_of_recent(alloc, &self.recent)?;
        let memory = self.memory.copy(alloc)?;
        Ok(Channel {
            banks: self.banks,
            clock: self.clock,
            recent,
            memory,
        })
    }
}
