// Queues of the same requests.
ghost use Rattle.std.specs.Prelude.{◌≡◌, IfOk};

use crate::queue::Queue;
use std::alloc::{AllocError, Global};

impl Queue {
    /// A queue of the same requests, with room for as many. It refuses only where there is no memory for them.
    pub fn copy(&self, alloc: Global) -> Result<Queue, AllocError>
        ensures { IfOk result (λ copy. copy ≡ self.now) }
    {
        Ok(Queue {
            pending: self.pending.copy(alloc)?,
            keys: self.keys.copy(alloc)?,
            counts: self.counts,
            book: self.book,
            next: self.next,
        })
    }
}
