// What a record says of its writes.
ghost use Rattle.std.specs.Prelude.{◌≡◌};
ghost use Rattle.std.specs.VecDeque.Iter.{deque_iter_rest};

use crate::{History, Write};
use std::collections::vec_deque::Iter;

impl History {
    /// The number of the first stored write: that of the life's first one, or that of the last cut.
    pub fn start(&self) -> u64
        ensures { result ≡ self.now.start }
    {
        self.start
    }

    /// The stored writes, in the order of their numbers.
    pub fn writes(&self) -> Iter<'_, Write>
        ensures { deque_iter_rest result ≡ self.now.writes }
    {
        self.writes.iter()
    }
}
