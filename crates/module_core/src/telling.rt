// What a module tells of single writes.
ghost use Rattle.std.specs.Prelude.{◌≡◌, ◌<◌, ◌↔◌, IfOk, IfSome, OnErr};
ghost use Rattle.std.specs.Option.{IsSome};
ghost use Rattle.notice_book.specs.Told.{persisted_at};

use crate::Module;
use channel_port::ChannelPort;
use notice_book::{Called, Notices, Persisted};
use std::alloc::{AllocError, Global};

impl<K: ChannelPort> Module<K> {
    /// Whether a write is persistent: exactly those with a number below the mark are. It tells the mark.
    pub fn persisted(&self, number: u64) -> Option<Persisted>
        ensures some { IsSome result ↔ (number < self.now.front.persisted) }
        ensures told { IfSome result (λ told. told ≡ persisted_at number self.now.front.persisted) }
    {
        if number >= self.front.persisted {
            return None;
        }
        Some(Persisted {
            number,
            mark: self.front.persisted,
        })
    }

    /// Delivers a book's notices at the module's mark: those with a number below it are called, each once and in rising
    /// order, and the others stay. It refuses only where there is no memory for the answers: then none was called.
    pub fn notify<N: Notices>(&self, alloc: Global, book: &mut N) -> Result<Vec<Called>, AllocError>
        ensures delivered { IfOk result (λ answers.
            N.delivers self.now.front.persisted book.old answers.items book.new) }
        ensures same { OnErr result (book.new ≡ book.old) }
    {
        book.deliver_below(alloc, self.front.persisted)
    }
}
