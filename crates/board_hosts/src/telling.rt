// The notices of a book that is lent.
ghost use Rattle.std.specs.Prelude.{◌≡◌, ◌≤◌, IfOk, OnErr, OnOk};
ghost use Rattle.board_hosts.specs.Client.{delivered_at, seen_at};

use crate::board_name::BoardName;
use crate::host::Host;
use notice_book::{Called, Notices};
use std::alloc::{AllocError, Global};

impl<B: BoardName> Host<B> {
    /// Calls the notices of the book that is lent, those below a mark that the host loads anew, each once and in rising order, and
    /// gives the number and the answer of each. It refuses only where there is no memory for the answers: then none was called.
    pub fn deliver_in<N: Notices>(
        &mut self,
        alloc: Global,
        book: &mut N,
    ) -> Result<Vec<Called>, AllocError>
        ensures delivered { IfOk result (λ answers.
            N.delivers self.new.persisted book.old answers.items book.new) }
        ensures same { OnErr result (book.new ≡ book.old) }
        ensures rises { self.old.persisted ≤ self.new.persisted }
        ensures once { OnOk result (self.new ≡ delivered_at self.new.persisted self.old) }
        ensures none { OnErr result (self.new ≡ seen_at self.new.persisted self.old) }
    {
        let mark = self.mark();
        let called = book.deliver_below(alloc, mark)?;
        self.delivered.note(&mark);
        Ok(called)
    }
}
