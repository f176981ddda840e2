// A book as the crates above take it.
ghost use Rattle.std.specs.Prelude.{◌≡◌, ℕ, List, IfErr, IfOk, OnErr, OnOk};
ghost use Rattle.notice_book.specs.declared.book.InsertRefusal.{InsertRefusal};
ghost use Rattle.notice_book.specs.declared.entry.Called.{Called};
ghost use Rattle.notice_book.specs.Told.{IsCallableAbove};
ghost use Rattle.notice_book.specs.NoticeBooks.{Delivers, InsertsNotice, RefusesInsert, refused_notice};

use crate::book::{InsertRefusal, NoticeBook};
use crate::entry::{Called, Notice};
use std::alloc::{AllocError, Global};

/// What takes notices and delivers them. A crate above is generic in it, so that none of its functions names a boxed
/// callback. Its members are what a `NoticeBook` promises.
pub trait Notices {
    /// What is called once.
    type Notice;

    ghost is_callable: { ℕ → Self.Notice → Type 0 };

    ghost inserts: { ℕ → Self.Notice → Self → Self → Type 0 };

    ghost refuses: { ℕ → Self → InsertRefusal Self.Notice → Type 0 };

    ghost delivers: { ℕ → Self → List Called → Self → Type 0 };

    /// Puts a notice in, as `NoticeBook::insert`.
    fn insert_notice(
        &mut self,
        number: u64,
        notice: Self::Notice,
    ) -> Result<(), InsertRefusal<Self::Notice>>
        requires { is_callable number notice }
        ensures added { OnOk result (inserts number notice self.old self.new) }
        ensures refused { IfErr result (λ refusal. refuses number self.old refusal) }
        ensures back { IfErr result (λ refusal. refused_notice refusal ≡ notice) }
        ensures same { OnErr result (self.new ≡ self.old) };

    /// Calls the notices below the mark, as `NoticeBook::deliver`.
    fn deliver_below(&mut self, alloc: Global, mark: u64) -> Result<Vec<Called>, AllocError>
        ensures delivered { IfOk result (λ answers. delivers mark self.old answers.items self.new) }
        ensures same { OnErr result (self.new ≡ self.old) };
}

impl Notices for NoticeBook {
    type Notice = Notice;

    ghost is_callable = { λ number notice. IsCallableAbove (λ told. Notice.pre notice told) number };

    ghost inserts = { InsertsNotice };

    ghost refuses = { RefusesInsert };

    ghost delivers = { Delivers };

    fn insert_notice(&mut self, number: u64, notice: Notice) -> Result<(), InsertRefusal<Notice>> {
        self.insert(number, notice)
    }

    fn deliver_below(&mut self, alloc: Global, mark: u64) -> Result<Vec<Called>, AllocError> {
        self.deliver(alloc, mark)
    }
}
