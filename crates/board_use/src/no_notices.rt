// A board without notices.
use notice_book::{Called, InsertRefusal, Notices};
use std::alloc::{AllocError, Global};

/// Takes no notice, and so calls none: hosts that wait are told by `await_persistent`. It takes no memory.
#[derive(Drop)]
pub struct NoNotices;

impl Notices for NoNotices {
    ghost use Rattle.std.specs.Prelude.{◌≡◌, ℕ, []};
    ghost use Rattle.notice_book.specs.declared.book.InsertRefusal.TheVariants.{Full};

    type Notice = u64;

    ghost is_callable = { λ number notice. Unit {0} };

    ghost inserts = { λ number notice before after. ⊥ };

    ghost refuses = { λ number book refusal. (notice : ℕ) × (refusal ≡ Full notice) };

    ghost delivers = { λ mark before answers after. (answers ≡ []) × (after ≡ before) };

    fn insert_notice(&mut self, _number: u64, notice: u64) -> Result<(), InsertRefusal<u64>> {
        Err(InsertRefusal::Full(notice))
    }

    fn deliver_below(&mut self, alloc: Global, _mark: u64) -> Result<Vec<Called>, AllocError> {
        Ok(Vec::new(alloc))
    }
}
