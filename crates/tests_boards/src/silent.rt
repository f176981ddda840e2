// A book without room, for boards whose notices aren't asked for.
ghost use Rattle.std.specs.Prelude.{◌≡◌};

use notice_book::{Called, InsertRefusal, Notices};
use std::alloc::{AllocError, Global};

/// Takes no notice, and calls none.
#[derive(Drop)]
pub struct Silent;

impl Notices for Silent {
    type Notice = u64;

    ghost is_callable = { λ number notice. Unit {0} };

    ghost inserts = { λ number notice before after. Unit {0} };

    ghost refuses = { λ number book refusal. Unit {0} };

    ghost delivers = { λ mark before answers after. Unit {0} };

    fn insert_notice(&mut self, _number: u64, notice: u64) -> Result<(), InsertRefusal<u64>> {
        Err(InsertRefusal::Full(notice))
    }

    fn deliver_below(&mut self, alloc: Global, _mark: u64) -> Result<Vec<Called>, AllocError> {
        Ok(Vec::new(alloc))
    }
}
