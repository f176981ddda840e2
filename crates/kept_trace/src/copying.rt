// Traces of the same values.
ghost use Rattle.std.specs.Prelude.{◌≡◌, IfOk};

use crate::KeptTrace;
use same_values::copy_with_room;
use std::alloc::{AllocError, Global};

impl<X: Copy> KeptTrace<X> {
    /// A trace of the same values, kept where this one is. It takes memory there alone, and refuses only where there is none.
    pub fn copy(&self, alloc: Global) -> Result<KeptTrace<X>, AllocError>
        ensures { IfOk result (λ copy. copy ≡ self.now) }
    {
        let noted = self.noted.copy();
        let Some(kept) = &self.kept else {
            return Ok(KeptTrace { noted, kept: None });
        };
        let kept = Some(copy_with_room(alloc, kept, kept.len())?);
        Ok(KeptTrace { noted, kept })
    }
}
