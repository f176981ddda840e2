//! Values of which there can be a second one that clauses read as the first.
#![tactic(auto)]

ghost use Rattle.std.specs.Prelude.{◌≡◌, ◌≤◌, IfOk, vec_capacity};

use std::alloc::{AllocError, Global};

/// A value of which there can be a second one.
pub trait CopyValue {
    /// A second one that clauses read as this one. Refused only where there is no memory.
    fn copy(&self, alloc: Global) -> Result<Self, AllocError>
        ensures { IfOk result (λ copy. copy ≡ self.now) };
}

/// The same elements, with room for so many. Refused only where there is no memory.
pub fn copy_with_room<T: Copy>(
    alloc: Global,
    items: &[T],
    room: usize,
) -> Result<Vec<T>, AllocError>
    ensures items { IfOk result (λ copy. copy.items ≡ items.now) }
    ensures room { IfOk result (λ copy. room ≤ vec_capacity copy) }
{
    let mut copy = Vec::with_capacity(alloc, room)?;
    copy.extend_from_slice(items)?;
    Ok(copy)
}

/// A second one of each, in the same order. Refused only where there is no memory.
pub fn copy_each<T: CopyValue + Drop>(alloc: Global, values: &[T]) -> Result<Vec<T>, AllocError>
    ensures { IfOk result (λ copies. copies.items ≡ values.now) }
{
    let mut copies = Vec::with_capacity(alloc, values.len())?;
    for value in values {
        copies.push(value.copy(alloc)?)?;
    }
    Ok(copies)
}
