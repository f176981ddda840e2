// What C holds of a module.
ghost use Rattle.std.specs.Prelude.{◌≡◌, ◌≢◌, ◌↔◌, Some, None, IsSome, IsTrue, false};
ghost use Rattle.std.specs.Option.{option_map};
ghost use Rattle.panguhero_c.specs.declared.handle.TheConstants.{OPEN};

use crate::maybe_box::MaybeBox;
use crate::opened::OpenModule;
use std::alloc::Global;
use std::mem::replace;

/// What stands in a handle that is open. Any other number is that of a closed one.
const OPEN: u64 = 0x6f70_656e_2121_2121;

/// A handle, as C holds it: closed, or open with the box of a module. Zero bytes are a closed one.
#[repr(C)]
#[derive(Drop)]
pub struct Handle {
    state: u64,
    pub(crate) boxed: MaybeBox,
    ghost open: { (state ≡ OPEN) ↔ (IsSome boxed.value) },
    ghost closed: { (state ≢ OPEN) ↔ (boxed.value ≡ None) },
}

// A handle with no module.
fn closed(alloc: Global) -> Handle
    ensures { result.boxed.value ≡ None }
{
    Handle {
        state: 0,
        boxed: MaybeBox::none(alloc),
    }
}

// A handle with this module.
fn opened(given: Box<OpenModule>) -> Handle
    ensures { result.boxed.value ≡ Some given.value }
{
    Handle {
        state: OPEN,
        boxed: MaybeBox::of(given),
    }
}

impl Handle {
    /// Is there a module?
    pub(crate) fn is_open(&self) -> bool
        ensures is { (IsTrue result) ↔ (self.now.boxed.value ≢ None) }
        ensures closed { result ≡ false → self.now.boxed.value ≡ None }
    {
        self.state == OPEN
    }

    /// Takes the module out, if there is one, and leaves the handle closed.
    pub(crate) fn take(&mut self, alloc: Global) -> Option<Box<OpenModule>>
        ensures taken { option_map (λ taken. taken.value) result ≡ self.old.boxed.value }
        ensures closed { self.new.boxed.value ≡ None }
    {
        if self.state != OPEN {
            return None;
        }
        let Handle { boxed, .. } = replace(self, closed(alloc));
        Some(boxed.into_box(alloc))
    }

    /// Puts a module in.
    pub(crate) fn put(&mut self, given: Box<OpenModule>)
        ensures { self.new.boxed.value ≡ Some given.value }
    {
        *self = opened(given);
    }
}
