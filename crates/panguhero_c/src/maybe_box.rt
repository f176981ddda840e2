// The box of a module as its pointer, which C holds.
ghost use Rattle.std.specs.Prelude.{◌≡◌, ◌≢◌, Option, Some, None};
ghost use Rattle.std.specs.declared.alloc.Global.{Global};
ghost use Rattle.panguhero_c.specs.declared.opened.OpenModule.{OpenModule};

use crate::opened::OpenModule;
use std::alloc::{Allocator, Global};
use std::marker::Model;

/// The box of a module as its pointer, or a null pointer where there is none.
#[repr(C)]
#[derive(Drop)]
pub struct MaybeBox {
    at: *mut u8,
    ghost alloc: { Global },
    ghost value: { Option OpenModule },
}

impl Model for MaybeBox {
    ghost use Rattle.panguhero_c.specs.MaybeBox.{box_owns_if};
    ghost use Rattle.panguhero_c.specs.contracts.opened.OpenModule.{the_row};
    ghost use Rattle.panguhero_c.specs.declared.opened.OpenModule.{OpenModule};

    ghost also_owns = { λ p. box_owns_if (⟦<Global as Allocator>⟧.dealloc_token p.alloc) the_row p.at p.value };
}

impl MaybeBox {
    /// No box.
    pub(crate) fn none(alloc: Global) -> MaybeBox
        ensures { result.value ≡ None }
    {
        MaybeBox {
            at: std::ptr::null_mut(),
        }
    }

    /// A box as its pointer.
    pub(crate) fn of(opened: Box<OpenModule>) -> MaybeBox
        ensures { result.value ≡ Some opened.value }
    {
        MaybeBox {
            at: Box::into_raw(opened) as *mut u8,
        }
    }

    /// The box again.
    pub(crate) fn into_box(self, alloc: Global) -> Box<OpenModule>
        requires { self.value ≢ None }
        ensures { Some result.value ≡ self.value }
    {
        let MaybeBox { at } = self;
        unsafe { Box::from_raw(alloc, at as *mut OpenModule) }
    }
}
