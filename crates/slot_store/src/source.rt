// What a save is made of.
ghost use Rattle.std.specs.Prelude.{◌≡◌, ℕ, ◌+◌, ◌*◌, ◌≤◌, List, length, Result};
ghost use Rattle.save_image.specs.Body.{page_of};
ghost use Rattle.slot_store.specs.declared.plan.Step.{Step};
ghost use Rattle.slot_store.specs.declared.source.Refused.{Refused};
ghost use Rattle.save_image.specs.declared.page.TheConstants.{PAGE_LINES};

use crate::Step;
use line_memory::Line;
use save_image::{PAGE_BYTES, page_bytes};
use thiserror::Error;

/// A step of a save was refused.
#[derive(Clone, Copy, Debug, PartialEq, Eq, Error)]
#[error("the step was refused")]
pub struct Refused;

/// What broke a save off.
#[derive(Clone, Copy, Debug, PartialEq, Eq, Error)]
pub enum BrokenOff {
    /// The coming step was refused.
    #[error("a step was refused")]
    Refused,
    /// The device failed in the coming step.
    #[error("the device failed")]
    Fault,
}

/// The memory that is saved, and who is asked before each step of the save.
pub trait SaveSource {
    /// The memory, which asking leaves as it is.
    ghost memory: { Self → List (List ℕ) };

    /// What asking for a step may answer, and what it makes of the source.
    ghost asks: { Self → Step → Result (Unit {0}) Refused → Self → Type 0 };

    /// Grants the step that is to be made next, or refuses it.
    fn ask(&mut self, step: Step) -> Result<(), Refused>
        ensures asked { asks self.old step result self.new }
        ensures same { memory self.new ≡ memory self.old };

    /// The bytes of a page of the memory, lent, or put together in `room`.
    fn page<'p>(&'p self, page: usize, room: &'p mut [u8; PAGE_BYTES]) -> &'p [u8; PAGE_BYTES]
        requires { PAGE_LINES * (page + 1) ≤ length (memory self.now) }
        ensures { result.now ≡ page_of page (memory self.now) };
}

/// Lines that stand still are a source that grants each step.
impl SaveSource for &[Line] {
    ghost use Rattle.slot_store.specs.Finishing.{GrantsEach};

    ghost memory = { λ lines. lines.now };

    ghost asks = { GrantsEach };

    fn ask(&mut self, _step: Step) -> Result<(), Refused> {
        Ok(())
    }

    fn page<'p>(&'p self, page: usize, _room: &'p mut [u8; PAGE_BYTES]) -> &'p [u8; PAGE_BYTES] {
        page_bytes(self, page)
    }
}
