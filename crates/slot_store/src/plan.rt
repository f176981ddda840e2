// What a save is to do, and its steps.
ghost use Rattle.std.specs.Prelude.{◌≡◌, ◌+◌, ◌-◌, ◌<◌, ◌^◌};
ghost use Rattle.save_image.specs.Header.{Fits};
ghost use Rattle.slot_store.specs.Slots.{IsCapacity, other};

use crate::Slot;
use std::fmt;

/// One device call of a save.
#[derive(Clone, Copy, Debug, PartialEq, Eq)]
pub enum Step {
    /// Closes the gate of the slot, or syncs where it is known closed and settled.
    Close,
    SyncClosed,
    /// Writes this page of the body, from 0 on.
    Page(usize),
    /// Writes the header but for the gate, with the digest of the pages.
    Header,
    /// Makes the pages and the header durable.
    SyncBody,
    /// Opens the gate.
    Open,
    SyncOpen,
    /// No step is left; a further one only syncs.
    Done,
}

impl fmt::Display for Step {
    fn fmt<W: fmt::Write>(&self, f: &mut fmt::Formatter<W>) -> fmt::Result {
        match self {
            Step::Close => write!(f, "close"),
            Step::SyncClosed | Step::SyncBody | Step::SyncOpen | Step::Done => write!(f, "sync"),
            Step::Page(page) => write!(f, "page {page}"),
            Step::Header => write!(f, "header"),
            Step::Open => write!(f, "open"),
        }
    }
}

/// The newest image: where it lies, and its generation.
#[derive(Clone, Copy, Debug, PartialEq, Eq)]
pub struct Newest {
    pub slot: Slot,
    pub generation: u64,
}

impl Newest {
    /// The image that a save over this one makes the newest: in the other slot, of the next generation.
    pub fn next(self) -> Newest
        requires { self.generation < 2 ^ 64 - 1 }
        ensures slot { result.slot ≡ other self.slot }
        ensures generation { result.generation ≡ self.generation + 1 }
    {
        Newest {
            slot: self.slot.other(),
            generation: self.generation + 1,
        }
    }
}

/// What is saved but for its memory, and where.
#[derive(Clone, Copy, Debug, PartialEq, Eq)]
pub struct Plan {
    pub slot: Slot,
    pub generation: u64,
    /// The number of writes that the memory is after.
    pub count: u64,
    pub armed: bool,
    /// The slot's gate was known closed and settled when the save began.
    pub closed: bool,
    pub lines: usize,
    pub ghost capacity: { IsCapacity lines },
    pub ghost numbers: { Fits generation count },
}
