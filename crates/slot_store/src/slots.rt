// The two slots.
ghost use Rattle.std.specs.Prelude.{◌≡◌, ◌≤◌};
ghost use Rattle.slot_store.specs.Slots.{start_of, slot_size, device_size, other};
ghost use Rattle.slot_store.specs.declared.slots.TheConstants.{MOST_LINES};

use line_memory::LINE_BYTES;
use save_image::PAGE_BYTES;
use std::fmt;

/// The most lines of a memory that a slot has room for. It is a limit of the store, of this crate: an image's bytes set none.
pub const MOST_LINES: usize = 65_536;

/// One of the two places of an image.
#[derive(Clone, Copy, Debug, PartialEq, Eq)]
pub enum Slot {
    First,
    Second,
}

/// The bytes of a slot, for images of so many lines: a header page and the lines.
pub const fn slot_size(lines: usize) -> usize
    requires { lines ≤ MOST_LINES }
    ensures { result ≡ slot_size lines }
{
    PAGE_BYTES + LINE_BYTES * lines
}

/// The bytes of a device with two slots, for images of so many lines.
pub const fn device_size(lines: usize) -> usize
    requires { lines ≤ MOST_LINES }
    ensures { result ≡ device_size lines }
{
    2 * slot_size(lines)
}

impl Slot {
    /// Where its bytes begin, for images of so many lines.
    pub fn start(self, lines: usize) -> usize
        requires { lines ≤ MOST_LINES }
        ensures { result ≡ start_of lines self }
    {
        match self {
            Slot::First => 0,
            Slot::Second => slot_size(lines),
        }
    }

    /// The slot that the next save goes to where the newest image is in this one.
    pub fn other(self) -> Slot
        ensures { result ≡ other self }
    {
        match self {
            Slot::First => Slot::Second,
            Slot::Second => Slot::First,
        }
    }
}

// Its number.
impl fmt::Display for Slot {
    fn fmt<W: fmt::Write>(&self, f: &mut fmt::Formatter<W>) -> fmt::Result {
        match self {
            Slot::First => write!(f, "0"),
            Slot::Second => write!(f, "1"),
        }
    }
}
