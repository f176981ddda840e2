// A history in parts, one a channel.
ghost use Rattle.std.specs.Prelude.{◌≡◌, ◌==◌, ◌+◌, ◌++◌, [], ◌∷◌, ℕ, List, length, if◌then◌else◌};
ghost use Rattle.line_memory.specs.declared.Write.{Write};
ghost use Rattle.line_memory.specs.Memory.{after, line_of, memory_at};
ghost use Rattle.line_memory.specs.Parts.{below, numbered, writes_of, written_on};

use crate::Write;

/// A write with its number, its place among all accepted writes.
#[derive(Clone, Copy, Debug, PartialEq, Eq)]
pub struct Numbered {
    pub number: u64,
    pub write: Write,
}

/// What the parts of a history say of it. A write goes behind the part of its channel, and the other parts stay (`push`); and
/// a line after the first n writes is told by the part of its channel alone (`line`).
pub fn parts_of_a_history()
    ensures push { (channel_of : ℕ → ℕ) (channel start : ℕ) (writes : List Write) (write : Write)
        → written_on channel_of channel start (writes ++ write ∷ [])
        ≡ written_on channel_of channel start writes
        ++ (if channel_of write.line == channel
        then numbered (start + length writes) write ∷ [] else []) }
    ensures line { (channel_of : ℕ → ℕ) (start n line : ℕ) (base : List (List ℕ))
        (writes : List Write) → line_of (memory_at base start writes n) line
        ≡ line_of (after base (writes_of (below n
        (written_on channel_of (channel_of line) start writes)))) line }
{}
