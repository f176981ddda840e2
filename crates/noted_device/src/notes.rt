// Changes that are noted, the oldest first.
ghost use Rattle.std.specs.Prelude.{◌≡◌, [], ◌∷◌, ◌++◌, map, IfErr, IfOk};
ghost use Rattle.save_device.specs.Changes.{Put, Settle};
ghost use Rattle.noted_device.specs.Notes.{Hands, change_of};

use std::alloc::{AllocError, Global};
use std::collections::VecDeque;

/// A change of a device.
#[derive(Drop)]
pub enum Note {
    /// These bytes are written from this place on.
    Write { at: usize, bytes: Vec<u8> },
    /// What was written is made durable.
    Sync,
}

/// What was handed out.
#[derive(Clone, Copy, Debug, PartialEq, Eq)]
pub enum Handed {
    /// No change is noted.
    Nothing,
    /// What was written is to be made durable.
    Sync,
    /// The first so many bytes of the buffer are to be written from this place on.
    Write { at: usize, length: usize },
    /// So many bytes are to be written, and the buffer is shorter: the change is still noted.
    Longer { length: usize },
}

// Notes that these bytes are written from `at` on, if there is memory for it.
pub(crate) fn note_write(
    notes: &mut VecDeque<Note>,
    alloc: Global,
    at: usize,
    bytes: &[u8],
) -> Result<(), AllocError>
    ensures noted { IfOk result (λ _. map change_of notes.new.items
        ≡ map change_of notes.old.items ++ Put at bytes.now ∷ []) }
    ensures kept { IfErr result (λ _. notes.new.items ≡ notes.old.items) }
{
    let bytes = bytes.to_vec(alloc)?;
    notes.reserve(1)?;
    notes.push_back_reserved(Note::Write { at, bytes });
    Ok(())
}

// Notes that what was written is made durable, if there is memory for it.
pub(crate) fn note_sync(notes: &mut VecDeque<Note>) -> Result<(), AllocError>
    ensures noted { IfOk result (λ _. map change_of notes.new.items
        ≡ map change_of notes.old.items ++ Settle ∷ []) }
    ensures kept { IfErr result (λ _. notes.new.items ≡ notes.old.items) }
{
    notes.reserve(1)?;
    notes.push_back_reserved(Note::Sync);
    Ok(())
}
