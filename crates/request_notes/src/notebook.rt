// Notes of a queue's banks, kept while many requests wait.
ghost use Rattle.std.specs.Prelude.{◌≡◌, ◌<◌, ◌≤◌, [], List, Option, Some, All, IfSome, length, remove, slice_get};
ghost use Rattle.request_notes.specs.declared.key.Key.{Key};
ghost use Rattle.request_notes.specs.Notebook.{KeepsNotes};
ghost use Rattle.request_notes.specs.Notes.{IsMarked, Joins, SeqsRise};

use crate::key::Key;
use crate::notes::Notes;
use ddr4_timing::command::Command;

// From how many requests on notes are kept.
const MANY: usize = 16;

// Down to how many they are kept.
const FEW: usize = 8;

/// Notes of each bank, kept while many requests wait: a look at each of a few costs less than notes of them.
#[derive(Clone, Copy)]
pub struct Notebook {
    pub notes: Notes,
    pub is_kept: bool,
}

impl Notebook {
    /// Of no request, with all banks taken to be closed.
    pub fn none() -> Notebook
        ensures { KeepsNotes [] result }
    {
        Notebook {
            notes: Notes::none(),
            is_kept: false,
        }
    }

    /// There is one request more, and these are the keys with its own.
    pub fn add(&mut self, keys: &[Key], key: &Key)
        requires keys { All (λ key. key.bank < 64) keys.now }
        requires bank { key.now.bank < 64 }
        ensures { (old : List Key) → Joins key.now old keys.now → KeepsNotes old self.old
            → KeepsNotes keys.now self.new }
    {
        if self.is_kept {
            self.notes.add(key);
        } else if keys.len() >= MANY {
            self.notes.renew(keys);
            self.is_kept = true;
        }
    }

    /// A request is the first of its line from now on, if one is.
    pub fn mark(&mut self, marked: Option<Key>)
        requires { IfSome marked (λ key. key.bank < 64) }
        ensures { (old new : List Key) → IsMarked old marked new → KeepsNotes old self.old
            → KeepsNotes new self.new }
    {
        if self.is_kept {
            self.notes.mark(marked);
        }
    }

    /// A request is no more, which stood at a place of the keys; these are those of the others.
    pub fn forget(&mut self, keys: &[Key], key: &Key, place: usize)
        requires bank { key.now.bank < 64 }
        requires place { place ≤ length keys.now }
        ensures { (old : List Key) → slice_get old place ≡ Some key.now →
            keys.now ≡ remove old place → SeqsRise old → KeepsNotes old self.old
            → KeepsNotes keys.now self.new }
    {
        if keys.len() <= FEW {
            self.is_kept = false;
        }
        if self.is_kept {
            self.notes.forget(keys, key, place);
        }
    }

    /// All requests are others now.
    pub fn renew(&mut self, keys: &[Key])
        requires { All (λ key. key.bank < 64) keys.now }
        ensures { KeepsNotes keys.now self.new }
    {
        if self.is_kept {
            self.notes.renew(keys);
        }
    }

    /// A command goes, which opens or closes banks.
    pub fn follow(&mut self, keys: &[Key], cmd: &Command)
        ensures { SeqsRise keys.now → KeepsNotes keys.now self.old → KeepsNotes keys.now self.new }
    {
        if self.is_kept {
            self.notes.follow(keys, cmd);
        } else {
            self.notes.follow(&[], cmd);
        }
    }
}
