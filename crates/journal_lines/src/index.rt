// Where the records of a journal lie.
ghost use Rattle.std.specs.Prelude.{All, ◌≡◌, ◌↔◌, ◌+◌, ◌<◌, ◌≤◌, ◌^◌, ℕ, List, length, IfErr, IfOk, IsTrue};
ghost use Rattle.journal_log.specs.Log.{Holds, Log};
ghost use Rattle.journal_lines.specs.Places.{HeadFits};

use crate::lines::{HeadNumbers, head_numbers};
use crate::scanning::places_in;
use line_memory::Line;
use std::alloc::Global;
use std::collections::VecDeque;
use thiserror::Error;

/// Why no journal was opened.
#[derive(Clone, Copy, Debug, PartialEq, Eq, Error)]
pub enum OpenRefusal {
    /// The memory holds no journal.
    #[error("not a journal")]
    NotJournal,
    /// There is no memory for the places of its records.
    #[error("out of memory")]
    Memory,
}

/// Where the records of a journal lie in its memory, and how many were cut from its front. It holds none of their bytes.
#[derive(Debug, Drop)]
pub struct Index {
    pub(crate) gone: u64,
    pub(crate) first: u64,
    pub(crate) used: u64,
    pub(crate) lines: u64,
    pub(crate) places: VecDeque<u64>,
    ghost place: { first < lines },
    ghost room: { used < lines },
    ghost small: { lines ≤ 2 ^ 63 },
    ghost numbers: { gone + length places.items < 2 ^ 64 },
    ghost within: { All (λ at. at < lines) places.items },
}

// Whether a head's numbers may be those of a journal in so many lines.
fn is_fit(head: HeadNumbers, lines: u64) -> bool
    ensures { IsTrue result ↔ HeadFits head.gone head.first head.used lines }
{
    head.first < lines && head.used < lines && head.gone.checked_add(head.used).is_some()
}

impl Index {
    ghost use Rattle.journal_lines.specs.Indexed.{IsIndexOf, end_of_index};

    /// The journal that a memory holds, be its bytes what they may: refused `NotJournal` exactly where it holds none.
    pub fn open(alloc: Global, memory: &[Line]) -> Result<Index, OpenRefusal>
        ensures ok { IfOk result (λ index.
            (log : Log) × Holds memory.now log × IsIndexOf index log) }
        ensures lines { IfOk result (λ index. index.lines ≡ length memory.now) }
        ensures none { IfErr result (λ refusal. refusal ≡ OpenRefusal.NotJournal
            → (log : Log) → Holds memory.now log → ⊥) }
    {
        let lines = memory.len() as u64;
        if lines == 0 {
            return Err(OpenRefusal::NotJournal);
        }
        let Some(head) = head_numbers(&memory[0]) else {
            return Err(OpenRefusal::NotJournal);
        };
        if !is_fit(head, lines) {
            return Err(OpenRefusal::NotJournal);
        }
        let Ok(found) = places_in(alloc, memory, head.first, head.used) else {
            return Err(OpenRefusal::Memory);
        };
        let Some(places) = found else {
            return Err(OpenRefusal::NotJournal);
        };
        Ok(Index {
            gone: head.gone,
            first: head.first,
            used: head.used,
            lines,
            places,
        })
    }

    /// How many records were cut from the front: the number of the first one that is there.
    pub fn gone(&self) -> u64
        ensures { result ≡ self.now.gone }
    {
        self.gone
    }

    /// The number behind the last record.
    pub fn end(&self) -> u64
        ensures { result ≡ end_of_index self.now }
    {
        self.gone + self.places.len() as u64
    }

    /// How many lines its memory has.
    pub fn lines(&self) -> u64
        ensures { result ≡ self.now.lines }
    {
        self.lines
    }
}
