// One look at each bank of which an eligible request is noted.
ghost use Rattle.std.specs.Prelude.{◌≡◌, ◌≢◌, ℕ, ◌<◌, ◌≤◌, ◌↔◌, ◌⊎◌, List, Option, None, Some, All, IfSome, IsTrue, length, slice_get, slice_index};
ghost use Rattle.ddr4_timing.specs.declared.command.Stamped.{Stamped};
ghost use Rattle.ddr4_timing.specs.Places.{HasBank, LiesIn};
ghost use Rattle.bank_core.specs.Stands.{Stands};
ghost use Rattle.request_notes.specs.declared.bank_set.BankSet.{BankSet};
ghost use Rattle.request_notes.specs.declared.key.Key.{Key};
ghost use Rattle.request_notes.specs.declared.notes.Note.{Note};
ghost use Rattle.request_notes.specs.declared.pending.Kind.TheVariants.{Read, Write};
ghost use Rattle.request_notes.specs.declared.pending.Pending.{Pending};
ghost use Rattle.request_notes.specs.BankSets.{IsOneTaken};
ghost use Rattle.frfcfs.specs.Keys.{AreKeysIn};
ghost use Rattle.request_notes.specs.KeyPlaces.{place_of};
ghost use Rattle.request_notes.specs.Notebook.{KeepsNotes};
ghost use Rattle.request_notes.specs.Notes.{AreNotes, IsHit, IsNoteOf, IsOldestSeq, SeqsRise};
ghost use Rattle.frfcfs.specs.NotedLook.{AreNotedFound, AreSoonest, AreSoonestBut, AreThere, IsNoted, IsNotedFound, IsSooner, SoonestColumnBut, SoonestColumnButWrites, address_of};
ghost use Rattle.frfcfs.specs.Search.{AreAllBestInTurn, AreEnds, AreFoundInTurn, TellsEligible, limit_of};

use crate::best::{Best, Bests};
use crate::scan::Soonest;
use crate::search::ends;
use bank_core::banks::Banks;
use ddr4_timing::command::Command;
use ddr4_timing::place::BankAddress;
use request_notes::key::Key;
use request_notes::notebook::Notebook;
use request_notes::notes::{Note, Notes};
use request_notes::pending::Kind;

/// The first clock at which a request may have its command of one class, and the seq of the oldest that may have it then.
/// Where none may before a limit the clock is that limit.
#[derive(Clone, Copy)]
pub(crate) struct Soon {
    pub(crate) clock: u64,
    pub(crate) seq: u64,
}

impl Soon {
    // Another may, from a clock on and before an end.
    fn offer(&mut self, seq: u64, from: u64, end: u64)
        ensures { IsSooner self.old seq from end self.new }
    {
        if from < end && (from < self.clock || from == self.clock && seq < self.seq) {
            *self = Soon { clock: from, seq };
        }
    }

    // Looks at the oldest request of a kind that hits the row of a bank, if there is one.
    fn look_at_kind(
        &mut self,
        banks: &Banks,
        seq: Option<u64>,
        kind: Kind,
        at: BankAddress,
        now: u64,
        end: u64,
    )
        requires bank { HasBank banks.now.checked.geometry at }
        requires column { 0 < banks.now.checked.geometry.columns }
        ensures found { (keys : List Key) (n limit : ℕ) (row : Option ℕ) →
            IsOldestSeq (IsHit keys n row kind) seq → end ≤ limit →
            IsNotedFound keys now limit self.old → IsNotedFound keys now limit self.new }
        ensures read { (list : List Stamped) (pending : List Pending) (keys : List Key) →
            (note : Note) (last limit n : ℕ) (left rest : BankSet) → kind ≡ Read →
            Stands banks.now list →
            IsNoted banks.now.checked list pending keys last limit n end note →
            at ≡ address_of n → IsOneTaken left (Some n) rest → note.read ≡ seq →
            SoonestColumnBut banks.now.checked list pending now last limit left self.old →
            SoonestColumnButWrites banks.now.checked list pending now last limit left n self.new }
        ensures write { (list : List Stamped) (pending : List Pending) (keys : List Key) →
            (note : Note) (last limit n : ℕ) (left rest : BankSet) → kind ≡ Write →
            Stands banks.now list →
            IsNoted banks.now.checked list pending keys last limit n end note →
            at ≡ address_of n → IsOneTaken left (Some n) rest → note.write ≡ seq →
            SoonestColumnButWrites banks.now.checked list pending now last limit left n self.old →
            SoonestColumnBut banks.now.checked list pending now last limit rest self.new }
    {
        let Some(seq) = seq else {
            return;
        };
        let column = 0;
        let clock = banks.least_clock(match kind {
            Kind::Read => Command::Rd { at, column },
            Kind::Write => Command::Wr { at, column },
        });
        self.offer(seq, clock.max(now), end);
    }

    // The same by the place of its key, which is looked for where the clock is before a limit.
    fn best(&self, keys: &[Key], limit: u64) -> Best
        requires { SeqsRise keys.now }
        ensures clock { result.clock ≡ self.now.clock }
        ensures place { self.now.clock < limit → (i : ℕ) (k : Key) → slice_get keys.now i ≡ Some k →
            k.seq ≡ self.now.seq → result.index ≡ i }
    {
        let clock = self.clock;
        if clock >= limit {
            return Best { clock, index: 0 };
        }
        Best {
            clock,
            index: keys.partition_point(|key| key.seq < self.seq),
        }
    }
}

/// The same of each class.
#[derive(Clone, Copy)]
pub(crate) struct NotedLook {
    /// RD or WR.
    pub(crate) column: Soon,
    /// ACT or PRE.
    pub(crate) row: Soon,
}

impl NotedLook {
    // Looks at the oldest read and the oldest write that hit the row of a bank.
    fn look_at_hits(&mut self, banks: &Banks, note: &Note, at: BankAddress, now: u64, end: u64)
        requires bank { HasBank banks.now.checked.geometry at }
        requires column { 0 < banks.now.checked.geometry.columns }
        requires hit { (note.now.read ≢ None) ⊎ (note.now.write ≢ None) }
        ensures found { (keys : List Key) (n limit : ℕ) → IsNoteOf keys n note.now → end ≤ limit →
            AreNotedFound keys now limit self.old → AreNotedFound keys now limit self.new }
        ensures soonest { (list : List Stamped) (pending : List Pending) (keys : List Key) →
            (last limit n : ℕ) (left rest : BankSet) → Stands banks.now list →
            IsNoted banks.now.checked list pending keys last limit n end note.now →
            at ≡ address_of n → IsOneTaken left (Some n) rest →
            AreSoonestBut banks.now.checked list pending now last limit left self.old →
            AreSoonestBut banks.now.checked list pending now last limit rest self.new }
    {
        self.column
            .look_at_kind(banks, note.read, Kind::Read, at, now, end);
        self.column
            .look_at_kind(banks, note.write, Kind::Write, at, now, end);
    }

    // Looks at the oldest request of a bank, whose row none hits.
    fn look_at_oldest(&mut self, banks: &Banks, note: &Note, at: BankAddress, now: u64, end: u64)
        requires bank { HasBank banks.now.checked.geometry at }
        requires row { 0 < banks.now.checked.geometry.rows }
        requires unhit { (note.now.read ≡ None) × (note.now.write ≡ None) }
        ensures found { (keys : List Key) (n limit : ℕ) → IsNoteOf keys n note.now → end ≤ limit →
            AreNotedFound keys now limit self.old → AreNotedFound keys now limit self.new }
        ensures soonest { (list : List Stamped) (pending : List Pending) (keys : List Key) →
            (last limit n : ℕ) (left rest : BankSet) → Stands banks.now list →
            IsNoted banks.now.checked list pending keys last limit n end note.now →
            at ≡ address_of n → IsOneTaken left (Some n) rest →
            AreSoonestBut banks.now.checked list pending now last limit left self.old →
            AreSoonestBut banks.now.checked list pending now last limit rest self.new }
    {
        if let Some(seq) = note.oldest {
            let cmd = match note.row {
                None => Command::Act { at, row: 0 },
                Some(_) => Command::Pre { at },
            };
            let clock = banks.least_clock(cmd);
            self.row.offer(seq, clock.max(now), end);
        }
    }
}

// A bank by its number in a table of 64.
fn address_of(bank: usize) -> BankAddress
    ensures { result ≡ address_of bank }
{
    let bank = bank as u64;
    BankAddress {
        rank: bank / 16,
        group: bank / 4 % 4,
        bank: bank % 4,
    }
}

// Looks at each bank of which an eligible request is noted; None where the row that is open there isn't the one noted.
fn look_at_each(
    banks: &Banks,
    notes: &Notes,
    ends: &[u64; 4],
    now: u64,
    last: u64,
) -> Option<NotedLook>
    requires there { AreThere banks.now.checked.geometry notes.now.wanted }
    requires early { (rank : ℕ) → slice_index ends.now rank ≤ limit_of last }
    ensures found { IfSome result (λ look. (keys : List Key) → AreNotes keys notes.now →
        AreNotedFound keys now (limit_of last) look) }
    ensures soonest { IfSome result (λ look.
        (list : List Stamped) (pending : List Pending) (keys : List Key) →
        Stands banks.now list → AreEnds banks.now.checked list last ends.now →
        AreKeysIn banks.now.checked.geometry pending keys → AreNotes keys notes.now →
        AreSoonest banks.now.checked list pending now last (limit_of last) look) }
{
    let none = Soon {
        clock: last.saturating_add(1),
        seq: 0,
    };
    let mut look = NotedLook {
        column: none,
        row: none,
    };
    let mut left = notes.wanted;
    while let Some(bank) = left.take_one() {
        let (note, at) = (&notes.banks[bank], address_of(bank));
        if banks.open_row(at) != note.row {
            return None;
        }
        let end = ends[at.rank as usize];
        if note.is_hit() {
            look.look_at_hits(banks, note, at, now, end);
        } else {
            look.look_at_oldest(banks, note, at, now, end);
        }
    }
    Some(look)
}

/// The requests that may have their commands first in a span, by what is noted of their banks. It looks at each bank with a
/// request once; None where nothing is noted, or another row is open there than the one for which it is noted.
pub(crate) fn find_noted(
    banks: &Banks,
    keys: &[Key],
    book: &Notebook,
    now: u64,
    last: u64,
) -> Option<Soonest>
    requires keys { All (λ key. LiesIn banks.now.checked.geometry (place_of key)) keys.now }
    requires order { SeqsRise keys.now }
    requires notes { KeepsNotes keys.now book.now }
    ensures any { IfSome result (λ soonest. (pending : List Pending) →
        AreKeysIn banks.now.checked.geometry pending keys.now →
        TellsEligible banks.now.checked.geometry pending soonest.any) }
    ensures found { IfSome result (λ soonest. (pending : List Pending) →
        AreKeysIn banks.now.checked.geometry pending keys.now →
        AreFoundInTurn banks.now.checked.geometry pending now last soonest.bests) }
    ensures best { IfSome result (λ soonest. (list : List Stamped) (pending : List Pending) →
        Stands banks.now list → AreKeysIn banks.now.checked.geometry pending keys.now →
        AreAllBestInTurn banks.now.checked list pending now last soonest.bests) }
{
    if !book.is_kept {
        return None;
    }
    let notes = &book.notes;
    let ends = ends(banks, last);
    let look = look_at_each(banks, notes, &ends, now, last)?;
    let limit = last.saturating_add(1);
    Some(Soonest {
        bests: Bests {
            column: look.column.best(keys, limit),
            row: look.row.best(keys, look.column.clock),
        },
        any: !notes.wanted.is_empty(),
    })
}
