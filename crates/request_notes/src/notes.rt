// What a queue notes of each bank for the choice.
ghost use Rattle.std.specs.Prelude.{◌≡◌, ◌≢◌, ℕ, ◌<◌, ◌≤◌, ◌↔◌, ◌⊎◌, [], List, Option, Some, None, All, IfSome, IsTrue, length, remove, slice_get};
ghost use Rattle.request_notes.specs.declared.key.Key.{Key};
ghost use Rattle.request_notes.specs.Notes.{AreNotes, IsFirstIn, IsFree, IsFreeIn, IsFreeOf, IsGone, IsHit, IsMarked, IsNoteOf, IsOfBank, IsOldestSeq, Joins, SeqsRise, older};

use crate::bank_set::BankSet;
use crate::key::Key;
use crate::pending::Kind;
use ddr4_timing::command::Command;
use ddr4_timing::place::BankAddress;

/// The oldest eligible requests of a bank, by their seqs.
#[derive(Clone, Copy)]
pub struct Note {
    /// The row for which it is noted; None where the bank is taken to be closed.
    pub row: Option<u64>,
    /// The oldest read of that row.
    pub read: Option<u64>,
    /// The oldest write of that row.
    pub write: Option<u64>,
    /// The oldest of all, whatever its row.
    pub oldest: Option<u64>,
}

// The less of a seq, if there is one, and another.
fn older(seq: Option<u64>, other: u64) -> u64
    ensures { result ≡ older seq other }
{
    match seq {
        Some(seq) => seq.min(other),
        None => other,
    }
}

// Where the first key of a bank stands that is eligible.
fn place_in_bank(keys: &[Key], bank: usize) -> Option<usize>
    ensures { IsFirstIn (IsFreeOf bank) keys.now result }
{
    keys.iter().position(|key| key.is_of_bank(bank))
}

// The same of those that want a row by one kind of command.
fn place_in_row(keys: &[Key], bank: usize, row: u64, kind: Kind) -> Option<usize>
    ensures { IsFirstIn (IsFreeIn bank row kind) keys.now result }
{
    keys.iter().position(|key| key.is_hit(bank, row, kind))
}

// The seq of the oldest eligible request of a bank.
fn first_of_bank(keys: &[Key], bank: usize) -> Option<u64>
    ensures { SeqsRise keys.now → IsOldestSeq (IsOfBank keys.now bank) result }
{
    let place = place_in_bank(keys, bank)?;
    Some(keys[place].seq)
}

// The same of those that want a row by one kind of command.
fn first_of_row(keys: &[Key], bank: usize, row: u64, kind: Kind) -> Option<u64>
    ensures { SeqsRise keys.now → IsOldestSeq (IsHit keys.now bank (Some row) kind) result }
{
    let place = place_in_row(keys, bank, row, kind)?;
    Some(keys[place].seq)
}

// The oldest of a bank, where one went whose key is no more. The keys are those behind its place.
fn oldest_without(oldest: Option<u64>, later: &[Key], key: &Key) -> Option<u64>
    ensures { (old new : List Key) → SeqsRise later.now → IsGone old new later.now key.now →
        IsOldestSeq (IsOfBank old key.now.bank) oldest →
        IsOldestSeq (IsOfBank new key.now.bank) result }
{
    if oldest == Some(key.seq) {
        return first_of_bank(later, key.bank as usize);
    }
    oldest
}

// The same of those that hit its row by one kind of command.
fn hit_without(seq: Option<u64>, kind: Kind, later: &[Key], key: &Key) -> Option<u64>
    ensures { (old new : List Key) (row : Option ℕ) → SeqsRise later.now →
        IsGone old new later.now key.now → IsOldestSeq (IsHit old key.now.bank row kind) seq →
        IsOldestSeq (IsHit new key.now.bank row kind) result }
{
    if seq == Some(key.seq) {
        return first_of_row(later, key.bank as usize, key.row, kind);
    }
    seq
}

impl Note {
    /// Of a bank with no eligible request.
    fn none(row: Option<u64>) -> Note
        ensures { result ≡ record { row = row; read = None; write = None; oldest = None } }
    {
        Note {
            row,
            read: None,
            write: None,
            oldest: None,
        }
    }

    /// Whether an eligible request hits the row.
    pub fn is_hit(&self) -> bool
        ensures { IsTrue result ↔ ((self.now.read ≢ None) ⊎ (self.now.write ≢ None)) }
    {
        self.read.is_some() || self.write.is_some()
    }

    // The same with one eligible request of the bank more.
    fn with(self, key: &Key) -> Note
        ensures row { result.row ≡ self.row }
        ensures oldest { result.oldest ≢ None }
        ensures note { (old new : List Key) → IsFree key.now → Joins key.now old new →
            IsNoteOf old key.now.bank self → IsNoteOf new key.now.bank result }
    {
        let oldest = Some(older(self.oldest, key.seq));
        let note = Note { oldest, ..self };
        if self.row != Some(key.row) {
            return note;
        }
        match key.kind {
            Kind::Read => {
                let read = Some(older(self.read, key.seq));
                Note { read, ..note }
            }
            Kind::Write => {
                let write = Some(older(self.write, key.seq));
                Note { write, ..note }
            }
        }
    }

    // The same without one whose key is no more. The keys are those behind its place.
    fn without(self, later: &[Key], key: &Key) -> Note
        ensures row { result.row ≡ self.row }
        ensures note { (old new : List Key) → SeqsRise later.now →
            IsGone old new later.now key.now →
            IsNoteOf old key.now.bank self → IsNoteOf new key.now.bank result }
    {
        Note {
            row: self.row,
            read: hit_without(self.read, Kind::Read, later, key),
            write: hit_without(self.write, Kind::Write, later, key),
            oldest: oldest_without(self.oldest, later, key),
        }
    }
}

/// What is noted of each of the 64 banks that a channel has at most.
#[derive(Clone, Copy)]
pub struct Notes {
    pub banks: [Note; 64],
    /// Those that have an eligible request.
    pub wanted: BankSet,
}

// Where a bank stands in a table of 64, also where no geometry has it.
fn number_of(at: BankAddress) -> usize
    ensures { result < 64 }
{
    (at.rank % 4 * 16 + at.group % 4 * 4 + at.bank % 4) as usize
}

impl Notes {
    /// Of no request, with all banks taken to be closed.
    pub fn none() -> Notes
        ensures { AreNotes [] result }
    {
        Notes {
            banks: [Note::none(None); 64],
            wanted: BankSet::none(),
        }
    }

    /// There is one request more.
    pub fn add(&mut self, key: &Key)
        requires { key.now.bank < 64 }
        ensures { (old new : List Key) → Joins key.now old new → AreNotes old self.old
            → AreNotes new self.new }
    {
        if key.is_free() {
            let bank = key.bank as usize;
            self.banks[bank] = self.banks[bank].with(key);
            self.wanted.add(bank);
        }
    }

    /// A request is the first of its line from now on, if one is.
    pub fn mark(&mut self, marked: Option<Key>)
        requires { IfSome marked (λ key. key.bank < 64) }
        ensures { (old new : List Key) → IsMarked old marked new → AreNotes old self.old
            → AreNotes new self.new }
    {
        if let Some(key) = marked {
            self.add(&key);
        }
    }

    /// A request is no more, which stood at a place of the keys; these are those of the others.
    pub fn forget(&mut self, keys: &[Key], key: &Key, place: usize)
        requires bank { key.now.bank < 64 }
        requires place { place ≤ length keys.now }
        ensures { (old : List Key) → slice_get old place ≡ Some key.now →
            keys.now ≡ remove old place → SeqsRise old → AreNotes old self.old
            → AreNotes keys.now self.new }
    {
        let bank = key.bank as usize;
        let note = self.banks[bank].without(&keys[place..], key);
        self.banks[bank] = note;
        if note.oldest.is_none() {
            self.wanted.remove(bank);
        }
    }

    // Of no request, the same banks open.
    fn cleared(&self) -> Notes
        ensures { AreNotes [] result }
    {
        let mut banks = self.banks;
        for bank in 0..64 {
            banks[bank] = Note::none(banks[bank].row);
        }
        Notes {
            banks,
            wanted: BankSet::none(),
        }
    }

    /// All requests are others now.
    pub fn renew(&mut self, keys: &[Key])
        requires { All (λ key. key.bank < 64) keys.now }
        ensures { AreNotes keys.now self.new }
    {
        *self = self.cleared();
        for place in 0..keys.len() {
            self.add(&keys[place]);
        }
    }

    // A row is open in a bank.
    fn open(&mut self, keys: &[Key], bank: usize, row: u64)
        requires { bank < 64 }
        ensures { SeqsRise keys.now → AreNotes keys.now self.old → AreNotes keys.now self.new }
    {
        self.banks[bank] = Note {
            row: Some(row),
            read: first_of_row(keys, bank, row, Kind::Read),
            write: first_of_row(keys, bank, row, Kind::Write),
            oldest: self.banks[bank].oldest,
        };
    }

    // A bank is closed.
    fn close(&mut self, bank: usize)
        requires { bank < 64 }
        ensures { (keys : List Key) → AreNotes keys self.old → AreNotes keys self.new }
    {
        self.banks[bank] = Note {
            oldest: self.banks[bank].oldest,
            ..Note::none(None)
        };
    }

    // A rank's banks are closed.
    fn close_rank(&mut self, rank: u64)
        ensures { (keys : List Key) → AreNotes keys self.old → AreNotes keys self.new }
    {
        let first = (rank % 4 * 16) as usize;
        for slot in 0..16 {
            self.close(first + slot);
        }
    }

    /// A command goes, which opens or closes banks.
    pub fn follow(&mut self, keys: &[Key], cmd: &Command)
        ensures { SeqsRise keys.now → AreNotes keys.now self.old → AreNotes keys.now self.new }
    {
        match *cmd {
            Command::Act { at, row } => self.open(keys, number_of(at), row),
            Command::Pre { at } => self.close(number_of(at)),
            Command::PreAll { rank } => self.close_rank(rank),
            _ => {}
        }
    }
}
