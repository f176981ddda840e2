// The book, with its room reserved once.
ghost use Rattle.std.specs.Prelude.{◌≡◌, ℕ, ◌+◌, ◌<◌, ◌≤◌, ◌++◌, [], ◌∷◌, map, List, length, IfOk, IfNone, IfSome, OnOk, OnErr, IfErr, IsErr, IsTrue, insert, ◌↔◌};
ghost use Rattle.std.specs.Bool.{OnFalse};
ghost use Rattle.std.specs.List.Sorted.{IsStrictlyIncreasing};
ghost use Rattle.std.specs.VecDeque.{deque_len, deque_capacity};
ghost use Rattle.notice_book.specs.Told.{IsCallableAbove};

use crate::entry::{Called, Entry, Notice};
use std::alloc::{AllocError, Global};
use std::collections::VecDeque;

/// The book has no room. The notice comes back.
#[derive(Drop)]
pub struct Full {
    pub notice: Notice,
}

/// Why a notice isn't put in. It comes back.
#[derive(Drop)]
pub enum InsertRefusal<N> {
    /// 1: the book has no room.
    Full(N),
    /// 2: a notice of this number is there.
    Taken(N),
}

/// Notices in rising order of their numbers, as many as there is room for.
#[derive(Drop)]
pub struct NoticeBook {
    entries: VecDeque<Entry>,
    room: usize,
    ghost rising: { IsStrictlyIncreasing (map (λ e. e.number) entries.items) },
    ghost within: { deque_len entries ≤ room },
    ghost reserved: { room ≤ deque_capacity entries },
}

impl NoticeBook {
    ghost use Rattle.notice_book.specs.Numbered.{AreNumbersBelow, IsCountBelow, IsNumberTaken, IsPlaceFor};
    ghost use Rattle.notice_book.specs.NoticeBooks.{Appends, Delivers, HasRoom, InsertsNotice, IsBookFull, RefusesInsert, entries_of, number_of_notice, refused_notice};

    /// An empty book with room for this many notices. It refuses only where there is no memory for them.
    pub fn with_room(alloc: Global, room: usize) -> Result<NoticeBook, AllocError>
        ensures empty { IfOk result (λ book. entries_of book ≡ []) }
        ensures room { IfOk result (λ book. book.room ≡ room) }
    {
        let entries = VecDeque::with_capacity(alloc, room)?;
        Ok(NoticeBook { entries, room })
    }

    /// How many notices the book has.
    pub fn len(&self) -> usize
        ensures { result ≡ length (entries_of self.now) }
    {
        self.entries.len()
    }

    /// Whether it has none.
    pub fn is_empty(&self) -> bool
        ensures { IsTrue result ↔ (entries_of self.now ≡ []) }
    {
        self.entries.is_empty()
    }

    /// Whether it has no room for a further one.
    pub fn is_full(&self) -> bool
        ensures full { IsTrue result ↔ IsBookFull self.now }
        ensures room { OnFalse result (HasRoom self.now) }
    {
        self.len() == self.room
    }

    /// Adds a notice whose number is greater than all others. `Full` exactly where there is no room: the notice comes back,
    /// and the book is as it was. It takes no memory.
    pub fn register(&mut self, number: u64, notice: Notice) -> Result<(), Full>
        requires rises { AreNumbersBelow number_of_notice number (entries_of self.old) }
        requires callable { IsCallableAbove (λ told. Notice.pre notice told) number }
        ensures full { IsErr result ↔ IsBookFull self.old }
        ensures added { OnOk result (Appends number notice self.old self.new) }
        ensures back { IfErr result (λ full. full.notice ≡ notice) }
        ensures same { OnErr result (self.new ≡ self.old) }
    {
        if self.is_full() {
            return Err(Full { notice });
        }
        self.entries.push_back_reserved(Entry { number, notice });
        Ok(())
    }

    /// Puts a notice in, in any order of the numbers. Refused `Full` exactly where there is no room, and else `Taken`
    /// exactly where a notice of the number is there: it comes back, and the book is as it was. It takes no memory.
    pub fn insert(&mut self, number: u64, notice: Notice) -> Result<(), InsertRefusal<Notice>>
        requires callable { IsCallableAbove (λ told. Notice.pre notice told) number }
        ensures added { OnOk result (InsertsNotice number notice self.old self.new) }
        ensures refused { IfErr result (λ refusal. RefusesInsert number self.old refusal) }
        ensures back { IfErr result (λ refusal. refused_notice refusal ≡ notice) }
        ensures same { OnErr result (self.new ≡ self.old) }
    {
        if self.is_full() {
            return Err(InsertRefusal::Full(notice));
        }
        let Some(place) = self.place_for(number) else {
            return Err(InsertRefusal::Taken(notice));
        };
        put_at(&mut self.entries, place, Entry { number, notice });
        Ok(())
    }

    /// Calls the notices with a number below the mark, each once and in rising order, and gives the number and the answer
    /// of each; the others stay. It refuses only where there is no memory for the answers: then none was called.
    pub fn deliver(&mut self, alloc: Global, mark: u64) -> Result<Vec<Called>, AllocError>
        ensures delivered { IfOk result (λ answers. Delivers mark self.old answers.items self.new) }
        ensures same { OnErr result (self.new ≡ self.old) }
    {
        let count = self.below(mark);
        let mut answers = Vec::with_capacity(alloc, count)?;
        for _i in 0..count {
            let Some(entry) = self.entries.pop_front() else {
                unreachable!()
            };
            let number = entry.number;
            let answer = entry.call(mark);
            answers.push_reserved(Called { number, answer });
        }
        Ok(answers)
    }

    // Where a notice of this number belongs; None where there is one.
    fn place_for(&self, number: u64) -> Option<usize>
        ensures place { IfSome result (IsPlaceFor number_of_notice number (entries_of self.now)) }
        ensures none { IfNone result (IsNumberTaken number_of_notice number (entries_of self.now)) }
    {
        let place = self.below(number);
        if place == self.entries.len() {
            return Some(place);
        }
        if self.entries[place].number == number {
            return None;
        }
        Some(place)
    }

    // How many notices have a number below the mark.
    fn below(&self, mark: u64) -> usize
        ensures { IsCountBelow number_of_notice mark (entries_of self.now) result }
    {
        let mut count = 0;
        while count < self.entries.len() && self.entries[count].number < mark {
            count += 1;
        }
        count
    }
}

// Puts an entry in where there is room for it.
fn put_at(entries: &mut VecDeque<Entry>, place: usize, entry: Entry)
    requires place { place ≤ length entries.old.items }
    requires room { deque_len entries.old < deque_capacity entries.old }
    ensures items { entries.new.items ≡ insert entries.old.items place entry }
    ensures len { deque_len entries.new ≡ deque_len entries.old + 1 }
    ensures capacity { deque_capacity entries.old ≤ deque_capacity entries.new }
{
    let Ok(()) = entries.insert(place, entry) else {
        unreachable!()
    };
}
