// The pending requests of a channel, in order of arrival.
ghost use Rattle.std.specs.Prelude.{◌≡◌, ◌≢◌, ◌↔◌, ◌+◌, ◌-◌, ◌<◌, ◌≤◌, ◌^◌, ◌++◌, ◌∷◌, [], List, Some, All, IfOk, IsTrue, length, map, remove, slice_get};
ghost use Rattle.ddr4_timing.specs.Places.{LiesIn};
ghost use Rattle.request_notes.specs.declared.pending.Pending.{Pending};
ghost use Rattle.request_notes.specs.Requests.{AreInOrder};
ghost use Rattle.frfcfs.specs.Keys.{AreKeys, AreToldBy, firsts_of};
ghost use Rattle.frfcfs.specs.LineCounts.{AreCounts};
ghost use Rattle.request_notes.specs.Notes.{IsMarked};
ghost use Rattle.frfcfs.specs.Queue.{KeepsRequests, IsOldestOf, MarksOldest, Waiting, held_by, is_held, numbered_from, writes_among};

mod copying;
mod looking;

use crate::line_counts::LineCounts;
use ddr4_timing::command::Command;
use ddr4_timing::place::Place;
use ddr4_timing::timing::Geometry;
use gap_list::GapList;
use request_notes::key::{Key, bank_number};
use request_notes::notebook::Notebook;
use request_notes::pending::{Kind, Pending};
use std::alloc::{AllocError, Global};
use std::marker::Model;

/// The pending requests of a channel, in order of arrival. It keeps a key of each, which says beside its bank, row and kind
/// whether it is held and whether it is the first of its line, so that no search has to look for older ones; and how many of
/// their lines have the same low bits, so that a look for a line is mostly spared.
#[derive(Drop)]
pub struct Queue {
    pending: GapList<Pending>,
    keys: GapList<Key>,
    counts: LineCounts,
    book: Notebook,
    next: u64,
}

impl Model for Queue {
    ghost Value = { Waiting };

    ghost view = { λ q. record { most = q.pending.most; next = q.next; requests = q.pending.items } };

    ghost invariant = { λ q. KeepsRequests (record { most = q.pending.most; next = q.next; requests = q.pending.items })
        q.keys q.counts q.book };
}

// Is the line that of no key? The counts are those of their lines.
fn is_new(keys: &[Key], counts: &LineCounts, line: u64) -> bool
    ensures { (pending : List Pending) → AreKeys pending keys.now →
        AreCounts (map (λ p. p.line) pending) counts.now →
        (IsTrue result ↔ All (λ key. key.line ≢ line) keys.now) }
{
    counts.lack(line) || keys.iter().all(|key| key.line != line)
}

// Where the oldest request of a line stands.
fn oldest_of(keys: &[Key], line: u64) -> Option<usize>
    ensures { IsOldestOf line keys.now result }
{
    keys.iter().position(|key| key.line == line)
}

// Marks the oldest request of a line, and gives its key. The counts are those of all their lines.
fn mark_oldest(keys: &mut GapList<Key>, counts: &LineCounts, line: u64) -> Option<Key>
    ensures marks { (pending : List Pending) → AreKeys pending keys.old.items →
        AreCounts (map (λ p. p.line) pending) counts.now →
        MarksOldest line keys.old.items (firsts_of keys.old.items) (firsts_of keys.new.items) }
    ensures keys { (pending : List Pending) →
        AreKeys pending keys.old.items → AreKeys pending keys.new.items }
    ensures most { keys.new.most ≡ keys.old.most }
    ensures marked { IsMarked keys.old.items result keys.new.items }
{
    if counts.lack(line) {
        return None;
    }
    let place = oldest_of(keys.as_slice(), line)?;
    let key = Key {
        first: true,
        ..keys.as_slice()[place]
    };
    keys.set(place, key);
    Some(key)
}

/// Whether a request is held, where writes from a number on are.
pub fn is_held(hold: Option<u64>, kind: Kind, number: u64) -> bool
    ensures { result ≡ is_held hold kind number }
{
    match (hold, kind) {
        (Some(from), Kind::Write) => number >= from,
        _ => false,
    }
}

// Gives each request the mark of a hold.
fn hold_each(pending: &mut GapList<Pending>, from: Option<u64>)
    ensures { pending.new ≡ record pending.old { items = map (held_by from) pending.old.items } }
{
    for place in 0..pending.len() {
        let p = pending.as_slice()[place];
        let held = is_held(from, p.kind, p.number);
        pending.set(place, Pending { held, ..p });
    }
}

// Gives each key the seq and the mark of its request.
fn tell_keys(keys: &mut GapList<Key>, pending: &[Pending])
    requires { length keys.old.items ≡ length pending.now }
    ensures told { AreToldBy pending.now keys.old.items keys.new.items }
    ensures most { keys.new.most ≡ keys.old.most }
{
    for place in 0..pending.len() {
        let key = keys.as_slice()[place];
        let Pending { seq, held, .. } = pending[place];
        keys.set(place, Key { seq, held, ..key });
    }
}

// Makes each request's seq its place.
fn number_each(pending: &mut GapList<Pending>)
    ensures { pending.new ≡ record pending.old { items = numbered_from 0 pending.old.items } }
{
    for place in 0..pending.len() {
        let p = pending.as_slice()[place];
        let seq = place as u64;
        pending.set(place, Pending { seq, ..p });
    }
}

impl Queue {
    /// A queue of no request, with room for `most` of them. It refuses only where there is no memory for them; no other call
    /// of a queue takes memory.
    pub fn with_room(alloc: Global, most: usize) -> Result<Queue, AllocError>
        ensures { IfOk result (λ queue. queue ≡ record { most = most; next = 0; requests = [] }) }
    {
        Ok(Queue {
            pending: GapList::with_room(alloc, most)?,
            keys: GapList::with_room(alloc, most)?,
            counts: LineCounts::none(),
            book: Notebook::none(),
            next: 0,
        })
    }

    /// The pending requests, oldest first.
    pub fn requests(&self) -> &[Pending]
        ensures value { result.now ≡ self.now.requests }
        ensures order { AreInOrder result.now }
    {
        self.pending.as_slice()
    }

    /// Whether there is no room for a further one.
    pub fn is_full(&self) -> bool
        ensures { IsTrue result ↔ (self.now.most ≤ length self.now.requests) }
    {
        self.pending.is_full()
    }

    /// The seq of the request that is pushed next: how many were pushed before it.
    pub fn next(&self) -> u64
        ensures { result ≡ self.now.next }
    {
        self.next
    }

    /// Whether the geometry has the place of each request, as `next_command` asks.
    pub fn lies_in(&self, geometry: &Geometry) -> bool
        ensures { IsTrue result ↔ All (λ p. LiesIn geometry.now p.place) self.now.requests }
    {
        self.requests().iter().all(|p| p.place.lies_in(geometry))
    }

    /// Adds a request behind the others. It looks at each of them where one has a line of the same low bits.
    pub fn push(&mut self, place: Place, line: u64, kind: Kind, number: u64, held: bool)
        requires room { length self.old.requests < self.old.most }
        requires next { self.old.next < 2 ^ 64 - 1 }
        ensures requests { self.new.requests ≡ self.old.requests
            ++ record { seq = self.old.next; place = place; line = line; kind = kind; number = number; held = held } ∷ [] }
        ensures next { self.new.next ≡ self.old.next + 1 }
        ensures most { self.new.most ≡ self.old.most }
    {
        let first = is_new(self.keys.as_slice(), &self.counts, line);
        self.counts.add(line);
        self.pending.push(Pending {
            seq: self.next,
            place,
            line,
            kind,
            number,
            held,
        });
        let key = Key {
            seq: self.next,
            row: place.row,
            line,
            bank: bank_number(&place),
            kind,
            first,
            held,
        };
        self.keys.push(key);
        self.book.add(self.keys.as_slice(), &key);
        self.next += 1;
    }

    /// Takes the request at a place out. It moves those before it or those behind it, whichever are fewer, and looks for the
    /// next one of its line.
    pub fn take(&mut self, place: usize) -> Pending
        requires { place < length self.old.requests }
        ensures taken { slice_get self.old.requests place ≡ Some result }
        ensures left { self.new ≡ record self.old { requests = remove self.old.requests place } }
    {
        let taken = self.pending.take(place);
        let key = self.keys.take(place);
        self.book.forget(self.keys.as_slice(), &key, place);
        self.counts.forget(taken.line);
        let marked = mark_oldest(&mut self.keys, &self.counts, taken.line);
        self.book.mark(marked);
        taken
    }

    /// Holds the writes from a number on, or none. It looks at each request.
    pub fn hold(&mut self, from: Option<u64>)
        ensures { self.new ≡ record self.old { requests = map (held_by from) self.old.requests } }
    {
        hold_each(&mut self.pending, from);
        tell_keys(&mut self.keys, self.pending.as_slice());
        self.book.renew(self.keys.as_slice());
    }

    /// Drops the reads, and numbers the writes anew from 0. It takes each read out.
    pub fn keep_writes(&mut self)
        ensures requests { self.new.requests ≡ numbered_from 0 (writes_among self.old.requests) }
        ensures next { self.new.next ≡ length self.new.requests }
        ensures most { self.new.most ≡ self.old.most }
    {
        self.drop_reads();
        number_each(&mut self.pending);
        tell_keys(&mut self.keys, self.pending.as_slice());
        self.book.renew(self.keys.as_slice());
        self.next = self.pending.len() as u64;
    }

    /// Notes that a command goes, so that the next look finds the banks as they are noted: a queue doesn't know them.
    pub fn follow(&mut self, cmd: &Command)
        ensures { self.new ≡ self.old }
    {
        self.book.follow(self.keys.as_slice(), cmd);
    }

    // Takes the reads out.
    fn drop_reads(&mut self)
        ensures { self.new ≡ record self.old { requests = writes_among self.old.requests } }
    {
        for place in (0..self.requests().len()).rev() {
            if self.requests()[place].kind == Kind::Read {
                self.take(place);
            }
        }
    }
}
