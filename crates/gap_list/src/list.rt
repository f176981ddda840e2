// The list, with its room reserved once.
ghost use Rattle.std.specs.Prelude.{◌≡◌, ◌++◌, ◌∷◌, [], ◌<◌, ◌≤◌, ◌↔◌, IfOk, IsTrue, Some, length, remove, slice_get, slice_set};

use crate::moves::{make_room, take_down, take_up};
use same_values::copy_with_room;
use std::alloc::{AllocError, Global};
use std::marker::Model;

/// Elements in a row, at most as many as it was made for.
#[derive(Debug, Drop)]
pub struct GapList<T> {
    // The elements are those from `start` on.
    row: Vec<T>,
    start: usize,
    most: usize,
}

impl<T> Model for GapList<T> {
    ghost use Rattle.std.specs.Prelude.{drop, length, vec_capacity};
    ghost use Rattle.gap_list.specs.Bounded.{Bounded, KeepsFew};

    ghost Value = { Bounded T };

    ghost view = { λ l. record { most = l.most; items = drop l.start l.row.items } };

    ghost invariant = { λ l. KeepsFew l.most l.start (length l.row.items) (vec_capacity l.row) };
}

impl<T: Copy> GapList<T> {
    /// A list of no element, with room for `most` of them. It refuses only where there is no memory for them; no other call of
    /// a list but `copy` takes memory.
    pub fn with_room(alloc: Global, most: usize) -> Result<GapList<T>, AllocError>
        ensures { IfOk result (λ list. list ≡ record { most = most; items = [] }) }
    {
        Ok(GapList {
            row: Vec::with_capacity(alloc, most.saturating_mul(2))?,
            start: 0,
            most,
        })
    }

    /// A list of the same elements, with room for as many. It refuses only where there is no memory for them.
    pub fn copy(&self, alloc: Global) -> Result<GapList<T>, AllocError>
        ensures { IfOk result (λ copy. copy ≡ self.now) }
    {
        Ok(GapList {
            row: copy_with_room(alloc, self.as_slice(), self.row.capacity())?,
            start: 0,
            most: self.most,
        })
    }

    /// The elements, in order.
    pub fn as_slice(&self) -> &[T]
        ensures { result.now ≡ self.now.items }
    {
        &self.row[self.start..]
    }

    /// How many elements there are.
    pub fn len(&self) -> usize
        ensures { result ≡ length self.now.items }
    {
        self.row.len() - self.start
    }

    /// Whether there is no room for a further one.
    pub fn is_full(&self) -> bool
        ensures { IsTrue result ↔ (self.now.most ≤ length self.now.items) }
    {
        self.most <= self.len()
    }

    /// Adds an element behind the others. It moves them to the front where there is no room behind them, at most once in as many
    /// pushes as the list was made for.
    pub fn push(&mut self, item: T)
        requires { length self.old.items < self.old.most }
        ensures { self.new ≡ record self.old { items = self.old.items ++ item ∷ [] } }
    {
        self.start = make_room(&mut self.row, self.start);
        self.row.push_reserved(item);
    }

    /// Takes the element at a place out. It moves those before it or those behind it, whichever are fewer.
    pub fn take(&mut self, place: usize) -> T
        requires { place < length self.old.items }
        ensures taken { slice_get self.old.items place ≡ Some result }
        ensures left { self.new ≡ record self.old { items = remove self.old.items place } }
    {
        if place < self.len() / 2 {
            let taken = take_up(&mut self.row, self.start, place);
            self.start += 1;
            taken
        } else {
            take_down(&mut self.row, self.start, place)
        }
    }

    /// Puts an element in the place of another.
    pub fn set(&mut self, place: usize, item: T)
        requires { place < length self.old.items }
        ensures { self.new ≡ record self.old { items = slice_set self.old.items place item } }
    {
        self.row[self.start + place] = item;
    }

    /// Takes all elements out.
    pub fn clear(&mut self)
        ensures { self.new ≡ record self.old { items = [] } }
    {
        self.row.clear();
        self.start = 0;
    }
}
