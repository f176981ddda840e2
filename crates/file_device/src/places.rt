// Places of a row.
ghost use Rattle.std.specs.Prelude.{◌≡◌, ◌↔◌, ℕ, IsTrue, ◌+◌, ◌<◌, ◌≤◌, length, replicate, IfOk};
ghost use Rattle.save_device.specs.Flags.{AllUpWithin, IsUp};
ghost use Rattle.save_device.specs.Rows.{IsInRange, overwritten};
ghost use Rattle.file_device.specs.Places.{Adds, Takes};

use std::alloc::{AllocError, Global};

fn put_flags(flags: &mut Vec<bool>, at: usize, n: usize, flag: bool)
    requires { at + n ≤ length flags.old.items }
    ensures { flags.new.items ≡ overwritten flags.old.items at (replicate n flag) }
{
    flags[at..at + n].fill(flag);
}

/// Some places of a row of bytes, as a flag for each. All of them lie from `low` on and below `high`.
#[derive(Drop)]
pub struct Places {
    flags: Vec<bool>,
    low: usize,
    high: usize,
    ghost spanned: { AllUpWithin low high flags.items },
    ghost inside: { high ≤ length flags.items },
}

impl Places {
    /// No place of a row of this length.
    pub fn none(alloc: Global, len: usize) -> Result<Places, AllocError>
        ensures len { IfOk result (λ places. length places.flags.items ≡ len) }
        ensures none { IfOk result (λ places. (place : ℕ) → ¬ IsUp places.flags.items place) }
    {
        let flags = Vec::from_elem(alloc, false, len)?;
        Ok(Places {
            flags,
            low: usize::MAX,
            high: 0,
        })
    }

    /// Whether this place is among them.
    pub fn has(&self, place: usize) -> bool
        requires { place < length self.now.flags.items }
        ensures { IsTrue result ↔ IsUp self.now.flags.items place }
    {
        self.flags[place]
    }

    /// From this place on.
    pub fn first(&self) -> usize
        ensures { (place : ℕ) → IsUp self.now.flags.items place → result ≤ place }
    {
        self.low
    }

    /// Below this place.
    pub fn end(&self) -> usize
        ensures within { result ≤ length self.now.flags.items }
        ensures below { (place : ℕ) → IsUp self.now.flags.items place → place < result }
    {
        self.high
    }

    /// Adds the n places from `at` on.
    pub fn add(&mut self, at: usize, n: usize)
        requires { at + n ≤ length self.old.flags.items }
        ensures { Adds at n self.old.flags.items self.new.flags.items }
    {
        put_flags(&mut self.flags, at, n, true);
        self.low = self.low.min(at);
        self.high = self.high.max(at + n);
    }

    /// Takes the n places from `at` on out.
    pub fn take(&mut self, at: usize, n: usize)
        requires { at + n ≤ length self.old.flags.items }
        ensures { Takes at n self.old.flags.items self.new.flags.items }
    {
        put_flags(&mut self.flags, at, n, false);
    }

    /// The same places as these.
    pub fn copy(&mut self, from: &Places)
        requires { length from.now.flags.items ≡ length self.old.flags.items }
        ensures { self.new.flags.items ≡ from.now.flags.items }
    {
        self.flags.copy_from_slice(&from.flags);
        self.low = from.low;
        self.high = from.high;
    }

    /// Takes all out.
    pub fn clear(&mut self)
        ensures len { length self.new.flags.items ≡ length self.old.flags.items }
        ensures none { (place : ℕ) → ¬ IsUp self.new.flags.items place }
    {
        if self.low < self.high {
            let n = self.high - self.low;
            put_flags(&mut self.flags, self.low, n, false);
        }
        self.low = usize::MAX;
        self.high = 0;
    }

    /// How many places from `at` on are all among them, of the first `most`.
    pub fn run_at(&self, at: usize, most: usize) -> usize
        requires { at < length self.now.flags.items }
        ensures most { result ≤ most }
        ensures within { at + result ≤ length self.now.flags.items }
        ensures all { (place : ℕ) → IsInRange at result place → IsUp self.now.flags.items place }
        ensures none { result ≡ 0 → 0 < most → ¬ IsUp self.now.flags.items at }
    {
        let mut n = 0;
        for flag in &self.flags[at..] {
            if !*flag || n == most {
                break;
            }
            n += 1;
        }
        n
    }
}
