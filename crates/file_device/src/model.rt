// A file in memory, for tests.
ghost use Rattle.std.specs.Prelude.{◌≡◌, ◌⊎◌, ◌+◌, ◌≤◌, ℕ, Some, IfOk, IsTrue, length, true, false};
ghost use Rattle.save_device.specs.Flags.{IsUp};
ghost use Rattle.save_device.specs.Rows.{DiffersOnlyAt, IsInRange, overwritten};
ghost use Rattle.file_device.specs.Kept.{FileMayLeave, IsAtRest, Puts, Flushes};

use crate::DiskFile;
use crate::places::Places;
use std::alloc::{AllocError, Global};
use std::io::{self, ErrorKind};

/// What a read gives where the kernel dropped a page.
const DROPPED: u8 = 0xdd;

/// A file in memory that keeps what the trait says, and no more: so there is one. Calls fail as it was told. A write that
/// fails has written its first half, and a flush that fails loses what wasn't settled.
#[derive(Drop)]
pub struct ModelFile {
    bytes: Vec<u8>,
    unsettled: Places,
    stale: Places,
    /// Which of the next calls fail: the first one by the lowest bit. Behind 64 calls none does.
    pub faults: u64,
    ghost unsettled_size: { length unsettled.flags.items ≡ length bytes.items },
    ghost stale_size: { length stale.flags.items ≡ length bytes.items },
    ghost within: { (place : ℕ) → IsUp stale.flags.items place → IsUp unsettled.flags.items place },
}

impl ModelFile {
    ghost use Rattle.file_device.specs.Model.{kept_of};

    /// A file with these bytes, at rest.
    pub fn new(alloc: Global, bytes: Vec<u8>, faults: u64) -> Result<ModelFile, AllocError>
        ensures rest { IfOk result (λ file. IsAtRest (kept_of file)) }
        ensures bytes { IfOk result (λ file. (kept_of file).bytes ≡ bytes.items) }
    {
        let unsettled = Places::none(alloc, bytes.len())?;
        let stale = Places::none(alloc, bytes.len())?;
        Ok(ModelFile {
            bytes,
            unsettled,
            stale,
            faults,
        })
    }

    /// The machine stops and comes back: the unsettled places have this byte, one of the images that a stop may leave, and the
    /// file is at rest.
    pub fn stop(&mut self, byte: u8)
        ensures left { FileMayLeave (kept_of self.old) (kept_of self.new).bytes }
        ensures rest { IsAtRest (kept_of self.new) }
    {
        spoil(&mut self.bytes, &self.unsettled, byte);
        self.unsettled.clear();
        self.stale.clear();
    }

    /// Makes n places from `at` on such that a stop may leave anything there, as on a disk that loses whole sectors.
    pub fn unsettle(&mut self, at: usize, n: usize)
        requires { at + n ≤ length (kept_of self.old).bytes }
        ensures bytes { (kept_of self.new).bytes ≡ (kept_of self.old).bytes }
        ensures unsettled { (place : ℕ) → IsTrue ((kept_of self.new).unsettled place)
            → IsTrue ((kept_of self.old).unsettled place) ⊎ IsInRange at n place }
        ensures stale { (kept_of self.new).stale ≡ (kept_of self.old).stale }
    {
        self.unsettled.add(at, n);
    }

    fn write(&mut self, at: usize, bytes: &[u8])
        requires { at + length bytes.now ≤ length self.old.bytes.items }
        ensures { Puts at bytes.now true (kept_of self.old) (kept_of self.new) }
    {
        self.unsettled.add(at, bytes.len());
        self.stale.take(at, bytes.len());
        overwrite(&mut self.bytes, at, bytes);
    }

    // A write that fails.
    fn write_half(&mut self, at: usize, bytes: &[u8])
        requires { at + length bytes.now ≤ length self.old.bytes.items }
        ensures { Puts at bytes.now false (kept_of self.old) (kept_of self.new) }
    {
        self.unsettled.add(at, bytes.len());
        self.stale.add(at, bytes.len());
        overwrite(&mut self.bytes, at, &bytes[..bytes.len() / 2]);
    }

    fn settle(&mut self)
        ensures { Flushes true (kept_of self.old) (kept_of self.new) }
    {
        self.unsettled.copy(&self.stale);
    }

    // A flush that fails.
    fn lose(&mut self)
        ensures { Flushes false (kept_of self.old) (kept_of self.new) }
    {
        spoil(&mut self.bytes, &self.unsettled, DROPPED);
        self.stale.copy(&self.unsettled);
    }
}

// Whether the next call fails.
fn next_fails(faults: &mut u64) -> bool {
    let fails = *faults & 1 == 1;
    *faults >>= 1;
    fails
}

// Gives each of these places this byte.
fn spoil(bytes: &mut Vec<u8>, places: &Places, byte: u8)
    requires { length places.now.flags.items ≡ length bytes.old.items }
    ensures { DiffersOnlyAt (IsUp places.now.flags.items) bytes.old.items bytes.new.items }
{
    for place in 0..bytes.len() {
        if places.has(place) {
            bytes[place] = byte;
        }
    }
}

fn overwrite(row: &mut Vec<u8>, at: usize, bytes: &[u8])
    requires { at + length bytes.now ≤ length row.old.items }
    ensures { row.new.items ≡ overwritten row.old.items at bytes.now }
{
    row[at..at + bytes.len()].copy_from_slice(bytes);
}

impl DiskFile for ModelFile {
    ghost use Rattle.file_device.specs.Model.{kept_of};

    ghost kept = { λ file. Some (kept_of file) };

    fn load(&mut self, alloc: Global) -> io::Result<Vec<u8>> {
        Ok(self.bytes.to_vec(alloc)?)
    }

    fn put(&mut self, at: usize, bytes: &[u8]) -> io::Result<()> {
        if next_fails(&mut self.faults) {
            self.write_half(at, bytes);
            return Err(ErrorKind::Other.into());
        }
        self.write(at, bytes);
        Ok(())
    }

    fn flush(&mut self) -> io::Result<()> {
        if next_fails(&mut self.faults) {
            self.lose();
            return Err(ErrorKind::Other.into());
        }
        self.settle();
        Ok(())
    }
}
