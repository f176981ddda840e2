// A file of sectors in memory, for tests.
ghost use Rattle.std.specs.Prelude.{◌≡◌, ◌⊎◌, ℕ, ◌+◌, ◌*◌, ◌<◌, ◌≤◌, ◌^◌, Some, IfOk, IsTrue, is_ok, length, replicate};
ghost use Rattle.file_device.specs.Kept.{FileMayLeave, IsAtRest};
ghost use Rattle.file_device.specs.Model.{kept_of};
ghost use Rattle.sector_device.specs.Backing.{HasSectors};
ghost use Rattle.sector_device.specs.Sectors.{IsTouched, PutsSectors};

use crate::SectorFile;
use crate::file::SECTOR;
use file_device::{DiskFile, ModelFile};
use std::alloc::{AllocError, Global};
use std::io;

/// A file in memory that keeps what the trait says, and no more: so there is one. Before each write it unsettles all of the sectors
/// that the write touches.
#[derive(Drop)]
pub struct ModelSectorFile {
    file: ModelFile,
    pub ghost sectors: { HasSectors (length (kept_of file).bytes) },
    ghost fits: { length (kept_of file).bytes < 2 ^ 64 },
}

impl ModelSectorFile {
    /// A file of so many sectors of zeros, at rest, of whose calls these fail, as those of a `ModelFile`.
    pub fn new(alloc: Global, sectors: usize, faults: u64) -> Result<ModelSectorFile, AllocError>
        requires { 512 * sectors < 2 ^ 64 }
        ensures rest { IfOk result (λ file. IsAtRest (kept_of file.file)) }
        ensures bytes { IfOk result (λ file. (kept_of file.file).bytes
            ≡ replicate (512 * sectors) 0) }
    {
        let bytes = Vec::from_elem(alloc, 0, SECTOR * sectors)?;
        Ok(ModelSectorFile {
            file: ModelFile::new(alloc, bytes, faults)?,
        })
    }

    /// Of its next calls these fail: the first one by the lowest bit.
    pub fn fail(&mut self, faults: u64)
        ensures { kept_of self.new.file ≡ kept_of self.old.file }
    {
        self.file.faults = faults;
    }

    /// The machine stops and comes back: the unsettled places have this byte, and the file is at rest.
    pub fn stop(&mut self, byte: u8)
        ensures left { FileMayLeave (kept_of self.old.file) (kept_of self.new.file).bytes }
        ensures rest { IsAtRest (kept_of self.new.file) }
    {
        self.file.stop(byte);
    }

    // Makes the sectors that a write of n bytes from `at` on touches such that a stop may leave anything there.
    fn unsettle(&mut self, at: usize, n: usize)
        requires { at + n ≤ length (kept_of self.old.file).bytes }
        ensures bytes { (kept_of self.new.file).bytes ≡ (kept_of self.old.file).bytes }
        ensures unsettled { (place : ℕ) → IsTrue ((kept_of self.new.file).unsettled place)
            → IsTrue ((kept_of self.old.file).unsettled place) ⊎ IsTouched at n place }
        ensures stale { (kept_of self.new.file).stale ≡ (kept_of self.old.file).stale }
    {
        if n > 0 {
            let low = at / SECTOR * SECTOR;
            let high = (at + n - 1) / SECTOR * SECTOR + SECTOR;
            self.file.unsettle(low, high - low);
        }
    }

    fn write(&mut self, at: usize, bytes: &[u8]) -> io::Result<()>
        requires { at + length bytes.now ≤ length (kept_of self.old.file).bytes }
        ensures { PutsSectors at bytes.now (is_ok result)
            (kept_of self.old.file) (kept_of self.new.file) }
    {
        self.unsettle(at, bytes.len());
        self.file.put(at, bytes)
    }
}

impl SectorFile for ModelSectorFile {
    ghost kept = { λ file. Some (kept_of file.file) };

    fn load(&mut self, alloc: Global) -> io::Result<Vec<u8>> {
        self.file.load(alloc)
    }

    fn put(&mut self, at: usize, bytes: &[u8]) -> io::Result<()> {
        self.write(at, bytes)
    }

    fn flush(&mut self) -> io::Result<()> {
        self.file.flush()
    }
}
