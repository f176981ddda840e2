// A file as a device of sectors uses it.
ghost use Rattle.std.specs.Prelude.{◌≡◌, ◌+◌, ◌≤◌, Option, length, is_ok, IfOk};
ghost use Rattle.file_device.specs.Kept.{Kept, IfKept, BothKept, IsAtRest, Flushes};
ghost use Rattle.sector_device.specs.Sectors.{PutsSectors};

use std::alloc::Global;
use std::io;

/// The bytes of a sector.
pub(crate) const SECTOR: usize = 512;

/// A file of fixed length that a device writes to, on a disk that loses whole sectors. Its type may say what the file keeps; one
/// that says `None` claims nothing, as that of a real file does.
///
/// Where it is said: what was flushed stays. A stop at whatever moment of a call may leave anything in each sector of 512 bytes that
/// was touched since, and leaves all other bytes as they are. A flush doesn't settle what was put before a call failed, until it is
/// put again: a kernel may drop pages that it failed to write.
pub trait SectorFile {
    /// What is known of the file.
    ghost kept: { Self → Option Kept };

    /// All its bytes.
    fn load(&mut self, alloc: Global) -> io::Result<Vec<u8>>
        requires { IfKept IsAtRest (kept self.old) }
        ensures bytes { IfOk result (λ bytes. IfKept (λ kept. bytes.items ≡ kept.bytes)
            (kept self.old)) }
        ensures same { kept self.new ≡ kept self.old };

    /// Writes the bytes from `at` on. Where it fails, some of them may have been written.
    fn put(&mut self, at: usize, bytes: &[u8]) -> io::Result<()>
        requires { IfKept (λ kept. at + length bytes.now ≤ length kept.bytes) (kept self.old) }
        ensures { BothKept (PutsSectors at bytes.now (is_ok result))
            (kept self.old) (kept self.new) };

    /// Makes what was put durable.
    fn flush(&mut self) -> io::Result<()>
        ensures { BothKept (Flushes (is_ok result)) (kept self.old) (kept self.new) };
}
