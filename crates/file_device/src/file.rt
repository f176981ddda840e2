// A file as a device uses it.
ghost use Rattle.std.specs.Prelude.{◌≡◌, ◌+◌, ◌≤◌, Option, length, is_ok, IfOk};
ghost use Rattle.file_device.specs.Kept.{Kept, IfKept, BothKept, IsAtRest, Puts, Flushes};

use std::alloc::Global;
use std::io;

/// A file of fixed length that a device writes through to. Its type may say what the file keeps; one that says `None` claims
/// nothing, as that of a real file does.
///
/// Where it is said: what was flushed stays. A stop, a kill of the process or a loss of power at whatever moment of a call,
/// may leave anything in each range that was put since, and leaves all other bytes as they are. A flush doesn't settle what
/// was put before a call failed, until it is put again: a kernel may drop pages that it failed to write.
pub trait DiskFile {
    /// What is known of the file.
    ghost kept: { Self → Option Kept };

    /// All its bytes.
    fn load(&mut self, alloc: Global) -> io::Result<Vec<u8>>
        requires { IfKept IsAtRest (kept self.old) }
        ensures bytes { IfOk result (λ bytes. IfKept (λ kept. bytes.items ≡ kept.bytes)
            (kept self.old)) }
        ensures same { kept self.new ≡ kept self.old };

    /// Writes the bytes from `at` on. Where it fails, some of them may have been written.
    fn put(&mut self, at: usize, bytes: &[u8]) -> io::Result<()>
        requires { IfKept (λ kept. at + length bytes.now ≤ length kept.bytes) (kept self.old) }
        ensures { BothKept (Puts at bytes.now (is_ok result)) (kept self.old) (kept self.new) };

    /// Makes what was put durable.
    fn flush(&mut self) -> io::Result<()>
        ensures { BothKept (Flushes (is_ok result)) (kept self.old) (kept self.new) };
}
