// Standard output that may be closed by its reader, or take no more.
ghost use Rattle.std.specs.Prelude.{◌≡◌, None, Some, false};
ghost use Rattle.std.specs.Io.{WritesAtMost};
ghost use Rattle.std.specs.Io.KnownBytes.{Keeps, WriteAppends};
ghost use Rattle.command_line.specs.Outlets.{IsNoted, IsNotedOf};

use command_faults::{Failure, Reason};
use std::io::{self, BufWriter, ErrorKind, Write};

/// A writer that tells why it took no more.
pub trait Outgoing: Write {
    /// Why the last call that failed did; None where none did.
    fn refusal(&self) -> Option<io::Error>;
}

/// The failure with its reason, which the writer has where it was the one that took no more.
pub(crate) fn explained<'a, W: Outgoing>(failure: Failure<'a>, writer: &W) -> Failure<'a>
    ensures { result.fault ≡ failure.entry.fault }
{
    let reason = match writer.refusal() {
        Some(error) => Reason::of_error(&error),
        None => None,
    };
    Failure {
        fault: failure.fault,
        reason: failure.reason.or(reason),
    }
}

/// A writer that notes why a call was last refused, and whether one was since nobody reads any more: a pipe that its reader has
/// closed.
#[derive(Drop)]
pub struct Outlet<W> {
    inner: W,
    is_closed: bool,
    refusal: Option<io::Error>,
}

impl<W: Write> Outlet<W> {
    /// Around a writer.
    pub fn new(inner: W) -> Outlet<W>
        ensures inner { result.inner ≡ inner }
        ensures open { result.is_closed ≡ false }
        ensures none { result.refusal ≡ None }
    {
        Outlet {
            inner,
            is_closed: false,
            refusal: None,
        }
    }

    /// Was a write refused for that?
    pub fn is_closed(&self) -> bool
        ensures { result ≡ self.now.is_closed }
    {
        self.is_closed
    }

    fn note(&mut self, error: &io::Error)
        ensures inner { self.new.inner ≡ self.old.inner }
        ensures noted { IsNoted error.now self.old.is_closed self.new.is_closed }
        ensures refusal { self.new.refusal ≡ Some error.now }
    {
        self.refusal = Some(*error);
        if error.kind() == ErrorKind::BrokenPipe {
            self.is_closed = true;
        }
    }
}

impl<W: Write> Write for Outlet<W> {
    ghost contents = { λ outlet. W.contents outlet.inner };

    fn write(&mut self, buf: &[u8]) -> io::Result<usize>
        ensures bound { WritesAtMost result buf.now }
        ensures bytes { WriteAppends (W.contents self.old.inner) (W.contents self.new.inner)
            result buf.now }
        ensures noted { IsNotedOf result self.old.is_closed self.new.is_closed }
    {
        match self.inner.write(buf) {
            Ok(count) => Ok(count),
            Err(error) => {
                self.note(&error);
                Err(error)
            }
        }
    }

    fn flush(&mut self) -> io::Result<()>
        ensures bytes { Keeps (W.contents self.old.inner) (W.contents self.new.inner) }
        ensures noted { IsNotedOf result self.old.is_closed self.new.is_closed }
    {
        match self.inner.flush() {
            Ok(()) => Ok(()),
            Err(error) => {
                self.note(&error);
                Err(error)
            }
        }
    }
}

impl<W: Write> Outgoing for Outlet<W> {
    fn refusal(&self) -> Option<io::Error>
        ensures { result ≡ self.now.refusal }
    {
        self.refusal
    }
}

impl<W: Write + Drop> Outgoing for BufWriter<Outlet<W>> {
    fn refusal(&self) -> Option<io::Error> {
        self.get_ref().refusal()
    }
}
