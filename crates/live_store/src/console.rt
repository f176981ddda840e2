// Talk by a reader and a writer.
ghost use Rattle.std.specs.Prelude.{◌≡◌, true, false, Bool, List, [], map};

use crate::talk::{Said, Talk, TalkFault};
use arm_state::Mode;
use ghost_trace::Trace;
use std::io::{self, BufRead, ErrorKind, Read, Write};

/// No line of a script has as many bytes, its newline counted.
const MOST: u64 = 258;

/// Hears the lines that a reader gives, and writes each thing that is said as a line. A line of which more than 256 bytes come is
/// heard as its first 258, which no script has. With a prompt it writes the mode before it hears.
#[derive(Drop)]
pub struct Console<R: BufRead, W: Write> {
    reader: R,
    writer: W,
    prompts: bool,
    is_out: bool,
    is_over: bool,
    heard: Trace<Vec<u8>>,
    said: Trace<Said>,
}

impl<R: BufRead, W: Write> Console<R, W> {
    /// Talk in which nothing was heard or said yet.
    pub fn new(reader: R, writer: W, prompts: bool) -> Console<R, W>
        ensures said { ⟦<Console<R, W> as Talk>⟧.said result ≡ [] }
        ensures heard { ⟦<Console<R, W> as Talk>⟧.heard result ≡ [] }
        ensures out { ⟦<Console<R, W> as Talk>⟧.is_out result ≡ true }
    {
        Console {
            reader,
            writer,
            prompts,
            is_out: true,
            is_over: false,
            heard: Trace::new(),
            said: Trace::new(),
        }
    }

    // Writes the mode, where a person types.
    fn prompt(&mut self, mode: Mode) -> io::Result<()>
        ensures said { self.new.said ≡ self.old.said }
        ensures heard { self.new.heard ≡ self.old.heard }
    {
        if self.prompts {
            write!(self.writer, "{mode}> ")?;
            self.writer.flush()?;
        }
        Ok(())
    }
}

// A line in place of what `line` has, without its newline; false at the end.
fn read_line<R: BufRead>(reader: &mut R, line: &mut Vec<u8>) -> Result<bool, TalkFault> {
    line.clear();
    let read = match reader.by_ref().take(MOST).read_until(b'\n', line) {
        Ok(read) => read,
        Err(error) => return Err(fault_of(&error)),
    };
    if line.last() == Some(&b'\n') {
        line.truncate(line.len() - 1);
    } else if read as u64 == MOST {
        if let Err(error) = reader.skip_until(b'\n') {
            return Err(fault_of(&error));
        }
    }
    Ok(read > 0)
}

fn fault_of(error: &io::Error) -> TalkFault {
    if error.kind() == ErrorKind::OutOfMemory {
        TalkFault::Memory
    } else {
        TalkFault::Reader
    }
}

impl<R: BufRead, W: Write> Talk for Console<R, W> {
    ghost heard = { λ console. map (λ line. line.items) console.heard.items };

    ghost said = { λ console. console.said.items };

    ghost is_out = { λ console. console.is_out };

    ghost is_over = { λ console. console.is_over };

    fn hear(&mut self, mode: Mode, line: &mut Vec<u8>) -> Result<bool, TalkFault> {
        if self.prompt(mode).is_err() {
            return Err(TalkFault::Writer);
        }
        // behind the end of its input a terminal may give more
        if self.is_over {
            return Ok(false);
        }
        if !read_line(&mut self.reader, line)? {
            self.is_over = true;
            return Ok(false);
        }
        self.heard.note(line);
        Ok(true)
    }

    fn say(&mut self, what: Said) -> Result<(), TalkFault> {
        self.is_out = false;
        match writeln!(self.writer, "{what}") {
            Ok(()) => {
                self.said.note(&what);
                Ok(())
            }
            Err(_) => Err(TalkFault::Writer),
        }
    }

    fn flush(&mut self) -> Result<(), TalkFault> {
        if self.is_out {
            return Ok(());
        }
        match self.writer.flush() {
            Ok(()) => {
                self.is_out = true;
                Ok(())
            }
            Err(_) => Err(TalkFault::Writer),
        }
    }
}

impl<R: BufRead + Drop, W: Write> Console<R, W> {
    /// Its writer.
    pub fn into_writer(self) -> W
        ensures { result ≡ self.writer }
    {
        self.writer
    }
}
