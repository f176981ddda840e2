// Standard output that may be closed, or take no more.
use crate::check::same;
use crate::program::{make, outcome, outcome_watched, place, remove};
use command_line::Outlet;
use std::io::{self, ErrorKind, Write};
use std::process::{self, ExitCode};

// A writer that refuses each call, for a reason of this kind.
#[derive(Drop)]
struct Refusing {
    kind: ErrorKind,
}

impl Write for Refusing {
    fn write(&mut self, _: &[u8]) -> io::Result<usize> {
        Err(io::Error::from(self.kind))
    }

    fn flush(&mut self) -> io::Result<()> {
        Err(io::Error::from(self.kind))
    }
}

#[test]
fn a_pipe_that_its_reader_closed(rt: HostRuntime) {
    for (kind, closed) in [
        (ErrorKind::BrokenPipe, true),
        (ErrorKind::StorageFull, false),
    ] {
        let mut written = Outlet::new(Refusing { kind });
        same(&rt, written.is_closed(), false);
        same(&rt, written.write(b"a line\n").is_ok(), false);
        same(&rt, written.is_closed(), closed);
        let mut flushed = Outlet::new(Refusing { kind });
        same(&rt, flushed.flush().is_ok(), false);
        same(&rt, flushed.is_closed(), closed);
    }
}

#[test]
fn an_output_that_takes_no_more(rt: HostRuntime) {
    let place = place(&rt, process::id(rt.process()));
    let place = place.as_str();
    make(&rt, place, "%script", b"mark\n");
    let kind = ErrorKind::StorageFull;
    for (words, line) in [
        (
            ["run", "tiny", "%script", "--why"],
            "file -\nthere is no room for it",
        ),
        (["run", "tiny", "%script", "--json"], "file -"),
    ] {
        let (code, told) = outcome(&rt, place, &words, &mut Refusing { kind });
        same(&rt, (code, told.as_str()), (ExitCode::FAILURE, line));
    }
    for (is_watched, line) in [(true, "file -\nthere is no room for it"), (false, "file -")] {
        let mut writer = Refusing { kind };
        let (code, told) = outcome_watched(&rt, place, &["-V"], is_watched, &mut writer);
        same(&rt, (code, told.as_str()), (ExitCode::FAILURE, line));
    }
    remove(&rt, place, "%script");
}
