// A life on a file, with standard input.
ghost use Rattle.std.specs.Prelude.{IfOk};
ghost use Rattle.file_device.specs.Kept.{IfKept, IsAtRest};

use crate::console::Console;
use crate::fault::LiveFault;
use crate::living::live_on;
use file_device::{HostFile, OpenFault};
use interleave_map::cells::line_count;
use interleave_map::{Interleaving, ReadyMap};
use nv_profile::Profile;
use script_runner::Wiring;
use sector_device::{SPARE_PLACE, SectorDevice, SectorFile};
use slot_store::device_size;
use std::fs::{OpenOptions, TryLockError};
use std::io::{BufReader, Input, IsTerminal, Write};

/// What a life asks of the system beside standard input: files for devices, and whether a person types.
pub trait Host {
    type File: SectorFile + Drop;

    /// The file at the path, at rest, of so many bytes. It is made of zeros where there is none, and one that lacks the spare place
    /// alone grows by it first.
    fn open_store(&self, path: &str, len: u64) -> Result<Self::File, OpenFault>
        ensures { IfOk result (λ file. IfKept IsAtRest (Self.File.SectorFile.kept file)) };

    /// Are standard input and standard output a terminal?
    fn is_typed(&self) -> bool;
}

// Lets a file that lacks its last bytes, those of a spare place, grow by zeros up to this length, and makes that durable. Nothing is
// written to it, so that a stop leaves the one length or the other. What isn't such a file stays as it is.
fn grow(rt: &HostRuntime, path: &str, len: u64) -> Result<(), OpenFault> {
    let Ok(file) = OpenOptions::new().read(true).write(true).open(rt, path) else {
        return Ok(());
    };
    match file.try_lock() {
        Ok(()) => {}
        Err(TryLockError::WouldBlock) => return Err(OpenFault::Busy),
        Err(TryLockError::Error(error)) => return Err(OpenFault::Io(error)),
    }
    let found = file.metadata()?;
    let bare = len.saturating_sub(SPARE_PLACE as u64);
    if found.is_file() && found.len() > 0 && found.len() == bare {
        file.set_len(len)?;
        file.sync_all()?;
    }
    Ok(())
}

impl Host for HostRuntime {
    type File = HostFile;

    fn open_store(&self, path: &str, len: u64) -> Result<HostFile, OpenFault> {
        grow(self, path, len)?;
        HostFile::open(self, path, len)
    }

    fn is_typed(&self) -> bool {
        self.stdin().is_terminal() && self.stdout().is_terminal()
    }
}

/// Lives on the file of this name, as `live_on` does: answers the lines of standard input, each before the next one is read. The file
/// is made where there is none; it has the bytes of the device and behind them its spare place. On a terminal the mode stands before
/// each line that is typed.
pub fn live<R: Host + Input + AllocGlobal, W: Write>(
    rt: &R,
    profile: &Profile,
    path: &str,
    writer: &mut W,
) -> Result<(), LiveFault> {
    let alloc = rt.alloc();
    let size = device_size(line_count(&profile.checked) as usize);
    let len = (size as u64).saturating_add(SPARE_PLACE as u64);
    let file = rt.open_store(path, len)?;
    let device = match SectorDevice::over(alloc, file) {
        Ok(device) => device,
        Err(error) => return Err(LiveFault::Open(OpenFault::Io(error))),
    };
    let Ok(reader) = BufReader::new(alloc, rt.reader()) else {
        return Err(LiveFault::Memory);
    };
    let mut console = Console::new(reader, writer, rt.is_typed());
    let lines = ReadyMap {
        interleaving: Interleaving::Lines,
        checked: profile.checked,
    };
    let xor = ReadyMap {
        interleaving: Interleaving::Xor,
        checked: profile.checked,
    };
    let wiring = Wiring::new(&lines, &xor, profile);
    let _after = live_on(alloc, profile, &wiring, device, &mut console)?;
    Ok(())
}
