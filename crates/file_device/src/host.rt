// A file of the operating system.
ghost use Rattle.std.specs.Prelude.{◌≡◌, None, IfOk, length};
ghost use Rattle.save_device.specs.Device.{IsSettled};
ghost use Rattle.save_device.specs.Memory.{state_of};

use crate::{DiskFile, FileDevice};
use save_device::SaveDevice;
use std::alloc::Global;
use std::fs::{File, OpenOptions, TryLockError};
use std::io::{self, ErrorKind};
use std::os::unix::fs::{FileExt, OpenOptionsExt};
use std::path::Path;
use thiserror::Error;

/// How many zeros are written at once to a file that is made.
const CHUNK: usize = 1 << 16;

/// Why no device was opened.
#[derive(Clone, Copy, Debug, Error)]
pub enum OpenFault {
    /// The system's own reason: no permission, a folder, no room.
    #[error("the file: {0}")]
    Io(io::Error),
    #[error("the file is in use")]
    Busy,
    #[error("it is no regular file")]
    NoFile,
    #[error("the file has {found} bytes and not {wanted}")]
    WrongLength { found: u64, wanted: u64 },
}

impl From<io::Error> for OpenFault {
    fn from(error: io::Error) -> OpenFault {
        OpenFault::Io(error)
    }
}

/// An open file of the operating system, locked against other processes. Nothing is known of what it keeps, since no contract
/// can say that. A device over it rests on five points about the file system and the disk, which no proof shows:
///
/// 1. What was written before a good `fdatasync` stays, over a kill and over a loss of power. A disk that answers it early
///    breaks this.
/// 2. A write that a stop breaks off, or that wasn't synced, may leave anything in its own range of bytes, and nothing
///    elsewhere. A disk that loses the whole sector in which it was writing breaks this.
/// 3. Nothing else writes the file. The lock only keeps out programs that ask for it too.
/// 4. What is read as the file is opened, behind a good `fsync`, is what stands on the disk.
/// 5. Each method makes the call of the system that its name says.
#[derive(Drop)]
pub struct HostFile {
    file: File,
}

impl DiskFile for HostFile {
    ghost kept = { λ _. None };

    fn load(&mut self, alloc: Global) -> io::Result<Vec<u8>> {
        let len = self.file.metadata()?.len();
        let Ok(len) = usize::try_from(len) else {
            return Err(ErrorKind::FileTooLarge.into());
        };
        let mut bytes = Vec::from_elem(alloc, 0, len)?;
        self.file.read_exact_at(&mut bytes, 0)?;
        Ok(bytes)
    }

    fn put(&mut self, at: usize, bytes: &[u8]) -> io::Result<()> {
        self.file.write_all_at(bytes, at as u64)
    }

    fn flush(&mut self) -> io::Result<()> {
        self.file.sync_data()
    }
}

// The file, made where there is none, and locked.
fn open_or_make(rt: &HostRuntime, path: &str) -> Result<File, OpenFault> {
    let file = OpenOptions::new()
        .read(true)
        .write(true)
        .create(true)
        .mode(0o600)
        .open(rt, path)?;
    if !file.metadata()?.is_file() {
        return Err(OpenFault::NoFile);
    }
    match file.try_lock() {
        Ok(()) => Ok(file),
        Err(TryLockError::WouldBlock) => Err(OpenFault::Busy),
        Err(TryLockError::Error(error)) => Err(OpenFault::Io(error)),
    }
}

// Writes zeros to the whole file, so that the disk has room for each byte.
fn write_zeros(file: &File, len: u64) -> io::Result<()> {
    let zeros = [0; CHUNK];
    let mut at = 0;
    while at < len {
        let part = (len - at).min(CHUNK as u64);
        file.write_all_at(&zeros[..part as usize], at)?;
        at += part;
    }
    Ok(())
}

// Gives an empty file its length. It is empty again where there is no room. A kill leaves it empty or with its whole length.
fn fill(file: &File, len: u64) -> io::Result<()> {
    let result = file.set_len(len).and_then(|()| write_zeros(file, len));
    if result.is_err() {
        let _ = file.set_len(0);
    }
    result
}

// Makes the folder's entry for the file durable.
fn sync_folder(rt: &HostRuntime, path: &str) -> io::Result<()> {
    let folder = match Path::new(path).parent() {
        Some(folder) if !folder.as_str().is_empty() => folder,
        _ => Path::new("."),
    };
    File::open(rt, folder)?.sync_all()
}

impl HostFile {
    /// Opens the file at the path, or makes one of so many zero bytes, which its owner alone may read and write. What stands
    /// there is made durable. A file of another length, one in use and what is no file are refused, and nothing is changed.
    pub fn open(rt: &HostRuntime, path: &str, len: u64) -> Result<HostFile, OpenFault> {
        let file = open_or_make(rt, path)?;
        let found = file.metadata()?.len();
        if found == 0 {
            fill(&file, len)?;
        } else if found != len {
            return Err(OpenFault::WrongLength { found, wanted: len });
        }
        file.sync_all()?;
        sync_folder(rt, path)?;
        Ok(HostFile { file })
    }
}

impl FileDevice<HostFile> {
    /// A device of so many bytes over the file at the path, which is made of zeros where there is none.
    pub fn open(rt: &HostRuntime, path: &str, len: usize) -> Result<FileDevice<HostFile>, OpenFault>
        ensures settled { IfOk result (λ device. IsSettled (state_of device.mirror)) }
        ensures size { IfOk result (λ device. length (state_of device.mirror).bytes ≡ len) }
    {
        let wanted = len as u64;
        let device = FileDevice::over(rt.alloc(), HostFile::open(rt, path, wanted)?)?;
        if device.len() != len {
            let found = device.len() as u64;
            return Err(OpenFault::WrongLength { found, wanted });
        }
        Ok(device)
    }
}
