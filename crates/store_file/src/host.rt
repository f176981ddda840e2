// A store in a file of the operating system.
ghost use Rattle.std.specs.Prelude.{◌≡◌, None, IfOk, length};

use crate::form::{Form, store_bytes, zeros};
use crate::store::{Store, StoreHost};
use file_device::OpenFault;
use sector_device::SPARE_PLACE;
use std::alloc::Global;
use std::fs::{self, File, OpenFile, OpenOptions, Permissions, TryLockError};
use std::io::{self, ErrorKind, Write};
use std::os::unix::fs::{FileExt, OpenOptionsExt, PermissionsExt};
use std::path::Path;
use std::rt::Files;

/// A file, locked against other processes, or the path of one that isn't there yet. Nothing is known of what it has, since no contract
/// can say that: it rests on this, that a file which is flushed and renamed over another one has taken its place on the disk once
/// the folder is flushed, and that until then the one or the other stands there whole.
#[derive(Drop)]
pub struct HostStore {
    path: String,
    file: Option<File>,
}

// A path's own bytes.
fn owned(alloc: Global, path: &str) -> io::Result<String> {
    let mut text = String::new(alloc);
    text.push_str(path)?;
    Ok(text)
}

impl HostStore {
    /// Opens the file at the path, behind a link too. What is no regular file is refused, and one in use.
    pub fn open(rt: &HostRuntime, path: &str) -> Result<HostStore, OpenFault> {
        let file = match OpenOptions::new().read(true).write(true).open(rt, path) {
            Ok(file) => file,
            Err(error) if error.kind() == ErrorKind::NotFound => {
                let path = owned(rt.alloc(), path)?;
                return Ok(HostStore { path, file: None });
            }
            Err(error) => return Err(OpenFault::Io(error)),
        };
        if !file.metadata()?.is_file() {
            return Err(OpenFault::NoFile);
        }
        match file.try_lock() {
            Ok(()) => {}
            Err(TryLockError::WouldBlock) => return Err(OpenFault::Busy),
            Err(TryLockError::Error(error)) => return Err(OpenFault::Io(error)),
        }
        let place = fs::canonicalize(rt, path)?;
        let path = owned(rt.alloc(), place.as_str())?;
        Ok(HostStore {
            path,
            file: Some(file),
        })
    }
}

// Zeros for a device of so many bytes and its spare place.
fn blank(alloc: Global, size: usize) -> io::Result<Vec<u8>> {
    let device = zeros(alloc, size)?;
    Ok(store_bytes(alloc, &device, Form::Spare)?)
}

fn read_all(alloc: Global, file: &File, len: usize) -> io::Result<Vec<u8>> {
    let mut bytes = zeros(alloc, len)?;
    file.read_exact_at(&mut bytes, 0)?;
    Ok(bytes)
}

// Makes the folder's entry for the file durable.
fn sync_folder<R: Files>(rt: &R, path: &str) -> io::Result<()> {
    let folder = match Path::new(path).parent() {
        Some(folder) if !folder.as_str().is_empty() => folder,
        _ => Path::new("."),
    };
    File::open(rt, folder)?.sync_all()
}

// Who may read and write a file that takes the place of another one.
#[derive(Drop)]
enum Access {
    Owner,
    // as the system lets a file be made
    Usual,
    Kept(Permissions),
}

impl Access {
    fn mode(&self) -> u32 {
        match self {
            Access::Owner => 0o600,
            Access::Usual => 0o666,
            Access::Kept(permissions) => permissions.mode(),
        }
    }
}

fn write_whole<R: Files>(rt: &R, path: &str, bytes: &[u8], access: Access) -> io::Result<()> {
    let mut file = OpenOptions::new()
        .write(true)
        .create(true)
        .truncate(true)
        .mode(access.mode())
        .open(rt, path)?;
    file.write_all(bytes)?;
    if let Access::Kept(permissions) = access {
        fs::set_permissions(rt, path, permissions)?;
    }
    file.sync_all()
}

// Gives the file at the path these bytes, by one beside it, `PATH.new`, which is flushed and then renamed over it, and the folder is
// flushed behind that. Where a call fails before the renaming, the old one stays as it was.
fn replace_file<R: Files + AllocGlobal>(
    rt: &R,
    path: &str,
    bytes: &[u8],
    access: Access,
) -> io::Result<()> {
    let mut beside = owned(rt.alloc(), path)?;
    beside.push_str(".new")?;
    let mut replaced = write_whole(rt, &beside, bytes, access);
    if replaced.is_ok() {
        replaced = fs::rename(rt, beside.as_str(), path);
    }
    if replaced.is_err() {
        let _ = fs::remove_file(rt, beside.as_str());
        return replaced;
    }
    sync_folder(rt, path)
}

// The same with a file that is there, behind a link too. One that may not be written is refused.
fn replace_regular<R: Files + AllocGlobal>(
    rt: &R,
    path: &str,
    bytes: &[u8],
    access: Access,
) -> io::Result<()> {
    OpenOptions::new().write(true).open(rt, path)?;
    let place = fs::canonicalize(rt, path)?;
    replace_file(rt, place.as_str(), bytes, access)
}

/// Leaves these bytes in the file at the path, as a store is replaced: at whatever moment a stop comes, the file has its old bytes or
/// these. One that is there keeps its mode. What is no regular file, as a terminal or a pipe, is written as it stands.
pub fn leave_file<R: Files + AllocGlobal>(rt: &R, path: &str, bytes: &[u8]) -> io::Result<()> {
    match fs::metadata(rt, path) {
        Ok(found) if found.is_file() => {
            replace_regular(rt, path, bytes, Access::Kept(found.permissions()))
        }
        Ok(_) => fs::write(rt, path, bytes),
        Err(error) if error.kind() == ErrorKind::NotFound => {
            replace_file(rt, path, bytes, Access::Usual)
        }
        Err(error) => Err(error),
    }
}

impl Store for HostStore {
    ghost kept = { λ _. None };

    fn load(&mut self, alloc: Global, size: usize) -> Result<Vec<u8>, OpenFault> {
        let Some(file) = &self.file else {
            return Ok(blank(alloc, size)?);
        };
        let found = file.metadata()?.len();
        let bare = size as u64;
        let wanted = bare.saturating_add(SPARE_PLACE as u64);
        if found != bare && found != wanted {
            return Err(OpenFault::WrongLength { found, wanted });
        }
        let Ok(len) = usize::try_from(found) else {
            return Err(OpenFault::WrongLength { found, wanted });
        };
        Ok(read_all(alloc, file, len)?)
    }

    fn replace<R: Files + AllocGlobal>(&mut self, rt: &R, bytes: &[u8]) -> io::Result<()> {
        replace_file(rt, &self.path, bytes, Access::Owner)
    }
}

impl StoreHost for HostRuntime {
    type Store = HostStore;

    fn open_kept(&self, path: &str) -> Result<HostStore, OpenFault> {
        HostStore::open(self, path)
    }
}
