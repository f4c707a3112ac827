use std::fs::{File, Metadata, OpenOptions};
use std::io::ErrorKind;
use std::os::unix::fs::MetadataExt;
use std::rt::Files;
use std::{fs, io};

/// How often a file is opened again whose name leads to another one by the time it is locked.
const TURNS: u32 = 16;

/// What a file is known by: a file that was exchanged for another has another identity, and so has
/// one whose bytes were changed.
#[derive(Clone, Copy, PartialEq, Eq)]
pub struct Identity {
    device: u64,
    inode: u64,
    /// In bytes.
    size: u64,
    /// When its bytes were last changed, in seconds since 1970 and the nanoseconds of that second.
    modified: i64,
    modified_nanos: i64,
}

impl Identity {
    /// The identity of the file that this tells of.
    pub fn of(found: &Metadata) -> Identity {
        Identity {
            device: found.dev(),
            inode: found.ino(),
            size: found.size(),
            modified: found.mtime(),
            modified_nanos: found.mtime_nsec(),
        }
    }
}

/// How a file was found.
#[derive(Clone, Copy, PartialEq, Eq)]
pub enum Found {
    /// There was none.
    Missing,
    /// There was this one.
    File(Identity),
}

/// Whether a path leads to this open file, and not to another one or to none.
pub fn leads_to<R: Files>(rt: &R, path: &str, file: &File) -> io::Result<bool> {
    let opened = file.metadata()?;
    match fs::metadata(rt, path) {
        Ok(named) => Ok(named.dev() == opened.dev() && named.ino() == opened.ino()),
        Err(error) if error.kind() == ErrorKind::NotFound => Ok(false),
        Err(error) => Err(error),
    }
}

/// Opens the file at a path and locks it for as long as it is open. Where the path leads to another
/// file once the lock is taken, as where a recovery has just put a fresh log there, it begins anew.
///
/// # Errors
///
/// The file can't be opened, another process has the lock (`WouldBlock`), or the path leads to another
/// file each time (`ResourceBusy`).
pub fn open_alone<R: Files<File = File>>(
    rt: &R,
    path: &str,
    options: &OpenOptions,
) -> io::Result<File> {
    for _ in 0..TURNS {
        if let Some(file) = open_and_lock(rt, path, options)? {
            return Ok(file);
        }
    }
    Err(io::Error::from(ErrorKind::ResourceBusy))
}

/// Opens a file and locks it. `None`: by then the path leads to another file.
fn open_and_lock<R: Files<File = File>>(
    rt: &R,
    path: &str,
    options: &OpenOptions,
) -> io::Result<Option<File>> {
    let file = options.open(rt, path)?;
    file.try_lock()?;
    if leads_to(rt, path, &file)? {
        return Ok(Some(file));
    }
    Ok(None)
}
