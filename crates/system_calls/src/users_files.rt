ghost use Rattle.std.specs.Prelude.{◌≤◌, IfOk, length};

use crate::again::fill;
use std::fs::{DirBuilder, File, OpenOptions};
use std::io::{ErrorKind, Seek, SeekFrom, Write};
use std::os::unix::fs::{DirBuilderExt, MetadataExt, OpenOptionsExt};
use std::rt::Files;
use std::{fs, io};

/// The permissions of a user's file: its owner alone may read and write it.
const FILE_MODE: u32 = 0o600;

/// The permissions of a user's folder: its owner alone may enter it.
const FOLDER_MODE: u32 = 0o700;

/// How many bytes a user's file has at most: 16 MB.
const MOST_BYTES: u64 = 16_777_216;

/// Reads a user's file from an offset on until the buffer is full or the file ends. There is nothing in a
/// file that is missing.
pub fn read_users_file<R: Files<File = File>>(
    rt: &R,
    folder: &str,
    path: &str,
    offset: u64,
    buf: &mut [u8],
) -> io::Result<usize>
    ensures { IfOk result (λ n. n ≤ length buf.old) }
{
    let mut options = OpenOptions::new();
    options.read(true);
    if !has_folder(rt, folder)? {
        return Ok(0);
    }
    let Some(mut file) = open_regular(rt, path, &options)? else {
        return Ok(0);
    };
    file.seek(SeekFrom::Start(offset))?;
    fill(&mut file, buf)
}

/// Writes bytes into a user's file from an offset on, if they end within the file's limit. A file and a folder
/// that are missing are made; the system fills a gap with zeros.
pub fn write_users_file<R: Files<File = File>>(
    rt: &R,
    folder: &str,
    path: &str,
    offset: u64,
    bytes: &[u8],
) -> io::Result<()> {
    if offset.saturating_add(bytes.len() as u64) > MOST_BYTES {
        return Err(io::Error::from(ErrorKind::FileTooLarge));
    }
    make_folder(rt, folder)?;
    let mut file = open_or_make(rt, path)?;
    file.seek(SeekFrom::Start(offset))?;
    file.write_all(bytes)
}

/// Makes a user's folder where it is missing. One that another session has made meanwhile will do.
fn make_folder<R: Files>(rt: &R, path: &str) -> io::Result<()> {
    if has_folder(rt, path)? {
        return Ok(());
    }
    match DirBuilder::new().mode(FOLDER_MODE).create(rt, path) {
        Err(error) if error.kind() == ErrorKind::AlreadyExists => match has_folder(rt, path)? {
            true => Ok(()),
            false => Err(error),
        },
        made => made,
    }
}

/// Opens a user's file to write it, and makes it where it is missing. One that another session has
/// made meanwhile is opened.
fn open_or_make<R: Files<File = File>>(rt: &R, path: &str) -> io::Result<File> {
    let mut options = OpenOptions::new();
    options.write(true);
    if let Some(file) = open_regular(rt, path, &options)? {
        return Ok(file);
    }
    match make(rt, path) {
        Err(error) if error.kind() == ErrorKind::AlreadyExists => {
            open_regular(rt, path, &options)?.ok_or(error)
        }
        made => made,
    }
}

/// Makes a file where there is none.
fn make<R: Files<File = File>>(rt: &R, path: &str) -> io::Result<File> {
    let mut options = OpenOptions::new();
    options.write(true).create_new(true).mode(FILE_MODE);
    options.open(rt, path)
}

/// Whether a user's folder is there. What else stands in its place, a link too, is refused.
fn has_folder<R: Files>(rt: &R, path: &str) -> io::Result<bool> {
    match fs::symlink_metadata(rt, path) {
        Ok(found) if found.is_dir() => Ok(true),
        Ok(_) => Err(io::Error::from(ErrorKind::NotADirectory)),
        Err(error) if error.kind() == ErrorKind::NotFound => Ok(false),
        Err(error) => Err(error),
    }
}

/// Opens a regular file and nothing else: no link is followed, also where the file was exchanged
/// between the look and the opening. `None`: there is no such file.
fn open_regular<R: Files<File = File>>(
    rt: &R,
    path: &str,
    options: &OpenOptions,
) -> io::Result<Option<File>> {
    let seen = match fs::symlink_metadata(rt, path) {
        Ok(seen) => seen,
        Err(error) if error.kind() == ErrorKind::NotFound => return Ok(None),
        Err(error) => return Err(error),
    };
    if !seen.is_file() {
        return Err(io::Error::from(ErrorKind::InvalidInput));
    }
    let file = options.open(rt, path)?;
    let opened = file.metadata()?;
    if opened.dev() != seen.dev() || opened.ino() != seen.ino() {
        return Err(io::Error::from(ErrorKind::InvalidInput));
    }
    Ok(Some(file))
}
