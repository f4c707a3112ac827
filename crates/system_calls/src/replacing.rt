use crate::again::fill;
use crate::folders::folder_of;
use crate::named::{Found, Identity};
use std::alloc::Global;
use std::fs::{File, Metadata, OpenOptions};
use std::io::{ErrorKind, Write};
use std::os::unix::fs::{FileExt, MetadataExt, OpenOptionsExt, fchown};
use std::rt::Files;
use std::{fs, io};

/// The permissions of a file that is being written: its owner alone may read and write it.
const OWNER_ALONE: u32 = 0o600;

/// How many bytes may stand before the byte of 0 at which a file is made to end in its place.
const FRONT_MAX: usize = 64;

/// Why a file is not replaced that was changed since it was read.
const CHANGED: &str = "it was changed while this was at work, and was left alone";

/// Puts a file with these bytes in the place of the one that the path leads to, if that is still as it
/// was found, and gives the new file's identity.
pub fn replace_file<R: Files<File = File>>(
    rt: &R,
    alloc: Global,
    path: &str,
    found: Option<Found>,
    bytes: &[u8],
) -> io::Result<Identity> {
    let place = end_of(rt, alloc, path)?;
    replace_at(rt, alloc, place.as_str(), found, bytes)
}

/// Where a path leads to: the end of a symbolic link, which has to be there, and the path itself of
/// anything else.
fn end_of<R: Files>(rt: &R, alloc: Global, path: &str) -> io::Result<String> {
    if is_link(rt, path) {
        return Ok(rt.canonicalize(alloc, path)?.into_string());
    }
    Ok(String::from_str(alloc, path)?)
}

/// Whether a symbolic link stands at a path.
fn is_link<R: Files>(rt: &R, path: &str) -> bool {
    match fs::symlink_metadata(rt, path) {
        Ok(found) => found.is_symlink(),
        Err(_) => false,
    }
}

/// Puts a file with these bytes in the place of the one at the path, which is no symbolic link.
fn replace_at<R: Files<File = File>>(
    rt: &R,
    alloc: Global,
    path: &str,
    found: Option<Found>,
    bytes: &[u8],
) -> io::Result<Identity> {
    let new = new_name(alloc, path)?;
    let new = new.as_str();
    // One that a run left there that was cut off.
    let _ = fs::remove_file(rt, new);
    match write_and_move(rt, new, path, found, bytes) {
        Ok(identity) => {
            flush_folder(rt, path)?;
            Ok(identity)
        }
        Err(error) => {
            let _ = fs::remove_file(rt, new);
            match error.kind() {
                ErrorKind::StorageFull | ErrorKind::QuotaExceeded => {
                    end_in_place(rt, path, found, bytes).map_err(|_| error)
                }
                _ => Err(error),
            }
        }
    }
}

/// Makes a file end where these bytes do, if it is still as it was found and begins with all of them but
/// the last, which is 0. That takes no room on a full disk. A durable log is made fresh so: what stands
/// after its byte of 0 doesn't count, and that one byte is written before the rest is cut off. So after a
/// stop in between it is the old log or the fresh one.
fn end_in_place<R: Files<File = File>>(
    rt: &R,
    path: &str,
    found: Option<Found>,
    bytes: &[u8],
) -> io::Result<Identity> {
    let [front @ .., 0] = bytes else {
        return Err(io::Error::from(ErrorKind::Unsupported));
    };
    let mut options = OpenOptions::new();
    options.read(true).write(true);
    end_after(rt, path, &mut options.open(rt, path)?, found, front)
}

/// Makes an open file end at a byte of 0 after these, if the file at the path is still as it was found and
/// this one begins with these.
fn end_after<R: Files>(
    rt: &R,
    path: &str,
    file: &mut File,
    found: Option<Found>,
    front: &[u8],
) -> io::Result<Identity> {
    if was_changed(rt, path, found)? || !begins_with(file, front)? {
        return Err(io::Error::other(CHANGED));
    }
    end_at_zero(file, front.len() as u64)
}

/// Writes a byte of 0 at a place of a file, and only then cuts off what stands after it.
fn end_at_zero(file: &File, place: u64) -> io::Result<Identity> {
    file.write_all_at(&[0], place)?;
    file.sync_all()?;
    file.set_len(place.saturating_add(1))?;
    flush(file)
}

/// Whether a file begins with these bytes.
fn begins_with(file: &mut File, front: &[u8]) -> io::Result<bool> {
    let mut piece = [0; FRONT_MAX];
    let Some(held) = piece.get_mut(..front.len()) else {
        return Ok(false);
    };
    let count = fill(file, held)?;
    Ok(count == front.len() && *held == *front)
}

/// The name of a file that is to take a path's place.
fn new_name(alloc: Global, path: &str) -> io::Result<String> {
    Ok(format!(in alloc; "{path}.new")?)
}

/// Makes a file with these bytes and gives it the name of the one at the path, if that is still as it
/// was found.
fn write_and_move<R: Files<File = File>>(
    rt: &R,
    new: &str,
    path: &str,
    found: Option<Found>,
    bytes: &[u8],
) -> io::Result<Identity> {
    let identity = write_file(rt, new, path, bytes)?;
    if was_changed(rt, path, found)? {
        return Err(io::Error::other(CHANGED));
    }
    fs::rename(rt, new, path)?;
    Ok(identity)
}

/// Whether the file at a path is not as it was found, where it was looked for.
fn was_changed<R: Files>(rt: &R, path: &str, found: Option<Found>) -> io::Result<bool> {
    let Some(found) = found else {
        return Ok(false);
    };
    match fs::metadata(rt, path) {
        Ok(now) => Ok(found != Found::File(Identity::of(&now))),
        Err(error) if error.kind() == ErrorKind::NotFound => Ok(found != Found::Missing),
        Err(error) => Err(error),
    }
}

/// Makes a file, with the permissions, the owner and the group of the one at the path `like` if that is
/// there, and flushes it to the disk.
fn write_file<R: Files<File = File>>(
    rt: &R,
    path: &str,
    like: &str,
    bytes: &[u8],
) -> io::Result<Identity> {
    let mut options = OpenOptions::new();
    options.write(true).create_new(true).mode(OWNER_ALONE);
    write_like(rt, &mut options.open(rt, path)?, like, bytes)
}

/// Writes bytes into a new file, gives it what the one at the path `like` has, and flushes it to the disk.
fn write_like<R: Files<File = File>>(
    rt: &R,
    file: &mut File,
    like: &str,
    bytes: &[u8],
) -> io::Result<Identity> {
    file.write_all(bytes)?;
    match fs::metadata(rt, like) {
        Ok(old) => make_like(file, &old)?,
        Err(error) if error.kind() == ErrorKind::NotFound => {}
        Err(error) => return Err(error),
    }
    flush(file)
}

/// Flushes a file to the disk, and gives its identity.
fn flush(file: &File) -> io::Result<Identity> {
    file.sync_all()?;
    Ok(Identity::of(&file.metadata()?))
}

/// Gives a file the owner, the group and the permissions of another.
fn make_like(file: &File, old: &Metadata) -> io::Result<()> {
    let new = file.metadata()?;
    if new.uid() != old.uid() || new.gid() != old.gid() {
        fchown(file, Some(old.uid()), Some(old.gid()))?;
    }
    file.set_permissions(old.permissions())
}

/// Flushes the folder of a path to the disk, so that a name that was given there stays.
fn flush_folder<R: Files<File = File>>(rt: &R, path: &str) -> io::Result<()> {
    File::open(rt, folder_of(path))?.sync_all()
}
