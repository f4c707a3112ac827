ghost use Rattle.std.specs.Prelude.{◌≤◌, IfOk, length};

use crate::again::fill;
use crate::named::{Found, Identity};
use std::alloc::Global;
use std::fs::File;
use std::io;
use std::io::{ErrorKind, Read, Seek, SeekFrom};
use std::rt::Files;

/// A file that is being read.
#[derive(Drop)]
pub struct Reading {
    path: String,
    file: File,
    identity: Identity,
    /// How far it was read.
    position: u64,
}

impl Reading {
    /// Reads on until the buffer is full or the file ends.
    pub fn fill(&mut self, buf: &mut [u8]) -> io::Result<usize>
        ensures { IfOk result (λ n. n ≤ length buf.old) }
    {
        let count = fill(&mut self.file, buf)?;
        self.position = self.position.saturating_add(count as u64);
        Ok(count)
    }
}

/// A file at an offset: the one that is being read, or, at its front and for another path, one that
/// is opened. `None`: there is no such file. What is read in order is never sought, as a pipe can't
/// be.
pub fn reading_at<R: Files<File = File>>(
    rt: &R,
    alloc: Global,
    begun: Option<Reading>,
    path: &str,
    offset: u64,
) -> io::Result<Option<Reading>> {
    let opened = match resumed(begun, path, offset) {
        Some(reading) => Some(reading),
        None => open(rt, alloc, path)?,
    };
    let Some(mut reading) = opened else {
        return Ok(None);
    };
    if reading.position != offset {
        reading.file.seek(SeekFrom::Start(offset))?;
        reading.position = offset;
    }
    Ok(Some(reading))
}

/// The file that is being read, where it is of this path and not to be read from its front.
fn resumed(begun: Option<Reading>, path: &str, offset: u64) -> Option<Reading> {
    let reading = begun?;
    if offset > 0 && reading.path.as_str() == path {
        return Some(reading);
    }
    None
}

/// Opens a file at its front. `None`: there is no such file.
fn open<R: Files<File = File>>(rt: &R, alloc: Global, path: &str) -> io::Result<Option<Reading>> {
    match File::open(rt, path) {
        Ok(file) => Ok(Some(at_front(alloc, path, file)?)),
        Err(error) if error.kind() == ErrorKind::NotFound => Ok(None),
        Err(error) => Err(error),
    }
}

/// A file of this path, of which nothing was read.
fn at_front(alloc: Global, path: &str, file: File) -> io::Result<Reading> {
    Ok(Reading {
        path: String::from_str(alloc, path)?,
        identity: Identity::of(&file.metadata()?),
        file,
        position: 0,
    })
}

/// How a file was found that was opened or wasn't there.
pub fn found_by(opened: &Option<Reading>) -> Found {
    match opened {
        Some(reading) => Found::File(reading.identity),
        None => Found::Missing,
    }
}
