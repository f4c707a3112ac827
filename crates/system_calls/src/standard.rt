use std::fs::{File, OpenOptions};
use std::io;
use std::os::fd::{AsRawFd, IntoRawFd, RawFd};
use std::rt::Files;

/// A file that is always there.
const NULL: &str = "/dev/null";

/// The number of standard input.
const INPUT: RawFd = 0;

/// The number of standard error, the greatest of the three.
const ERROR: RawFd = 2;

/// Opens `/dev/null` in place of each standard stream that is closed, so that no file and no socket
/// that is opened later has its number. It is opened the wrong way round, for reading where the
/// stream is to be written: each call on such a stream is still a fault. Where none is closed, nothing
/// is opened to be written. To be called before anything else is opened.
pub fn fill_standard_streams<R: Files<File = File>>(rt: &R) -> io::Result<()> {
    if has_all(rt)? {
        return Ok(());
    }
    keep_within(OpenOptions::new().write(true).open(rt, NULL)?, INPUT);
    // Standard output, and then standard error.
    for _ in 0..2 {
        keep_one(rt)?;
    }
    Ok(())
}

/// Whether all three standard streams are open: the system gives the least number that is free.
fn has_all<R: Files<File = File>>(rt: &R) -> io::Result<bool> {
    Ok(File::open(rt, NULL)?.as_raw_fd() > ERROR)
}

/// Opens `/dev/null` for reading in place of a standard stream that is closed, if one is.
fn keep_one<R: Files<File = File>>(rt: &R) -> io::Result<()> {
    keep_within(File::open(rt, NULL)?, ERROR);
    Ok(())
}

/// Leaves a file open for ever where its number is at most `last`, and closes it else.
fn keep_within(file: File, last: RawFd) {
    if file.as_raw_fd() <= last {
        file.into_raw_fd();
    }
}
