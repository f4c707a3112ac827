use std::alloc::Global;
use std::fs::{File, OpenOptions};
use std::io::ErrorKind;
use std::net::Net;
use std::os::unix::fs::{FileTypeExt, OpenOptionsExt};
use std::os::unix::net::{UnixListener, UnixStream};
use std::rt::Files;
use std::{fs, io};

/// The permissions of a lock: its owner alone may take it.
const OWNER_ALONE: u32 = 0o600;

/// A socket that one monitor alone listens on. Beside it lies a file that is locked for as long.
#[derive(Drop)]
pub struct Seat {
    listener: UnixListener,
    lock: File,
}

impl Seat {
    /// Listens at the path, in place of a socket that an earlier run left there. It fails where
    /// somebody listens already. Another monitor is known by its lock, so that it never sees a
    /// connection for it.
    pub fn take<R: Files<File = File> + Net>(
        rt: &R,
        alloc: Global,
        path: &str,
    ) -> io::Result<Seat> {
        let lock = lock_beside(rt, alloc, path)?;
        // Where something stays there, the new socket can't be bound.
        let _ = remove_deserted(rt, path);
        let listener = UnixListener::bind(rt, path)?;
        Ok(Seat { listener, lock })
    }

    /// Another handle of the same socket and its lock.
    pub fn try_clone(&self) -> io::Result<Seat> {
        Ok(Seat {
            listener: self.listener.try_clone()?,
            lock: self.lock.try_clone()?,
        })
    }

    /// Waits for the next connection.
    pub fn accept(&self) -> io::Result<UnixStream> {
        let (conn, _) = self.listener.accept()?;
        Ok(conn)
    }
}

/// Locks the file beside a path that has its name and `.lock`, and makes it where it is missing.
fn lock_beside<R: Files<File = File>>(rt: &R, alloc: Global, path: &str) -> io::Result<File> {
    let beside = format!(in alloc; "{path}.lock")?;
    let mut options = OpenOptions::new();
    options.write(true).create(true).mode(OWNER_ALONE);
    let lock = options.open(rt, beside.as_str())?;
    lock.try_lock()?;
    Ok(lock)
}

/// Removes the socket at the path if nobody listens on it. What else may stand there stays.
fn remove_deserted<R: Files + Net>(rt: &R, path: &str) -> io::Result<()> {
    if fs::symlink_metadata(rt, path)?.file_type().is_socket() && is_deserted(rt, path) {
        fs::remove_file(rt, path)?;
    }
    Ok(())
}

/// Whether nobody listens on the socket at the path: whoever connects is refused.
fn is_deserted<R: Net>(rt: &R, path: &str) -> bool {
    match mio::net::UnixStream::connect(rt, path) {
        Ok(_) => false,
        Err(error) => error.kind() == ErrorKind::ConnectionRefused,
    }
}
