ghost use Rattle.std.specs.Prelude.{◌≤◌, IfOk, length};

use request_catalogue::Label;
use std::alloc::Global;
use std::fs::File;
use std::io::ErrorKind;
use std::rt::Files;
use std::{fs, io};
use system_calls::{read_users_file, write_users_file};

/// A user's file: `vault/uid/name`.
#[derive(Drop)]
pub struct UserFile {
    folder: String,
    path: String,
}

impl UserFile {
    ghost use Rattle.outside_real.specs.UsersFiles.{IsUsersFile};
    ghost use Rattle.request_catalogue.specs.TextBytes.{label_bytes};

    /// The file of this user and name in a vault, which has to be there.
    pub fn of<R: Files>(
        rt: &R,
        alloc: Global,
        vault: &str,
        uid: u32,
        name: &Label,
    ) -> io::Result<UserFile>
        ensures { IfOk result (λ file. IsUsersFile vault.now uid (label_bytes name.now) file) }
    {
        if !fs::metadata(rt, vault)?.is_dir() {
            return Err(io::Error::from(ErrorKind::NotADirectory));
        }
        let Ok(name) = str::from_utf8(name.as_slice()) else {
            return Err(io::Error::from(ErrorKind::InvalidInput));
        };
        let folder = format!(in alloc; "{vault}/{uid}")?;
        let within = folder.as_str();
        let path = format!(in alloc; "{within}/{name}")?;
        Ok(UserFile { folder, path })
    }

    /// Reads from an offset on until the buffer is full or the file ends. There is nothing in a file
    /// that is missing.
    pub fn read<R: Files<File = File>>(
        &self,
        rt: &R,
        offset: u64,
        buf: &mut [u8],
    ) -> io::Result<usize>
        ensures { IfOk result (λ n. n ≤ length buf.old) }
    {
        read_users_file(rt, self.folder.as_str(), self.path.as_str(), offset, buf)
    }

    /// Writes bytes from an offset on, if they end within the file's limit. A file and a folder that are
    /// missing are made; the system fills a gap with zeros.
    pub fn write<R: Files<File = File>>(
        &self,
        rt: &R,
        offset: u64,
        bytes: &[u8],
    ) -> io::Result<()> {
        write_users_file(rt, self.folder.as_str(), self.path.as_str(), offset, bytes)
    }
}
