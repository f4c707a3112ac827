//! A file of the machine as a disk.

ghost use Rattle.std.specs.Prelude.{◌≡◌, ◌↔◌, IsErr, None, not, true};
ghost use Rattle.outside.specs.Faults.{count_after};

use durable_log::Disk;
use outside::{Failed, Word};
use std::fs::{File, OpenOptions};
use std::io;
use std::io::ErrorKind;
use std::os::unix::fs::FileExt;
use std::rt::Files;
use system_calls::counted::counted;
use system_calls::{leads_to, open_alone};

/// A file of the machine. Its name is a path.
///
/// The first call opens it. It has to be there: no file is made. From then on it is locked until the
/// disk is dropped, so another disk at the same file fails. After a call that failed all calls fail,
/// since what a system keeps of what it failed to flush isn't known. A flush fails too where the name
/// leads to another file by then, or to none.
#[derive(Drop)]
pub struct FileDisk<R> {
    rt: R,
    path: Word,
    file: Option<File>,
    failed: bool,
    faults: u64,
}

impl<R> FileDisk<R> {
    ghost use Rattle.real_log.specs.FileDisk.{faults_of};

    /// The file at this path, which is opened by the first call, without a fault.
    pub fn new(rt: R, path: Word) -> FileDisk<R>
        ensures faultless { faults_of result ≡ 0 }
    {
        FileDisk {
            rt,
            path,
            file: None,
            failed: false,
            faults: 0,
        }
    }
}

impl<R: Files<File = File> + Drop + Send> Disk for FileDisk<R> {
    ghost use Rattle.real_log.specs.FileDisk.{faults_of, has_failed};

    ghost story = { λ _. None };

    ghost faults = { faults_of };

    /// Writes all bytes at the place. It fails where a call failed before, where the file can't be
    /// opened and locked, or where the system doesn't take a byte.
    fn write_at(&mut self, at: u64, bytes: &[u8]) -> Result<(), Failed>
        ensures counts { faults_of self.new ≡ count_after result (faults_of self.old) }

        ensures failed { IsErr result ↔ (has_failed self.new ≡ true) }
        ensures stays { has_failed self.old ≡ true → IsErr result }
    {
        let outcome = self.write_all_at(at, bytes);
        counted(&mut self.faults, outcome)
    }

    /// Flushes what was written. It fails where a call failed before, where the file can't be opened
    /// and locked, where the system can't flush it, or where the file is at its place no more.
    fn sync(&mut self) -> Result<(), Failed>
        ensures counts { faults_of self.new ≡ count_after result (faults_of self.old) }

        ensures failed { IsErr result ↔ (has_failed self.new ≡ true) }
        ensures stays { has_failed self.old ≡ true → IsErr result }
    {
        let outcome = self.flush();
        counted(&mut self.faults, outcome)
    }
}

impl<R: Files<File = File>> FileDisk<R> {
    ghost use Rattle.real_log.specs.FileDisk.{faults_of, has_failed};

    /// The file, taken out. Until it is put back, the disk has failed.
    fn take_file(&mut self) -> io::Result<File>
        ensures faults { faults_of self.new ≡ faults_of self.old }
        ensures failed { has_failed self.new ≡ true }
        ensures stays { has_failed self.old ≡ true → IsErr result }
    {
        if self.failed {
            return Err(io::Error::from(ErrorKind::Other));
        }
        self.failed = true;
        match self.file.take() {
            Some(file) => Ok(file),
            None => open_to_write(&self.rt, self.path.as_str()),
        }
    }

    /// Writes all bytes at the place.
    fn write_all_at(&mut self, at: u64, bytes: &[u8]) -> io::Result<()>
        ensures faults { faults_of self.new ≡ faults_of self.old }
        ensures failed { IsErr result ↔ (has_failed self.new ≡ true) }
        ensures stays { has_failed self.old ≡ true → IsErr result }
    {
        let file = self.take_file()?;
        let outcome = file.write_all_at(bytes, at);
        self.put_back(file, outcome.is_ok());
        outcome
    }

    /// Flushes what was written.
    fn flush(&mut self) -> io::Result<()>
        ensures faults { faults_of self.new ≡ faults_of self.old }
        ensures failed { IsErr result ↔ (has_failed self.new ≡ true) }
        ensures stays { has_failed self.old ≡ true → IsErr result }
    {
        let file = self.take_file()?;
        let outcome = flush_at(&self.rt, self.path.as_str(), &file);
        self.put_back(file, outcome.is_ok());
        outcome
    }

    /// Puts the file back after a call that succeeded or not. It stays locked.
    fn put_back(&mut self, file: File, succeeded: bool)
        ensures faults { faults_of self.new ≡ faults_of self.old }
        ensures failed { has_failed self.new ≡ not succeeded }
    {
        self.file = Some(file);
        self.failed = !succeeded;
    }
}

/// Opens the file at a path, which has to be there, to write it, and locks it.
fn open_to_write<R: Files<File = File>>(rt: &R, path: &str) -> io::Result<File> {
    let mut options = OpenOptions::new();
    options.write(true);
    open_alone(rt, path, &options)
}

/// Flushes a file to the disk, and sees that the path still leads to it: lines of a file that was
/// removed, or exchanged for another, would be lost.
fn flush_at<R: Files<File = File>>(rt: &R, path: &str, file: &File) -> io::Result<()> {
    file.sync_data()?;
    match leads_to(rt, path, file)? {
        true => Ok(()),
        false => Err(io::Error::from(ErrorKind::NotFound)),
    }
}
