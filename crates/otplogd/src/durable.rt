//! The durable log that the words of the command line name.

use durable_log::Disk;
use line_log::LineLog;
use messages::Complaint;
use outside::Word;
use real_files::RealSink;
use real_log::{FileDisk, RealLog};
use std::alloc::{AllocError, Global};
use std::fs::{File, OpenOptions};
use std::io::ErrorKind;
use std::rt::Files;
use system_calls::{LogStderr, open_alone};

/// The log of a run, which echoes a durable log's lines to standard error.
pub(crate) type RunLog = RealLog<LogStderr, HostRuntime>;

/// Why a run has no log.
#[derive(Clone, Copy)]
pub(crate) enum LogError {
    /// Out of memory.
    OutOfMemory,
    /// The durable log is in use: by a run, a recovery or a renewal.
    Taken,
}

impl LogError {
    /// What is said of words that have no log.
    pub(crate) fn complaint(self, words: &[Word]) -> Complaint<'_> {
        match (self, words) {
            (LogError::OutOfMemory, _) => Complaint::plain(9),
            (LogError::Taken, [.., log]) => Complaint {
                path: Some(log.as_str()),
                ..Complaint::plain(13)
            },
            (LogError::Taken, []) => Complaint::plain(13),
        }
    }
}

impl From<AllocError> for LogError {
    fn from(_: AllocError) -> Self {
        LogError::OutOfMemory
    }
}

/// The file of this name, locked until it is dropped. None where it can't be opened or locked: what is
/// wrong with it the mode says that reads it.
fn lock<R: Files<File = File>>(rt: &R, name: &Word) -> Result<Option<File>, LogError> {
    let mut options = OpenOptions::new();
    options.read(true);
    match open_alone(rt, name.as_str(), &options) {
        Ok(file) => Ok(Some(file)),
        Err(error) => match error.kind() {
            ErrorKind::WouldBlock | ErrorKind::ResourceBusy => Err(LogError::Taken),
            _ => Ok(None),
        },
    }
}

/// The disk of a run's durable log, whose file it keeps locked from now on.
fn disk_of(rt: HostRuntime, alloc: Global, name: &Word) -> Result<FileDisk<HostRuntime>, LogError> {
    let mut disk = FileDisk::new(rt, name.copy(alloc)?);
    // The first call opens the file and locks it. Where it fails the disk takes no line.
    if disk.sync().is_err() {
        drop(lock(&rt, name)?);
    }
    Ok(disk)
}

/// Standard error, which keeps nobody waiting where the system can tell that it would.
pub(crate) fn prompt_stderr(rt: HostRuntime, alloc: Global) -> LogStderr {
    match LogStderr::prompt(&rt, alloc, rt.stderr()) {
        Ok(stderr) => stderr,
        Err(_) => LogStderr::waiting(rt.stderr()),
    }
}

/// The log of a run, which is the durable one of this name and then standard error, of which a line that
/// can't be written at once is dropped.
fn log_on_disk(rt: HostRuntime, alloc: Global, name: &Word) -> Result<RunLog, LogError> {
    let disk = disk_of(rt, alloc, name)?;
    Ok(RealLog::Durable {
        log: LineLog::new(disk),
        echo: RealSink::new(prompt_stderr(rt, alloc)),
    })
}

/// The log of a run that writes lines to standard error.
fn plain_log(rt: HostRuntime) -> RunLog {
    RealLog::Stream(RealSink::new(LogStderr::waiting(rt.stderr())))
}

/// Standard error as the log, and the durable log of this name, locked.
fn beside_log(rt: HostRuntime, name: &Word) -> Result<(RunLog, Option<File>), LogError> {
    let file = lock(&rt, name)?;
    Ok((plain_log(rt), file))
}

/// The log of a run, and the durable one that the words recover from or renew beside, locked until it is
/// dropped, so that no run writes to it meanwhile. The log is standard error, but where the words serve
/// with a durable one.
///
/// # Errors
///
/// There isn't the memory, or the durable log is in use: by a run, a recovery or a renewal.
pub(crate) fn logs_of(
    rt: HostRuntime,
    alloc: Global,
    words: &[Word],
) -> Result<(RunLog, Option<File>), LogError> {
    match words {
        [mode, _, name] if mode.as_str() == "serve" => Ok((log_on_disk(rt, alloc, name)?, None)),
        [mode, _, name] if mode.as_str() == "recover" => beside_log(rt, name),
        [mode, _, _, name] if mode.as_str() == "renew" => beside_log(rt, name),
        _ => Ok((plain_log(rt), None)),
    }
}
