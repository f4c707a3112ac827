//! The log of a run.

ghost use Rattle.std.specs.Prelude.{◌≡◌, ◌≤◌, None, OnErr, OnOk};
ghost use Rattle.outside.specs.Faults.{count_after};

use crate::disk::FileDisk;
use line_log::LineLog;
use outside::{Failed, Sink};
use real_files::RealSink;
use std::fs::File;
use std::io::Write;
use std::rt::Files;

/// A log that is a stream of lines, or a file that has each line safe before it is answered, and a stream
/// of them beside it.
#[derive(Drop)]
pub enum RealLog<W, R: Files<File = File> + Drop + Send> {
    /// Lines to a writer, as to standard error.
    Stream(RealSink<W>),
    /// Lines of at most 256 bytes as records of a file.
    Durable {
        log: LineLog<FileDisk<R>>,
        /// Each line goes there too, once it is safe. Whether that takes it doesn't matter.
        echo: RealSink<W>,
    },
}

impl<W, R: Files<File = File> + Drop + Send> RealLog<W, R> {
    ghost use Rattle.real_log.specs.RealLog.{dropped_of, is_durable};

    /// Whether it is a file.
    pub fn is_durable(&self) -> bool
        ensures { result ≡ is_durable self.now }
    {
        match self {
            RealLog::Stream(_) => false,
            RealLog::Durable { .. } => true,
        }
    }

    /// How many lines are safe in the file, and could not be written to the stream beside it.
    pub fn dropped(&self) -> u64
        ensures { result ≡ dropped_of self.now }
    {
        match self {
            RealLog::Stream(_) => 0,
            RealLog::Durable { log: _, echo } => echo.fault_count(),
        }
    }
}

impl<W: Write + Drop + Send, R: Files<File = File> + Drop + Send> Sink for RealLog<W, R> {
    ghost use Rattle.real_log.specs.RealLog.{HasMissed, HasTaken, faults_of};

    ghost held = { λ _. None };

    ghost lengths = { λ _. None };

    ghost faults = { faults_of };

    /// Appends to the log that it is.
    fn append(&mut self, bytes: &[u8]) -> Result<(), Failed>
        ensures counts { faults_of self.new ≡ count_after result (faults_of self.old) }
        ensures kept { faults_of self.old ≤ faults_of self.new }

        ensures taken { OnOk result (HasTaken W.contents bytes.now self.old self.new) }
        ensures missed { OnErr result (HasMissed bytes.now self.old self.new) }
    {
        match self {
            RealLog::Stream(sink) => sink.append(bytes),
            RealLog::Durable { log, echo } => {
                log.append(bytes)?;
                match echo.append(bytes) {
                    Ok(()) | Err(Failed) => Ok(()),
                }
            }
        }
    }
}
