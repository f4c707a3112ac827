ghost use Rattle.std.specs.Prelude.{◌≡◌, ◌≤◌, None, OnOk};
ghost use Rattle.std.specs.Io.KnownBytes.{Appends};
ghost use Rattle.outside.specs.Faults.{count_after};

use outside::{Failed, Sink};
use std::io::Write;
use system_calls::counted::counted;

/// A log to a writer, as to standard error.
#[derive(Drop)]
pub struct RealSink<W> {
    writer: W,
    faults: u64,
}

impl<W> RealSink<W> {
    ghost use Rattle.real_files.specs.RealSink.{faults_of};

    /// A log to this writer, without a fault.
    pub fn new(writer: W) -> RealSink<W>
        ensures faultless { faults_of result ≡ 0 }
    {
        RealSink { writer, faults: 0 }
    }

    /// How many appends failed.
    pub fn fault_count(&self) -> u64
        ensures { result ≡ faults_of self.now }
    {
        self.faults
    }
}

impl<W: Write + Drop + Send> Sink for RealSink<W> {
    ghost use Rattle.real_files.specs.RealSink.{faults_of, writer_of};

    ghost held = { λ _. None };

    ghost lengths = { λ _. None };

    ghost faults = { faults_of };

    /// Writes all bytes. It fails exactly where the writer does.
    fn append(&mut self, bytes: &[u8]) -> Result<(), Failed>
        ensures written { OnOk result (Appends (W.contents (writer_of self.old))
            (W.contents (writer_of self.new)) bytes.now) }
        ensures counts { faults_of self.new ≡ count_after result (faults_of self.old) }
        ensures kept { faults_of self.old ≤ faults_of self.new }
    {
        counted(&mut self.faults, self.writer.write_all(bytes))
    }
}
