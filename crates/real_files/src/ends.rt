ghost use Rattle.std.specs.Prelude.{◌≡◌, ◌<◌, ◌≤◌, IfOk, None, OnOk, length, take};
ghost use Rattle.std.specs.Io.KnownBytes.{Appends, Consumes, IsAtEnd};
ghost use Rattle.outside.specs.declared.act.Role.{Role};
ghost use Rattle.outside.specs.Faults.{count_after};

use outside::{Failed, Role, Stream};
use std::io::{Read, Write};
use system_calls::counted::counted;
use system_calls::read_again;

/// A reader and a writer as one stream, as standard input and output.
#[derive(Drop)]
pub struct RealEnds<I, O> {
    input: I,
    output: O,
    faults: u64,
}

impl<I, O> RealEnds<I, O> {
    ghost use Rattle.real_files.specs.RealEnds.{faults_of};

    /// What is received comes from this reader, and what is sent goes to this writer.
    pub fn new(input: I, output: O) -> RealEnds<I, O>
        ensures faultless { faults_of result ≡ 0 }
    {
        RealEnds {
            input,
            output,
            faults: 0,
        }
    }
}

impl<I: Read + Drop + Send, O: Write + Drop + Send> Stream for RealEnds<I, O> {
    ghost use Rattle.real_files.specs.RealEnds.{faults_of, input_of, output_of};

    ghost link = { λ _. None };

    ghost faults = { faults_of };

    ghost role = { λ _. Role.Pre 0 };

    /// Reads what there is, and writes nothing. It fails exactly where the reader does.
    fn recv(&mut self, buf: &mut [u8]) -> Result<usize, Failed>
        ensures bound { IfOk result (λ n. n ≤ length buf.old) }
        ensures taken { IfOk result (λ n. Consumes (I.remaining (input_of self.old))
            (I.remaining (input_of self.new)) (take n buf.new)) }
        ensures end { IfOk result (λ n.
            n ≡ 0 → 0 < length buf.old → IsAtEnd (I.remaining (input_of self.new))) }
        ensures output { output_of self.new ≡ output_of self.old }
        ensures counts { faults_of self.new ≡ count_after result (faults_of self.old) }
        ensures kept { faults_of self.old ≤ faults_of self.new }
    {
        counted(&mut self.faults, read_again(&mut self.input, buf))
    }

    /// Writes all bytes, and reads nothing. It fails exactly where the writer does.
    fn send(&mut self, bytes: &[u8]) -> Result<(), Failed>
        ensures written { OnOk result (Appends (O.contents (output_of self.old))
            (O.contents (output_of self.new)) bytes.now) }
        ensures input { input_of self.new ≡ input_of self.old }
        ensures counts { faults_of self.new ≡ count_after result (faults_of self.old) }
        ensures kept { faults_of self.old ≤ faults_of self.new }
    {
        counted(&mut self.faults, self.output.write_all(bytes))
    }
}
