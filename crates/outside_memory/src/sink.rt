ghost use Rattle.std.specs.Prelude.{◌≡◌, ◌↔◌, ◌≤◌, ℕ, [], ◌∷◌, length, IfOk, IfSome, IsErr, IsSome, IsTrue};
ghost use Rattle.std.specs.Prelude.{OnErr, OnOk, Some};
ghost use Rattle.outside_memory.specs.Failures.{bytes_let_out};
ghost use Rattle.outside.specs.Faults.{count_after};
ghost use Rattle.outside.specs.Told.{Gains, GainsPart, next_count};

use crate::fail::{CallKind, Fail, find_failure};
use crate::output::Output;
use outside::{Failed, Sink};
use std::alloc::{AllocError, Global};

/// A sink in memory. It tells what it holds, and the lengths of its appends, as long as memory is found
/// for it.
#[derive(Drop)]
pub struct MemSink {
    output: Output,
    lengths: Vec<usize>,
    fails: Vec<Fail>,
    appends: u64,
    faults: u64,
}

impl MemSink {
    ghost use Rattle.outside_memory.specs.MemSink.{faults_of, held_of, lengths_of, sink_schedule};

    /// An empty sink whose appends fail exactly where `fails` lists them.
    pub fn new(alloc: Global, fails: &[Fail]) -> Result<MemSink, AllocError>
        ensures held { IfOk result (λ s. held_of s ≡ Some []) }
        ensures lengths { IfOk result (λ s. lengths_of s ≡ Some []) }
        ensures faults { IfOk result (λ s. faults_of s ≡ 0) }
        ensures schedule { IfOk result
            (λ s. sink_schedule s ≡ record { fails = fails.now; appends = 0 }) }
    {
        Ok(MemSink {
            output: Output::new(alloc),
            lengths: Vec::new(alloc),
            fails: Vec::from_slice(alloc, fails)?,
            appends: 0,
            faults: 0,
        })
    }

    /// Whether it tells what it holds.
    pub fn tells(&self) -> bool
        ensures { IsTrue result ↔ IsSome (held_of self.now) }
    {
        self.output.telling
    }

    /// The bytes that it holds, where it tells them.
    pub fn held(&self) -> &[u8]
        ensures { IfSome (held_of self.now) (λ bytes. result.now ≡ bytes) }
    {
        self.output.bytes.as_slice()
    }
}

impl Sink for MemSink {
    ghost use Rattle.outside_memory.specs.MemSink.{append_failure, faults_of, held_of, lengths_of, sink_schedule};

    ghost held = { held_of };

    ghost lengths = { lengths_of };

    ghost faults = { faults_of };

    /// Appends the bytes. It fails exactly where its list says so, and no other call is counted.
    fn append(&mut self, bytes: &[u8]) -> Result<(), Failed>
        ensures ok { OnOk result (Gains (held_of self.old) bytes.now (held_of self.new)) }
        ensures part { OnErr result (GainsPart (held_of self.old) bytes.now (held_of self.new)) }
        ensures length_ok { OnOk result (Gains (lengths_of self.old) (length bytes.now ∷ [])
            (lengths_of self.new)) }
        ensures length_err { OnErr result
            ((n : ℕ) × Gains (lengths_of self.old) (n ∷ []) (lengths_of self.new)) }
        ensures counts { faults_of self.new ≡ count_after result (faults_of self.old) }
        ensures kept { faults_of self.old ≤ faults_of self.new }

        ensures listed { IsErr result ↔ IsSome (append_failure (sink_schedule self.old)) }
        ensures let_out { Gains (held_of self.old)
            (bytes_let_out (append_failure (sink_schedule self.old)) bytes.now) (held_of self.new) }
        ensures schedule { sink_schedule self.new ≡ record (sink_schedule self.old) {
          appends = next_count (sink_schedule self.old).appends;
        } }
    {
        self.appends = self.appends.saturating_add(1);
        let failure = find_failure(&self.fails, CallKind::Append, self.appends);
        let length = self.output.write(bytes, failure);
        if self.lengths.push(length).is_err() {
            self.output.telling = false;
        }
        match failure {
            None => Ok(()),
            Some(_) => {
                self.faults = self.faults.saturating_add(1);
                Err(Failed)
            }
        }
    }
}
