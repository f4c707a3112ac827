//! The log.

ghost use Rattle.std.specs.Prelude.{◌≡◌, ◌↔◌, ◌≤◌, [], drop, take, IfSome, IsTrue, None, OnErr, OnOk, false, true};
ghost use Rattle.outside.specs.Faults.{count_after};
ghost use Rattle.outside.specs.Told.{Gains, GainsPart};
ghost use Rattle.durable_log.specs.Appending.{HasStopped, IsDone, KeepsAll, KeepsSome};
ghost use Rattle.durable_log.specs.Disk.{settled};
ghost use Rattle.durable_log.specs.Journal.{IsLog, Keeps, faults_of, held_of, image_of, log_parts};

use crate::disk::Disk;
use crate::tail::{OPEN, RECORD_MAX, Tail};
use outside::{Failed, Sink};
use std::marker::Model;
use std::snapshot::Snapshot;

/// A log on a disk, each of whose records is safe before its append is answered. It takes no memory.
#[derive(Drop)]
pub struct JournalLog<D: Disk> {
    disk: D,
    tail: Tail,
    made: Snapshot<D>,
}

impl<D: Disk> Model for JournalLog<D> {
    ghost use Rattle.durable_log.specs.Journal.{IsLog, LogParts, log_parts};

    ghost Value = { LogParts };

    ghost view = { λ log. log_parts (D.story log.made.value) (D.story log.disk) log.tail.gate
        log.tail.stopped (D.faults log.disk) log.tail.refused };

    ghost invariant = { λ log. IsLog (log_parts (D.story log.made.value) (D.story log.disk) log.tail.gate
        log.tail.stopped (D.faults log.disk) log.tail.refused) };
}

impl<D: Disk> JournalLog<D> {
    /// A log without records, on a disk that reads as the image of no records and has nothing pending,
    /// where it tells.
    pub fn new(disk: D) -> JournalLog<D>
        requires { IfSome (D.story disk) (λ s. s.now ≡ settled (image_of [])) }
        ensures is { result ≡ log_parts (D.story disk) (D.story disk) 4 false (D.faults disk) 0 }
        ensures keeps { Keeps [] 0 result }
    {
        let made = Snapshot::of(&disk);
        JournalLog {
            disk,
            tail: Tail::new(),
            made,
        }
    }

    /// Whether an append has failed. Of every log it is so that it loses nothing that it answered.
    pub fn has_stopped(&self) -> bool
        ensures stopped { IsTrue result ↔ (self.now.stopped ≡ true) }
        ensures log { IsLog self.now }
    {
        self.tail.stopped
    }

    /// The disk.
    pub fn disk(self) -> D
        ensures story { D.story result ≡ self.now }
        ensures faults { D.faults result ≡ self.faults }
    {
        let JournalLog { disk, .. } = self;
        disk
    }
}

/// The first bytes, as many as a record has at most, and the rest.
fn first_piece(bytes: &[u8]) -> (&[u8], &[u8])
    ensures piece { result.0.now ≡ take 256 bytes.now }
    ensures rest { result.1.now ≡ drop 256 bytes.now }
{
    bytes.split_at(bytes.len().min(RECORD_MAX))
}

impl<D: Disk> Sink for JournalLog<D> {
    ghost held = { held_of };

    ghost lengths = { λ _. None };

    ghost faults = { faults_of };

    /// Appends the bytes as records of at most 256 bytes, each of which is opened only once it is safe.
    /// `Failed`: a call of the disk failed or a record didn't fit, in this append or in an earlier one.
    fn append(&mut self, bytes: &[u8]) -> Result<(), Failed>
        ensures ok { OnOk result (Gains (held_of self.old) bytes.now (held_of self.new)) }
        ensures part { OnErr result (GainsPart (held_of self.old) bytes.now (held_of self.new)) }
        ensures counts { faults_of self.new ≡ count_after result (faults_of self.old) }
        ensures kept { faults_of self.old ≤ faults_of self.new }

        // At every moment each image that a crash may leave has the records answered by then, and no
        // others but those given by then.
        ensures keeps_all { OnOk result (KeepsAll bytes.now self.old self.new) }
        ensures keeps_some { OnErr result (KeepsSome bytes.now self.old self.new) }
        ensures done { OnOk result (IsDone bytes.now self.old self.new) }
        ensures stopped { OnErr result (HasStopped bytes.now self.old self.new) }
    {
        self.tail.check()?;
        let mut rest = bytes;
        while !rest.is_empty() {
            let (piece, behind) = first_piece(rest);
            let size = self.tail.begin(piece)?;
            let gate = self.tail.gate;
            self.disk.write_safely(gate + 1, &self.tail.buffer[..size])?;
            self.disk.write_safely(gate, &[OPEN])?;
            self.tail.finish(size);
            rest = behind;
        }
        Ok(())
    }
}
