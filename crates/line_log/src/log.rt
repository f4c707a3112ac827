//! The log of lines.

ghost use Rattle.std.specs.Prelude.{◌≡◌, ◌↔◌, ◌≤◌, [], false, true, IfSome, IsTrue, None, OnErr, OnOk};
ghost use Rattle.outside.specs.Faults.{count_after};
ghost use Rattle.outside.specs.Told.{Gains, GainsPart};
ghost use Rattle.durable_log.specs.Appending.{IsDone};
ghost use Rattle.durable_log.specs.Disk.{settled};
ghost use Rattle.durable_log.specs.Journal.{image_of, log_parts};
ghost use Rattle.line_log.specs.Kept.{HasFailed, IsLineLog, KeepsLines, given_of, line_faults, line_parts};
ghost use Rattle.line_log.specs.Line.{is_line};

use crate::line::{LINE_MAX, is_line};
use durable_log::{Disk, JournalLog};
use fixed_list::FixedList;
use outside::{Failed, Sink};
use std::marker::Model;
use std::snapshot::Snapshot;

/// A durable log whose records are lines: each append is one line of at most 256 bytes, and is safe on
/// the disk before it is answered. It takes no memory.
#[derive(Drop)]
pub struct LineLog<D: Disk> {
    log: JournalLog<D>,
    before: Snapshot<JournalLog<D>>,
    last: FixedList<LINE_MAX>,
    stopped: bool,
    refused: u64,
}

impl<D: Disk> Model for LineLog<D> {
    ghost use Rattle.fixed_list.specs.FixedList.{list_of};
    ghost use Rattle.line_log.specs.Kept.{IsLineLogOf, LineParts, line_parts};

    ghost Value = { LineParts };

    ghost view = { λ l. line_parts l.log l.before.value (list_of l.last) l.refused };

    ghost invariant = { λ l. IsLineLogOf l.stopped (line_parts l.log l.before.value (list_of l.last) l.refused) };
}

impl<D: Disk> LineLog<D> {
    /// A log without lines, on a disk that reads as the image of no records and has nothing pending,
    /// where it tells.
    pub fn new(disk: D) -> LineLog<D>
        requires { IfSome (D.story disk) (λ s. s.now ≡ settled (image_of [])) }
        ensures log { result.log ≡ log_parts (D.story disk) (D.story disk) 4 false (D.faults disk) 0 }
        ensures keeps { KeepsLines [] 0 result }
    {
        let log = JournalLog::new(disk);
        let before = Snapshot::of(&log);
        LineLog {
            log,
            before,
            last: FixedList::of(&[]),
            stopped: false,
            refused: 0,
        }
    }

    /// Whether an append has failed on the disk. Of every log it is so that it loses no line that it
    /// answered.
    pub fn has_stopped(&self) -> bool
        ensures stopped { IsTrue result ↔ (self.now.log.stopped ≡ true) }
        ensures log { IsLineLog self.now }
    {
        self.stopped
    }

    /// The disk.
    pub fn disk(self) -> D
        ensures story { D.story result ≡ self.log.now }
        ensures faults { D.faults result ≡ self.log.faults }
    {
        let LineLog { log, .. } = self;
        log.disk()
    }
}

impl<D: Disk> Sink for LineLog<D> {
    ghost held = { given_of };

    ghost lengths = { λ _. None };

    ghost faults = { line_faults };

    /// Appends one line of at most 256 bytes as a record, which is opened only once it is safe.
    /// `Failed`: a call of the disk failed or the log is full, in this append or in an earlier one, or
    /// the bytes aren't one line, which is refused.
    fn append(&mut self, bytes: &[u8]) -> Result<(), Failed>
        ensures ok { OnOk result (Gains (given_of self.old) bytes.now (given_of self.new)) }
        ensures part { OnErr result (GainsPart (given_of self.old) bytes.now (given_of self.new)) }
        ensures counts { line_faults self.new ≡ count_after result (line_faults self.old) }
        ensures kept { line_faults self.old ≤ line_faults self.new }

        ensures line { OnOk result (is_line bytes.now ≡ true) }
        ensures done { OnOk result (IsDone bytes.now self.old.log self.new.log) }
        ensures failed { OnErr result (HasFailed bytes.now self.old self.new) }
    {
        if self.stopped || !is_line(bytes) {
            self.refused = self.refused.saturating_add(1);
            return Err(Failed);
        }
        let before = Snapshot::of(&self.log);
        if let Err(failed) = self.log.append(bytes) {
            self.before = before;
            self.last = FixedList::of(bytes);
            self.stopped = true;
            return Err(failed);
        }
        Ok(())
    }
}
