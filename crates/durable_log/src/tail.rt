//! Where a log's next record goes.

ghost use Rattle.std.specs.Prelude.{◌≡◌, ◌+◌, ◌^◌, ◌<◌, ◌≤◌, false, length, OnErr, OnOk, IfOk, take, true};
ghost use Rattle.outside.specs.Told.{next_count};
ghost use Rattle.durable_log.specs.Journal.{behind_of};

use outside::Failed;

/// The bytes that a record has at most.
pub(crate) const RECORD_MAX: usize = 256;

/// The bytes of an image that a log fills at most.
pub(crate) const IMAGE_MAX: u64 = 271_581_189;

/// The gate of an opened record.
pub(crate) const OPEN: u8 = 1;

/// The place of the closed gate in the image of no records.
pub(crate) const FIRST_GATE: u64 = 4;

/// A closed gate.
const CLOSED: u8 = 0;

/// The end of a log: its closed gate, and a buffer for what is written after it.
#[derive(Drop)]
pub(crate) struct Tail {
    pub(crate) gate: u64,
    pub(crate) stopped: bool,
    pub(crate) refused: u64,
    pub(crate) buffer: [u8; 259],
}

impl Tail {
    /// The end of a log without records.
    pub(crate) fn new() -> Tail
        ensures gate { result.gate ≡ 4 }
        ensures stopped { result.stopped ≡ false }
        ensures refused { result.refused ≡ 0 }
    {
        Tail {
            gate: FIRST_GATE,
            stopped: false,
            refused: 0,
            buffer: [CLOSED; 259],
        }
    }

    /// Refuses an append without a call.
    fn refuse(&mut self) -> Failed
        ensures gate { self.new.gate ≡ self.old.gate }
        ensures stopped { self.new.stopped ≡ true }
        ensures refused { self.new.refused ≡ next_count self.old.refused }
    {
        self.stopped = true;
        self.refused = self.refused.saturating_add(1);
        Failed
    }

    /// Whether the log still takes appends. `Failed`: an earlier append failed, and this one is refused.
    pub(crate) fn check(&mut self) -> Result<(), Failed>
        ensures ok { OnOk result ((self.old.stopped ≡ false) × (self.new.stopped ≡ false)
            × (self.new.refused ≡ self.old.refused)) }
        ensures err { OnErr result ((self.old.stopped ≡ true) × (self.new.stopped ≡ true)
            × (self.new.refused ≡ next_count self.old.refused)) }
        ensures gate { self.new.gate ≡ self.old.gate }
    {
        if self.stopped {
            return Err(self.refuse());
        }
        Ok(())
    }

    /// Puts what is written after the closed gate into the buffer, and answers its length. Until
    /// `finish` the log counts as stopped. `Failed`: the record would end past the last byte of the
    /// image that a log may fill, and is refused.
    pub(crate) fn begin(&mut self, piece: &[u8]) -> Result<usize, Failed>
        requires piece { length piece.now ≤ 256 }
        requires gate { self.old.gate < 2 ^ 32 }
        ensures ok { IfOk result (λ size. (size ≡ length piece.now + 3)
            × (take size self.new.buffer ≡ behind_of piece.now)) }
        ensures fits { OnOk result ((self.old.gate + length piece.now + 4 ≤ 271581189)
            × (self.new.refused ≡ self.old.refused)) }
        ensures err { OnErr result ((271581189 < self.old.gate + length piece.now + 4)
            × (self.new.refused ≡ next_count self.old.refused)) }
        ensures gate { self.new.gate ≡ self.old.gate }
        ensures stopped { self.new.stopped ≡ true }
    {
        let size = piece.len() + 3;
        if self.gate + size as u64 + 1 > IMAGE_MAX {
            return Err(self.refuse());
        }
        self.stopped = true;
        fill(&mut self.buffer, piece);
        Ok(size)
    }

    /// The record after the gate, of so many bytes without its own gate, is done.
    pub(crate) fn finish(&mut self, size: usize)
        requires { self.old.gate + size < 2 ^ 32 }
        ensures gate { self.new.gate ≡ self.old.gate + size }
        ensures stopped { self.new.stopped ≡ false }
        ensures refused { self.new.refused ≡ self.old.refused }
    {
        self.gate += size as u64;
        self.stopped = false;
    }
}

// Puts a length, the piece and a closed gate at the buffer's front.
fn fill(buffer: &mut [u8; 259], piece: &[u8])
    requires { length piece.now ≤ 256 }
    ensures { take (length piece.now + 3) buffer.new ≡ behind_of piece.now }
{
    let size = piece.len();
    buffer[..2].copy_from_slice(&(size as u16).to_le_bytes());
    buffer[2..size + 2].copy_from_slice(piece);
    buffer[size + 2] = CLOSED;
}
