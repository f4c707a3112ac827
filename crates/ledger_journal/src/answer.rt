//! What recovery answers.

use otp_ledger::Ledger;
use std::alloc::AllocError;

/// What a log brings back.
#[derive(Drop)]
pub struct Recovered {
    /// What is known of each account after the log's last line.
    pub ledger: Ledger,
    /// How many lines the log has, at most 1,048,576.
    pub lines: u32,
    /// How many replies they accept.
    pub accepted: u32,
    /// They accept a reply, and the setup has all of them.
    pub already: bool,
}

/// Why nothing is brought back.
#[derive(Clone, Copy, PartialEq, Eq)]
pub enum RecoverError {
    /// The image isn't that of a log: it doesn't begin with `OTJ1` and a further byte, or an opened
    /// record has fewer bytes than its length and the next gate.
    NoLog,
    /// The first record with a fault, counted from 1: its place is above 1,048,576, or it isn't a
    /// line with its place as its number, or it accepts a reply that the setup doesn't have and that
    /// doesn't verify.
    Line { number: u32 },
    /// There isn't the memory.
    OutOfMemory,
}

impl From<AllocError> for RecoverError {
    ghost use Rattle.std.specs.Prelude.{◌≡◌};
    ghost use Rattle.ledger_journal.specs.declared.answer.RecoverError.TheVariants.{OutOfMemory};

    ghost from_gives = { λ _ e. e ≡ OutOfMemory };

    fn from(_error: AllocError) -> RecoverError
        ensures { result ≡ OutOfMemory }
    {
        RecoverError::OutOfMemory
    }
}
