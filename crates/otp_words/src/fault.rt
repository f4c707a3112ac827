//! What is wrong with a word list.

ghost use Rattle.std.specs.Prelude.{◌≡◌};
ghost use Rattle.otp_words.specs.declared.fault.DictError.TheVariants.{OutOfMemory};

use std::alloc::AllocError;

/// A rule that a word list breaks.
#[derive(Clone, Copy, PartialEq, Eq, Debug)]
pub enum DictRule {
    /// The list hasn't 2,048 lines.
    Count,
    /// A line hasn't 1 to 4 bytes.
    Length,
    /// A byte of a line is no ASCII letter.
    Letter,
    /// An earlier line has the same word, without regard to letter case.
    Twice,
}

/// The first fault of a word list.
#[derive(Clone, Copy, PartialEq, Eq, Debug)]
pub struct DictFault {
    /// The number of the line, from 1; by `Count` the number of lines.
    pub line: u32,
    pub rule: DictRule,
}

/// Why a word list was not read.
#[derive(Clone, Copy, PartialEq, Eq)]
pub enum DictError {
    Refused(DictFault),
    OutOfMemory,
}

impl From<AllocError> for DictError {
    ghost from_gives = { λ _ e. e ≡ OutOfMemory };

    fn from(_: AllocError) -> Self {
        DictError::OutOfMemory
    }
}
