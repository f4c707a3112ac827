//! What a line says, and why a text is no line.

use policy_model::{Decision, Why};
use request_catalogue::{Label, Name, Note};

/// What a line says was asked: an ask without a reply's readings.
#[derive(Clone, Copy, PartialEq, Eq)]
pub enum LoggedAsk {
    Begin,
    Banner,
    Challenge { user: Name, now: u64 },
    Reply,
    Abandon,
    Export { len: u16 },
    Import,
    ReadAt { handle: u32, offset: u64, max: u16 },
    WriteAt { handle: u32, offset: u64, len: u16 },
    OpenFile { mode: u8, name: Label },
    CloseFile { handle: u32 },
    Info { number: u32 },
    Note { text: Note },
    Finish,
    Bad { rule: u8, detail: u32 },
    End { why: Why },
}

/// What a line says.
#[derive(Clone, Copy, PartialEq, Eq)]
pub struct Logged {
    pub number: u32,
    pub worker: u32,
    pub session: u32,
    pub what: LoggedAsk,
    pub decision: Decision,
}

/// The fault of the first part that doesn't read.
#[derive(Clone, Copy, PartialEq, Eq)]
pub enum LineFault {
    /// A decimal number is missing, has a leading zero or exceeds its type.
    Number,
    /// It is none of the words that may stand there, nor `w` or `s` before a number, nor a user's name.
    Word,
    /// A rule is out of its range: 1 to 22, 2 to 5 after `bad`, 1 to 7 after `violation`.
    Rule,
    /// Hexadecimal digits are odd in number, upper-case, too many or too few, or no label or note.
    Hex,
    /// Something else than one newline stands after the last part.
    End,
}
