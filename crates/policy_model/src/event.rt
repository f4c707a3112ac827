//! Asks, decisions and events.

ghost use Rattle.std.specs.Prelude.{◌≡◌};
ghost use Rattle.policy_model.specs.Asks.{is_begin, is_end, is_lost, is_permit, is_proper, came_by_frame, kind_of};
ghost use Rattle.policy_model.specs.Asks.{request_number};

use request_catalogue::{Kind, Label, Name, Note};
use std::mem::size_of;

/// Why a session ended.
#[derive(Clone, Copy, PartialEq, Eq)]
pub enum Why {
    /// A permitted FINISH was answered.
    Finished,
    /// The child's bytes ended with none left over.
    ChildEnded,
    /// The child's bytes ended within a frame.
    Truncated,
    /// A header's length is below 16 or above that of the longest frame: the length, or 65,535 where it
    /// is greater.
    BadFrame { len: u16 },
    /// An ask was denied by this rule of 1 to 7.
    Violation { rule: u8 },
    /// Receiving from the child or sending to it failed.
    LinkFault,
    /// The child could not be started.
    KeeperFault,
    /// The log could not be written, so the last decision is lost.
    LogLost,
}

/// What a session asks the policy: its opening, a request of its child, a frame that is no
/// request, or its end.
#[derive(Clone, Copy, PartialEq, Eq)]
pub enum Ask {
    Begin,
    Banner,
    /// `now` is in milliseconds since the run began.
    Challenge {
        user: Name,
        now: u64,
    },
    /// The two readings of the text, as six words and as hexadecimal digits.
    Reply {
        words: Option<u64>,
        hex: Option<u64>,
    },
    Abandon,
    /// `len` is the length of the exported state in bytes, at most 8,192.
    Export {
        len: u16,
    },
    Import,
    ReadAt {
        handle: u32,
        offset: u64,
        max: u16,
    },
    /// `len` is the number of bytes to write, 1 to 16,000 or in wide frames 60,000.
    WriteAt {
        handle: u32,
        offset: u64,
        len: u16,
    },
    /// `mode` is 1 to read, 2 to write, 3 for both.
    OpenFile {
        mode: u8,
        name: Label,
    },
    CloseFile {
        handle: u32,
    },
    Info {
        number: u32,
    },
    Note {
        text: Note,
    },
    Finish,
    /// A frame that is no request, with the rule of 2 to 5 that it breaks.
    Bad {
        rule: u8,
        detail: u32,
    },
    End {
        why: Why,
    },
}

/// What was decided on an ask.
#[derive(Clone, Copy, PartialEq, Eq)]
pub enum Decision {
    Permit { value: u64 },
    /// `rule` is 1 to 22, the first that applies.
    Deny { rule: u8, detail: u32 },
    /// The log could not be written: nothing was decided and nothing is done.
    Lost,
}

/// One ask of one session together with its decision.
#[derive(Clone, Copy, PartialEq, Eq)]
pub struct Event {
    pub worker: u32,
    /// 0 where the worker has no session.
    pub session: u32,
    pub ask: Ask,
    pub decision: Decision,
}

/// An event is copied into the journal, which has room for 1,048,576 of them.
const _: () = prove!(size_of::<Event>() <= 128);

/// An ask of a worker.
#[derive(Clone, Copy, PartialEq, Eq)]
pub struct Step {
    pub worker: u32,
    pub ask: Ask,
}

impl Ask {
    /// Whether this opens a session.
    pub fn is_begin(&self) -> bool
        ensures { result ≡ is_begin self.now }
    {
        matches!(self, Ask::Begin)
    }

    /// Whether this ends a session.
    pub fn is_end(&self) -> bool
        ensures { result ≡ is_end self.now }
    {
        matches!(self, Ask::End { .. })
    }

    /// Whether this came by a frame of a child.
    pub fn came_by_frame(&self) -> bool
        ensures { result ≡ came_by_frame self.now }
    {
        !self.is_begin() && !self.is_end()
    }

    /// Whether the rule that this names is in its range: 2 to 5 of a bad frame, 1 to 7 of a violation.
    pub fn is_proper(&self) -> bool
        ensures { result ≡ is_proper self.now }
    {
        match *self {
            Ask::Bad { rule, .. } => 2 <= rule && rule <= 5,
            Ask::End {
                why: Why::Violation { rule },
            } => 1 <= rule && rule <= 7,
            _ => true,
        }
    }

    /// The kind of the request; none for an opening, an end and a frame that is no request.
    pub fn kind(&self) -> Option<Kind>
        ensures { result ≡ kind_of self.now }
    {
        match self {
            Ask::Begin | Ask::Bad { .. } | Ask::End { .. } => None,
            Ask::Banner => Some(Kind::Banner),
            Ask::Challenge { .. } => Some(Kind::Challenge),
            Ask::Reply { .. } => Some(Kind::Reply),
            Ask::Abandon => Some(Kind::Abandon),
            Ask::Export { .. } => Some(Kind::Export),
            Ask::Import => Some(Kind::Import),
            Ask::ReadAt { .. } => Some(Kind::ReadAt),
            Ask::WriteAt { .. } => Some(Kind::WriteAt),
            Ask::OpenFile { .. } => Some(Kind::OpenFile),
            Ask::CloseFile { .. } => Some(Kind::CloseFile),
            Ask::Info { .. } => Some(Kind::Info),
            Ask::Note { .. } => Some(Kind::Note),
            Ask::Finish => Some(Kind::Finish),
        }
    }

    /// The request's number of 1 to 13, or 0 where this is no request.
    pub fn number(&self) -> u32
        ensures { result ≡ request_number self.now }
    {
        match self.kind() {
            None => 0,
            Some(kind) => kind.number(),
        }
    }
}

impl Decision {
    /// Whether this permits the ask.
    pub fn is_permit(&self) -> bool
        ensures { result ≡ is_permit self.now }
    {
        matches!(self, Decision::Permit { .. })
    }

    /// Whether the log could not be written.
    pub fn is_lost(&self) -> bool
        ensures { result ≡ is_lost self.now }
    {
        matches!(self, Decision::Lost)
    }
}
