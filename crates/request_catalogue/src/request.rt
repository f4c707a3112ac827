//! Requests, and what is wrong with a message that is none.

ghost use Rattle.std.specs.Prelude.{◌≡◌};

use crate::kind::Kind;
use crate::texts::{Label, Name, Note};

/// What a child asks of the monitor. A long text is lent from the message's body.
#[derive(Clone, Copy, PartialEq, Eq)]
pub enum Request<'a> {
    /// The setup's banner.
    Banner,
    /// A challenge for a user.
    Challenge {
        user: Name,
    },
    /// The reply to the challenge: 1 to 256 bytes, each a tab or printable.
    Reply {
        text: &'a [u8],
    },
    /// The challenge is given up.
    Abandon,
    /// The child's state for its successor, at most 8,192 bytes.
    Export {
        state: &'a [u8],
    },
    /// The predecessor's state.
    Import,
    /// At most `max` bytes, 1 to 16,000 or in wide frames 60,000, of a handle from an offset on.
    ReadAt {
        handle: u32,
        offset: u64,
        max: u16,
    },
    /// These bytes, 1 to 16,000 or in wide frames 60,000, into a handle from an offset on.
    WriteAt {
        handle: u32,
        offset: u64,
        bytes: &'a [u8],
    },
    /// A handle of a file, to read (mode 1), to write (2) or both (3).
    OpenFile {
        mode: u8,
        name: Label,
    },
    /// A handle is given back.
    CloseFile {
        handle: u32,
    },
    /// The information of a number.
    Info {
        number: u32,
    },
    /// A note for the log.
    Note {
        text: Note,
    },
    /// The session's end.
    Finish,
}

impl Request<'_> {
    ghost use Rattle.request_catalogue.specs.Catalogue.{value_of, kind_of};

    /// The kind of the request.
    pub fn kind(&self) -> Kind
        ensures { result ≡ kind_of (value_of self.now) }
    {
        match self {
            Request::Banner => Kind::Banner,
            Request::Challenge { .. } => Kind::Challenge,
            Request::Reply { .. } => Kind::Reply,
            Request::Abandon => Kind::Abandon,
            Request::Export { .. } => Kind::Export,
            Request::Import => Kind::Import,
            Request::ReadAt { .. } => Kind::ReadAt,
            Request::WriteAt { .. } => Kind::WriteAt,
            Request::OpenFile { .. } => Kind::OpenFile,
            Request::CloseFile { .. } => Kind::CloseFile,
            Request::Info { .. } => Kind::Info,
            Request::Note { .. } => Kind::Note,
            Request::Finish => Kind::Finish,
        }
    }
}

/// Why a message is no request.
#[derive(Clone, Copy, PartialEq, Eq)]
pub struct Bad {
    /// The rule that is broken: 2 descriptor flag, 3 other flags, 4 unknown kind, 5 payload.
    pub rule: u8,
    /// The flags by rules 2 and 3, the kind by rules 4 and 5.
    pub detail: u32,
}
