use crate::bytes::Bytes;
use crate::receiving::Receivings;
use request_catalogue::{Label, Name};

/// A fault of the outside. An object answers it only where its count of such faults rose in the
/// same call.
#[derive(Clone, Copy, PartialEq, Eq, Debug)]
pub struct Failed;

/// Which child of a session a stream leads to.
#[derive(Clone, Copy, PartialEq, Eq)]
pub enum Role {
    /// The child before the login, of the session with this number.
    Pre { session: u32 },
    /// The child of a user who is logged in: the session's number, and the user's id and name.
    User { session: u32, uid: u32, user: Name },
}

/// What an accept came to.
#[derive(Clone, Copy, PartialEq, Eq)]
pub enum Accepted {
    /// A connection came.
    Came,
    /// No connection will come any more.
    NoneLeft,
    /// The outside failed.
    Failed,
}

/// An operation that was asked of a post, with its outcome.
#[derive(PartialEq, Drop)]
pub enum Act {
    /// A connection was waited for.
    Accept {
        outcome: Accepted,
    },
    /// A child of this role was started.
    Start {
        role: Role,
        outcome: Result<(), Failed>,
    },
    /// The child of this role was given back.
    Finish {
        role: Role,
    },
    /// The connection was closed.
    HangUp,
    /// Up to `max` bytes of the client were waited for, and these came.
    ConnRecv {
        max: usize,
        outcome: Result<Bytes, Failed>,
    },
    /// The client was sent these bytes; where that failed, perhaps a part of them.
    ConnSend {
        bytes: Bytes,
        outcome: Result<(), Failed>,
    },
    /// Up to `max` bytes of a user's file were read from `offset` on, and there were these.
    VaultRead {
        uid: u32,
        name: Label,
        offset: u64,
        max: usize,
        outcome: Result<Bytes, Failed>,
    },
    /// These bytes were written into a user's file from `offset` on; where that failed, perhaps a
    /// part of them.
    VaultWrite {
        uid: u32,
        name: Label,
        offset: u64,
        bytes: Bytes,
        outcome: Result<(), Failed>,
    },
    /// The clock was read, and it was this moment, in milliseconds.
    Clock {
        moment: u64,
    },
}

/// What passed between the monitor and a child that was given back: the bytes `taken` from the
/// child and those `sent` to it, each in order, and each receiving that was asked of its stream,
/// where the stream told these.
#[derive(Drop)]
pub struct Talk {
    pub role: Role,
    pub taken: Bytes,
    pub sent: Bytes,
    pub receivings: Option<Receivings>,
}
