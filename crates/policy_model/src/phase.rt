//! The phases of a session.

/// How far a session has come.
#[derive(Clone, Copy, PartialEq, Eq)]
pub enum Phase {
    /// Before a login.
    Pre,
    /// A user was challenged and hasn't replied.
    Challenged,
    /// A reply was accepted; the child before the login still runs.
    Verified,
    /// The user's own child runs.
    User,
    /// No ask is permitted any more.
    Over,
}

/// What a phase says of a kind of request.
#[derive(Clone, Copy, PartialEq, Eq)]
pub struct Row {
    pub permitted: bool,
    /// Permitted once per session.
    pub once: bool,
    /// It decides whether the user is logged in.
    pub deciding: bool,
}

impl Row {
    /// Not permitted.
    pub const NONE: Row = Row {
        permitted: false,
        once: false,
        deciding: false,
    };
    /// Permitted any number of times.
    pub const FREE: Row = Row {
        permitted: true,
        once: false,
        deciding: false,
    };
    /// Permitted once per session.
    pub const ONCE: Row = Row {
        permitted: true,
        once: true,
        deciding: false,
    };
    /// Permitted, and it decides whether the user is logged in.
    pub const DECIDING: Row = Row {
        permitted: true,
        once: false,
        deciding: true,
    };
}
