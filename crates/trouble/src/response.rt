//! What is wrong with a response.

/// Why a line of the input isn't a response.
#[derive(Clone, Copy, PartialEq, Eq, Debug)]
pub enum LineFault {
    /// It has 4,096 bytes or more with its newline.
    TooLong,
    /// It is no response of RFC 2243.
    Unreadable(ResponseFault),
}

/// Why a text is no response of RFC 2243: the first part of it that doesn't read.
#[derive(Clone, Copy, PartialEq, Eq, Debug)]
pub enum ResponseFault {
    /// It doesn't begin with a kind's word and a colon.
    Kind,
    /// Not as many parts follow as the kind has, one or three.
    Parts,
    /// The current password doesn't read.
    Current,
    /// The parameters of the new chain don't read.
    Params,
    /// The new password doesn't read.
    New,
}

/// Why a response renews nothing.
#[derive(Clone, Copy, PartialEq, Eq, Debug)]
pub enum RenewFault {
    /// No account has that name.
    Unknown,
    /// The account isn't enabled.
    Disabled,
    /// The account's chain has no password left.
    Exhausted,
    /// The response begins no new chain.
    NotInit,
    /// The new seed is the account's.
    SameSeed,
    /// The current password is the one that was accepted last.
    Replayed,
    /// The current password doesn't hash to the one that was accepted last.
    NoMatch,
    /// The new password is the current one, the one that was accepted last, or what the current one
    /// hashes to by the new algorithm: a spent password would be the next one again.
    Loop,
}
