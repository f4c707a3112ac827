//! An accepted reply of a log.

/// A reply that a line accepts.
#[derive(Clone, Copy, PartialEq, Eq)]
pub struct Login {
    /// The line's number.
    pub line: u32,
    /// The number of the account that the reply's session took last, counted from 0: none where it
    /// took none, or was challenged by a decoy.
    pub account: Option<u32>,
    /// Its first byte is the most significant.
    pub password: u64,
}
