//! The exported state.

/// The most bytes that a state is spelled by.
pub const STATE_MAX: usize = 4_181;

/// What the child before the login leaves to the user's child.
#[derive(Clone, Copy, PartialEq, Eq)]
pub struct State<'a> {
    /// The client's terminal, at most 64 bytes.
    pub terminal: &'a [u8],
    /// What the client had sent and no line has used yet, at most 4,096 bytes.
    pub unread: &'a [u8],
    /// How many lines were taken.
    pub lines: u32,
    /// How many bytes were read from the client.
    pub bytes: u32,
}
