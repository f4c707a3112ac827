//! Answers to requests.

/// The monitor's answer to a request. A body is lent.
#[derive(Clone, Copy, PartialEq, Eq)]
pub enum Answer<'a> {
    /// Permitted and done. A reply holds at most 16,367 bytes of it, or 65,519 in wide frames.
    Done { body: &'a [u8] },
    /// Denied by a rule from 1 to 22.
    Denied { rule: u8, detail: u32 },
    /// Permitted, and the outside failed: the connection (1) or the vault (2).
    Device { device: u8 },
}

/// Bytes that are no reply.
#[derive(Clone, Copy, PartialEq, Eq)]
pub struct Unreadable;
