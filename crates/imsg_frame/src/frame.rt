ghost use Rattle.std.specs.Prelude.{◌≡◌, ◌≤◌, ◌++◌, ℕ, List, IfOk, length};
ghost use Rattle.imsg_frame.specs.Answer.{given_as};
ghost use Rattle.imsg_frame.specs.Message.{message_of, owned_message_of};

use crate::header::{HEADER_LEN, Header};
use std::alloc::{AllocError, Global};

/// A frame, whose body stays where the reader holds it.
#[derive(Clone, Copy, PartialEq, Eq)]
pub struct Frame<'a> {
    pub header: Header,
    /// The bytes after the header, `header.len` less 16 of them.
    pub body: &'a [u8],
}

/// A frame with a body of its own.
#[derive(PartialEq, Eq, Drop)]
pub struct OwnedFrame {
    pub header: Header,
    /// The bytes after the header, `header.len` less 16 of them.
    pub body: Vec<u8>,
}

impl<'a> Frame<'a> {
    /// The frame of this header, whose bytes, header and body, `bytes` begins with.
    pub fn in_front(header: Header, bytes: &'a [u8]) -> Frame<'a>
        requires low { 16 ≤ header.len }
        requires within { header.len ≤ length bytes.now }
        ensures { (frame rest : List ℕ) → bytes.now ≡ frame ++ rest → header.len ≡ length frame → message_of result
            ≡ given_as header frame }
    {
        Frame {
            header,
            body: &bytes[HEADER_LEN..header.len as usize],
        }
    }
}

impl Frame<'_> {
    /// The same frame with a copy of the body.
    pub fn to_owned(&self, alloc: Global) -> Result<OwnedFrame, AllocError>
        ensures { IfOk result (λ owned. owned_message_of owned ≡ message_of self.now) }
    {
        Ok(OwnedFrame {
            header: self.header,
            body: Vec::from_slice(alloc, self.body)?,
        })
    }
}
