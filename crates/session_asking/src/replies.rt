//! The memory that a worker's answers are made in.

ghost use Rattle.std.specs.Prelude.{◌≡◌, ◌≤◌, [], length, take, vec_len, IfOk};
ghost use Rattle.imsg_frame.specs.Message.{composed_of, spelling_of};
ghost use Rattle.request_catalogue.specs.Replies as replies;
ghost use Rattle.request_catalogue.specs.Widths.{frame_max, transfer_max};

use crate::exported::Exported;
use crate::names::Names;
use crate::texts::Texts;
use imsg_frame::{HEADER_LEN, Header};
use request_catalogue::{Answer, Width, reply_kind, write_reply};
use std::alloc::{AllocError, Global};

/// The frame that a reply is made in: its body first, where it stands in the frame, and then the header
/// in front of it.
#[derive(Drop)]
pub struct Frames {
    width: Width,
    frame: Vec<u8>,
    ghost frame_len: { vec_len frame ≡ frame_max width },
}

impl Frames {
    fn new(alloc: Global, width: Width) -> Result<Frames, AllocError>
        ensures { IfOk result (λ frames. frames.width ≡ width) }
    {
        Ok(Frames {
            width,
            frame: vec![in alloc; 0; width.frame_max()]?,
        })
    }

    /// Makes the frame of the reply to a message in a session, and answers how many bytes it has.
    pub(crate) fn reply(&mut self, message: &Header, session: u32, answer: &Answer<'_>) -> usize
        requires { replies.IsSendable self.old.width (replies.answer_of answer.now) }
        ensures within { result ≤ vec_len self.new.frame }
        ensures frame { take result self.new.frame.items ≡ spelling_of self.old.width
            (composed_of (replies.reply_kind_of message.now.kind message.now.flags)
            message.now.peerid session (replies.reply_of (replies.answer_of answer.now))) }
        ensures width { self.new.width ≡ self.old.width }
    {
        write_frame(self.width, message, session, answer, &mut self.frame)
    }

    /// The first bytes of the frame that was made last.
    pub(crate) fn made(&self, len: usize) -> &[u8]
        requires { len ≤ vec_len self.now.frame }
        ensures { result.now ≡ take len self.now.frame.items }
    {
        &self.frame[..len]
    }
}

/// Writes the frame of a reply to the front of `out`, and answers how many bytes it has: the body first, and
/// then the header in front of it.
fn write_frame(
    width: Width,
    message: &Header,
    session: u32,
    answer: &Answer<'_>,
    out: &mut [u8],
) -> usize
    requires sendable { replies.IsSendable width (replies.answer_of answer.now) }
    requires room { length out.old ≡ frame_max width }
    ensures within { result ≤ frame_max width }
    ensures frame { take result out.new ≡ spelling_of width
        (composed_of (replies.reply_kind_of message.now.kind message.now.flags)
        message.now.peerid session (replies.reply_of (replies.answer_of answer.now))) }
{
    let len = HEADER_LEN + write_reply(width, answer, &mut out[HEADER_LEN..]);
    let header = Header {
        kind: reply_kind(message.kind, message.flags),
        len: len as u32,
        flags: 0,
        peerid: message.peerid,
        pid: session,
    };
    header.write(width, out);
    len
}

/// What a worker answers from and in: what the run serves by, the bytes that an operation gives, the
/// frame that tells them, and the state that its session's first child exported.
#[derive(Drop)]
pub struct Replies<'a, T: Texts> {
    pub texts: &'a T,
    pub(crate) piece: Vec<u8>,
    pub(crate) frames: Frames,
    pub exported: Exported,
    pub(crate) names: Names,
    ghost fits: { frames.width ≡ (T.service texts.now).setup.frames },
    ghost piece_len: { vec_len piece ≡ transfer_max frames.width },
}

impl<'a, T: Texts> Replies<'a, T> {
    /// The memory for a worker's answers: 40,576 bytes, or 133,728 for wide frames, and 16 for each account.
    pub fn new(alloc: Global, texts: &'a T) -> Result<Replies<'a, T>, AllocError>
        ensures { IfOk result (λ replies. replies.texts.now ≡ texts.now) }
    {
        let width = texts.setup().parts().frames;
        Ok(Replies {
            texts,
            piece: vec![in alloc; 0; width.transfer_max()]?,
            frames: Frames::new(alloc, width)?,
            exported: Exported::new(alloc)?,
            names: Names::new(alloc, texts.setup().parts().accounts.as_slice())?,
        })
    }
}
