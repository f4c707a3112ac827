//! Replies to a child's requests.

ghost use Rattle.std.specs.Prelude.{◌≡◌, ◌↔◌, IfSome, IsSomeAnd, IsTrue};
ghost use Rattle.imsg_frame.specs.Message.{message_of};
ghost use Rattle.request_catalogue.specs.Replies.{AnswerValue, answer_of};
ghost use Rattle.child_protocol.specs.Replies.{IsReplyHeader, IsReplyOf};

use crate::form::Form;
use imsg_frame::{Frame, Header};
use request_catalogue::{Answer, Kind, read_reply};

/// The answer of a frame to a request of this kind in a session, whose reply has this form.
pub(crate) fn answer_in<'a>(
    session: u32,
    kind: Kind,
    form: Form,
    frame: &Frame<'a>,
) -> Option<Answer<'a>>
    ensures found { IfSome result (λ a. IsReplyOf session kind form (message_of frame.now) (answer_of a)) }
    ensures only { (answer : AnswerValue) → IsReplyOf session kind form (message_of frame.now) answer
        → IsSomeAnd result (λ a. answer_of a ≡ answer) }
{
    if !is_reply_header(session, kind, &frame.header) {
        return None;
    }
    let Ok(answer) = read_reply(frame.body) else {
        return None;
    };
    if form.fits(&answer) {
        Some(answer)
    } else {
        None
    }
}

/// Whether a header is that of a reply to a request of this kind in a session.
fn is_reply_header(session: u32, kind: Kind, header: &Header) -> bool
    ensures { IsTrue result ↔ IsReplyHeader session kind header.now }
{
    header.kind == kind.number() + 256
        && header.flags == 0
        && header.peerid == 0
        && header.pid == session
}
