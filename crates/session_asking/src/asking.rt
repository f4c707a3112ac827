//! What a child asks by a message, and what follows it.

ghost use Rattle.std.specs.Prelude.{◌≡◌, [], ◌≤◌, false, true, IfErr, IfOk, MatchResult, length};
ghost use Rattle.outside.specs.Faults.{NoneFell};
ghost use Rattle.outside.specs.Scene.{Played};
ghost use Rattle.outside.specs.Told.{Goes};
ghost use Rattle.policy_model.specs.Asks.{came_by_frame, exports, is_proper};
ghost use Rattle.request_catalogue.specs.Catalogue.{IsInRange, value_of};
ghost use Rattle.service_model.specs.Acts.{written_by};
ghost use Rattle.service_model.specs.Requests.{Asks};
ghost use Rattle.session_asking.specs.Asking.{FitsPiece, IsReplyOf, IsRuleOfBad, IsTurnOf, clock_acts, read_value};
ghost use Rattle.session_asking.specs.Asking.{state_by};

use crate::texts::Texts;
use otp_words::{Dictionary, candidates};
use outside::Post;
use policy_model::{Ask, Decision, Event, Why};
use request_catalogue::{Bad, Request};

/// What follows a message.
#[derive(Clone, Copy)]
pub enum Turn {
    /// The child is served on.
    GoesOn,
    /// The session ends.
    Ends { why: Why },
    /// The user's child is next, by this permitted EXPORT.
    HandsOver { event: Event },
}

/// The ask that a message makes. For a CHALLENGE the clock is read, and a REPLY is read by the word
/// list.
pub(crate) fn ask_of<T: Texts, P: Post>(
    texts: &T,
    post: &mut P,
    read: &Result<Request<'_>, Bad>,
) -> Ask
    requires ranges { IfOk read.now (λ request. IsInRange (T.service texts.now).setup.frames (value_of request)) }
    requires rules { IfErr read.now IsRuleOfBad }
    ensures asks { MatchResult read.now (λ request. Asks (T.service texts.now).words (value_of request) result)
        (λ bad. result ≡ Ask.Bad bad.rule bad.detail) }
    ensures request { came_by_frame result ≡ true }
    ensures proper { is_proper result ≡ true }
    ensures fits { FitsPiece (T.service texts.now).setup.frames result }
    ensures clock { Goes (Played (clock_acts result) [] []) (P.scene post.old) (P.scene post.new) }
    ensures kept { NoneFell (P.faults post.old) (P.faults post.new) }
{
    let request = match read {
        Ok(request) => request,
        Err(bad) => {
            return Ask::Bad {
                rule: bad.rule,
                detail: bad.detail,
            };
        }
    };
    match *request {
        Request::Banner => Ask::Banner,
        Request::Challenge { user } => Ask::Challenge {
            user,
            now: post.now(),
        },
        Request::Reply { text } => reply_of(texts.dictionary(), text),
        Request::Abandon => Ask::Abandon,
        Request::Export { state } => Ask::Export {
            len: state.len() as u16,
        },
        Request::Import => Ask::Import,
        Request::ReadAt {
            handle,
            offset,
            max,
        } => Ask::ReadAt {
            handle,
            offset,
            max,
        },
        Request::WriteAt {
            handle,
            offset,
            bytes,
        } => Ask::WriteAt {
            handle,
            offset,
            len: bytes.len() as u16,
        },
        Request::OpenFile { mode, name } => Ask::OpenFile { mode, name },
        Request::CloseFile { handle } => Ask::CloseFile { handle },
        Request::Info { number } => Ask::Info { number },
        Request::Note { text } => Ask::Note { text },
        Request::Finish => Ask::Finish,
    }
}

/// The ask of a REPLY: the passwords that its text spells.
fn reply_of(dictionary: &Dictionary, text: &[u8]) -> Ask
    ensures { IsReplyOf dictionary.now text.now result }
{
    let found = candidates(dictionary, text);
    Ask::Reply {
        words: found.words,
        hex: found.hex,
    }
}

/// The bytes that a WRITE has to write; none of another request.
pub(crate) fn written<'a>(read: &Result<Request<'a>, Bad>) -> &'a [u8]
    ensures { result.now ≡ written_by (read_value read.now) }
{
    match read {
        Ok(Request::WriteAt { bytes, .. }) => bytes,
        _ => &[],
    }
}

/// The state that an EXPORT hands on; none of another request.
pub(crate) fn state_of<'a>(read: &Result<Request<'a>, Bad>) -> &'a [u8]
    requires few { length (state_by (read_value read.now)) ≤ 8192 }
    ensures state { result.now ≡ state_by (read_value read.now) }
    ensures few { length result.now ≤ 8192 }
{
    match read {
        Ok(Request::Export { state }) => state,
        _ => &[],
    }
}

/// Whether an event is a permitted EXPORT.
pub(crate) fn is_export(event: &Event) -> bool
    ensures { result ≡ exports event.now }
{
    matches!(event.ask, Ask::Export { .. }) && matches!(event.decision, Decision::Permit { .. })
}

/// What follows a request that was answered.
pub fn turn_of(event: &Event) -> Turn
    requires request { came_by_frame event.now.ask ≡ true }
    requires unexported { exports event.now ≡ false }
    ensures { IsTurnOf event.now result }
{
    match event.decision {
        Decision::Permit { .. } if matches!(event.ask, Ask::Finish) => Turn::Ends {
            why: Why::Finished,
        },
        Decision::Deny { rule, .. } if 1 <= rule && rule <= 7 => Turn::Ends {
            why: Why::Violation { rule },
        },
        Decision::Lost => Turn::Ends { why: Why::LogLost },
        Decision::Permit { .. } | Decision::Deny { .. } => Turn::GoesOn,
    }
}
