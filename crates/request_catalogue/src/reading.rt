//! Requests read from messages.

ghost use Rattle.std.specs.Prelude.{◌≡◌, ◌%◌, ◌≤◌, ◌==◌, ◌&&◌, ℕ, nat_le, Ok, Err, MatchOption, MatchResult, IfOk};
ghost use Rattle.std.specs.Prelude.{IsOkAnd, IfErr, length};
ghost use Rattle.std.specs.Option.{option_map};
ghost use Rattle.request_catalogue.specs.Widths.{transfer_max};
ghost use Rattle.request_catalogue.specs.Texts.{is_typed_reply};
ghost use Rattle.request_catalogue.specs.Kinds.{kind_numbered};
ghost use Rattle.request_catalogue.specs.Catalogue.{RequestValue, value_of, IsRequest};
ghost use Rattle.request_catalogue.specs.Reading.{asked_by, request_of, IsFault};

use crate::fields::{number_of, u16_at, u32_at, u64_at};
use crate::kind::Kind;
use crate::request::{Bad, Request};
use crate::rules;
use crate::texts::{Label, Name, Note, is_typed_reply};
use crate::width::Width;

/// The flag that marks a descriptor.
const DESCRIPTOR_FLAG: u16 = 1;

/// The most bytes of an exported state.
const STATE_MAX: usize = 8_192;

#[tactic(auto, unfolding(crate::specs::Reading::asked_by))]
fn read_at(width: Width, payload: &[u8]) -> Option<Request<'_>>
    ensures { option_map value_of result ≡ asked_by width Kind.ReadAt payload.now }
{
    let (handle, rest) = u32_at(payload)?;
    let (offset, rest) = u64_at(rest)?;
    let (max, rest) = u16_at(rest)?;
    ends_read(width, max, rest).then_some(Request::ReadAt {
        handle,
        offset,
        max,
    })
}

/// Whether a read may ask for `max` bytes in this width, and nothing stands after it.
fn ends_read(width: Width, max: u16, rest: &[u8]) -> bool
    ensures { result ≡ (length rest.now == 0 && nat_le 1 max && nat_le max (transfer_max width)) }
{
    rest.is_empty() && (1..=width.transfer_max()).contains(&usize::from(max))
}

#[tactic(auto, unfolding(crate::specs::Reading::asked_by))]
fn write_at(width: Width, payload: &[u8]) -> Option<Request<'_>>
    ensures { option_map value_of result ≡ asked_by width Kind.WriteAt payload.now }
{
    let (handle, rest) = u32_at(payload)?;
    let (offset, bytes) = u64_at(rest)?;
    fit_write(width, bytes).then_some(Request::WriteAt {
        handle,
        offset,
        bytes,
    })
}

/// Whether these bytes may be written by one request in this width.
fn fit_write(width: Width, bytes: &[u8]) -> bool
    ensures { result ≡ (nat_le 1 (length bytes.now) && nat_le (length bytes.now) (transfer_max width)) }
{
    !bytes.is_empty() && bytes.len() <= width.transfer_max()
}

#[tactic(auto, unfolding(crate::specs::Reading::asked_by))]
fn open_file(width: Width, payload: &[u8]) -> Option<Request<'_>>
    ensures { option_map value_of result ≡ asked_by width Kind.OpenFile payload.now }
{
    match payload {
        [mode @ 1..=3, name @ ..] => Some(Request::OpenFile {
            mode: *mode,
            name: Label::of(name)?,
        }),
        _ => None,
    }
}

#[tactic(auto, unfolding(crate::specs::Reading::asked_by))]
fn asked_by(width: Width, kind: Kind, payload: &[u8]) -> Option<Request<'_>>
    ensures { option_map value_of result ≡ asked_by width kind payload.now }
{
    match kind {
        Kind::Banner => payload.is_empty().then_some(Request::Banner),
        Kind::Challenge => Some(Request::Challenge {
            user: Name::of(payload)?,
        }),
        Kind::Reply => is_typed_reply(payload).then_some(Request::Reply { text: payload }),
        Kind::Abandon => payload.is_empty().then_some(Request::Abandon),
        Kind::Export => {
            (payload.len() <= STATE_MAX).then_some(Request::Export { state: payload })
        }
        Kind::Import => payload.is_empty().then_some(Request::Import),
        Kind::ReadAt => read_at(width, payload),
        Kind::WriteAt => write_at(width, payload),
        Kind::OpenFile => open_file(width, payload),
        Kind::CloseFile => Some(Request::CloseFile {
            handle: number_of(payload)?,
        }),
        Kind::Info => Some(Request::Info {
            number: number_of(payload)?,
        }),
        Kind::Note => Some(Request::Note {
            text: Note::of(payload)?,
        }),
        Kind::Finish => payload.is_empty().then_some(Request::Finish),
    }
}

/// The request that a message of this kind, flags and body is in frames of this width. The first rule that it breaks: 2
/// where flag bit 1 is set (a descriptor), 3 where another flag is, 4 where the kind is not 1 to
/// 13, 5 where the body is not that kind's payload.
pub fn read_request(width: Width, kind: u32, flags: u16, body: &[u8]) -> Result<Request<'_>, Bad>
    // What is read is in range and spelled so.
    ensures found { IfOk result (λ r. IsRequest width kind flags body.now (value_of r)) }
    // What is in range and spelled so is read.
    ensures only { (value : RequestValue) → IsRequest width kind flags body.now value
        → IsOkAnd result (λ r. value_of r ≡ value) }
    // Which rule is broken, and that it is the first.
    ensures fault { IfErr result (IsFault width kind flags body.now) }
    ensures rule { IfErr result (λ e. (2 ≤ e.rule) × (e.rule ≤ 5)) }
    // The table's answer.
    ensures exact { MatchResult result (λ r. request_of width kind flags body.now ≡ Ok (value_of r))
        (λ e. request_of width kind flags body.now ≡ Err e) }
{
    look_up(width, kind, flags, body)
}

#[tactic(auto, unfolding(crate::specs::Reading::request_of))]
fn look_up(width: Width, kind: u32, flags: u16, body: &[u8]) -> Result<Request<'_>, Bad>
    ensures { MatchResult result (λ r. request_of width kind flags body.now ≡ Ok (value_of r))
        (λ e. request_of width kind flags body.now ≡ Err e) }
{
    if has_descriptor(flags) {
        return Err(bad(rules::DESCRIPTOR_FLAG, u32::from(flags)));
    }
    if flags != 0 {
        return Err(bad(rules::OTHER_FLAGS, u32::from(flags)));
    }
    let Some(known) = Kind::of(kind) else {
        return Err(bad(rules::UNKNOWN_KIND, kind));
    };
    asked_by(width, known, body).ok_or(bad(rules::BAD_PAYLOAD, kind))
}

/// What is wrong with a message, by which rule, and its detail.
fn bad(rule: u8, detail: u32) -> Bad
    ensures { result ≡ record { rule = rule; detail = detail } }
{
    Bad { rule, detail }
}

/// Whether flag bit 1 is set, which marks a descriptor.
fn has_descriptor(flags: u16) -> bool
    ensures { result ≡ (flags % 2 == 1) }
{
    flags & DESCRIPTOR_FLAG != 0
}
