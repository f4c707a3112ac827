//! What a client's line to the user child asks.

ghost use Rattle.std.specs.Prelude.{◌≡◌, ◌≤◌, ◌<◌, ◌^◌, IfSome, true, length};
ghost use Rattle.request_catalogue.specs.Catalogue.{value_of, IsInRange};
ghost use Rattle.request_catalogue.specs.Texts.{is_label, is_note};
ghost use Rattle.child_protocol.specs.User.{Get, Remark, IsLegalUser, if_legal, is_content, number_of, put_command};
ghost use Rattle.child_protocol.specs.User.{put_parts, space_in, tell_command, user_command, user_request};
ghost use Rattle.child_protocol.specs.Frames.{frame_width};
ghost use Rattle.child_protocol.specs.Reading.{line_value};
ghost use Rattle.child_protocol.specs.Places.{user_place_by};

use crate::command::say;
use crate::place::Place;
use request_catalogue::{Label, Note, Request, are_printable};
use text_line::long_of;

/// The most bytes that a line puts in a file.
const CONTENT_MAX: usize = 200;

/// A line to the user child.
#[derive(Clone, Copy)]
pub(crate) enum UserLine<'a> {
    Get { name: Label },
    Put { name: Label, text: &'a [u8] },
    Tell { number: u32 },
    Remark { text: Note },
    Leave,
    Unknown,
}

#[tactic(auto, unfolding(crate::specs::User::user_command))]
pub(crate) fn user_command_of(line: &[u8]) -> UserLine<'_>
    ensures value { line_value result ≡ user_command line.now }
    ensures legal { IsLegalUser (line_value result) }
{
    if let Some(name) = line.strip_prefix(b"get ") {
        return get_of(name);
    }
    if let Some(text) = line.strip_prefix(b"put ") {
        return put_of(text);
    }
    if let Some(text) = line.strip_prefix(b"info ") {
        return tell_of(text);
    }
    if let Some(text) = line.strip_prefix(b"note ") {
        return remark_of(text);
    }
    if line == b"quit".as_slice() {
        UserLine::Leave
    } else {
        UserLine::Unknown
    }
}

fn get_of(name: &[u8]) -> UserLine<'_>
    ensures value { line_value result ≡ if_legal (is_label name.now) (Get name.now) }
    ensures legal { IsLegalUser (line_value result) }
{
    match Label::of(name) {
        Some(name) => UserLine::Get { name },
        None => UserLine::Unknown,
    }
}

fn put_of(text: &[u8]) -> UserLine<'_>
    ensures value { line_value result ≡ put_command text.now (space_in text.now) }
    ensures legal { IsLegalUser (line_value result) }
{
    match space_in(text) {
        Some(i) => put_parts(&text[..i], &text[i + 1..]),
        None => UserLine::Unknown,
    }
}

/// Where the first space stands.
#[tactic(auto, unfolding(crate::specs::User::space_in))]
fn space_in(text: &[u8]) -> Option<usize>
    ensures end { result ≡ space_in text.now }
    ensures within { IfSome result (λ i. i < length text.now) }
{
    text.iter().position(|byte| *byte == b' ')
}

fn put_parts<'a>(name: &[u8], text: &'a [u8]) -> UserLine<'a>
    ensures value { line_value result ≡ put_parts name.now text.now }
    ensures legal { IsLegalUser (line_value result) }
{
    match Label::of(name) {
        Some(name) if is_content(text) => UserLine::Put { name, text },
        _ => UserLine::Unknown,
    }
}

/// Whether a text may be put in a file.
#[tactic(auto, unfolding(crate::specs::User::is_content))]
fn is_content(text: &[u8]) -> bool
    ensures value { result ≡ is_content text.now }
    ensures some { result ≡ true → 1 ≤ length text.now }
    ensures few { result ≡ true → length text.now ≤ 200 }
{
    !text.is_empty() && text.len() <= CONTENT_MAX && are_printable(text)
}

fn tell_of(text: &[u8]) -> UserLine<'_>
    ensures value { line_value result ≡ tell_command (number_of text.now) }
    ensures legal { IsLegalUser (line_value result) }
{
    match number_of(text) {
        Some(number) => UserLine::Tell { number },
        None => UserLine::Unknown,
    }
}

/// The number of 32 bits that a text spells in decimal digits without a leading zero.
#[tactic(auto, unfolding(crate::specs::User::number_of))]
fn number_of(text: &[u8]) -> Option<u32>
    ensures { result ≡ number_of text.now }
{
    let number = long_of(text)?;
    if number > u64::from(u32::MAX) {
        return None;
    }
    Some(number as u32)
}

fn remark_of(text: &[u8]) -> UserLine<'_>
    ensures value { line_value result ≡ if_legal (is_note text.now) (Remark text.now) }
    ensures legal { IsLegalUser (line_value result) }
{
    match Note::of(text) {
        Some(text) => UserLine::Remark { text },
        None => UserLine::Unknown,
    }
}

/// Where a command leads to, and what is asked there.
pub(crate) fn user_first_of<'a>(command: &UserLine<'a>) -> (Place, Request<'a>)
    requires { IsLegalUser (line_value command.now) }
    ensures place { result.0 ≡ user_place_by (line_value command.now) }
    ensures value { value_of result.1 ≡ user_request (line_value command.now) }
    ensures in_range { IsInRange frame_width (value_of result.1) }
{
    match *command {
        UserLine::Get { name } => (Place::OpeningGet, Request::OpenFile { mode: 1, name }),
        UserLine::Put { name, .. } => (Place::OpeningPut, Request::OpenFile { mode: 2, name }),
        UserLine::Tell { number } => (Place::Asking, Request::Info { number }),
        UserLine::Remark { text } => (Place::Noting, Request::Note { text }),
        UserLine::Leave => (Place::Parting, say(b"bye\n")),
        UserLine::Unknown => (Place::Saying, say(b"what\n")),
    }
}
