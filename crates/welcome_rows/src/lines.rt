//! The lines of a login, and those after it.

ghost use Rattle.std.specs.Prelude.{◌≡◌, ◌≢◌, ◌≤◌, ◌++◌, true, [], IfOk};
ghost use Rattle.request_catalogue.specs.TextBytes.{name_bytes};
ghost use Rattle.request_catalogue.specs.Texts.{is_typed_reply};
ghost use Rattle.welcome_rows.specs.Met.{line_count, login_bytes, pair_bytes, visit_bytes, wish_bytes};

use crate::serving::Visit;
use request_catalogue::{Name, is_typed_reply};
use std::alloc::{AllocError, Global};

/// Puts the lines `user NAME` and `resp RESPONSE` to the end.
fn put_pair(lines: &mut Vec<u8>, user: &Name, response: &[u8]) -> Result<(), AllocError>
    ensures { IfOk result (λ done. lines.new.items
        ≡ lines.old.items ++ pair_bytes (name_bytes user.now) response.now) }
{
    lines.extend_from_slice(b"user ")?;
    lines.extend_from_slice(user.as_slice())?;
    lines.extend_from_slice(b"\nresp ")?;
    lines.extend_from_slice(response)?;
    lines.extend_from_slice(b"\n")
}

/// Whether a response is typed, and the mistyped one before it too, if there is one and a setup of so many
/// tries allows it.
pub fn are_typed(tries: u32, mistyped: &[u8], response: &[u8]) -> bool
    ensures typed { result ≡ true → is_typed_reply response.now ≡ true }
    ensures typed_too { result ≡ true → mistyped.now ≢ [] → is_typed_reply mistyped.now ≡ true }
    ensures tries { result ≡ true → mistyped.now ≢ [] → 2 ≤ tries }
{
    if !is_typed_reply(response) {
        return false;
    }
    mistyped.is_empty() || (is_typed_reply(mistyped) && tries >= 2)
}

/// How many lines a client says up to its response, with that.
pub(crate) fn line_count(mistyped: &[u8]) -> usize
    ensures { result ≡ line_count mistyped.now }
{
    if mistyped.is_empty() { 2 } else { 5 }
}

/// What a client says that logs in by a response: where there is a mistyped one, first a terminal and the
/// lines of a login by that.
fn login_lines(
    alloc: Global,
    user: &Name,
    mistyped: &[u8],
    response: &[u8],
) -> Result<Vec<u8>, AllocError>
    ensures { IfOk result (λ lines. lines.items
        ≡ login_bytes (name_bytes user.now) mistyped.now response.now) }
{
    let mut lines = Vec::new(alloc);
    if !mistyped.is_empty() {
        lines.extend_from_slice(b"term vt220\n")?;
        put_pair(&mut lines, user, mistyped)?;
    }
    put_pair(&mut lines, user, response)?;
    Ok(lines)
}

/// What a client says that wants files.
fn wish_lines(wants_files: bool) -> &'static [u8]
    ensures { result.now ≡ wish_bytes wants_files }
{
    if wants_files {
        b"put notes hello\nget notes\n"
    } else {
        b""
    }
}

/// What a visit's client says: the lines of its login, and those for the files that it wants.
///
/// # Errors
///
/// There isn't the memory.
pub fn visit_lines(alloc: Global, visit: &Visit) -> Result<Vec<u8>, AllocError>
    ensures { IfOk result (λ lines. lines.items ≡ visit_bytes visit.now) }
{
    let mistyped = visit.mistyped.as_slice();
    let mut lines = login_lines(alloc, &visit.user, mistyped, visit.response.as_slice())?;
    lines.extend_from_slice(wish_lines(visit.wants_files))?;
    Ok(lines)
}
