ghost use Rattle.std.specs.Prelude.{◌≡◌, ◌+◌, ◌<◌, ◌≤◌, ◌^◌, ◌↔◌, ℕ, List, ◌++◌, length, drop, IsErr, IfOk, OnErr};
ghost use Rattle.request_catalogue.specs.declared.width.Width.{Width};
ghost use Rattle.request_catalogue.specs.Widths.{body_max};
ghost use Rattle.imsg_frame.specs.Message.{composed_of, spelling_of, NarrowIsWide};
ghost use Rattle.imsg_frame.specs.Answer.{ReadsBack};

use crate::header::{HEADER_LEN, Header};
use request_catalogue::Width;

/// The body has more than 16,368 bytes, or 65,520 in wide frames, so that no frame can hold it.
#[derive(Clone, Copy, PartialEq, Eq)]
pub struct TooLong;

/// Writes a frame with flags 0 to the front of `out`, and answers how many bytes it has: 16 more than
/// the body. The bytes of `out` after the frame stay as they were. A frame of at most 16,384 bytes is
/// written alike in both widths.
///
/// `out` needs room for the frame, unless the body is too long for any.
///
/// # Errors
///
/// `TooLong` exactly where the body has more than 16,368 bytes, or 65,520 in wide frames. Then `out` is
/// unchanged.
pub fn compose(
    width: Width,
    kind: u32,
    peerid: u32,
    pid: u32,
    body: &[u8],
    out: &mut [u8],
) -> Result<usize, TooLong>
    requires { length body.now ≤ body_max width → 16 + length body.now ≤ length out.old }
    ensures len { IfOk result (λ n. n ≡ 16 + length body.now) }
    ensures written { IfOk result (λ n.
        out.new ≡ spelling_of width (composed_of kind peerid pid body.now) ++ drop n out.old) }
    // Up to the longest narrow body, what is written is the frame in either width.
    ensures alike { IfOk result (λ n. length body.now ≤ 16368 → (either : Width) →
        out.new ≡ spelling_of either (composed_of kind peerid pid body.now) ++ drop n out.old) }
    ensures too_long { IsErr result ↔ (body_max width < length body.now) }
    ensures unchanged { OnErr result (out.new ≡ out.old) }
{
    if width.body_max() < body.len() {
        return Err(TooLong);
    }
    let len = HEADER_LEN + body.len();
    let header = Header {
        kind,
        len: len as u32,
        flags: 0,
        peerid,
        pid,
    };
    header.write(width, out);
    out[HEADER_LEN..len].copy_from_slice(body);
    Ok(len)
}

/// A law: a reader that holds what `compose` wrote and then any bytes gives that frame, if its `max` is
/// at least the frame's length, and then holds those bytes.
pub fn what_was_composed_is_read()
    ensures { ReadsBack }
{}

/// The law of the two widths: a narrow frame with flags 0 is a wide frame too, spelled alike.
pub fn a_narrow_frame_is_a_wide_one()
    ensures { NarrowIsWide }
{}
