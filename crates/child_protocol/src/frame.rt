//! Frames of requests.

ghost use Rattle.std.specs.Prelude.{◌≡◌, ◌≤◌, Some, length};
ghost use Rattle.request_catalogue.specs.Catalogue.{value_of, IsInRange};
ghost use Rattle.child_protocol.specs.Frames.{IsPut, IsTurn, frame_width};

use crate::turn::Turn;
use imsg_frame::compose;
use request_catalogue::{Request, Width, write_request};

/// The width of the frames that a child reads and writes. Its requests and their replies are so
/// short that they are spelled alike in wide frames.
pub const FRAMES: Width = Width::Narrow;

/// The most bytes of a request's body.
const BODY_MAX: usize = 16_368;

/// Puts the frame of a request to the front of the buffer, and gives its length.
#[tactic(auto, unfolding(crate::specs::Frames::request_bytes))]
pub(crate) fn put_frame(request: &Request<'_>, out: &mut [u8]) -> usize
    requires in_range { IsInRange frame_width (value_of request.now) }
    requires room { 16384 ≤ length out.old }
    ensures { IsPut (value_of request.now) result out.old out.new }
{
    let mut body = [0; BODY_MAX];
    let len = write_request(FRAMES, request, &mut body);
    let kind = request.kind().number();
    let Ok(len) = compose(FRAMES, kind, 0, 0, &body[..len], out) else {
        unreachable!()
    };
    len
}

/// A turn that asks this.
pub(crate) fn ask(request: &Request<'_>, out: &mut [u8]) -> Turn
    requires in_range { IsInRange frame_width (value_of request.now) }
    requires room { 16384 ≤ length out.old }
    ensures { IsTurn (Some (value_of request.now)) result out.old out.new }
{
    let len = put_frame(request, out);
    Turn::Asked { len }
}
