//! Requests written as the payloads of messages.

ghost use Rattle.std.specs.Prelude.{◌≡◌, ◌≤◌, ◌++◌, Ok, length, take, drop};
ghost use Rattle.request_catalogue.specs.Widths.{body_max};
ghost use Rattle.request_catalogue.specs.Kinds.{kind_number};
ghost use Rattle.request_catalogue.specs.Catalogue.{value_of, kind_of, IsInRange, payload_of};
ghost use Rattle.request_catalogue.specs.Reading.{request_of};

use crate::putting::put;
use crate::request::Request;
use crate::width::Width;

/// Writes the payload of a request to the front of `out`, and gives its length. A message of this
/// payload, the request's kind and flags 0 is read as the request, in frames of the same width.
pub fn write_request(width: Width, request: &Request, out: &mut [u8]) -> usize
    requires in_range { IsInRange width (value_of request.now) }
    requires room { body_max width ≤ length out.old }
    ensures len { result ≡ length (payload_of (value_of request.now)) }
    ensures within { result ≤ body_max width }
    ensures written { out.new ≡ payload_of (value_of request.now) ++ drop result out.old }
    ensures read_back { let value = value_of request.now in request_of width (kind_number (kind_of value)) 0
        (take result out.new) ≡ Ok value }
{
    put_payload(width, request, out)
}

#[tactic(auto, unfolding(crate::specs::Catalogue::payload_of, crate::specs::Texts::is_typed_reply))]
fn put_payload(width: Width, request: &Request, out: &mut [u8]) -> usize
    requires in_range { IsInRange width (value_of request.now) }
    requires room { body_max width ≤ length out.old }
    ensures len { result ≡ length (payload_of (value_of request.now)) }
    ensures within { result ≤ body_max width }
    ensures written { out.new ≡ payload_of (value_of request.now) ++ drop result out.old }
{
    match request {
        Request::Banner | Request::Abandon | Request::Import | Request::Finish => 0,
        Request::Challenge { user } => put(out, 0, user.as_slice()),
        Request::Reply { text } => put(out, 0, text),
        Request::Export { state } => put(out, 0, state),
        Request::ReadAt {
            handle,
            offset,
            max,
        } => {
            let at = put(out, 0, &handle.to_le_bytes());
            let at = put(out, at, &offset.to_le_bytes());
            put(out, at, &max.to_le_bytes())
        }
        Request::WriteAt {
            handle,
            offset,
            bytes,
        } => {
            let at = put(out, 0, &handle.to_le_bytes());
            let at = put(out, at, &offset.to_le_bytes());
            put(out, at, bytes)
        }
        Request::OpenFile { mode, name } => {
            let at = put(out, 0, &[*mode]);
            put(out, at, name.as_slice())
        }
        Request::CloseFile { handle } => put(out, 0, &handle.to_le_bytes()),
        Request::Info { number } => put(out, 0, &number.to_le_bytes()),
        Request::Note { text } => put(out, 0, text.as_slice()),
    }
}
