//! OpenBSD's imsg framing, as imsg_init(3) of release 7.3 lays it out, for little-endian machines and
//! without descriptors, and a wide framing beside it: frames from a stream that comes in any pieces, and
//! frames made. Believe `specs/Message.antt`, `specs/Fields.antt`, `specs/Cut.antt` and
//! `specs/Requests.antt`; the session loop and the children stand above.
//!
//! A frame is a header of 16 bytes and then the body. A narrow header is `kind` (the manual's `type`;
//! 4 bytes), `len` (2), `flags` (2), `peerid` (4) and `pid` (4), each number with its lowest byte
//! first. In a wide header `len` has 4 bytes and there are no `flags`: the top bit of those marks a
//! descriptor, and the lower 31 are the length. `len` counts the header and the body together, so it is
//! from 16 to 16,384, or to 65,536 in wide frames.
//!
//! ```text
//! loop {
//!     match reader.next() {
//!         Next::Frame(header) => use(Frame::in_front(header, reader.contiguous())),
//!         Next::NotYet => receive at most reader.room() bytes, and reader.feed(them),
//!         Next::Bad { len } => end: the stream can't be read any further,
//!     }
//! }
//! ```
#![tactic(auto)]

mod composing;
mod frame;
mod header;
mod reader;
mod stream;

pub use composing::{TooLong, a_narrow_frame_is_a_wide_one, compose, what_was_composed_is_read};
pub use frame::{Frame, OwnedFrame};
pub use header::{HEADER_LEN, Header};
pub use reader::{Next, Reader};
