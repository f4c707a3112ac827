//! What a worker serves with, besides its post and its turns.

ghost use Rattle.std.specs.Prelude.{◌≡◌, IfOk};
ghost use Rattle.request_catalogue.specs.Widths.{frame_max};

use imsg_frame::Reader;
use session_asking::{Replies, Texts};
use std::alloc::{AllocError, Global};

/// A worker's memory: the frames that come, and the answers that go, both in the width of the run's setup.
#[derive(Drop)]
pub struct Desk<'a, T: Texts> {
    pub(crate) reader: Reader,
    pub replies: Replies<'a, T>,
    ghost right: { reader.width ≡ (T.service replies.texts.now).setup.frames },
    ghost max: { reader.max ≡ frame_max (T.service replies.texts.now).setup.frames },
}

impl<'a, T: Texts> Desk<'a, T> {
    /// The memory of a worker that answers from these texts.
    pub fn new(alloc: Global, texts: &'a T) -> Result<Desk<'a, T>, AllocError>
        ensures { IfOk result (λ desk. desk.replies.texts.now ≡ texts.now) }
    {
        let width = texts.setup().parts().frames;
        Ok(Desk {
            reader: Reader::new(alloc, width, width.frame_max())?,
            replies: Replies::new(alloc, texts)?,
        })
    }
}
