ghost use Rattle.std.specs.Prelude.{◌≡◌, ◌<◌, ◌≤◌, ◌++◌, ℕ, List, length, drop, OnOk, IfOk};
ghost use Rattle.std.specs.List.{flat_map};

use crate::frame::{Frame, OwnedFrame};
use crate::header::Header;
use crate::reader::{Next, Reader};
use std::alloc::{AllocError, Global};

impl Reader {
    ghost use Rattle.imsg_frame.specs.Answer.{given_as};
    ghost use Rattle.imsg_frame.specs.Message.{Message, messages_in, owned_message_of};
    ghost use Rattle.imsg_frame.specs.Cut.{IsLongestCut, IsLastFront, IsPartialFront, IsStop, AddsCut};

    // The frame given last, with a body of its own.
    fn owned(&mut self, alloc: Global, header: Header) -> Result<OwnedFrame, AllocError>
        requires low { 16 ≤ header.len }
        requires len { header.len ≡ length self.old.given }
        ensures owned { IfOk result (λ owned. owned_message_of owned ≡ given_as header self.old.given) }
        ensures same { self.new ≡ self.old }
    {
        let bytes: &[u8] = self.contiguous();
        Frame::in_front(header, bytes).to_owned(alloc)
    }

    /// Takes each whole frame that is held, and adds it to `frames`.
    ///
    /// # Errors
    ///
    /// Where memory runs out, a frame that was taken may be lost.
    pub fn take_frames(
        &mut self,
        alloc: Global,
        frames: &mut Vec<OwnedFrame>,
    ) -> Result<(), AllocError>
        // The frames that were added, and then what is held, are what was held before.
        ensures cut { OnOk result (AddsCut self.old.width self.old.max
            (messages_in frames.old.items) self.old.bytes (messages_in frames.new.items) self.new.bytes) }
        ensures last { OnOk result (IsLastFront self.new.width self.new.max self.new.bytes) }
        // There is room for more, unless a bad header stands in front.
        ensures room { OnOk result (IsPartialFront self.new.width self.new.max self.new.bytes
            → length self.new.bytes < self.new.max) }
        ensures width { self.new.width ≡ self.old.width }
        ensures max { self.new.max ≡ self.old.max }
    {
        while let Next::Frame(header) = self.next() {
            frames.push(self.owned(alloc, header)?)?;
        }
        Ok(())
    }

    /// Feeds the whole piece, however little room there is, and takes each frame as soon as it is whole.
    /// Answers how many bytes of the piece were fed: all of them, unless a bad header stands in front.
    ///
    /// # Errors
    ///
    /// Where memory runs out, a frame that was taken may be lost.
    pub fn feed_all(
        &mut self,
        alloc: Global,
        piece: &[u8],
        frames: &mut Vec<OwnedFrame>,
    ) -> Result<usize, AllocError>
        // The frames that were added, what is held and what was not fed are what was held and the piece.
        ensures cut { IfOk result (λ fed. AddsCut self.old.width self.old.max
            (messages_in frames.old.items) (self.old.bytes ++ piece.now)
            (messages_in frames.new.items) (self.new.bytes ++ drop fed piece.now)) }
        ensures stop { IfOk result (λ fed. IsStop self.new.width self.new.max self.new.bytes (drop fed piece.now)) }
        ensures within { IfOk result (λ fed. fed ≤ length piece.now) }
        ensures width { self.new.width ≡ self.old.width }
        ensures max { self.new.max ≡ self.old.max }
    {
        self.take_frames(alloc, frames)?;
        let mut fed = 0;
        while fed < piece.len() {
            let taken = self.feed(&piece[fed..]);
            if taken == 0 {
                break;
            }
            fed += taken;
            self.take_frames(alloc, frames)?;
        }
        Ok(fed)
    }

    /// The frames of a stream that comes in these pieces, after what is held.
    ///
    /// # Errors
    ///
    /// Where memory runs out, frames that were taken are lost.
    pub fn frames_of(
        &mut self,
        alloc: Global,
        pieces: &[&[u8]],
    ) -> Result<Vec<OwnedFrame>, AllocError>
        // The frames, what is held and, after a bad header, what was never fed are the whole stream.
        ensures cut { IfOk result (λ frames. (unfed : List ℕ)
            × IsLongestCut self.old.width self.old.max (self.old.bytes ++ flat_map (λ piece. piece.now) pieces.now)
            (messages_in frames.items) (self.new.bytes ++ unfed)
            × IsStop self.new.width self.new.max self.new.bytes unfed) }
        // Every cut of the stream that goes as far has these frames, however the stream comes in pieces.
        ensures only { IfOk result (λ frames. (others : List Message) (rest : List ℕ)
            → IsLongestCut self.old.width self.old.max (self.old.bytes ++ flat_map (λ piece. piece.now) pieces.now)
            others rest
            → messages_in frames.items ≡ others) }
        ensures width { self.new.width ≡ self.old.width }
        ensures max { self.new.max ≡ self.old.max }
    {
        let mut frames = Vec::new(alloc);
        self.take_frames(alloc, &mut frames)?;
        for piece in pieces {
            let fed = self.feed_all(alloc, piece, &mut frames)?;
            if fed < piece.len() {
                return Ok(frames);
            }
        }
        Ok(frames)
    }
}
