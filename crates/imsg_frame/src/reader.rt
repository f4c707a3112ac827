ghost use Rattle.std.specs.Prelude.{◌≡◌, ◌+◌, ◌-◌, ◌≤◌, ◌<◌, ◌++◌, ◌↔◌, [], IfOk, IsTrue, length, take, drop, min};
ghost use Rattle.std.specs.Borrow.{sem};
ghost use Rattle.request_catalogue.specs.Widths.{frame_max};
ghost use Rattle.imsg_frame.specs.Message.{header_bytes, FitsFields};

use crate::header::{HEADER_LEN, Header};
use circular_buffer::HeapCircularBuffer;
use request_catalogue::Width;
use std::alloc::{AllocError, Global};
use std::marker::Model;

/// What stands in front of the bytes that a reader holds.
#[derive(Clone, Copy, PartialEq, Eq)]
pub enum Next {
    /// A whole frame with this header, which the reader holds no longer: `Reader::contiguous` lends it.
    Frame(Header),
    /// Less than a whole frame: feed more bytes.
    NotYet,
    /// A header whose length is below 16 or above the reader's `max`: the length, or 65,535 where it is
    /// greater.
    Bad { len: u16 },
}

/// Frames from a stream that comes in any pieces, kept in a ring.
///
/// Contracts see a reader as a `Held`: its width and its `max`, the frame given last, until it leaves the
/// ring, and the bytes that were fed and not yet given.
#[derive(Drop)]
pub struct Reader {
    width: Width,
    // `max` bytes at most: the frame given last, and what is held.
    ring: HeapCircularBuffer<u8>,
    // How many bytes the frame given last has.
    given: usize,
    // Where in the ring's memory its first byte stands. Only the speed depends on it: bytes that lie across the end of
    // that memory are moved before they are lent, one by one.
    place: usize,
}

impl Model for Reader {
    ghost use Rattle.std.specs.Prelude.{take, drop};
    ghost use Rattle.imsg_frame.specs.Held.{Held};
    ghost use Rattle.imsg_frame.specs.Layout.{IsLaidOut};

    ghost Value = { Held };

    ghost view = { λ r. record {
      width = r.width;
      max = r.ring.capacity;
      given = take r.given r.ring.items;
      bytes = drop r.given r.ring.items;
    } };

    ghost invariant = { λ r. IsLaidOut r.width r.ring.items r.ring.capacity r.given };
}

impl Reader {
    ghost use Rattle.imsg_frame.specs.Answer.{AfterNext, HasLenOf, IsAnswer, LendsRing, rewritten};

    /// A reader that holds no bytes, for frames of this width and of at most `max` bytes, header and body
    /// together. `max` is from 16 to 16,384, or to 65,536 for wide frames. All memory is taken here.
    ///
    /// # Errors
    ///
    /// Where memory runs out.
    pub fn new(alloc: Global, width: Width, max: usize) -> Result<Reader, AllocError>
        requires low { HEADER_LEN ≤ max }
        requires high { max ≤ frame_max width }
        ensures width { IfOk result (λ reader. reader.width ≡ width) }
        ensures max { IfOk result (λ reader. reader.max ≡ max) }
        ensures empty { IfOk result (λ reader. reader.bytes ≡ []) }
    {
        let ring = HeapCircularBuffer::with_capacity(alloc, max)?;
        Ok(Reader {
            width,
            ring,
            given: 0,
            place: 0,
        })
    }

    /// The ring that the bytes are kept in: the frame given last, until it leaves, and what is held.
    pub fn ring(&self) -> &HeapCircularBuffer<u8>
        ensures items { result.now.items ≡ self.now.given ++ self.now.bytes }
        ensures capacity { result.now.capacity ≡ self.now.max }
    {
        &self.ring
    }

    /// How many bytes are held: those that were fed and not yet given.
    pub fn held(&self) -> usize
        ensures { result ≡ length self.now.bytes }
    {
        self.ring.len() - self.given
    }

    /// How many bytes `feed` would take now.
    pub fn room(&self) -> usize
        ensures { length self.now.bytes + result ≡ self.now.max }
    {
        self.ring.capacity() - self.held()
    }

    /// Gives up the bytes that are held, and the frame given last.
    pub fn clear(&mut self)
        ensures width { self.new.width ≡ self.old.width }
        ensures max { self.new.max ≡ self.old.max }
        ensures given { self.new.given ≡ [] }
        ensures empty { self.new.bytes ≡ [] }
    {
        self.leave();
        self.ring.clear();
    }

    // Takes the frame given last, if it is still there, out of the ring.
    fn leave(&mut self)
        ensures width { self.new.width ≡ self.old.width }
        ensures max { self.new.max ≡ self.old.max }
        ensures given { self.new.given ≡ [] }
        ensures bytes { self.new.bytes ≡ self.old.bytes }
    {
        if 0 < self.given {
            let held = self.held();
            self.place = self.place.saturating_add(self.given);
            self.given = 0;
            self.ring.truncate_front(held);
        }
    }

    /// Takes as many bytes of the piece, from its front, as there is room for, and answers how many. The frame given
    /// last leaves the ring.
    pub fn feed(&mut self, piece: &[u8]) -> usize
        ensures taken { result ≡ min (length piece.now) (self.old.max - length self.old.bytes) }
        ensures bytes { self.new.bytes ≡ self.old.bytes ++ take result piece.now }
        ensures given { self.new.given ≡ [] }
        ensures width { self.new.width ≡ self.old.width }
        ensures max { self.new.max ≡ self.old.max }
    {
        self.leave();
        let room = self
            .ring
            .capacity()
            .saturating_sub(self.place.saturating_add(self.ring.len()));
        if 0 < self.place && room < piece.len() {
            move_to_front(&mut self.ring, &piece[..room]);
            self.place = 0;
        }
        self.ring.fill_from_slice(piece)
    }

    /// Gives the next frame, if a whole one is held. It stays in the ring until `next`, `feed` or `clear` is
    /// called again. After `NotYet` and `Bad` the bytes that are held are the same.
    ///
    /// It answers `NotYet` exactly where neither a whole frame nor a bad header stands in front; then there is
    /// room for at least one byte more.
    pub fn next(&mut self) -> Next
        ensures answer { IsAnswer self.old.width self.old.max self.old.bytes self.new.given result }
        ensures room { result ≡ Next.NotYet → length self.old.bytes < self.old.max }
        ensures after { AfterNext self.old result self.new }
        ensures len { HasLenOf result (length self.new.given) }
    {
        self.leave();
        let held = self.ring.len();
        if held < HEADER_LEN {
            return Next::NotYet;
        }
        let header = front_header(self.width, &self.ring);
        let len = header.len as usize;
        // At most `max` bytes are held, so a length that they reach is right.
        if !is_right_len(len, held) {
            if is_right_len(len, self.ring.capacity()) {
                return Next::NotYet;
            }
            return Next::Bad {
                len: told_len(header.len),
            };
        }
        self.given = len;
        Next::Frame(header)
    }

    /// Lends what is in the ring, in one piece: the frame given last, header and body, and then what is held.
    /// Where they lie across the ring's end they are moved first.
    pub fn contiguous(&mut self) -> &mut [u8]
        ensures* writes_back { sem 𝓛 (LendsRing self.entry result) }
        ensures value { result.now ≡ self.old.given ++ self.old.bytes }
        ensures same { rewritten self.old result.now ≡ self.old }
    {
        self.ring.make_contiguous()
    }
}

// How many bytes of a ring are moved at a time.
const PIECE: usize = 512;

// Moves the first bytes of a ring to its back.
fn rotate(ring: &mut HeapCircularBuffer<u8>, count: usize)
    requires fits { length ring.old.items ≤ ring.old.capacity }
    requires there { count ≤ length ring.old.items }
    ensures items { ring.new.items ≡ drop count ring.old.items ++ take count ring.old.items }
    ensures capacity { ring.new.capacity ≡ ring.old.capacity }
{
    let mut piece = [0; PIECE];
    let mut left = count;
    while 0 < left {
        let some = &mut piece[..left.min(PIECE)];
        let read = ring.read_into(some);
        let _ = ring.fill_from_slice(some);
        left -= read;
    }
}

// Moves a ring's bytes to the front of its memory. The filler has as many bytes as there are places from them to the
// end of that memory; the ring is without them again in the end.
fn move_to_front(ring: &mut HeapCircularBuffer<u8>, filler: &[u8])
    requires fits { length ring.old.items ≤ ring.old.capacity }
    ensures same { ring.new ≡ ring.old }
{
    let held = ring.len();
    let _ = ring.fill_from_slice(filler);
    rotate(ring, held);
    ring.truncate_front(held);
}

// The first bytes of two slices, one after the other, copied to `spare` where the first slice hasn't so many.
fn join(front: &[u8], back: &[u8], spare: &mut [u8])
    requires there { length spare.old ≤ length (front.now ++ back.now) }
    ensures len { length spare.new ≡ length spare.old }
    ensures joined { length front.now < length spare.old → spare.new ≡ take (length spare.old) (front.now ++ back.now) }
{
    let (cut, len) = (front.len(), spare.len());
    if cut < len {
        spare[..cut].copy_from_slice(front);
        spare[cut..].copy_from_slice(&back[..len - cut]);
    }
}

// The header in front of a ring.
fn front_header(width: Width, ring: &HeapCircularBuffer<u8>) -> Header
    requires { 16 ≤ length ring.now.items }
    ensures bytes { header_bytes width result ≡ take 16 ring.now.items }
    ensures fields { FitsFields width result }
{
    let (front, back) = ring.as_slices();
    if HEADER_LEN <= front.len() {
        return Header::from_front(width, front);
    }
    let mut spare = [0; HEADER_LEN];
    join(front, back, &mut spare);
    Header::from_front(width, &spare)
}

// Whether a length is from a header's to `most`.
fn is_right_len(len: usize, most: usize) -> bool
    ensures { IsTrue result ↔ ((HEADER_LEN ≤ len) × (len ≤ most)) }
{
    (HEADER_LEN..=most).contains(&len)
}

// A length as `Next::Bad` tells it.
fn told_len(len: u32) -> u16
    ensures { result ≡ min len 65535 }
{
    len.min(65_535) as u16
}
