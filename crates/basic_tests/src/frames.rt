ghost use Rattle.std.specs.Prelude.{◌≤◌, length};

use imsg_frame::*;
use request_catalogue::Width;
use std::alloc::{AllocError, Global};
use std::test::Fail;

const WIDTHS: [Width; 2] = [Width::Narrow, Width::Wide];

// A frame of kind 8, whose body is twelve zeros and `hi`, and one of kind 13 with no body.
const STREAM: [u8; 46] = [
    8, 0, 0, 0, 30, 0, 0, 0, 0, 0, 0, 0, 0, 0, 0, 0, 0, 0, 0, 0, 0, 0, 0, 0, 0, 0, 0, 0, 104, 105,
    13, 0, 0, 0, 16, 0, 0, 0, 0, 0, 0, 0, 0, 0, 0, 0,
];

// A header of kind 7 with these bytes 4 to 8.
fn header(len: [u8; 4]) -> [u8; HEADER_LEN] {
    [
        7, 0, 0, 0, len[0], len[1], len[2], len[3], 0, 0, 0, 0, 0, 0, 0, 0,
    ]
}

// Whether a frame has this kind, length and body.
fn is_frame(frame: &OwnedFrame, kind: u32, len: u32, body: &[u8]) -> bool {
    (frame.header.kind, frame.header.len) == (kind, len) && frame.body.as_slice() == body
}

// Whether these are the frames of STREAM.
fn are_both(frames: &[OwnedFrame]) -> bool {
    match frames {
        [first, second] => {
            is_frame(first, 8, 30, &STREAM[16..30]) && is_frame(second, 13, 16, b"")
        }
        _ => false,
    }
}

// Whether a frame of this kind comes next.
fn gives_kind(reader: &mut Reader, kind: u32) -> bool {
    matches!(reader.next(), Next::Frame(header) if header.kind == kind)
}

// Whether a frame of this length comes next.
fn gives_len(reader: &mut Reader, len: u32) -> bool {
    matches!(reader.next(), Next::Frame(header) if header.len == len)
}

// Whether no frame is there yet.
fn waits(reader: &mut Reader) -> bool {
    matches!(reader.next(), Next::NotYet)
}

// Whether a wrong length is told.
fn tells_bad(reader: &mut Reader, len: u16) -> bool {
    matches!(reader.next(), Next::Bad { len: told } if told == len)
}

// A reader of this width for the longest frames.
fn reader_of(alloc: Global, width: Width) -> Result<Reader, AllocError> {
    Reader::new(alloc, width, width.frame_max())
}

// A width, a header's bytes 4 to 8, and the length that is told.
const WRONG: &[(Width, [u8; 4], u16)] = &[
    (Width::Narrow, [0x0f, 0, 0, 0], 15),
    (Width::Narrow, [0x01, 0x40, 0, 0], 16385),
    (Width::Wide, [0x0f, 0, 0, 0], 15),
    (Width::Wide, [0x0f, 0, 0, 0x80], 15),
    (Width::Wide, [0x01, 0, 0x01, 0], 65535),
    (Width::Wide, [0xff, 0xff, 0xff, 0xff], 65535),
];

// Whether a new reader keeps a wrong length of a header with these bytes 4 to 8 until it is cleared, and
// has this room then.
fn keeps_wrong(reader: &mut Reader, bytes: [u8; 4], len: u16, room: usize) -> bool {
    let is_kept = reader.feed(&header(bytes)) == HEADER_LEN
        && tells_bad(reader, len)
        && tells_bad(reader, len)
        && reader.held() == HEADER_LEN;
    reader.clear();
    is_kept && waits(reader) && reader.room() == room
}

#[test]
fn wrong_lengths_stay_until_clear(rt: HostRuntime) -> Result<(), Fail> {
    for (width, bytes, len) in WRONG {
        let mut reader = reader_of(rt.alloc(), *width)?;
        assert!(rt; keeps_wrong(&mut reader, *bytes, *len, width.frame_max()));
    }
    Ok(())
}

// Whether a reader takes a frame with no body.
fn takes_shortest(reader: &mut Reader) -> bool {
    reader.feed(&header([0x10, 0, 0, 0]));
    gives_len(reader, 16) && waits(reader)
}

// Whether a reader takes a piece whole four times, with no frame before each.
fn takes_four(reader: &mut Reader, piece: &[u8]) -> bool {
    let mut are_taken = true;
    for _ in 0..4u8 {
        are_taken &= waits(reader) && reader.feed(piece) == piece.len();
    }
    are_taken
}

// Whether a reader takes the longest frame: its header's bytes 4 to 8, and its body in four pieces.
fn takes_longest(reader: &mut Reader, bytes: [u8; 4], piece: &[u8], len: u32) -> bool {
    reader.feed(&header(bytes));
    takes_four(reader, piece)
        && reader.room() == 0
        && reader.feed(&[5]) == 0
        && gives_len(reader, len)
        && reader.held() == 0
}

// Whether a reader of this width takes the shortest frame and then the longest, of these bytes 4 to 8.
fn takes_both(
    alloc: Global,
    width: Width,
    bytes: [u8; 4],
    piece: &[u8],
) -> Result<bool, AllocError> {
    let mut reader = reader_of(alloc, width)?;
    let len = width.frame_max() as u32;
    Ok(takes_shortest(&mut reader) && takes_longest(&mut reader, bytes, piece, len))
}

#[test]
fn right_lengths(rt: HostRuntime) -> Result<(), Fail> {
    let body = [5; 16380];
    assert!(rt; takes_both(rt.alloc(), Width::Narrow, [0, 0x40, 0, 0], &body[..4092])?);
    assert!(rt; takes_both(rt.alloc(), Width::Wide, [0, 0, 1, 0], &body)?);
    Ok(())
}

// Feeds a write of 60,000 bytes, and a marked frame with no body. Whether all are held then.
fn holds_both(reader: &mut Reader) -> bool {
    reader.feed(&[8, 0, 0, 0, 0x7c, 0xea, 0, 0, 0, 0, 0, 0, 0, 0, 0, 0]);
    reader.feed(&[0; 12]);
    reader.feed(&[b'a'; 60_000]);
    reader.feed(&[13, 0, 0, 0, 16, 0, 0, 0x80, 0, 0, 0, 0, 0, 0, 0, 0]);
    reader.held() == 60_044
}

// Whether a frame has this kind, length, flags and length of its body.
fn is_so(frame: &OwnedFrame, kind: u32, len: u32, flags: u16, body_len: usize) -> bool {
    (frame.header.kind, frame.header.len) == (kind, len)
        && (frame.header.flags, frame.body.len()) == (flags, body_len)
}

// Whether these are the two frames that were fed.
fn are_wide(frames: &[OwnedFrame]) -> bool {
    match frames {
        [first, second] => is_so(first, 8, 60_028, 0, 60_012) && is_so(second, 13, 16, 1, 0),
        _ => false,
    }
}

// The frames that a reader has.
fn frames_in(alloc: Global, reader: &mut Reader) -> Result<Vec<OwnedFrame>, AllocError> {
    let mut frames = Vec::new(alloc);
    reader.take_frames(alloc, &mut frames)?;
    Ok(frames)
}

#[test]
fn wide_frames(rt: HostRuntime) -> Result<(), Fail> {
    let mut reader = reader_of(rt.alloc(), Width::Wide)?;
    assert!(rt; holds_both(&mut reader));
    assert!(rt; are_wide(&frames_in(rt.alloc(), &mut reader)?));
    Ok(())
}

// What a reader of this many bytes answers to a header of this length and a body of eight bytes.
const SMALL: &[(usize, u8, bool)] = &[
    (16, 16, true),
    (24, 24, true),
    (16, 17, false),
    (24, 25, false),
];

// Whether a reader has one frame of a header of this length, or none.
fn has_one(
    alloc: Global,
    reader: &mut Reader,
    len: u8,
    is_frame: bool,
) -> Result<bool, AllocError> {
    reader.feed(&header([len, 0, 0, 0]));
    reader.feed(&[0; 8]);
    let count = frames_in(alloc, reader)?.len();
    Ok((count == 1) == is_frame && waits(reader) == is_frame)
}

#[test]
fn small_readers(rt: HostRuntime) -> Result<(), Fail> {
    for (max, len, is_frame) in SMALL {
        let mut reader = Reader::new(rt.alloc(), Width::Narrow, *max)?;
        assert!(rt; has_one(rt.alloc(), &mut reader, *len, *is_frame)?);
    }
    Ok(())
}

// A frame of kind 12 with a body of eight bytes.
const NOTE: [u8; 24] = [
    12, 0, 0, 0, 24, 0, 0, 0, 0, 0, 0, 0, 0, 0, 0, 0, 1, 2, 3, 4, 5, 6, 7, 8,
];

// Whether a reader of 40 bytes gives the first of two frames.
fn gives_first(reader: &mut Reader) -> bool {
    let finish = &STREAM[30..];
    reader.ring().capacity() == 40
        && reader.feed(finish) + reader.feed(finish) == 32
        && gives_kind(reader, 13)
        && reader.held() == 16
        && reader.ring().len() == 32
}

// Whether its room comes with the next.
fn has_room_then(reader: &mut Reader) -> bool {
    reader.feed(&NOTE) == 24
        && reader.ring().len() == 40
        && gives_kind(reader, 13)
        && gives_kind(reader, 12)
        && &*reader.contiguous() == NOTE.as_slice()
        && reader.feed(&[0; 50]) == 40
}

#[test]
fn room_comes_with_each_frame(rt: HostRuntime) -> Result<(), Fail> {
    for width in WIDTHS {
        let mut reader = Reader::new(rt.alloc(), width, 40)?;
        assert!(rt; gives_first(&mut reader) && has_room_then(&mut reader));
    }
    Ok(())
}

// Whether a reader gives both frames of STREAM by these pieces.
fn gives_both(alloc: Global, reader: &mut Reader, pieces: &[&[u8]]) -> Result<bool, AllocError> {
    Ok(are_both(&reader.frames_of(alloc, pieces)?))
}

// Whether it gives them byte by byte.
fn gives_both_by_bytes(alloc: Global, reader: &mut Reader) -> Result<bool, AllocError> {
    let mut frames = Vec::new(alloc);
    for byte in &STREAM {
        if reader.feed_all(alloc, &[*byte], &mut frames)? != 1 {
            return Ok(false);
        }
    }
    Ok(are_both(&frames))
}

// Whether it gives them in three pieces, in one, and byte by byte.
fn gives_the_same(alloc: Global, reader: &mut Reader) -> Result<bool, AllocError> {
    Ok(
        gives_both(
            alloc,
            reader,
            &[&STREAM[..15], &STREAM[15..17], &STREAM[17..]],
        )? && gives_both(alloc, reader, &[&STREAM])?
            && gives_both_by_bytes(alloc, reader)?,
    )
}

#[test]
fn any_pieces_give_the_same_frames(rt: HostRuntime) -> Result<(), Fail> {
    for width in WIDTHS {
        let mut reader = Reader::new(rt.alloc(), width, 32)?;
        assert!(rt; gives_the_same(rt.alloc(), &mut reader)?);
    }
    Ok(())
}

// Whether a reply is composed, and what stands after it in the buffer stays.
fn composes(width: Width) -> bool {
    let mut out = [9; 20];
    compose(width, 264, 0, 1, &[0], &mut out) == Ok(17)
        && out == [8, 1, 0, 0, 17, 0, 0, 0, 0, 0, 0, 0, 1, 0, 0, 0, 0, 9, 9, 9]
}

// Whether a body is too long, and the buffer stays.
fn is_too_long(width: Width, body: &[u8]) -> bool
    requires { length body.now ≤ 65521 }
{
    let mut out = [9; 65_537];
    compose(width, 1, 2, 3, body, &mut out) == Err(TooLong) && out[0] == 9
}

// Whether a body is composed to a frame of this length.
fn is_composed(width: Width, body: &[u8], len: usize) -> bool
    requires { length body.now ≤ 65520 }
{
    let mut out = [9; 65_536];
    compose(width, 1, 2, 3, body, &mut out) == Ok(len)
}

#[test]
fn composes_a_reply(rt: HostRuntime) {
    for width in WIDTHS {
        assert!(rt; composes(width));
    }
    let body = [0; 65_521];
    assert!(rt; is_too_long(Width::Narrow, &body[..16_369]));
    assert!(rt; is_composed(Width::Narrow, &body[..16_368], 16_384));
    assert!(rt; is_too_long(Width::Wide, &body));
    assert!(rt; is_composed(Width::Wide, &body[..65_520], 65_536));
    what_was_composed_is_read();
    a_narrow_frame_is_a_wide_one();
}
