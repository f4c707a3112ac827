//! The dialogues of both children, frame for frame. Replies and requests stand one a line: the kind's
//! two bytes, and then the body, in hexadecimal digits and in texts between apostrophes.

mod lines;

ghost use Rattle.std.specs.Prelude.{◌≡◌, ◌<◌, ◌≤◌, IfSome};
ghost use Rattle.child_protocol.specs.Stands.{IsNew};

use child_protocol::{Child, ChildEnd, Turn, run_child};
use imsg_frame::{Frame, Header, Reader};
use outside_memory::{CallKind, Fail, MemStream};
use request_catalogue::{Name, Width};
use std::alloc::{AllocError, Global};
use std::test::Fail as Fault;

/// The value of a hexadecimal digit.
fn digit_of(byte: u8) -> Option<u8>
    ensures { IfSome result (λ d. d < 16) }
{
    match byte {
        b'0'..=b'9' => Some(byte - b'0'),
        b'a'..=b'f' => Some(byte - b'a' + 10),
        _ => None,
    }
}

/// The bytes of a line.
fn bytes_of(alloc: Global, line: &[u8]) -> Result<Vec<u8>, AllocError> {
    let mut bytes = Vec::new(alloc);
    let mut is_text = false;
    let mut high = None;
    for byte in line {
        if *byte == b'\'' {
            is_text = !is_text;
        } else if is_text {
            bytes.push(*byte)?;
        } else if let Some(digit) = digit_of(*byte) {
            high = put_digit(&mut bytes, high, digit)?;
        }
    }
    Ok(bytes)
}

/// Appends the byte of two digits, where the first is there, and else keeps it.
fn put_digit(bytes: &mut Vec<u8>, high: Option<u8>, digit: u8) -> Result<Option<u8>, AllocError> {
    match high {
        Some(high) => {
            bytes.push(high.wrapping_mul(16).wrapping_add(digit))?;
            Ok(None)
        }
        None => Ok(Some(digit)),
    }
}

/// Appends the frame of a kind and a body, of this process.
fn put_frame(frames: &mut Vec<u8>, pid: u32, line: &[u8]) -> Result<(), AllocError> {
    if let [low, high, body @ ..] = line {
        let len = u16::try_from(body.len()).unwrap_or(0).wrapping_add(16);
        frames.extend_from_slice(&[*low, *high, 0, 0])?;
        frames.extend_from_slice(&len.to_le_bytes())?;
        frames.extend_from_slice(&[0; 6])?;
        frames.extend_from_slice(&pid.to_le_bytes())?;
        frames.extend_from_slice(body)?;
    }
    Ok(())
}

/// The frames of these lines, of this process.
fn frames_of(alloc: Global, pid: u32, lines: &str) -> Result<Vec<u8>, AllocError> {
    let mut frames = Vec::new(alloc);
    for line in lines.lines() {
        let bytes = bytes_of(alloc, line.as_bytes())?;
        put_frame(&mut frames, pid, &bytes)?;
    }
    Ok(frames)
}

/// What a child is sent, and what it is to send, as frames.
#[derive(Drop)]
struct Rows {
    replies: Vec<u8>,
    requests: Vec<u8>,
}

/// The frames of these lines: replies to session 7, and requests.
fn rows_of(alloc: Global, replies: &str, requests: &str) -> Result<Rows, AllocError> {
    Ok(Rows {
        replies: frames_of(alloc, 7, replies)?,
        requests: frames_of(alloc, 0, requests)?,
    })
}

/// Whether a child that is sent the replies in pieces of a length ends so, and has sent just the
/// requests.
fn asks(
    alloc: Global,
    child: &mut Child,
    rows: &Rows,
    piece: usize,
    end: ChildEnd,
) -> Result<bool, AllocError>
    requires new { IsNew child.old }
    requires some { 1 ≤ piece }
{
    let mut link = MemStream::new(alloc, &rows.replies, &[piece], &[])?;
    let mut reader = Reader::new(alloc, Width::Narrow, Width::Narrow.frame_max())?;
    let mut out = vec![in alloc; 0; 16_384]?;
    let found = run_child(child, &mut link, &mut reader, &mut out);
    Ok(found == end && link.tells() && link.sent() == rows.requests.as_slice())
}

/// Whether the child before the login, of session 7, ends so and asks just this, however the replies
/// are cut.
fn pre_asks(alloc: Global, rows: &Rows, end: ChildEnd) -> Result<bool, AllocError> {
    let whole = asks(alloc, &mut Child::pre(7), rows, 16_384, end)?;
    let sevens = asks(alloc, &mut Child::pre(7), rows, 7, end)?;
    let ones = asks(alloc, &mut Child::pre(7), rows, 1, end)?;
    Ok(whole && sevens && ones)
}

/// The same of the child of bob, user 1001, in session 7.
fn bob_asks(alloc: Global, rows: &Rows) -> Result<bool, AllocError> {
    let Some(bob) = Name::of(b"bob") else {
        return Ok(false);
    };
    let end = ChildEnd::Done;
    let whole = asks(alloc, &mut Child::user(7, 1_001, bob), rows, 16_384, end)?;
    let sevens = asks(alloc, &mut Child::user(7, 1_001, bob), rows, 7, end)?;
    let ones = asks(alloc, &mut Child::user(7, 1_001, bob), rows, 1, end)?;
    Ok(whole && sevens && ones)
}

/// The reply to BANNER in a session.
fn banner_reply(pid: u32) -> Frame<'static> {
    Frame {
        header: Header {
            kind: 257,
            len: 26,
            flags: 0,
            peerid: 0,
            pid,
        },
        body: b"\0OTP login",
    }
}

#[test]
fn a_child_begins_with_the_banner(rt: HostRuntime) -> Result<(), Fault> {
    let mut out = vec![in rt.alloc(); 0; 16_384]?;
    let mut child = Child::pre(7);
    let len = child.begin(&mut out);
    assert!(rt; len == 16);
    assert!(rt;
        out.as_slice()
            .starts_with(b"\x01\0\0\0\x10\0\0\0\0\0\0\0\0\0\0\0")
    );
    let turn = child.take(&banner_reply(7), &mut out);
    assert!(rt; turn == Turn::Asked { len: 38 });
    assert!(rt;
        out.as_slice().starts_with(
            b"\x08\0\0\0\x26\0\0\0\0\0\0\0\0\0\0\0\0\0\0\0\0\0\0\0\0\0\0\0OTP login\n"
        )
    );
    Ok(())
}

#[test]
fn another_session_s_reply_is_unreadable(rt: HostRuntime) -> Result<(), Fault> {
    let mut out = vec![in rt.alloc(); 0; 16_384]?;
    let mut child = Child::pre(7);
    let _len = child.begin(&mut out);
    let turn = child.take(&banner_reply(8), &mut out);
    assert!(rt; turn == Turn::Unreadable);
    Ok(())
}

/// Why a run of the child before the login, of session 7, ends over these replies.
fn end_of(
    alloc: Global,
    replies: &str,
    piece: usize,
    fails: &[Fail],
) -> Result<ChildEnd, AllocError>
    requires { 1 ≤ piece }
{
    let replies = frames_of(alloc, 7, replies)?;
    run_over(alloc, &replies, piece, fails)
}

/// The same over these bytes.
fn run_over(
    alloc: Global,
    replies: &[u8],
    piece: usize,
    fails: &[Fail],
) -> Result<ChildEnd, AllocError>
    requires { 1 ≤ piece }
{
    let mut link = MemStream::new(alloc, replies, &[piece], fails)?;
    let mut reader = Reader::new(alloc, Width::Narrow, Width::Narrow.frame_max())?;
    let mut out = vec![in alloc; 0; 16_384]?;
    let mut child = Child::pre(7);
    Ok(run_child(&mut child, &mut link, &mut reader, &mut out))
}

/// The replies of a session that the client leaves at once.
const LEAVES: &str = "\
    0101 00 'OTP login'
    0801 00
    0701 00
    0d01 00";

#[test]
fn a_run_ends_with_its_dialogue_its_link_or_what_it_can_t_read(
    rt: HostRuntime,
) -> Result<(), Fault> {
    assert!(rt; end_of(rt.alloc(), LEAVES, 7, &[])? == ChildEnd::Done);
    assert!(rt; end_of(rt.alloc(), "", 1, &[])? == ChildEnd::LinkEnded);
    assert!(rt; end_of(rt.alloc(), "0101 00 'OTP login'", 7, &[])? == ChildEnd::LinkEnded);
    assert!(rt; run_over(rt.alloc(), b"\x01\x01\0\0\x1a", 7, &[])? == ChildEnd::LinkEnded);
    assert!(rt; end_of(rt.alloc(), "0801 00", 7, &[])? == ChildEnd::Unreadable);
    assert!(rt; run_over(rt.alloc(), &[0; 16], 7, &[])? == ChildEnd::Unreadable);
    Ok(())
}

#[test]
fn a_fault_of_the_link_ends_a_run(rt: HostRuntime) -> Result<(), Fault> {
    let send = Fail {
        call: CallKind::Send,
        number: 2,
        sent: 3,
    };
    let recv = Fail {
        call: CallKind::Recv,
        number: 1,
        sent: 0,
    };
    assert!(rt; end_of(rt.alloc(), LEAVES, 7, &[send])? == ChildEnd::LinkFault);
    assert!(rt; end_of(rt.alloc(), LEAVES, 7, &[recv])? == ChildEnd::LinkFault);
    Ok(())
}

/// Appends what a client's 512 newlines lead to.
fn put_lines(alloc: Global, frames: &mut Vec<u8>) -> Result<(), AllocError> {
    let mut read = bytes_of(alloc, b"0701 00")?;
    read.extend_from_slice(&[b'\n'; 512])?;
    put_frame(frames, 7, &read)?;
    for _line in 0..512 {
        put_frame(frames, 7, b"\x08\x01\0")?;
    }
    Ok(())
}

#[test]
fn a_run_is_spent(rt: HostRuntime) -> Result<(), Fault> {
    let mut replies = frames_of(rt.alloc(), 7, "0101 00 'OTP login'\n0801 00")?;
    for _read in 0..8 {
        put_lines(rt.alloc(), &mut replies)?;
    }
    assert!(rt; run_over(rt.alloc(), &replies, 4_096, &[])? == ChildEnd::Spent);
    Ok(())
}
