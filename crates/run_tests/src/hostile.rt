//! Frames that are no request before the login, and the limit of requests.

use outside_memory::MemPost;
use service_play::{Came, ONE, Play, Session, come, frame, header, sent, setup_with, word_list};
use std::alloc::{AllocError, Global};
use std::sync::Wait;
use std::test::Fail as Fault;
use std::thread::Threads;

/// The run of connections whose first child sends these bytes.
fn run_of<R: Threads + Wait + Sync>(
    rt: &R,
    alloc: Global,
    lines: &str,
    pre: &[u8],
    connections: usize,
) -> Result<Came<MemPost>, Fault> {
    let session = Session {
        client: b"",
        pre,
        user: b"",
    };
    let sessions = vec![in alloc; session; connections]?;
    let setup = setup_with(alloc, lines)?;
    let list = word_list(alloc, 2_048)?;
    let play = Play {
        name: "setup",
        setup: &setup,
        list: &list,
        sessions: &sessions,
        piece: 4_096,
        fails: &[],
    };
    come(rt, alloc, &play, 1)
}

/// Whether a run had status 0 and this log, and its first child was sent this.
fn came_so(came: &Came<MemPost>, log: &str, reply: &[u8]) -> bool {
    let is_logged = came.log.held() == log.as_bytes();
    came.status == 0 && is_logged && sent(&came.posts, 0) == reply
}

/// Whether a child that sends these bytes and ends is sent this reply, and the log is this.
fn is_answered<R: Threads + Wait + Sync>(
    rt: &R,
    alloc: Global,
    pre: &[u8],
    reply: &[u8],
    log: &str,
) -> Result<bool, Fault> {
    Ok(came_so(&run_of(rt, alloc, ONE, pre, 1)?, log, reply))
}

/// Whether a header of this length ends the session as a bad frame.
fn is_bad<R: Threads + Wait + Sync>(rt: &R, alloc: Global, len: u16) -> Result<bool, Fault> {
    let header = header(alloc, 1, len, 0, 0)?;
    let log = format!(in alloc; "1 w0 s1 open permit\n2 w0 s1 end bad-frame {len} permit\n")?;
    is_answered(rt, alloc, &header, b"", log.as_str())
}

/// Lengths of headers that are too short or too long.
const LENGTHS: &[u16] = &[0, 15, 16_385, 65_535];

#[test]
fn lengths_that_no_frame_has(rt: HostRuntime) -> Result<(), Fault> {
    for len in LENGTHS {
        assert!(&rt; is_bad(&rt, rt.alloc(), *len)?, "{len}");
    }
    Ok(())
}

/// The reply to a denied frame, which has the request's kind only where that is known and the flags
/// are 0.
fn denial(alloc: Global, pre: &[u8], rule: u8, detail: u32) -> Result<Vec<u8>, AllocError> {
    let kind = match pre.first() {
        Some(kind) if rule == 5 => *kind,
        _ => 0,
    };
    let mut body = vec![in alloc; 1, rule]?;
    body.extend_from_slice(&detail.to_le_bytes())?;
    frame(alloc, u32::from(kind) | 256, 0, 1, &body)
}

/// Whether a frame is denied by this rule with this detail, and its session ends.
fn is_refused<R: Threads + Wait + Sync>(
    rt: &R,
    alloc: Global,
    pre: &[u8],
    rule: u8,
    detail: u32,
) -> Result<bool, Fault> {
    let log = format!(in alloc;
        "1 w0 s1 open permit\n2 w0 s1 bad {rule} {detail} deny {rule} {detail}\n3 w0 s1 end violation {rule} permit\n"
    )?;
    let reply = denial(alloc, pre, rule, detail)?;
    is_answered(rt, alloc, pre, &reply, log.as_str())
}

/// Whether a frame of this kind is refused as unknown.
fn is_unknown<R: Threads + Wait + Sync>(rt: &R, alloc: Global, kind: u32) -> Result<bool, Fault> {
    let frame = frame(alloc, kind, 0, 0, b"")?;
    is_refused(rt, alloc, &frame, 4, kind)
}

const KINDS: &[u32] = &[0, 14, u32::MAX];

#[test]
fn kinds_that_no_request_has(rt: HostRuntime) -> Result<(), Fault> {
    for kind in KINDS {
        assert!(&rt; is_unknown(&rt, rt.alloc(), *kind)?);
    }
    Ok(())
}

/// Whether a FINISH with these flags is refused by this rule.
fn is_marked<R: Threads + Wait + Sync>(
    rt: &R,
    alloc: Global,
    flags: u16,
    rule: u8,
) -> Result<bool, Fault> {
    let marked = frame(alloc, 13, flags, 0, b"")?;
    is_refused(rt, alloc, &marked, rule, u32::from(flags))
}

#[test]
fn a_frame_that_is_marked(rt: HostRuntime) -> Result<(), Fault> {
    assert!(&rt; is_marked(&rt, rt.alloc(), u16::MAX, 2)?);
    Ok(())
}

/// Flags, and the rules that refuse them.
const FLAGS: &[(u16, u8)] = &[(1, 2), (2, 3), (3, 2)];

#[test]
fn a_finish_with_flags(rt: HostRuntime) -> Result<(), Fault> {
    for (flags, rule) in FLAGS {
        assert!(&rt; is_marked(&rt, rt.alloc(), *flags, *rule)?);
    }
    Ok(())
}

/// WRITE of `a` to handle 5, and the reply to it.
const STRAY_WRITE: (&[u8], &[u8]) = (
    b"\x08\0\0\0\x1d\0\0\0\0\0\0\0\0\0\0\0\x05\0\0\0\0\0\0\0\0\0\0\0a",
    b"\x08\x01\0\0\x16\0\0\0\0\0\0\0\x01\0\0\0\x01\x11\x05\0\0\0",
);

const STRAY_LOG: &str = "1 w0 s1 open permit
2 w0 s1 write 5 0 1 deny 17 5
3 w0 s1 end child-ended permit
";

#[test]
fn a_write_to_a_handle_that_is_not_open(rt: HostRuntime) -> Result<(), Fault> {
    let (write, reply) = STRAY_WRITE;
    assert!(&rt; is_answered(&rt, rt.alloc(), write, reply, STRAY_LOG)?);
    Ok(())
}

const CUT_LOG: &str = "1 w0 s1 open permit
2 w0 s1 end truncated permit
";

const SILENT_LOG: &str = "1 w0 s1 open permit
2 w0 s1 end child-ended permit
";

#[test]
fn a_child_that_ends_within_a_frame(rt: HostRuntime) -> Result<(), Fault> {
    assert!(&rt; is_answered(&rt, rt.alloc(), &STRAY_WRITE.0[..7], b"", CUT_LOG)?);
    assert!(&rt; is_answered(&rt, rt.alloc(), b"", b"", SILENT_LOG)?);
    Ok(())
}

/// Whether a request with this body is refused as malformed.
fn is_malformed<R: Threads + Wait + Sync>(
    rt: &R,
    alloc: Global,
    kind: u32,
    body: &[u8],
) -> Result<bool, Fault> {
    let frame = frame(alloc, kind, 0, 0, body)?;
    is_refused(rt, alloc, &frame, 5, kind)
}

/// Kinds of requests, and bodies that they don't have: a READ has handle, offset and at most 16,000 bytes.
const BODIES: &[(u32, &[u8])] = &[
    (1, b"x"),
    (2, b""),
    (7, &[0; 14]),
    (7, b"\0\0\0\0\0\0\0\0\0\0\0\0\x81\x3e"),
    (8, &[0; 12]),
    (9, b"\x04notes"),
    (12, &[b'a'; 65]),
];

#[test]
fn bodies_that_no_request_has(rt: HostRuntime) -> Result<(), Fault> {
    for (kind, body) in BODIES {
        assert!(&rt; is_malformed(&rt, rt.alloc(), *kind, body)?);
    }
    Ok(())
}

/// Whether a WRITE of 16,001 bytes is refused.
fn is_too_long<R: Threads + Wait + Sync>(rt: &R, alloc: Global) -> Result<bool, Fault> {
    let long = vec![in alloc; 0; 16_013]?;
    is_malformed(rt, alloc, 8, &long)
}

#[test]
fn a_body_that_is_too_long(rt: HostRuntime) -> Result<(), Fault> {
    assert!(&rt; is_too_long(&rt, rt.alloc())?);
    Ok(())
}

const BUDGET_LOG: &str = "1 w0 s1 open permit
2 w0 s1 note 61 permit
3 w0 s1 note 61 permit
4 w0 s1 note 61 permit
5 w0 s1 note 61 permit
6 w0 s1 note 61 permit
7 w0 s1 note 61 permit
8 w0 s1 note 61 permit
9 w0 s1 note 61 permit
10 w0 s1 note 61 deny 1 8
11 w0 s1 end violation 1 permit
12 w0 s2 open permit
13 w0 s2 note 61 permit
";

/// Nine notes of `a`.
fn nine_notes(alloc: Global) -> Result<Vec<u8>, AllocError> {
    let note = frame(alloc, 12, 0, 0, b"a")?;
    let mut notes = Vec::new(alloc);
    for _ in 0..9 {
        notes.extend_from_slice(&note)?;
    }
    Ok(notes)
}

/// The reply to the ninth note of session 1.
const LAST_REPLY: &[u8] = b"\x0c\x01\0\0\x16\0\0\0\0\0\0\0\x01\0\0\0\x01\x01\x08\0\0\0";

/// Whether the log of a run begins with that of eight notes, and its first child was sent the last reply.
fn is_limited(came: &Came<MemPost>) -> bool {
    let is_logged = came.log.held().starts_with(BUDGET_LOG.as_bytes());
    is_logged && sent(&came.posts, 0).ends_with(LAST_REPLY)
}

/// Whether eight of nine notes are permitted in a session, and the ninth ends it.
fn are_limited<R: Threads + Wait + Sync>(rt: &R, alloc: Global) -> Result<bool, Fault> {
    let notes = nine_notes(alloc)?;
    let lines = "workers = 1\nrequests = 8";
    Ok(is_limited(&run_of(rt, alloc, lines, &notes, 2)?))
}

#[test]
fn a_session_s_requests_are_limited(rt: HostRuntime) -> Result<(), Fault> {
    assert!(&rt; are_limited(&rt, rt.alloc())?);
    Ok(())
}
