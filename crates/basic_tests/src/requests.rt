ghost use Rattle.std.specs.Prelude.{◌≤◌};
ghost use Rattle.request_catalogue.specs.Catalogue.{IsInRange, value_of};

use request_catalogue::*;
use std::alloc::Global;
use std::test::*;

/// Whether a request is written as this body in this width.
fn is_written(width: Width, request: &Request, body: &[u8]) -> bool
    requires { IsInRange width (value_of request.now) }
{
    let mut out = [9; 65_520];
    let len = write_request(width, request, &mut out);
    &out[..len] == body
}

/// Whether a message without flags is this request, which is written as the same body, in this width.
fn is_request_in(width: Width, kind: u32, body: &[u8], request: Request) -> bool {
    match read_request(width, kind, 0, body) {
        Ok(read) => {
            read == request && request.kind().number() == kind && is_written(width, &read, body)
        }
        Err(_) => false,
    }
}

/// The same in both widths.
fn check_request(rt: &impl std::process::Abort, kind: u32, body: &[u8], request: Request) {
    assert!(rt;
        is_request_in(Width::Narrow, kind, body, request)
            && is_request_in(Width::Wide, kind, body, request)
    );
}

#[test]
fn requests_without_numbers(rt: HostRuntime) -> Result<(), Fail> {
    check_request(&rt, 1, b"", Request::Banner);
    let user = Name::of(b"alice").ok_or("a name")?;
    check_request(&rt, 2, b"alice", Request::Challenge { user });
    let text = b"9e876134d90499dd\t ~".as_slice();
    check_request(&rt, 3, text, Request::Reply { text });
    check_request(&rt, 4, b"", Request::Abandon);
    check_request(&rt, 5, b"", Request::Export { state: b"" });
    let state = [255; 8_192].as_slice();
    check_request(&rt, 5, state, Request::Export { state });
    check_request(&rt, 6, b"", Request::Import);
    let text = Note::of(b" a~").ok_or("a note")?;
    check_request(&rt, 12, b" a~", Request::Note { text });
    check_request(&rt, 13, b"", Request::Finish);
    Ok(())
}

#[test]
fn requests_with_numbers(rt: HostRuntime) -> Result<(), Fail> {
    let read = Request::ReadAt {
        handle: 0x0403_0201,
        offset: 0x0807_0605_0403_0201,
        max: 512,
    };
    check_request(&rt, 7, &[1, 2, 3, 4, 1, 2, 3, 4, 5, 6, 7, 8, 0, 2], read);
    let write = Request::WriteAt {
        handle: 5,
        offset: 0,
        bytes: b"hi",
    };
    check_request(&rt, 8, b"\x05\0\0\0\0\0\0\0\0\0\0\0hi", write);
    let name = Label::of(b"notes").ok_or("a label")?;
    check_request(&rt, 9, b"\x03notes", Request::OpenFile { mode: 3, name });
    check_request(&rt, 10, &[3, 0, 0, 0], Request::CloseFile { handle: 3 });
    check_request(&rt, 11, &[0xe8, 3, 0, 0], Request::Info { number: 1_000 });
    Ok(())
}

/// Messages that are no requests: kind, flags, rule, detail and the payload in hexadecimal digits, of
/// which `XX*N` is a byte N times.
const NO_REQUESTS: &str = "\
13 1 2 1
13 2 3 2
13 3 2 3
13 65535 2 65535
0 2 3 2 78
0 0 4 0
14 0 4 14
4294967295 0 4 4294967295
1 0 5 1 61
2 0 5 2
2 0 5 2 3161
2 0 5 2 612e
2 0 5 2 61*33
3 0 5 3
3 0 5 3 0a61
3 0 5 3 617f
3 0 5 3 61*257
4 0 5 4 00
5 0 5 5 00*8193
6 0 5 6 00
7 0 5 7
7 0 5 7 01000000000000000000000000
7 0 5 7 0100000000000000000000000000
7 0 5 7 010000000000000000000000000000
7 0 5 7 010000000000000000000000813e
8 0 5 8
8 0 5 8 010000000000000000000000
8 0 5 8 00*16013
9 0 5 9
9 0 5 9 01
9 0 5 9 006e6f746573
9 0 5 9 046e6f746573
9 0 5 9 015f6e6f746573
10 0 5 10 010000
10 0 5 10 0100000000
11 0 5 11 010000
12 0 5 12
12 0 5 12 0961
12 0 5 12 61*65
13 0 5 13 00
";

/// The bytes of a payload in a table.
fn payload_of(alloc: Global, text: &str) -> Result<Vec<u8>, Fail> {
    if let Some((byte, count)) = text.split_once('*') {
        let byte = u8::from_str_radix(byte, 16)?;
        let count: usize = count.parse()?;
        return Ok(vec![in alloc; byte; count]?);
    }
    Ok(hex::decode(alloc, text)?)
}

/// The kind, the flags, the rule, the detail and the payload's digits of a line of the table.
fn message_of(line: &str) -> Option<(u32, u16, u8, u32, &str)> {
    let mut words = line.split(' ');
    Some((
        words.next()?.parse().ok()?,
        words.next()?.parse().ok()?,
        words.next()?.parse().ok()?,
        words.next()?.parse().ok()?,
        words.next().unwrap_or(""),
    ))
}

/// Whether a message of a line of the table is refused as it says.
fn is_refused(alloc: Global, line: &str) -> Result<bool, Fail> {
    let (kind, flags, rule, detail, digits) = message_of(line).ok_or("a message")?;
    let body = payload_of(alloc, digits)?;
    let read = read_request(Width::Narrow, kind, flags, body.as_slice());
    Ok(read == Err(Bad { rule, detail }))
}

#[test]
fn messages_that_are_no_requests(rt: HostRuntime) -> Result<(), Fail> {
    for line in NO_REQUESTS.lines() {
        assert!(rt; is_refused(rt.alloc(), line)?, "{line}");
    }
    Ok(())
}

/// Whether a message is refused by rule 5 in this width.
fn is_bad(width: Width, kind: u32, body: &[u8]) -> bool {
    let refused = Bad {
        rule: 5,
        detail: kind,
    };
    read_request(width, kind, 0, body) == Err(refused)
}

/// Whether READ has at most so many bytes in this width.
fn reads_at_most(width: Width, most: u16) -> bool {
    let [low, high] = u16::to_le_bytes(most);
    let request = Request::ReadAt {
        handle: 7,
        offset: 0,
        max: most,
    };
    let read = [7, 0, 0, 0, 0, 0, 0, 0, 0, 0, 0, 0, low, high];
    let more = [
        7,
        0,
        0,
        0,
        0,
        0,
        0,
        0,
        0,
        0,
        0,
        0,
        low.wrapping_add(1),
        high,
    ];
    is_request_in(width, 7, &read, request) && is_bad(width, 7, &more)
}

/// Whether WRITE has at most so many bytes in this width.
fn writes_at_most(width: Width, most: usize) -> bool
    requires { most ≤ 60000 }
{
    let mut write = [b'a'; 60_013];
    write[..12].copy_from_slice(&[0; 12]);
    let len = 12 + most;
    let request = Request::WriteAt {
        handle: 0,
        offset: 0,
        bytes: &write[12..len],
    };
    is_request_in(width, 8, &write[..len], request) && is_bad(width, 8, &write[..len + 1])
}

#[test]
fn payloads_by_width(rt: HostRuntime) {
    assert!(rt; reads_at_most(Width::Narrow, 16_000) && writes_at_most(Width::Narrow, 16_000));
    assert!(rt; reads_at_most(Width::Wide, 60_000) && writes_at_most(Width::Wide, 60_000));
}

/// Whether these bytes are a name, and then its own.
fn is_name(bytes: &[u8]) -> bool {
    match Name::of(bytes) {
        Some(name) => name.as_slice() == bytes,
        None => false,
    }
}

#[test]
fn names_and_their_rules(rt: HostRuntime) {
    for bytes in [b"a".as_slice(), b"_09-z_", &[b'z'; 32]] {
        assert!(rt; is_name(bytes));
    }
    for bytes in [[b'z'; 33].as_slice(), b"", b"-a", b"aA"] {
        assert!(rt; Name::of(bytes).is_none());
    }
}

/// Whether these bytes are a label, and then its own.
fn is_label(bytes: &[u8]) -> bool {
    match Label::of(bytes) {
        Some(label) => label.as_slice() == bytes,
        None => false,
    }
}

#[test]
fn labels_and_their_rules(rt: HostRuntime) {
    for bytes in [b"a.tar-0_".as_slice(), &[b'z'; 64]] {
        assert!(rt; is_label(bytes));
    }
    for bytes in [[b'z'; 65].as_slice(), b"", b".a", b"a/"] {
        assert!(rt; Label::of(bytes).is_none());
    }
}

/// Whether these bytes are a note, and then its own.
fn is_note(bytes: &[u8]) -> bool {
    match Note::of(bytes) {
        Some(note) => note.as_slice() == bytes,
        None => false,
    }
}

#[test]
fn notes_and_their_rules(rt: HostRuntime) {
    for bytes in [b" ~".as_slice(), &[b'z'; 64]] {
        assert!(rt; is_note(bytes));
    }
    for bytes in [[b'z'; 65].as_slice(), b"", b"\x1f"] {
        assert!(rt; Note::of(bytes).is_none());
    }
}

/// Whether the reply of what was done is these bytes in this width, which are read so.
fn is_done(width: Width, body: &[u8], bytes: &[u8]) -> bool {
    if body.len() >= width.body_max() {
        return false;
    }
    let mut out = [9; 65_520];
    let len = write_reply(width, &Answer::Done { body }, &mut out);
    &out[..len] == bytes && read_reply(bytes) == Ok(Answer::Done { body })
}

/// Whether the replies of what was done are so in a width whose longest reply is this.
fn are_done_so(width: Width, longest: &[u8]) -> bool {
    is_done(width, b"", &[0])
        && is_done(width, b"OTP login", b"\0OTP login")
        && is_done(width, longest.get(1..).unwrap_or(b""), longest)
}

#[test]
fn replies_of_what_was_done(rt: HostRuntime) {
    let zeros = [0; 65_520];
    assert!(rt; are_done_so(Width::Narrow, &zeros[..16_368]));
    assert!(rt; are_done_so(Width::Wide, &zeros));
}

/// Whether these bytes are written and are read as this answer.
fn is_reply(written: &[u8], answer: Answer, bytes: &[u8]) -> bool {
    written == bytes && read_reply(bytes) == Ok(answer)
}

#[test]
fn replies_of_denials(rt: HostRuntime) {
    let mut out = [9; 16_368];
    let answer = Answer::Denied { rule: 2, detail: 1 };
    let len = write_reply(Width::Narrow, &answer, &mut out);
    assert!(rt; is_reply(&out[..len], answer, &[1, 2, 1, 0, 0, 0]));
    let answer = Answer::Denied {
        rule: 17,
        detail: 5,
    };
    let len = write_reply(Width::Narrow, &answer, &mut out);
    assert!(rt; is_reply(&out[..len], answer, &[1, 0x11, 5, 0, 0, 0]));
    let answer = Answer::Denied {
        rule: 22,
        detail: u32::MAX,
    };
    let len = write_reply(Width::Narrow, &answer, &mut out);
    assert!(rt; is_reply(&out[..len], answer, &[1, 22, 255, 255, 255, 255]));
}

#[test]
fn replies_of_devices(rt: HostRuntime) {
    let mut out = [9; 16_368];
    let answer = Answer::Device { device: 1 };
    let len = write_reply(Width::Narrow, &answer, &mut out);
    assert!(rt; is_reply(&out[..len], answer, &[2, 1]));
    let answer = Answer::Device { device: 2 };
    let len = write_reply(Width::Narrow, &answer, &mut out);
    assert!(rt; is_reply(&out[..len], answer, &[2, 2]));
}

#[test]
fn bytes_that_are_no_reply(rt: HostRuntime) {
    let wrong = [
        b"".as_slice(),
        &[1],
        &[1, 0, 0, 0, 0, 0],
        &[1, 23, 0, 0, 0, 0],
        &[1, 2, 0, 0, 0],
        &[1, 2, 0, 0, 0, 0, 0],
        &[2],
        &[2, 0],
        &[2, 3],
        &[2, 1, 0],
        &[3],
    ];
    for bytes in wrong {
        assert!(rt; read_reply(bytes) == Err(Unreadable));
    }
}

#[test]
fn kinds_of_replies(rt: HostRuntime) {
    let kinds = [
        (1, 0, 257),
        (13, 0, 269),
        (0, 0, 256),
        (14, 0, 256),
        (u32::MAX, 0, 256),
        (13, 1, 256),
    ];
    for (kind, flags, reply) in kinds {
        assert!(rt; reply_kind(kind, flags) == reply);
    }
}
