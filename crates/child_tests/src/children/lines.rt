//! Dialogues of whole lines.

use super::*;

/// The replies of a dialogue in which bob logs in: the child before the
/// login leaves what it didn't use, and its link ends.
const LOGIN_REPLIES: &str = "\
    0101 00 'OTP login'\n\
    0801 00\n\
    0701 00 'user bob' 0a 'resp bb9e 6ae1 979d 8ff4' 0a 'get notes' 0a 'put notes new' 0a 'quit' 0a\n\
    0201 00 'otp-sha1 0 test' 0a\n\
    0801 00\n\
    0301 00";

/// Its requests.
const LOGIN_REQUESTS: &str = "\
    0100\n\
    0800 00000000 0000000000000000 'OTP login' 0a\n\
    0700 00000000 0000000000000000 0002\n\
    0200 'bob'\n\
    0800 00000000 0000000000000000 'otp-sha1 0 test' 0a\n\
    0300 'bb9e 6ae1 979d 8ff4'\n\
    0500 'OTS1' 01 0000 02 1d00 'get notes' 0a 'put notes new' 0a 'quit' 0a 03 0800 02000000 3f000000";

/// The replies of a dialogue in which commands stand out of place.
const MISPLACED_REPLIES: &str = "\
    0101 00 'OTP login'\n\
    0801 00\n\
    0701 00 'resp a' 0a 'cancel' 0a 'get a' 0a 'user Bob' 0a 'user bob' 0a 'user bob' 0a 'resp a b' 0a 'resp a' 0a\n\
    0801 00\n\
    0801 00\n\
    0801 00\n\
    0801 00\n\
    0201 00 'otp-sha1 0 test' 0a\n\
    0801 00\n\
    0801 00\n\
    0301 01 10 00000000\n\
    0801 00\n\
    0801 00\n\
    0701 00\n\
    0d01 00";

/// Its requests.
const MISPLACED_REQUESTS: &str = "\
    0100\n\
    0800 00000000 0000000000000000 'OTP login' 0a\n\
    0700 00000000 0000000000000000 0002\n\
    0800 00000000 0000000000000000 'what' 0a\n\
    0800 00000000 0000000000000000 'what' 0a\n\
    0800 00000000 0000000000000000 'what' 0a\n\
    0800 00000000 0000000000000000 'what' 0a\n\
    0200 'bob'\n\
    0800 00000000 0000000000000000 'otp-sha1 0 test' 0a\n\
    0800 00000000 0000000000000000 'what' 0a\n\
    0300 'a b'\n\
    0800 00000000 0000000000000000 'denied 16' 0a\n\
    0800 00000000 0000000000000000 'what' 0a\n\
    0700 00000000 0000000000000000 0002\n\
    0d00";

/// The replies of a dialogue in which a challenge is given up, another denied, and terminals are told.
const GIVEN_UP_REPLIES: &str = "\
    0101 00 'OTP login'\n\
    0801 00\n\
    0701 00 'user bob' 0a 'cancel' 0d 0a 'user bob' 0a\n\
    0201 00 'otp-sha1 0 test' 0a\n\
    0801 00\n\
    0401 00\n\
    0801 00\n\
    0201 01 0c 00000000\n\
    0801 00\n\
    0701 00 'term ' 0a 'term yyyyyyyyyyyyyyyyyyyyyyyyyyyyyyyyyyyyyyyyyyyyyyyyyyyyyyyyyyyyyyyy' 0a 'term yyyyyyyyyyyyyyyyyyyyyyyyyyyyyyyyyyyyyyyyyyyyyyyyyyyyyyyyyyyyyyyyy' 0a\n\
    0801 00\n\
    0801 00\n\
    0801 00\n\
    0701 00 'quit' 0a 'user bob' 0a\n\
    0801 00\n\
    0d01 00";

/// Its requests.
const GIVEN_UP_REQUESTS: &str = "\
    0100\n\
    0800 00000000 0000000000000000 'OTP login' 0a\n\
    0700 00000000 0000000000000000 0002\n\
    0200 'bob'\n\
    0800 00000000 0000000000000000 'otp-sha1 0 test' 0a\n\
    0400\n\
    0800 00000000 0000000000000000 'done' 0a\n\
    0200 'bob'\n\
    0800 00000000 0000000000000000 'denied 12' 0a\n\
    0700 00000000 0000000000000000 0002\n\
    0800 00000000 0000000000000000 'done' 0a\n\
    0800 00000000 0000000000000000 'done' 0a\n\
    0800 00000000 0000000000000000 'what' 0a\n\
    0700 00000000 0000000000000000 0002\n\
    0800 00000000 0000000000000000 'bye' 0a\n\
    0d00";

/// The replies of a dialogue in which the client ends in the middle of a line.
const CUT_REPLIES: &str = "\
    0101 00 'OTP login'\n\
    0801 00\n\
    0701 00 'qui'\n\
    0701 00\n\
    0d01 00";

/// Its requests.
const CUT_REQUESTS: &str = "\
    0100\n\
    0800 00000000 0000000000000000 'OTP login' 0a\n\
    0700 00000000 0000000000000000 0002\n\
    0700 00000000 0000000000000000 0002\n\
    0d00";

/// The replies of a dialogue in which the first request is a violation.
const VIOLATION_REPLIES: &str = "\
    0101 01 01 00000000";

/// Its requests.
const VIOLATION_REQUESTS: &str = "\
    0100";

/// The replies of a dialogue in which bob reads a file, writes it and leaves.
const FILES_REPLIES: &str = "\
    0601 00 e9030000 03 'bob' 'OTS1' 01 0000 02 1d00 'get notes' 0a 'put notes new' 0a 'quit' 0a 03 0800 02000000 40000000\n\
    0801 00\n\
    0901 00 01000000\n\
    0701 00 'old' 0a\n\
    0a01 00\n\
    0801 00\n\
    0901 00 01000000\n\
    0801 00\n\
    0a01 00\n\
    0801 00\n\
    0801 00\n\
    0d01 00";

/// Its requests.
const FILES_REQUESTS: &str = "\
    0600\n\
    0800 00000000 0000000000000000 'welcome bob' 0a\n\
    0900 01 'notes'\n\
    0700 01000000 0000000000000000 a00f\n\
    0a00 01000000\n\
    0800 00000000 0000000000000000 'size 4' 0a 'old' 0a\n\
    0900 02 'notes'\n\
    0800 01000000 0000000000000000 'new'\n\
    0a00 01000000\n\
    0800 00000000 0000000000000000 'done' 0a\n\
    0800 00000000 0000000000000000 'bye' 0a\n\
    0d00";

/// The replies of a dialogue in which a file is denied, and others fail.
const FAULTS_REPLIES: &str = "\
    0601 00 e9030000 03 'bob' 'OTS1' 01 0000 02 1400 'get a' 0a 'get b' 0a 'put c d' 0a 03 0800 02000000 37000000\n\
    0801 00\n\
    0901 01 13 00000000\n\
    0801 00\n\
    0901 00 08000000\n\
    0701 02 02\n\
    0a01 00\n\
    0801 00\n\
    0901 00 02000000\n\
    0801 02 02\n\
    0a01 00\n\
    0801 00\n\
    0701 00\n\
    0d01 00";

/// Its requests.
const FAULTS_REQUESTS: &str = "\
    0600\n\
    0800 00000000 0000000000000000 'welcome bob' 0a\n\
    0900 01 'a'\n\
    0800 00000000 0000000000000000 'denied 19' 0a\n\
    0900 01 'b'\n\
    0700 08000000 0000000000000000 a00f\n\
    0a00 08000000\n\
    0800 00000000 0000000000000000 'fault 2' 0a\n\
    0900 02 'c'\n\
    0800 02000000 0000000000000000 'd'\n\
    0a00 02000000\n\
    0800 00000000 0000000000000000 'fault 2' 0a\n\
    0700 00000000 0000000000000000 0002\n\
    0d00";

/// The replies of a dialogue in which numbers, notes and texts break the catalogue's rules, or don't.
const WORDS_REPLIES: &str = "\
    0601 00 e9030000 03 'bob' 'OTS1' 01 0000 02 5400 'info 0' 0a 'info 00' 0a 'info 4294967295' 0a 'info 4294967296' 0a 'note hello' 0a 'note ' 0a 'put c ' 0a 'put  c' 0a 'hello' 0a 03 0800 02000000 77000000\n\
    0801 00\n\
    0b01 00 'bob has 1'\n\
    0801 00\n\
    0801 00\n\
    0b01 01 16 00000000\n\
    0801 00\n\
    0801 00\n\
    0c01 00\n\
    0801 00\n\
    0801 00\n\
    0801 00\n\
    0801 00\n\
    0801 00\n\
    0701 00\n\
    0d01 00";

/// Its requests.
const WORDS_REQUESTS: &str = "\
    0600\n\
    0800 00000000 0000000000000000 'welcome bob' 0a\n\
    0b00 00000000\n\
    0800 00000000 0000000000000000 'bob has 1' 0a\n\
    0800 00000000 0000000000000000 'what' 0a\n\
    0b00 ffffffff\n\
    0800 00000000 0000000000000000 'denied 22' 0a\n\
    0800 00000000 0000000000000000 'what' 0a\n\
    0c00 'hello'\n\
    0800 00000000 0000000000000000 'done' 0a\n\
    0800 00000000 0000000000000000 'what' 0a\n\
    0800 00000000 0000000000000000 'what' 0a\n\
    0800 00000000 0000000000000000 'what' 0a\n\
    0800 00000000 0000000000000000 'what' 0a\n\
    0700 00000000 0000000000000000 0002\n\
    0d00";

/// The replies of a dialogue in which another user's state was left.
const OTHER_USER_REPLIES: &str = "\
    0601 00 ea030000 03 'bob' 'OTS1' 01 0000 02 0500 'quit' 0a 03 0800 02000000 28000000\n\
    0d01 00";

/// Its requests.
const OTHER_USER_REQUESTS: &str = "\
    0600\n\
    0d00";

/// The replies of a dialogue in which another name's state was left.
const OTHER_NAME_REPLIES: &str = "\
    0601 00 e9030000 03 'ann' 'OTS1' 01 0000 02 0500 'quit' 0a 03 0800 02000000 28000000\n\
    0d01 00";

/// Its requests.
const OTHER_NAME_REQUESTS: &str = "\
    0600\n\
    0d00";

/// The replies of a dialogue in which what was left doesn't read.
const SPOILT_REPLIES: &str = "\
    0601 00\n\
    0d01 00";

/// Its requests.
const SPOILT_REQUESTS: &str = "\
    0600\n\
    0d00";

/// Whether the child before the login ends so and asks just this for these replies.
fn pre_says(
    alloc: Global,
    replies: &str,
    requests: &str,
    end: ChildEnd,
) -> Result<bool, AllocError> {
    let rows = rows_of(alloc, replies, requests)?;
    pre_asks(alloc, &rows, end)
}

/// Whether bob's child asks just this for these replies.
fn bob_says(alloc: Global, replies: &str, requests: &str) -> Result<bool, AllocError> {
    let rows = rows_of(alloc, replies, requests)?;
    bob_asks(alloc, &rows)
}

#[test]
fn the_child_before_the_login_answers_its_lines(rt: HostRuntime) -> Result<(), Fault> {
    let alloc = rt.alloc();
    assert!(rt; pre_says(alloc, LOGIN_REPLIES, LOGIN_REQUESTS, ChildEnd::LinkEnded)?);
    assert!(rt; pre_says(alloc, MISPLACED_REPLIES, MISPLACED_REQUESTS, ChildEnd::Done)?);
    assert!(rt; pre_says(alloc, GIVEN_UP_REPLIES, GIVEN_UP_REQUESTS, ChildEnd::Done)?);
    assert!(rt; pre_says(alloc, CUT_REPLIES, CUT_REQUESTS, ChildEnd::Done)?);
    assert!(rt; pre_says(alloc, VIOLATION_REPLIES, VIOLATION_REQUESTS, ChildEnd::Done)?);
    Ok(())
}

#[test]
fn the_users_child_answers_its_lines(rt: HostRuntime) -> Result<(), Fault> {
    let alloc = rt.alloc();
    assert!(rt; bob_says(alloc, FILES_REPLIES, FILES_REQUESTS)?);
    assert!(rt; bob_says(alloc, FAULTS_REPLIES, FAULTS_REQUESTS)?);
    assert!(rt; bob_says(alloc, WORDS_REPLIES, WORDS_REQUESTS)?);
    Ok(())
}

#[test]
fn the_users_child_serves_its_user_alone(rt: HostRuntime) -> Result<(), Fault> {
    let alloc = rt.alloc();
    assert!(rt; bob_says(alloc, OTHER_USER_REPLIES, OTHER_USER_REQUESTS)?);
    assert!(rt; bob_says(alloc, OTHER_NAME_REPLIES, OTHER_NAME_REQUESTS)?);
    assert!(rt; bob_says(alloc, SPOILT_REPLIES, SPOILT_REQUESTS)?);
    Ok(())
}

/// The requests of a dialogue whose one line is no command.
const WHAT_REQUESTS: &str = "\
    0100\n\
    0800 00000000 0000000000000000 'OTP login' 0a\n\
    0700 00000000 0000000000000000 0002\n\
    0800 00000000 0000000000000000 'what' 0a\n\
    0700 00000000 0000000000000000 0002\n\
    0d00";

/// Those of a dialogue whose line is too long.
const LONG_REQUESTS: &str = "\
    0100\n\
    0800 00000000 0000000000000000 'OTP login' 0a\n\
    0700 00000000 0000000000000000 0002\n\
    0800 00000000 0000000000000000 'long' 0a\n\
    0d00";

/// The replies of a dialogue whose client sends so many letters and this end.
fn replies_to(
    alloc: Global,
    letters: usize,
    end: &[u8],
    last: &str,
) -> Result<Vec<u8>, AllocError> {
    let mut replies = frames_of(alloc, 7, "0101 00 'OTP login'\n0801 00")?;
    let mut read = bytes_of(alloc, b"0701 00")?;
    for _letter in 0..letters {
        read.push(b'x')?;
    }
    read.extend_from_slice(end)?;
    put_frame(&mut replies, 7, &read)?;
    replies.extend_from_slice(&frames_of(alloc, 7, last)?)?;
    Ok(replies)
}

/// Whether a line of so many letters with this end is taken.
fn is_taken(alloc: Global, letters: usize, end: &[u8]) -> Result<bool, AllocError> {
    let rows = Rows {
        replies: replies_to(alloc, letters, end, "0801 00\n0701 00\n0d01 00")?,
        requests: frames_of(alloc, 0, WHAT_REQUESTS)?,
    };
    pre_asks(alloc, &rows, ChildEnd::Done)
}

/// Whether a line of so many letters with this end is too long.
fn is_too_long(alloc: Global, letters: usize, end: &[u8]) -> Result<bool, AllocError> {
    let rows = Rows {
        replies: replies_to(alloc, letters, end, "0801 00\n0d01 00")?,
        requests: frames_of(alloc, 0, LONG_REQUESTS)?,
    };
    pre_asks(alloc, &rows, ChildEnd::Done)
}

#[test]
fn a_line_has_at_most_300_bytes(rt: HostRuntime) -> Result<(), Fault> {
    let alloc = rt.alloc();
    assert!(rt; is_taken(alloc, 300, b"\n")?);
    assert!(rt; is_taken(alloc, 300, b"\r\n")?);
    assert!(rt; is_too_long(alloc, 301, b"\n")?);
    assert!(rt; is_too_long(alloc, 301, b"\r\n")?);
    assert!(rt; is_too_long(alloc, 301, b"")?);
    Ok(())
}

/// Whether so many letters may be put in a file.
fn is_put(alloc: Global, letters: u16, answer: &str) -> Result<bool, AllocError> {
    let mut left = bytes_of(alloc, b"0601 00 e9030000 03 'bob' 'OTS1' 01 0000 02")?;
    left.extend_from_slice(&letters.wrapping_add(7).to_le_bytes())?;
    left.extend_from_slice(b"put c ")?;
    let mut written = bytes_of(alloc, b"0800 01000000 0000000000000000")?;
    for _letter in 0..letters {
        left.push(b'x')?;
        written.push(b'x')?;
    }
    left.extend_from_slice(b"\n\x03\x08\0\0\0\0\0\0\0\0\0")?;
    let mut replies = Vec::new(alloc);
    put_frame(&mut replies, 7, &left)?;
    replies.extend_from_slice(&frames_of(alloc, 7, answer)?)?;
    let mut requests = frames_of(alloc, 0, PUT_BEGINS)?;
    if answer == PUT_REPLIES {
        requests.extend_from_slice(&frames_of(alloc, 0, "0900 02 'c'")?)?;
        put_frame(&mut requests, 0, &written)?;
        requests.extend_from_slice(&frames_of(alloc, 0, PUT_ENDS)?)?;
    } else {
        requests.extend_from_slice(&frames_of(alloc, 0, NOT_PUT_ENDS)?)?;
    }
    bob_asks(alloc, &Rows { replies, requests })
}

/// The first requests of a dialogue with one `put`.
const PUT_BEGINS: &str = "\
    0600\n\
    0800 00000000 0000000000000000 'welcome bob' 0a";

/// Its last ones.
const PUT_ENDS: &str = "\
    0a00 01000000\n\
    0800 00000000 0000000000000000 'done' 0a\n\
    0700 00000000 0000000000000000 0002\n\
    0d00";

/// Its last ones where nothing is put.
const NOT_PUT_ENDS: &str = "\
    0800 00000000 0000000000000000 'what' 0a\n\
    0700 00000000 0000000000000000 0002\n\
    0d00";

/// The replies after what was left.
const PUT_REPLIES: &str = "\
    0801 00\n\
    0901 00 01000000\n\
    0801 00\n\
    0a01 00\n\
    0801 00\n\
    0701 00\n\
    0d01 00";

/// Those where nothing is put.
const NOT_PUT_REPLIES: &str = "\
    0801 00\n\
    0801 00\n\
    0701 00\n\
    0d01 00";

#[test]
fn a_text_to_put_has_1_to_200_bytes(rt: HostRuntime) -> Result<(), Fault> {
    let alloc = rt.alloc();
    assert!(rt; is_put(alloc, 0, NOT_PUT_REPLIES)?);
    assert!(rt; is_put(alloc, 1, PUT_REPLIES)?);
    assert!(rt; is_put(alloc, 200, PUT_REPLIES)?);
    assert!(rt; is_put(alloc, 201, NOT_PUT_REPLIES)?);
    Ok(())
}
