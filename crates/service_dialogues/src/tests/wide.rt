//! Wide frames.

use super::{Dialogue, Row, Side, are_told, goes_plainly, no_hooks, serve, silent, talks_of};
use info_hooks::Hooks;
use outside_memory::MemPost;
use service_play::{Came, frame};
use std::alloc::{AllocError, Global};
use std::sync::Wait;
use std::test::Fail;
use std::thread::Threads;

const WIDE: &str = "frames = \"wide\"";

/// A request without a descriptor is spelled alike in both widths.
const SMALLEST: Row<'static> = Row {
    setup: WIDE,
    sessions: &[
        "pre write 00000000 0000000000000000 'hi = 00
         pre finish = 00",
    ],
    told: "hi",
    log: "1 w0 s1 open permit
2 w0 s1 write 0 0 2 permit
3 w0 s1 finish permit
4 w0 s1 end finished permit
",
};

/// A marked frame, a READ of too many bytes, and lengths that no frame has.
const REFUSED: Row<'static> = Row {
    setup: WIDE,
    sessions: &[
        "pre raw 0d000000 10000080 00000000 00000000 = 01 02 01000000",
        "pre read 00000000 0000000000000000 61ea = 01 05 07000000",
        "pre raw 08000000 01000100 00000000 00000000 =",
        "pre raw 08000000 0f000000 00000000 00000000 =",
    ],
    told: "",
    log: "1 w0 s1 open permit
2 w0 s1 bad 2 1 deny 2 1
3 w0 s1 end violation 2 permit
4 w0 s2 open permit
5 w0 s2 bad 5 7 deny 5 7
6 w0 s2 end violation 5 permit
7 w0 s3 open permit
8 w0 s3 end bad-frame 65535 permit
9 w0 s4 open permit
10 w0 s4 end bad-frame 15 permit
",
};

#[test]
fn small_wide_frames(rt: HostRuntime) -> Result<(), Fail> {
    assert!(&rt; goes_plainly(&rt, rt.alloc(), &SMALLEST)?);
    assert!(&rt; goes_plainly(&rt, rt.alloc(), &REFUSED)?);
    Ok(())
}

/// The bytes of a WRITE to the client's connection of so many letters.
fn long_write(alloc: Global, len: usize) -> Result<Vec<u8>, Fail> {
    let mut body = vec![in alloc; 0; 12]?;
    let letters = vec![in alloc; b'a'; len]?;
    body.extend_from_slice(&letters)?;
    Ok(frame(alloc, 8, 0, 0, &body)?)
}

/// The session whose first child says this, and is told this reply to a WRITE.
fn dialogue_of(alloc: Global, says: Vec<u8>, reply: &[u8]) -> Result<Dialogue, AllocError> {
    let told = frame(alloc, 264, 0, 1, reply)?;
    let pre = Side { says, told };
    let user = silent(alloc);
    Ok(Dialogue { pre, user })
}

/// Whether a run had this log, and its children were told their dialogues.
fn came_so(came: &Came<MemPost>, dialogues: &[Dialogue], log: &str) -> bool {
    came.log.held() == log.as_bytes() && are_told(talks_of(&came.posts), dialogues)
}

/// Whether that of these dialogues has, with this information.
fn come_so<R: Threads + Wait + Sync>(
    rt: &R,
    alloc: Global,
    dialogues: &[Dialogue],
    hooks: &Hooks,
    log: &str,
) -> Result<bool, Fail> {
    Ok(came_so(&serve(rt, alloc, WIDE, dialogues, hooks)?, dialogues, log))
}

/// Whether that of one dialogue has, without information.
fn comes_so<R: Threads + Wait + Sync>(
    rt: &R,
    alloc: Global,
    dialogue: Dialogue,
    log: &str,
) -> Result<bool, Fail> {
    come_so(rt, alloc, &[dialogue], &no_hooks(alloc)?, log)
}

/// Whether the session whose first child says this is told this reply to a WRITE, and logged so.
fn is_answered<R: Threads + Wait + Sync>(
    rt: &R,
    alloc: Global,
    says: Vec<u8>,
    reply: &[u8],
    log: &str,
) -> Result<bool, Fail> {
    let dialogue = dialogue_of(alloc, says, reply)?;
    comes_so(rt, alloc, dialogue, log)
}

const LONGEST_WRITE: &str = "1 w0 s1 open permit
2 w0 s1 write 0 0 60000 permit
3 w0 s1 end child-ended permit
";

const LONGEST_FRAME: &str = "1 w0 s1 open permit
2 w0 s1 bad 5 8 deny 5 8
3 w0 s1 end violation 5 permit
";

/// Whether a WRITE of 60,000 letters is answered.
fn is_longest_write<R: Threads + Wait + Sync>(rt: &R, alloc: Global) -> Result<bool, Fail> {
    let write = long_write(alloc, 60_000)?;
    is_answered(rt, alloc, write, &[0], LONGEST_WRITE)
}

/// A WRITE's frame of 65,536 bytes, with no text.
fn long_frame(alloc: Global) -> Result<Vec<u8>, AllocError> {
    let mut frame = vec![in alloc; 0; 65_536]?;
    frame[0] = 8;
    frame[6] = 1;
    Ok(frame)
}

/// Whether such a frame is answered.
fn is_longest_frame<R: Threads + Wait + Sync>(rt: &R, alloc: Global) -> Result<bool, Fail> {
    let frame = long_frame(alloc)?;
    is_answered(rt, alloc, frame, b"\x01\x05\x08\0\0\0", LONGEST_FRAME)
}

#[test]
fn long_wide_frames(rt: HostRuntime) -> Result<(), Fail> {
    assert!(&rt; is_longest_write(&rt, rt.alloc())?);
    assert!(&rt; is_longest_frame(&rt, rt.alloc())?);
    Ok(())
}
