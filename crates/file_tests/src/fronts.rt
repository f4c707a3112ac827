use file_front::*;
use outside::{Bytes, Word};
use outside_memory::{CallKind, Fail, MemFiles};
use std::alloc::{AllocError, Global};
use std::test::Fail as Fault;

/// A file of 10,000 bytes, `a` to `z` over and over.
fn letters(alloc: Global) -> Result<Vec<u8>, AllocError> {
    let mut bytes = Vec::new(alloc);
    for k in 0..10_000_u32 {
        bytes.push(b'a' + (k % 26) as u8)?;
    }
    Ok(bytes)
}

/// The file `long` with these bytes, whose readings with these numbers fail.
fn long_file(alloc: Global, bytes: &[u8], fails: &[Fail]) -> Result<MemFiles, AllocError> {
    let pairs = vec![in alloc; (Word::of(alloc, b"long")?, Bytes::of(alloc, bytes)?)]?;
    MemFiles::new(alloc, pairs.as_slice(), fails)
}

/// Whether the file's front up to a limit has so many bytes of it, and a missing file has none.
fn is_read_to(alloc: Global, bytes: &[u8], below: u16, want: usize) -> Result<bool, Fault> {
    let limit = usize::from(below) + 1;
    let mut files = long_file(alloc, bytes, &[])?;
    if read_front(alloc, &mut files, "none", limit)? != None {
        return Ok(false);
    }
    match read_front(alloc, &mut files, "long", limit)? {
        Some(front) => Ok(Some(front.as_slice()) == bytes.get(..want)),
        None => Ok(false),
    }
}

#[test]
fn a_file_is_read_up_to_a_limit(rt: HostRuntime) -> Result<(), Fault> {
    let bytes = letters(rt.alloc())?;
    let rows: [(u16, usize); 5] = [
        (0, 1),
        (4_095, 4_096),
        (4_096, 4_097),
        (9_998, 9_999),
        (20_000, 10_000),
    ];
    for (below, want) in rows {
        assert!(rt; is_read_to(rt.alloc(), &bytes, below, want)?);
    }
    Ok(())
}

/// Whether the front isn't read where this reading fails.
fn fails_at(alloc: Global, bytes: &[u8], number: u32) -> Result<bool, AllocError> {
    let fail = Fail {
        call: CallKind::Read,
        number,
        sent: 0,
    };
    let mut files = long_file(alloc, bytes, &[fail])?;
    let front = read_front(alloc, &mut files, "long", 10_000);
    Ok(matches!(front, Err(FrontError::Failed)))
}

#[test]
fn a_reading_that_fails_is_told(rt: HostRuntime) -> Result<(), Fault> {
    let bytes = letters(rt.alloc())?;
    for number in 1..4 {
        assert!(rt; fails_at(rt.alloc(), &bytes, number)?);
    }
    Ok(())
}
