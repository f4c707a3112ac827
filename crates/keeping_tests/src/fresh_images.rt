use fresh_log::*;
use outside::{Bytes, Word};
use outside_memory::{CallKind, Fail, MemFiles};
use std::alloc::{AllocError, Global};
use std::test::Fail as Fault;

/// What a file holds, and whether it is fresh: the bytes of the image of no records are those that the
/// form of the image gives.
const ROWS: [(&[u8], bool); 7] = [
    (&[0x4f, 0x54, 0x4a, 0x31, 0x00], true),
    (&[0x4f, 0x54, 0x4a, 0x31, 0x00, 0x00], false),
    (&[0x4f, 0x54, 0x4a, 0x31, 0x01], false),
    (&[0x4f, 0x54, 0x4a, 0x32, 0x00], false),
    (&[0x4f, 0x54, 0x4a, 0x31], false),
    (
        &[0x4f, 0x54, 0x4a, 0x31, 0x01, 0x01, 0x00, 0x0a, 0x00],
        false,
    ),
    (&[], false),
];

/// Files of which `log` holds these bytes.
fn files_with(alloc: Global, bytes: &[u8], fails: &[Fail]) -> Result<MemFiles, AllocError> {
    let pairs = vec![in alloc; (Word::of(alloc, b"log")?, Bytes::of(alloc, bytes)?)]?;
    MemFiles::new(alloc, pairs.as_slice(), fails)
}

#[test]
fn what_a_file_holds(rt: HostRuntime) -> Result<(), Fault> {
    let alloc = rt.alloc();
    let name = Word::of(alloc, b"log")?;
    for (bytes, want) in ROWS {
        let mut files = files_with(alloc, bytes, &[])?;
        assert!(rt; is_fresh(&mut files, &name) == Ok(want));
    }
    let mut files = files_with(alloc, fresh_image().as_slice(), &[])?;
    assert!(rt; is_fresh(&mut files, &Word::of(alloc, b"none")?) == Ok(false));
    Ok(())
}

#[test]
fn a_reading_that_fails(rt: HostRuntime) -> Result<(), Fault> {
    let alloc = rt.alloc();
    let fail = Fail {
        call: CallKind::Read,
        number: 1,
        sent: 0,
    };
    let mut files = files_with(alloc, fresh_image().as_slice(), &[fail])?;
    let name = Word::of(alloc, b"log")?;
    assert!(rt; is_fresh(&mut files, &name).is_err());
    assert!(rt; is_fresh(&mut files, &name) == Ok(true));
    Ok(())
}
