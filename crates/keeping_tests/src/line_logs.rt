//! A log of lines on a disk in memory.

use durable_log::MemDisk;
use line_log::*;
use outside::Sink;
use std::alloc::{AllocError, Global};
use std::test::Fail;

/// The image of no records.
const FRESH: [u8; 5] = *b"OTJ1\x00";

/// A log on a fresh disk.
fn fresh_log(alloc: Global, fails: &[u32]) -> Result<LineLog<MemDisk>, AllocError> {
    Ok(LineLog::new(MemDisk::new(alloc, &FRESH, fails)?))
}

/// Whether the image after so many calls is this one.
fn shows(alloc: Global, disk: &MemDisk, call: u32, wanted: &[u8]) -> bool {
    if !disk.tells() || call > disk.calls() {
        return false;
    }
    match disk.image(alloc, call, 0xff) {
        Ok(image) => image.as_slice() == wanted,
        Err(_) => false,
    }
}

#[test]
fn each_line_is_a_record_and_what_is_no_line_is_refused(rt: HostRuntime) -> Result<(), Fail> {
    let alloc = rt.alloc();
    let mut log = fresh_log(alloc, &[])?;
    assert!(rt; log.append(b"1 w0 s1 open permit\n").is_ok());
    let long = vec![in alloc; b'x'; 256]?;
    let refused: [&[u8]; 5] = [b"", b"a", b"\na", b"a\nb\n", &long];
    for bytes in refused {
        assert!(rt; log.append(bytes).is_err());
    }
    assert!(rt; !log.has_stopped());
    assert!(rt; log.append(b"\n").is_ok());
    let disk = log.disk();
    assert!(rt; disk.calls() == 8);
    assert!(rt;
        shows(
            alloc,
            &disk,
            8,
            b"OTJ1\x01\x14\x001 w0 s1 open permit\n\x01\x01\x00\n\x00"
        )
    );
    Ok(())
}

#[test]
fn a_line_of_256_bytes_is_the_longest(rt: HostRuntime) -> Result<(), Fail> {
    let mut line = vec![in rt.alloc(); b'x'; 256]?;
    assert!(rt; !is_line(&line));
    if let Some(last) = line.last_mut() {
        *last = b'\n';
    }
    assert!(rt; is_line(&line));
    line.insert(0, b'x')?;
    assert!(rt; !is_line(&line));
    Ok(())
}

#[test]
fn behind_a_failed_call_nothing_is_taken(rt: HostRuntime) -> Result<(), Fail> {
    let alloc = rt.alloc();
    for call in 5..9 {
        let mut log = fresh_log(alloc, &[call])?;
        assert!(rt; log.append(b"1\n").is_ok());
        assert!(rt; log.append(b"2\n").is_err() && log.has_stopped());
        assert!(rt; log.append(b"3\n").is_err());
        assert!(rt; log.disk().calls() == call);
    }
    Ok(())
}
