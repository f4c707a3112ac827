ghost use Rattle.std.specs.Prelude.{◌<◌, ◌^◌};

use durable_log::*;
use outside::{Failed, Sink};
use std::alloc::{AllocError, Global};
use std::test::Fail;

/// The image of no records.
const FRESH: [u8; 5] = *b"OTJ1\x00";

/// The line of the worked example.
const LINE: [u8; 20] = *b"1 w0 s1 open permit\n";

/// Its image: the gate, the length, the line and the closed gate.
const WHOLE: [u8; 28] = *b"OTJ1\x01\x14\x001 w0 s1 open permit\n\x00";

/// What two appends to a fresh log answered, and its disk.
#[derive(Drop)]
struct Appended {
    first: bool,
    second: bool,
    disk: MemDisk,
}

/// A log on a fresh disk.
fn fresh_log(alloc: Global, fails: &[u32]) -> Result<JournalLog<MemDisk>, AllocError> {
    Ok(JournalLog::new(MemDisk::new(alloc, &FRESH, fails)?))
}

/// Appends two pieces to a fresh log.
fn run(alloc: Global, fails: &[u32], first: &[u8], second: &[u8]) -> Result<Appended, AllocError> {
    let mut log = fresh_log(alloc, fails)?;
    let first = log.append(first).is_ok();
    let second = log.append(second).is_ok();
    Ok(Appended {
        first,
        second,
        disk: log.disk(),
    })
}

/// Whether the image after so many calls has these bytes first, and so many in all.
fn shows(alloc: Global, disk: &MemDisk, call: u32, fill: u8, front: &[u8], len: usize) -> bool {
    if !disk.tells() || call > disk.calls() {
        return false;
    }
    match disk.image(alloc, call, fill) {
        Ok(image) => image.len() == len && image.starts_with(front),
        Err(_) => false,
    }
}

#[test]
fn the_worked_example(rt: HostRuntime) -> Result<(), Fail> {
    let alloc = rt.alloc();
    let run = run(alloc, &[], &LINE, b"")?;
    assert!(rt; run.first && run.second && run.disk.calls() == 4);
    assert!(rt; shows(alloc, &run.disk, 0, 0xff, &FRESH, 5));
    assert!(rt; shows(alloc, &run.disk, 1, 0xff, b"OTJ1\x00\xff\xff\xff", 28));
    assert!(rt;
        shows(
            alloc,
            &run.disk,
            2,
            0xff,
            b"OTJ1\x00\x14\x001 w0 s1 open permit\n\x00",
            28
        )
    );
    assert!(rt;
        shows(
            alloc,
            &run.disk,
            3,
            0xff,
            b"OTJ1\xff\x14\x001 w0 s1 open permit\n\x00",
            28
        )
    );
    assert!(rt; shows(alloc, &run.disk, 3, 0x01, &WHOLE, 28));
    assert!(rt; shows(alloc, &run.disk, 4, 0xff, &WHOLE, 28));
    Ok(())
}

/// Whether a log whose call fails refuses that append and the next, makes no call more, and leaves
/// this gate before the bytes that stand there.
fn stops(alloc: Global, call: u32, gate: u8, low: u8) -> bool {
    match run(alloc, &[call], &LINE, &LINE) {
        Ok(run) => {
            let front = [b'O', b'T', b'J', b'1', gate, low];
            !run.first
                && !run.second
                && run.disk.calls() == call
                && shows(alloc, &run.disk, call, 0xee, &front, 28)
        }
        Err(_) => false,
    }
}

#[test]
fn each_failed_call_stops_the_log(rt: HostRuntime) -> Result<(), Fail> {
    let alloc = rt.alloc();
    assert!(rt; stops(alloc, 1, 0x00, 0xee));
    assert!(rt; stops(alloc, 2, 0x00, 0xee));
    assert!(rt; stops(alloc, 3, 0xee, 0x14));
    assert!(rt; stops(alloc, 4, 0xee, 0x14));
    Ok(())
}

/// Whether an append of so many bytes 7 makes so many calls, and an image of this length that begins so.
fn fills(alloc: Global, bytes: &[u8], calls: u32, front: &[u8], len: usize) -> bool {
    match run(alloc, &[], bytes, b"") {
        Ok(run) => {
            run.first && run.disk.calls() == calls && shows(alloc, &run.disk, calls, 0, front, len)
        }
        Err(_) => false,
    }
}

#[test]
fn records_are_pieces_of_256_bytes(rt: HostRuntime) -> Result<(), Fail> {
    let alloc = rt.alloc();
    let bytes = [7; 257];
    assert!(rt; fills(alloc, b"", 0, &FRESH, 5));
    assert!(rt; fills(alloc, &bytes[..1], 4, b"OTJ1\x01\x01\x00\x07\x00", 9));
    assert!(rt; fills(alloc, &bytes[..256], 4, b"OTJ1\x01\x00\x01\x07", 264));
    assert!(rt; fills(alloc, &bytes, 8, b"OTJ1\x01\x00\x01\x07", 268));
    Ok(())
}

/// Whether two writes without a sync, the second of them refused, leave this image.
fn tears(alloc: Global, call: u32, fill: u8, want: &[u8]) -> bool {
    match MemDisk::new(alloc, b"abcd", &[2]) {
        Ok(mut disk) => {
            let first = disk.write_at(2, b"xyz").is_ok();
            let second = disk.write_at(0, b"q").is_err();
            let third = disk.sync().is_ok();
            first && second && third && shows(alloc, &disk, call, fill, want, want.len())
        }
        Err(_) => false,
    }
}

#[test]
fn a_failed_write_leaves_its_range_unsafe(rt: HostRuntime) -> Result<(), Fail> {
    let alloc = rt.alloc();
    assert!(rt; tears(alloc, 0, b'-', b"abcd"));
    assert!(rt; tears(alloc, 1, b'-', b"ab---"));
    assert!(rt; tears(alloc, 2, b'-', b"-b---"));
    assert!(rt; tears(alloc, 3, b'-', b"abxyz"));
    Ok(())
}

/// A disk that tells nothing, as a real file's, and never fails.
#[derive(Drop)]
struct SilentDisk;

impl Disk for SilentDisk {
    ghost use Rattle.std.specs.Prelude.{None};

    ghost story = { λ _. None };

    ghost faults = { λ _. 0 };

    fn write_at(&mut self, _at: u64, _bytes: &[u8]) -> Result<(), Failed> {
        Ok(())
    }

    fn sync(&mut self) -> Result<(), Failed> {
        Ok(())
    }
}

#[test]
fn a_disk_may_tell_nothing(rt: HostRuntime) -> Result<(), Fail> {
    let mut log = JournalLog::new(SilentDisk);
    assert!(rt; log.append(&LINE).is_ok());
    assert!(rt; !log.has_stopped());
    Ok(())
}
