use account_file::{SetupFault, SetupKey, SetupRule};
use outside::{Bytes, Word};
use outside_memory::{CallKind, Fail, MemFiles};
use setup_reading::*;
use std::alloc::{AllocError, Global};
use std::test::Fail as Fault;

/// A setup, of the least keys that one has.
const LEAST: &str = "socket = \"s\"
launcher = \"l\"
vault = \"v\"
words = \"w\"
workers = 3
connections = 1
requests = 8
tries = 1
hold = 1
";

/// The most bytes of a setup's file.
const LONGEST: usize = 8_388_608;

/// A text with newlines after it up to a length.
fn padded(alloc: Global, text: &str, len: usize) -> Result<Vec<u8>, AllocError> {
    let mut bytes = Vec::from_slice(alloc, text.as_bytes())?;
    for _ in bytes.len()..len {
        bytes.push(b'\n')?;
    }
    Ok(bytes)
}

/// A file.
fn file(alloc: Global, name: &str, bytes: &[u8]) -> Result<(Word, Bytes), AllocError> {
    Ok((Word::of(alloc, name.as_bytes())?, Bytes::of(alloc, bytes)?))
}

/// The files `setup` of these bytes and `other`, of which a reading may fail.
fn files_of(alloc: Global, bytes: &[u8], fails: &[Fail]) -> Result<MemFiles, AllocError> {
    let pairs = vec![in alloc;
        file(alloc, "other", b"workers = 1")?,
        file(alloc, "setup", bytes)?,
    ]?;
    MemFiles::new(alloc, pairs.as_slice(), fails)
}

/// The number of workers of the setup in one of the files.
fn workers_in(alloc: Global, files: &mut MemFiles, name: &str) -> Result<u32, SetupFileError> {
    match read_setup_file(alloc, files, name) {
        Ok(setup) => Ok(setup.workers()),
        Err(error) => Err(error),
    }
}

/// The number of workers of the setup in the file of a name, where `setup` holds a text and newlines
/// after it up to a length.
fn workers_of(
    alloc: Global,
    text: &str,
    len: usize,
    fails: &[Fail],
    name: &str,
) -> Result<Result<u32, SetupFileError>, AllocError> {
    let bytes = padded(alloc, text, len)?;
    let mut files = files_of(alloc, &bytes, fails)?;
    Ok(workers_in(alloc, &mut files, name))
}

/// A setup that is refused by the rule of a key.
fn refused(key: SetupKey, rule: SetupRule) -> Result<u32, SetupFileError> {
    Err(SetupFileError::Refused(SetupFault {
        key,
        rule,
        account: 0,
    }))
}

#[test]
fn the_setup_of_a_file(rt: HostRuntime) -> Result<(), Fault> {
    let alloc = rt.alloc();
    assert!(rt; workers_of(alloc, LEAST, 0, &[], "setup")? == Ok(3));
    assert!(rt; workers_of(alloc, LEAST, 0, &[], "Setup")? == Err(SetupFileError::Missing));
    let other = workers_of(alloc, LEAST, 0, &[], "other")?;
    assert!(rt; other == refused(SetupKey::Socket, SetupRule::Missing));
    Ok(())
}

#[test]
fn the_longest_file(rt: HostRuntime) -> Result<(), Fault> {
    let alloc = rt.alloc();
    assert!(rt; workers_of(alloc, LEAST, LONGEST, &[], "setup")? == Ok(3));
    let longer = workers_of(alloc, LEAST, LONGEST + 1, &[], "setup")?;
    assert!(rt; longer == refused(SetupKey::File, SetupRule::TooLong));
    Ok(())
}

#[test]
fn a_reading_fails(rt: HostRuntime) -> Result<(), Fault> {
    let alloc = rt.alloc();
    for number in [1, 2] {
        let fail = Fail {
            call: CallKind::Read,
            number,
            sent: 0,
        };
        let failed = workers_of(alloc, LEAST, 0, &[fail], "setup")?;
        assert!(rt; failed == Err(SetupFileError::Failed));
    }
    Ok(())
}
