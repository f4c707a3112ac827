use file_front::FrontError;
use kept_files::*;
use outside::{Bytes, Files, Word};
use outside_memory::{CallKind, Fail, MemFiles};
use std::alloc::{AllocError, Global};
use std::test::Fail as Fault;

/// A setup that names the word list `list`.
const SETUP: &str = "socket = \"s\"
launcher = \"l\"
vault = \"v\"
words = \"list\"
workers = 3
connections = 1
requests = 8
tries = 1
hold = 1
";

/// A log without a record.
const LOG: &str = "OTJ1\0";

/// A file.
fn file(alloc: Global, name: &str, text: &str) -> Result<(Word, Bytes), AllocError> {
    Ok((
        Word::of(alloc, name.as_bytes())?,
        Bytes::of(alloc, text.as_bytes())?,
    ))
}

/// The files `setup`, `list`, `log` and `other`, of which this call fails.
fn files_below(alloc: Global, call: CallKind, number: u32) -> Result<MemFiles, AllocError> {
    let pairs = vec![in alloc;
        file(alloc, "setup", SETUP)?,
        file(alloc, "list", "A ABE")?,
        file(alloc, "log", LOG)?,
        file(alloc, "other", "old")?,
    ]?;
    let fail = Fail {
        call,
        number,
        sent: 0,
    };
    MemFiles::new(alloc, pairs.as_slice(), &[fail])
}

/// These files, of which none was read yet.
fn unread(alloc: Global, call: CallKind, number: u32) -> Result<KeptFiles<MemFiles>, AllocError> {
    Ok(KeptFiles::new(alloc, files_below(alloc, call, number)?))
}

/// What a reading of a file's first 300 bytes comes to.
#[derive(Clone, Copy, PartialEq)]
enum Reading {
    /// It fails.
    Failed,
    /// There is no such file.
    Missing,
    /// It gives just the text that is asked for.
    Same,
    /// It gives other bytes.
    Other,
}

/// What the first 300 bytes of a file are, beside a text.
fn read(
    alloc: Global,
    files: &mut KeptFiles<MemFiles>,
    name: &str,
    text: &str,
) -> Result<Reading, AllocError> {
    let word = Word::of(alloc, name.as_bytes())?;
    let mut front = [0; 300];
    Ok(match files.read(&word, 0, &mut front) {
        Err(_) => Reading::Failed,
        Ok(None) => Reading::Missing,
        Ok(Some(n)) if &front[..n] == text.as_bytes() => Reading::Same,
        Ok(Some(_)) => Reading::Other,
    })
}

/// Whether the file `other` is replaced by `new`, and what it is then in the files and in those below.
fn is_replaced(
    alloc: Global,
    files: &mut KeptFiles<MemFiles>,
    is_done: bool,
    text: &str,
) -> Result<bool, AllocError> {
    let word = Word::of(alloc, b"other")?;
    let done = files.replace(&word, b"new");
    if done.is_ok() != is_done || files.under().file(&word) != Some(text.as_bytes()) {
        return Ok(false);
    }
    Ok(true)
}

#[test]
fn a_service_is_kept_with_its_list_and_log(rt: HostRuntime) -> Result<(), Fault> {
    let alloc = rt.alloc();
    let mut files = unread(alloc, CallKind::Read, 99)?;
    assert!(rt; keep_service(alloc, &mut files, "setup", Some("log")).is_ok());
    let rows = [
        ("setup", SETUP, Reading::Same),
        ("list", "A ABE", Reading::Same),
        ("log", LOG, Reading::Same),
        ("other", "old", Reading::Failed),
        ("none", "", Reading::Failed),
    ];
    for (name, text, want) in rows {
        assert!(rt; read(alloc, &mut files, name, text)? == want);
    }
    Ok(())
}

#[test]
fn a_file_is_read_once(rt: HostRuntime) -> Result<(), Fault> {
    let alloc = rt.alloc();
    // Two readings see the whole file; a third would fail.
    let mut files = unread(alloc, CallKind::Read, 3)?;
    for _ in 0..3 {
        assert!(rt; files.keep("other").is_ok());
        assert!(rt; read(alloc, &mut files, "other", "old")? == Reading::Same);
    }
    Ok(())
}

#[test]
fn a_missing_file_is_kept_as_missing(rt: HostRuntime) -> Result<(), Fault> {
    let alloc = rt.alloc();
    let mut files = unread(alloc, CallKind::Read, 2)?;
    for _ in 0..2 {
        assert!(rt; files.keep("none").is_ok());
        assert!(rt; read(alloc, &mut files, "none", "")? == Reading::Missing);
    }
    Ok(())
}

#[test]
fn a_reading_that_fails_keeps_nothing(rt: HostRuntime) -> Result<(), Fault> {
    let alloc = rt.alloc();
    let mut files = unread(alloc, CallKind::Read, 1)?;
    assert!(rt; matches!(files.keep("other"), Err(FrontError::Failed)));
    assert!(rt; read(alloc, &mut files, "other", "old")? == Reading::Failed);
    assert!(rt; files.keep("other").is_ok());
    assert!(rt; read(alloc, &mut files, "other", "old")? == Reading::Same);
    Ok(())
}

#[test]
fn a_kept_file_is_replaced_with_the_one_below(rt: HostRuntime) -> Result<(), Fault> {
    let alloc = rt.alloc();
    let mut files = unread(alloc, CallKind::Replace, 1)?;
    assert!(rt; is_replaced(alloc, &mut files, false, "old")?);
    assert!(rt; files.keep("other").is_ok());
    // The first call that comes to the files below fails.
    assert!(rt; is_replaced(alloc, &mut files, false, "old")?);
    assert!(rt; read(alloc, &mut files, "other", "old")? == Reading::Same);
    assert!(rt; is_replaced(alloc, &mut files, true, "new")?);
    assert!(rt; read(alloc, &mut files, "other", "new")? == Reading::Same);
    Ok(())
}
