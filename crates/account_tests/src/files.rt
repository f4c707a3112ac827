//! Files in memory over which the modes are tried.

use outside::{Bytes, Word};
use outside_memory::{CallKind, Fail, MemFiles};
use std::alloc::{AllocError, Global};

/// What a file holds where it isn't there.
pub(crate) const NONE: &str = "none";

/// A file of these bytes, of another name where it isn't there.
fn file(alloc: Global, name: &str, bytes: &[u8]) -> Result<(Word, Bytes), AllocError> {
    let name = if bytes == NONE.as_bytes() { NONE } else { name };
    let word = Word::of(alloc, name.as_bytes())?;
    Ok((word, Bytes::of(alloc, bytes)?))
}

/// Files of these names and bytes, of whose calls these fail.
pub(crate) fn files_of(
    alloc: Global,
    named: &[(&str, &[u8])],
    fails: &[Fail],
) -> Result<MemFiles, AllocError> {
    let mut pairs = Vec::new(alloc);
    for (name, bytes) in named {
        pairs.push(file(alloc, name, bytes)?)?;
    }
    MemFiles::new(alloc, pairs.as_slice(), fails)
}

/// The bytes of a file.
pub(crate) fn bytes_in<'a>(
    alloc: Global,
    files: &'a MemFiles,
    name: &str,
) -> Result<&'a [u8], AllocError> {
    let name = Word::of(alloc, name.as_bytes())?;
    Ok(files.file(&name).unwrap_or(NONE.as_bytes()))
}

/// Whether a file holds these bytes.
pub(crate) fn holds(
    alloc: Global,
    files: &MemFiles,
    name: &str,
    want: &[u8],
) -> Result<bool, AllocError> {
    Ok(bytes_in(alloc, files, name)? == want)
}

/// A call that fails, a sending after five bytes.
pub(crate) fn fail(call: CallKind, number: u32) -> Fail {
    Fail {
        call,
        number,
        sent: 5,
    }
}
