//! Files in memory over which the modes are tried.

use outside::{Bytes, Word};
use outside_memory::{Fail, MemFiles};
use std::alloc::{AllocError, Global};

/// What a file holds where it isn't there.
pub(crate) const NONE: &str = "none";

/// A file of these bytes, of another name where it isn't there.
fn file(alloc: Global, name: &str, bytes: &[u8]) -> Result<(Word, Bytes), AllocError> {
    let name = if bytes == NONE.as_bytes() { NONE } else { name };
    let word = Word::of(alloc, name.as_bytes())?;
    Ok((word, Bytes::of(alloc, bytes)?))
}

/// Files of these names and bytes, of whose calls these fail.
pub(crate) fn files_of(
    alloc: Global,
    named: &[(&str, &[u8])],
    fails: &[Fail],
) -> Result<MemFiles, AllocError> {
    let mut pairs = Vec::new(alloc);
    for (name, bytes) in named {
        pairs.push(file(alloc, name, bytes)?)?;
    }
    MemFiles::new(alloc, pairs.as_slice(), fails)
}
