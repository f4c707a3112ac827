ghost use Rattle.std.specs.Prelude.{◌≡◌, ◌+◌, ◌<◌, ◌≤◌, [], drop, IfOk, length, map, option_map, take, unwrap_or};
ghost use Rattle.std.specs.Prelude.{vec_capacity, vec_len};
ghost use Rattle.std.specs.List.{position};
ghost use Rattle.outside_memory.specs.Vaults.{overwritten};
ghost use Rattle.outside_memory.specs.KeptFile.{file_entry, files_of, is_file};

use crate::buffers::fill;
use outside::{Bytes, Word};
use std::alloc::{AllocError, Global};

/// A file, by a user's id and a name.
#[derive(Drop)]
pub(crate) struct KeptFile {
    pub(crate) uid: u32,
    pub(crate) name: Bytes,
    pub(crate) bytes: Bytes,
}

/// Copies of files of no user.
pub(crate) fn file_entries(
    alloc: Global,
    pairs: &[(Word, Bytes)],
) -> Result<Vec<KeptFile>, AllocError>
    ensures { IfOk result (λ files. files.items ≡ map file_entry pairs.now) }
{
    let mut files = Vec::new(alloc);
    for (name, bytes) in pairs {
        files.push(KeptFile {
            uid: 0,
            name: Bytes::of(alloc, name.as_slice())?,
            bytes: Bytes::of(alloc, bytes.as_slice())?,
        })?;
    }
    Ok(files)
}

/// The bytes of the first file of this user and name.
pub(crate) fn find_file<'a>(files: &'a [KeptFile], uid: u32, name: &[u8]) -> Option<&'a [u8]>
    ensures { option_map (λ bytes. bytes.now) result ≡ files_of files.now uid name.now }
{
    files
        .iter()
        .find(|f| f.uid == uid && f.name.as_slice() == name)
        .map(|f| f.bytes.as_slice())
}

/// The bytes of the first file of this user and name; none where there is no such file.
pub(crate) fn file_bytes<'a>(files: &'a [KeptFile], uid: u32, name: &[u8]) -> &'a [u8]
    ensures { result.now ≡ unwrap_or (files_of files.now uid name.now) [] }
{
    match find_file(files, uid, name) {
        Some(bytes) => bytes,
        None => &[],
    }
}

/// The place of the first file of this user and name.
pub(crate) fn place_of(files: &[KeptFile], uid: u32, name: &[u8]) -> Option<usize>
    ensures { result ≡ position (is_file uid name.now) files.now }
{
    files
        .iter()
        .position(|f| f.uid == uid && f.name.as_slice() == name)
}

/// The bytes of a file after a write, in an empty buffer that has room for them.
pub(crate) fn overwritten(mut written: Vec<u8>, old: &[u8], offset: u64, bytes: &[u8]) -> Vec<u8>
    requires empty { vec_len written ≡ 0 }
    requires old_fits { length old.now ≤ vec_capacity written }
    requires end_fits { 0 < length bytes.now → offset + length bytes.now ≤ vec_capacity written }
    ensures { result.items ≡ overwritten old.now offset bytes.now }
{
    if bytes.is_empty() {
        fill(&mut written, old);
        return written;
    }
    let start = offset as usize;
    let end = start + bytes.len();
    fill(&mut written, &old[..start.min(old.len())]);
    let Ok(()) = written.resize(start, 0) else {
        unreachable!()
    };
    fill(&mut written, bytes);
    fill(&mut written, &old[end.min(old.len())..]);
    written
}

/// Copies bytes from an offset on to the front of a buffer, as many as there is room for, and gives
/// how many.
pub(crate) fn copy_from(bytes: &[u8], offset: u64, buf: &mut [u8]) -> usize
    ensures bound { result ≤ length buf.old }
    ensures piece { take result buf.new ≡ take (length buf.old) (drop offset bytes.now) }
    ensures rest { drop result buf.new ≡ drop result buf.old }
{
    let start = bytes
        .len()
        .min(usize::try_from(offset).unwrap_or(usize::MAX));
    let left = &bytes[start..];
    let n = left.len().min(buf.len());
    buf[..n].copy_from_slice(&left[..n]);
    n
}
