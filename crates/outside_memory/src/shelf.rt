ghost use Rattle.std.specs.Prelude.{◌≡◌, ◌+◌, ◌<◌, ◌≤◌, ◌^◌, [], drop, IfOk, IfSome, is_some, IsFalse, IsSome, IsTrue};
ghost use Rattle.std.specs.Prelude.{ℕ, length, map, option_map, take, unwrap_or, vec_capacity, vec_len};
ghost use Rattle.outside_memory.specs.KeptFile.{file_entry};
ghost use Rattle.outside_memory.specs.Pieces.{fits_file, fits_written, has_piece, used};
ghost use Rattle.outside_memory.specs.Vaults.{FileSet, FileWritten, piece_from};

use crate::buffers::Buffers;
use crate::kept_file::{
    KeptFile, copy_from, file_bytes, file_entries, find_file, overwritten, place_of,
};
use crate::room::Pieces;
use outside::{Bytes, Word};
use std::alloc::{AllocError, Global};

/// Files, and where more is written. Each write uses up a buffer for the name and one for what stands
/// in the file after it, where there are only so many.
#[derive(Drop)]
pub(crate) struct Shelf {
    pub(crate) files: Vec<KeptFile>,
    pub(crate) buffers: Buffers,
    ghost roomy: { IsTrue buffers.fixed → vec_len files + buffers.pieces.count ≤ vec_capacity files },
}

impl Shelf {
    ghost use Rattle.outside_memory.specs.Shelf.{shelf_files};

    /// These files, of no user. Of two files with one name the first counts.
    pub(crate) fn new(
        alloc: Global,
        pairs: &[(Word, Bytes)],
        buffers: Buffers,
    ) -> Result<Shelf, AllocError>
        ensures files { IfOk result (λ s. s.files.items ≡ map file_entry pairs.now) }
        ensures buffers { IfOk result (λ s. s.buffers ≡ buffers) }
    {
        let mut files = file_entries(alloc, pairs)?;
        files.reserve(buffers.pieces().count)?;
        Ok(Shelf { files, buffers })
    }

    /// A copy of bytes, if there is a buffer for them.
    pub(crate) fn copy(&mut self, bytes: &[u8]) -> Option<Bytes>
        ensures bytes { IfSome result (λ copy. copy ≡ bytes.now) }
        ensures found { IsTrue self.old.buffers.fixed
            → is_some result ≡ has_piece self.old.buffers.pieces (length bytes.now) }
        ensures after { self.new.buffers ≡ used 1 self.old.buffers }
        ensures files { self.new.files ≡ self.old.files }
    {
        self.buffers.copy(bytes)
    }

    /// A file.
    pub(crate) fn find(&self, uid: u32, name: &[u8]) -> Option<&[u8]>
        ensures { option_map (λ bytes. bytes.now) result ≡ shelf_files self.now uid name.now }
    {
        find_file(&self.files, uid, name)
    }

    /// Reads a file from a place on, and gives how many bytes: none where there is no such file.
    pub(crate) fn read(&self, uid: u32, name: &[u8], offset: u64, buf: &mut [u8]) -> usize
        ensures bound { result ≤ length buf.old }
        ensures piece { take result buf.new ≡ piece_from (shelf_files self.now uid name.now) offset
            (length buf.old) }
        ensures rest { drop result buf.new ≡ drop result buf.old }
    {
        copy_from(file_bytes(&self.files, uid, name), offset, buf)
    }

    /// Sets a file, if there is room for it; else no file is changed, nor is a buffer used up.
    pub(crate) fn put(&mut self, uid: u32, name: &[u8], bytes: &[u8]) -> bool
        ensures fits { IsTrue self.old.buffers.fixed
            → result ≡ fits_file self.old.buffers.pieces (length name.now) (length bytes.now) }
        ensures put { IsTrue result
            → FileSet uid name.now bytes.now (shelf_files self.old) (shelf_files self.new) }
        ensures kept { IsFalse result → self.new.files.items ≡ self.old.files.items }
        ensures same { IsFalse result → IsTrue self.old.buffers.fixed → self.new ≡ self.old }
        ensures after { IsTrue result → self.new.buffers ≡ used 2 self.old.buffers }
    {
        let room = self.buffers.pieces();
        if self.buffers.is_fixed() && !is_file_within(room, name.len(), bytes.len()) {
            return false;
        }
        let Some(bytes) = self.buffers.copy(bytes) else {
            return false;
        };
        self.store(uid, name, bytes)
    }

    /// Writes into a file from a place on, if there is room for it; else no file is changed.
    pub(crate) fn write(&mut self, uid: u32, name: &[u8], offset: u64, bytes: &[u8]) -> bool
        ensures fits { IsTrue self.old.buffers.fixed → result ≡ fits_written self.old.buffers.pieces
            (length name.now) (length (unwrap_or (shelf_files self.old uid name.now) [])) offset
            (length bytes.now) }
        ensures written { IsTrue result → FileWritten uid name.now offset bytes.now
            (shelf_files self.old) (shelf_files self.new) }
        ensures after { IsTrue result → self.new.buffers ≡ used 2 self.old.buffers }
        ensures fixed { self.new.buffers.fixed ≡ self.old.buffers.fixed }
    {
        let old = file_bytes(&self.files, uid, name);
        if !is_write_within(&self.buffers, name.len(), old.len(), offset, bytes.len()) {
            return false;
        }
        let Some(len) = len_after(old.len(), offset, bytes.len()) else {
            return false;
        };
        let Some(buffer) = self.buffers.take(len) else {
            return false;
        };
        let written = overwritten(buffer, old, offset, bytes);
        self.store(uid, name, Bytes::from(written))
    }

    /// Sets a file, if there is a buffer for the name and a place for the file.
    fn store(&mut self, uid: u32, name: &[u8], bytes: Bytes) -> bool
        ensures set { IsTrue result
            → FileSet uid name.now bytes (shelf_files self.old) (shelf_files self.new) }
        ensures kept { IsFalse result → self.new.files.items ≡ self.old.files.items }
        ensures fits { IsTrue self.old.buffers.fixed
            → result ≡ has_piece self.old.buffers.pieces (length name.now) }
        ensures after { self.new.buffers ≡ used 1 self.old.buffers }
    {
        let place = place_of(&self.files, uid, name);
        let Some(name) = self.buffers.copy(name) else {
            return false;
        };
        let file = KeptFile { uid, name, bytes };
        match place {
            Some(place) => {
                self.files[place] = file;
                true
            }
            None => self.files.push(file).is_ok(),
        }
    }
}

/// Whether the buffers do for a file's name and its bytes.
fn is_file_within(room: Pieces, name: usize, bytes: usize) -> bool
    ensures { result ≡ fits_file room name bytes }
{
    room.count > 1 && name <= room.size && bytes <= room.size
}

/// Whether the buffers do for a file's name and for what stands in it once so many bytes were written
/// from an offset on. Memory that is taken as it is needed may always do.
fn is_write_within(buffers: &Buffers, name: usize, old: usize, offset: u64, bytes: usize) -> bool
    ensures fits { IsTrue buffers.now.fixed
        → result ≡ fits_written buffers.now.pieces name old offset bytes }
    ensures end { IsTrue buffers.now.fixed → IsTrue result → 0 < bytes → offset + bytes < 2 ^ 64 }
{
    if !buffers.is_fixed() {
        return true;
    }
    let room = buffers.pieces();
    if room.count < 2 || name > room.size || old > room.size {
        return false;
    }
    bytes == 0
        || offset
            .checked_add(bytes as u64)
            .is_some_and(|end| end <= room.size as u64)
}

/// How much room a file needs that had so many bytes, once so many were written from an offset on.
/// `None`: more than a length can count.
fn len_after(old: usize, offset: u64, bytes: usize) -> Option<usize>
    ensures old { IfSome result (λ len. old ≤ len) }
    ensures end { IfSome result (λ len. 0 < bytes → offset + bytes ≤ len) }
    ensures least { IfSome result (λ len. (room : ℕ) → old ≤ room
        → (0 < bytes → offset + bytes ≤ room) → len ≤ room) }
    ensures some { (0 < bytes → offset + bytes < 2 ^ 64) → IsSome result }
{
    if bytes == 0 {
        return Some(old);
    }
    let end = offset.checked_add(bytes as u64)?;
    Some(old.max(end as usize))
}
