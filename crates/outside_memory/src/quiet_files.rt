ghost use Rattle.std.specs.Prelude.{◌≡◌, ◌↔◌, ◌≤◌, drop, if◌then◌else◌, IfOk, IfSome, IsSome, IsTrue, length, None, Ok};
ghost use Rattle.std.specs.Prelude.{OnErr, OnOk, OnSome, option_map, Some};
ghost use Rattle.outside.specs.Faults.{count_after};
ghost use Rattle.outside.specs.Files.{MayBeReplaced, Replaced, SameFiles, bytes_read, piece_of, file_of};
ghost use Rattle.outside.specs.Told.{Goes};
ghost use Rattle.outside.specs.Touched.{HasRead, HasReplaced, MayHaveRead, MayHaveReplaced};
ghost use Rattle.outside_memory.specs.Pieces.{fits_file, without};

use crate::buffers::Buffers;
use crate::kept_file::copy_from;
use crate::room::Pieces;
use crate::shelf::Shelf;
use outside::{Bytes, Failed, Files, Word};
use std::alloc::{AllocError, Global};

/// Files with fixed room. They tell what stands in them as long as what replaces it fits the room, but
/// never which of them were read and replaced.
#[derive(Drop)]
pub struct QuietFiles {
    shelf: Shelf,
    telling: bool,
    ghost fixed: { IsTrue shelf.buffers.fixed },
}

impl QuietFiles {
    ghost use Rattle.outside_memory.specs.QuietFiles.{contents_of, files_stock, read_faults_of, replace_faults_of};

    /// Files with these names and bytes; of two pairs with one name the first counts. Each replacing
    /// uses up two of the buffers `room`: one for the name and one for the bytes.
    pub fn new(
        alloc: Global,
        pairs: &[(Word, Bytes)],
        room: Pieces,
    ) -> Result<QuietFiles, AllocError>
        ensures contents { IfOk result (λ f. contents_of f ≡ Some (file_of pairs.now)) }
        ensures read_faults { IfOk result (λ f. read_faults_of f ≡ 0) }
        ensures replace_faults { IfOk result (λ f. replace_faults_of f ≡ 0) }
        ensures stock { IfOk result (λ f. files_stock f ≡ room) }
    {
        Ok(QuietFiles {
            shelf: Shelf::new(alloc, pairs, Buffers::fixed(alloc, room)?)?,
            telling: true,
        })
    }

    /// Whether they tell what stands in them.
    pub fn tells(&self) -> bool
        ensures { IsTrue result ↔ IsSome (contents_of self.now) }
    {
        self.telling
    }

    /// The bytes of a file, where they tell them. `None`: there is no such file.
    pub fn file(&self, name: &Word) -> Option<&[u8]>
        ensures { IfSome (contents_of self.now)
            (λ files. option_map (λ bytes. bytes.now) result ≡ files name.now) }
    {
        self.shelf.find(0, name.as_slice())
    }
}

impl Files for QuietFiles {
    ghost use Rattle.outside_memory.specs.QuietFiles.{contents_of, files_stock, read_faults_of, replace_faults_of};

    ghost contents = { contents_of };

    ghost read_faults = { read_faults_of };

    ghost replace_faults = { replace_faults_of };

    ghost touched = { λ _. None };

    /// Reads the bytes from the offset on.
    fn read(&mut self, name: &Word, offset: u64, buf: &mut [u8]) -> Result<Option<usize>, Failed>
        ensures bound { IfOk result (λ found. IfSome found (λ n. n ≤ length buf.old)) }
        ensures found { IfOk result (λ found. IfSome (contents_of self.new) (λ files.
            bytes_read found buf.new ≡ piece_of (files name.now) offset (length buf.old))) }
        ensures same { Goes SameFiles (contents_of self.old) (contents_of self.new) }
        ensures counts { read_faults_of self.new ≡ count_after result (read_faults_of self.old) }
        ensures kept { read_faults_of self.old ≤ read_faults_of self.new }
        ensures others { replace_faults_of self.new ≡ replace_faults_of self.old }
        ensures touched_ok { OnOk result (Goes (HasRead name.now) None None) }
        ensures touched_err { OnErr result (Goes (MayHaveRead name.now) None None) }

        ensures unchanged { self.new ≡ self.old }
        ensures rest { IfOk result (λ found. IfSome found (λ n. drop n buf.new ≡ drop n buf.old)) }
    {
        let Some(bytes) = self.shelf.find(0, name.as_slice()) else {
            return Ok(None);
        };
        Ok(Some(copy_from(bytes, offset, buf)))
    }

    /// Replaces what a file holds. They tell after it where they told before and there was room.
    fn replace(&mut self, name: &Word, bytes: &[u8]) -> Result<(), Failed>
        ensures ok { OnOk result (Goes (Replaced name.now bytes.now) (contents_of self.old)
            (contents_of self.new)) }
        ensures err { OnErr result (Goes (MayBeReplaced name.now bytes.now) (contents_of self.old)
            (contents_of self.new)) }
        ensures counts { replace_faults_of self.new ≡ count_after result (replace_faults_of self.old) }
        ensures kept { replace_faults_of self.old ≤ replace_faults_of self.new }
        ensures others { read_faults_of self.new ≡ read_faults_of self.old }
        ensures touched_ok { OnOk result (Goes (HasReplaced name.now) None None) }
        ensures touched_err { OnErr result (Goes (MayHaveReplaced name.now) None None) }

        ensures tells { IsSome (contents_of self.new) ↔ (IsSome (contents_of self.old)
            × IsTrue (fits_file (files_stock self.old) (length name.now) (length bytes.now))) }
        ensures stock { OnSome (contents_of self.new)
            (files_stock self.new ≡ without 2 (files_stock self.old)) }
    {
        if !self.shelf.put(0, name.as_slice(), bytes) {
            self.telling = false;
        }
        Ok(())
    }
}
