ghost use Rattle.std.specs.Prelude.{◌≡◌, ◌↔◌, ◌≤◌, [], drop, IfOk, IfSome, IsErr, IsSome, IsTrue, length, OnErr};
ghost use Rattle.std.specs.Prelude.{OnOk, option_map, Some};
ghost use Rattle.outside.specs.Told.{next_count};
ghost use Rattle.outside.specs.Files.{MayBeReplaced, Replaced, SameFiles, bytes_read, piece_of, file_of};
ghost use Rattle.outside.specs.Faults.{count_after};
ghost use Rattle.outside.specs.Told.{Goes};
ghost use Rattle.outside.specs.Touched.{HasRead, HasReplaced, MayHaveRead, MayHaveReplaced};

use crate::buffers::Buffers;
use crate::fail::{CallKind, Fail, find_failure};
use crate::kept_file::copy_from;
use crate::shelf::Shelf;
use outside::{Bytes, Failed, FileNames, Files, Word};
use std::alloc::{AllocError, Global};

/// Files in memory. They tell what stands in them as long as memory is found for it, and so which of
/// them were read and replaced.
#[derive(Drop)]
pub struct MemFiles {
    shelf: Shelf,
    telling: bool,
    touched: FileNames,
    tells_touched: bool,
    fails: Vec<Fail>,
    reads: u64,
    replaces: u64,
    read_faults: u64,
    replace_faults: u64,
}

impl MemFiles {
    ghost use Rattle.outside_memory.specs.MemFiles.{contents_of, files_schedule, read_faults_of};
    ghost use Rattle.outside_memory.specs.MemFiles.{replace_faults_of, touched_of};

    /// Files with these names and bytes; of two pairs with one name the first counts. Their calls
    /// fail exactly where `fails` lists them.
    pub fn new(
        alloc: Global,
        pairs: &[(Word, Bytes)],
        fails: &[Fail],
    ) -> Result<MemFiles, AllocError>
        ensures contents { IfOk result (λ f. contents_of f ≡ Some (file_of pairs.now)) }
        ensures read_faults { IfOk result (λ f. read_faults_of f ≡ 0) }
        ensures replace_faults { IfOk result (λ f. replace_faults_of f ≡ 0) }
        ensures touched { IfOk result (λ f. touched_of f ≡ Some (record { read = []; replaced = [] })) }
        ensures schedule { IfOk result (λ f. files_schedule f
            ≡ record { fails = fails.now; reads = 0; replaces = 0 }) }
    {
        Ok(MemFiles {
            shelf: Shelf::new(alloc, pairs, Buffers::growing(alloc))?,
            telling: true,
            touched: FileNames::none(alloc),
            tells_touched: true,
            fails: Vec::from_slice(alloc, fails)?,
            reads: 0,
            replaces: 0,
            read_faults: 0,
            replace_faults: 0,
        })
    }

    /// Whether they tell what stands in them.
    pub fn tells(&self) -> bool
        ensures { IsTrue result ↔ IsSome (contents_of self.now) }
    {
        self.telling
    }

    /// The bytes of a file, where they tell them. `None`: there is no such file.
    pub fn file(&self, name: &Word) -> Option<&[u8]>
        ensures { IfSome (contents_of self.now)
            (λ files. option_map (λ bytes. bytes.now) result ≡ files name.now) }
    {
        self.shelf.find(0, name.as_slice())
    }
}

impl Files for MemFiles {
    ghost use Rattle.outside_memory.specs.MemFiles.{contents_of, files_schedule, read_failure, read_faults_of};
    ghost use Rattle.outside_memory.specs.MemFiles.{replace_failure, replace_faults_of, touched_of};

    ghost contents = { contents_of };

    ghost read_faults = { read_faults_of };

    ghost replace_faults = { replace_faults_of };

    ghost touched = { touched_of };

    /// Reads the bytes from the offset on. It fails exactly where its list says so.
    fn read(&mut self, name: &Word, offset: u64, buf: &mut [u8]) -> Result<Option<usize>, Failed>
        ensures bound { IfOk result (λ found. IfSome found (λ n. n ≤ length buf.old)) }
        ensures found { IfOk result (λ found. IfSome (contents_of self.new) (λ files.
            bytes_read found buf.new ≡ piece_of (files name.now) offset (length buf.old))) }
        ensures same { Goes SameFiles (contents_of self.old) (contents_of self.new) }
        ensures counts { read_faults_of self.new ≡ count_after result (read_faults_of self.old) }
        ensures kept { read_faults_of self.old ≤ read_faults_of self.new }
        ensures others { replace_faults_of self.new ≡ replace_faults_of self.old }
        ensures touched_ok { OnOk result (Goes (HasRead name.now) (touched_of self.old)
            (touched_of self.new)) }
        ensures touched_err { OnErr result (Goes (MayHaveRead name.now) (touched_of self.old)
            (touched_of self.new)) }

        ensures listed { IsErr result ↔ IsSome (read_failure (files_schedule self.old)) }
        ensures tells { IsSome (contents_of self.old) → IsSome (contents_of self.new) }
        ensures rest { IfOk result (λ found. IfSome found (λ n. drop n buf.new ≡ drop n buf.old)) }
        ensures schedule { files_schedule self.new ≡ record (files_schedule self.old) {
          reads = next_count (files_schedule self.old).reads;
        } }
    {
        if self.touched.note_read(name).is_err() {
            self.tells_touched = false;
        }
        self.reads = self.reads.saturating_add(1);
        if find_failure(&self.fails, CallKind::Read, self.reads).is_some() {
            self.read_faults = self.read_faults.saturating_add(1);
            return Err(Failed);
        }
        let Some(bytes) = self.shelf.find(0, name.as_slice()) else {
            return Ok(None);
        };
        Ok(Some(copy_from(bytes, offset, buf)))
    }

    /// Replaces what a file holds. It fails exactly where its list says so, and then keeps it.
    fn replace(&mut self, name: &Word, bytes: &[u8]) -> Result<(), Failed>
        ensures ok { OnOk result (Goes (Replaced name.now bytes.now) (contents_of self.old)
            (contents_of self.new)) }
        ensures err { OnErr result (Goes (MayBeReplaced name.now bytes.now) (contents_of self.old)
            (contents_of self.new)) }
        ensures counts { replace_faults_of self.new
            ≡ count_after result (replace_faults_of self.old) }
        ensures kept { replace_faults_of self.old ≤ replace_faults_of self.new }
        ensures others { read_faults_of self.new ≡ read_faults_of self.old }
        ensures touched_ok { OnOk result (Goes (HasReplaced name.now) (touched_of self.old)
            (touched_of self.new)) }
        ensures touched_err { OnErr result (Goes (MayHaveReplaced name.now) (touched_of self.old)
            (touched_of self.new)) }

        ensures listed { IsErr result ↔ IsSome (replace_failure (files_schedule self.old)) }
        ensures unchanged { OnErr result (contents_of self.new ≡ contents_of self.old) }
        ensures schedule { files_schedule self.new ≡ record (files_schedule self.old) {
          replaces = next_count (files_schedule self.old).replaces;
        } }
    {
        if self.touched.note_replaced(name).is_err() {
            self.tells_touched = false;
        }
        self.replaces = self.replaces.saturating_add(1);
        if find_failure(&self.fails, CallKind::Replace, self.replaces).is_some() {
            self.replace_faults = self.replace_faults.saturating_add(1);
            return Err(Failed);
        }
        if !self.shelf.put(0, name.as_slice(), bytes) {
            self.telling = false;
        }
        Ok(())
    }
}
