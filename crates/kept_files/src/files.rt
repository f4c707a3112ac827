ghost use Rattle.std.specs.Prelude.{◌≡◌, ◌≤◌, ◌∷◌, [], Err, IfOk, IfSome, IsErr, IsTrue, None, OnErr, OnOk, Some};
ghost use Rattle.std.specs.Prelude.{drop, false, length, option_map, take};
ghost use Rattle.outside.specs.Faults.{count_after};
ghost use Rattle.outside.specs.Files.{MayBeReplaced, Replaced, SameFiles, bytes_read, piece_of};
ghost use Rattle.outside.specs.FilesNow.{files_now};
ghost use Rattle.outside.specs.Told.{Goes, Rose, next_count};
ghost use Rattle.outside.specs.Touched.{HasRead, HasReplaced, MayHaveRead, MayHaveReplaced};
ghost use Rattle.file_front.specs.declared.front.FrontError.TheVariants as errors;
ghost use Rattle.kept_files.specs.Kept.{KeepsFile, KeepsMore, ReplacedBelow, SparesBelow, is_kept, kept_files};

use crate::shelf::Shelf;
use file_front::{FrontError, read_front};
use outside::{Bytes, Failed, FileNames, Files, Word};
use std::alloc::{AllocError, Global};

/// How many bytes are kept of a file at most.
const KEPT_MAX: usize = 8_388_609;

/// Files that are read once and kept. Only a file that is kept can be read or replaced: of any other a call fails.
/// So they always tell what stands in them: what was read of each, or what was put in its place since.
#[derive(Drop)]
pub struct KeptFiles<F> {
    alloc: Global,
    under: F,
    shelf: Shelf,
    touched: FileNames,
    last: Option<Word>,
    read_faults: u64,
    replace_faults: u64,
}

impl<F: Files> KeptFiles<F> {
    ghost use Rattle.kept_files.specs.Files.{kept_now, kept_of, under_of};
    ghost use Rattle.kept_files.specs.Files.{read_faults_of, replace_faults_of, touched_of};

    /// Of these files none was read yet.
    pub fn new(alloc: Global, under: F) -> KeptFiles<F>
        ensures kept { kept_of result ≡ record { there = []; missing = [] } }
        ensures under { under_of result ≡ under }
        ensures read_faultless { read_faults_of result ≡ 0 }
        ensures replace_faultless { replace_faults_of result ≡ 0 }
        ensures untouched { touched_of result ≡ Some (record { read = []; replaced = [] }) }
    {
        KeptFiles {
            alloc,
            under,
            shelf: Shelf::new(alloc),
            touched: FileNames::none(alloc),
            last: None,
            read_faults: 0,
            replace_faults: 0,
        }
    }

    /// The files that were read.
    pub fn under(&self) -> &F
        ensures { result.now ≡ under_of self.now }
    {
        &self.under
    }

    /// The name of the file that was read from its front or replaced last.
    pub fn last_path(&self) -> Option<&str> {
        match &self.last {
            Some(name) => Some(name.as_str()),
            None => None,
        }
    }

    /// The bytes that are kept of a file, if it was there.
    pub fn file(&self, name: &str) -> Option<&[u8]>
        ensures { option_map (λ bytes. bytes.now) result ≡ kept_files (kept_of self.now) name.now }
    {
        self.shelf.file(name)
    }

    #[tactic(auto, using(crate::proofs::KeptLemmas::more_none, crate::proofs::KeptLemmas::more_same))]
    /// Reads a file and keeps its first 8,388,609 bytes, or that there is no such file. Whatever is kept isn't
    /// read once more. So many bytes are more than a setup or a word list has, and than is read of a log to see
    /// whether it is fresh.
    ///
    /// # Errors
    ///
    /// The reading failed, or there isn't the memory: then nothing more is kept.
    pub fn keep(&mut self, name: &str) -> Result<(), FrontError>
        ensures kept { OnOk result (IsTrue (is_kept name.now (kept_of self.new))) }
        ensures file { KeepsFile (F.contents (under_of self.new)) name.now (kept_of self.old) (kept_of self.new) }
        ensures err { OnErr result (kept_of self.new ≡ kept_of self.old) }
        ensures failed { result ≡ Err errors.Failed → Rose (F.read_faults (under_of self.old))
            (F.read_faults (under_of self.new)) }
        ensures more { let now = kept_now (files_now F.contents F.read_faults F.replace_faults F.touched) in
            KeepsMore (name.now ∷ []) (now self.old) (now self.new) }
        ensures touched { Goes (MayHaveRead name.now) (touched_of self.old) (touched_of self.new) }
    {
        let word = Word::of(self.alloc, name.as_bytes())?;
        self.touched.note_read(&word)?;
        if !self.shelf.has(name) {
            let found = read_front(self.alloc, &mut self.under, name, KEPT_MAX)?;
            self.shelf.put(word, found)?;
        }
        Ok(())
    }
}

impl<F: Files> Files for KeptFiles<F> {
    ghost use Rattle.kept_files.specs.Files.{contents_of, kept_of, under_of};
    ghost use Rattle.kept_files.specs.Files.{read_faults_of, replace_faults_of, touched_of};

    ghost contents = { contents_of };

    ghost read_faults = { read_faults_of };

    ghost replace_faults = { replace_faults_of };

    ghost touched = { touched_of };

    /// Reads of what is kept. It fails of a file that isn't kept, and asks nothing of the files below.
    fn read(&mut self, name: &Word, offset: u64, buf: &mut [u8]) -> Result<Option<usize>, Failed>
        ensures bound { IfOk result (λ found. IfSome found (λ n. n ≤ length buf.old)) }
        ensures found { IfOk result (λ found. IfSome (contents_of self.new) (λ files.
            bytes_read found buf.new ≡ piece_of (files name.now) offset (length buf.old))) }
        ensures same { Goes SameFiles (contents_of self.old) (contents_of self.new) }
        ensures counts { read_faults_of self.new ≡ count_after result (read_faults_of self.old) }
        ensures kept { read_faults_of self.old ≤ read_faults_of self.new }
        ensures others { replace_faults_of self.new ≡ replace_faults_of self.old }
        ensures touched_ok { OnOk result (Goes (HasRead name.now) (touched_of self.old) (touched_of self.new)) }
        ensures touched_err { OnErr result (Goes (MayHaveRead name.now) (touched_of self.old)
            (touched_of self.new)) }

        ensures unkept { is_kept name.now (kept_of self.old) ≡ false → IsErr result }
        ensures below { under_of self.new ≡ under_of self.old }
    {
        if self.touched.note_read(name).is_err() {
            return Err(failed(&mut self.read_faults));
        }
        if offset == 0 {
            self.last = name.copy(self.alloc).ok();
        }
        match self.shelf.file(name.as_str()) {
            Some(bytes) => Ok(Some(copy_from(bytes, offset, buf))),
            None if self.shelf.lacks(name.as_str()) => Ok(None),
            None => Err(failed(&mut self.read_faults)),
        }
    }

    #[tactic(auto, using(crate::proofs::Sparing::spares_none))]
    /// Replaces a file that was there when it was read, first below. It fails of any other. Where it fails, the
    /// files below are as they were, but for a replacing of this one that failed there.
    fn replace(&mut self, name: &Word, bytes: &[u8]) -> Result<(), Failed>
        ensures ok { OnOk result (Goes (Replaced name.now bytes.now) (contents_of self.old)
            (contents_of self.new)) }
        ensures err { OnErr result (Goes (MayBeReplaced name.now bytes.now) (contents_of self.old)
            (contents_of self.new)) }
        ensures counts { replace_faults_of self.new ≡ count_after result (replace_faults_of self.old) }
        ensures kept { replace_faults_of self.old ≤ replace_faults_of self.new }
        ensures others { read_faults_of self.new ≡ read_faults_of self.old }
        ensures touched_ok { OnOk result (Goes (HasReplaced name.now) (touched_of self.old)
            (touched_of self.new)) }
        ensures touched_err { OnErr result (Goes (MayHaveReplaced name.now) (touched_of self.old)
            (touched_of self.new)) }

        ensures below { let now = files_now F.contents F.read_faults F.replace_faults F.touched in
            OnOk result (ReplacedBelow name.now bytes.now (now (under_of self.old)) (now (under_of self.new))) }
        ensures spared { let now = files_now F.contents F.read_faults F.replace_faults F.touched in
            OnErr result (SparesBelow name.now bytes.now (now (under_of self.old)) (now (under_of self.new))) }
        ensures unkept { kept_files (kept_of self.old) name.now ≡ None → IsErr result }
    {
        self.last = name.copy(self.alloc).ok();
        if self.touched.note_replaced(name).is_err() {
            return Err(failed(&mut self.replace_faults));
        }
        match self.replace_kept(name, bytes) {
            Ok(()) => Ok(()),
            Err(Failed) => Err(failed(&mut self.replace_faults)),
        }
    }
}

impl<F: Files> KeptFiles<F> {
    ghost use Rattle.kept_files.specs.Files.{kept_of, read_faults_of, replace_faults_of, touched_of, under_of};

    #[tactic(auto, using(crate::proofs::Sparing::spares_none, crate::proofs::Sparing::spares_failed))]
    /// Replaces a file that was there when it was read, and what is kept of it.
    fn replace_kept(&mut self, name: &Word, bytes: &[u8]) -> Result<(), Failed>
        ensures ok { OnOk result (Replaced name.now bytes.now (kept_files (kept_of self.old))
            (kept_files (kept_of self.new))) }
        ensures below { let now = files_now F.contents F.read_faults F.replace_faults F.touched in
            OnOk result (ReplacedBelow name.now bytes.now (now (under_of self.old)) (now (under_of self.new))) }
        ensures err { OnErr result (kept_of self.new ≡ kept_of self.old) }
        ensures spared { let now = files_now F.contents F.read_faults F.replace_faults F.touched in
            OnErr result (SparesBelow name.now bytes.now (now (under_of self.old)) (now (under_of self.new))) }
        ensures unkept { kept_files (kept_of self.old) name.now ≡ None → IsErr result }
        ensures read_faults { read_faults_of self.new ≡ read_faults_of self.old }
        ensures replace_faults { replace_faults_of self.new ≡ replace_faults_of self.old }
        ensures touched { touched_of self.new ≡ touched_of self.old }
    {
        let Some(place) = self.shelf.place_of(name.as_str()) else {
            return Err(Failed);
        };
        let Ok(pair) = pair_of(self.alloc, name, bytes) else {
            return Err(Failed);
        };
        self.under.replace(name, bytes)?;
        self.shelf.set(place, pair);
        Ok(())
    }
}

/// A fault, which is counted. The count stands still at 2^64 - 1.
fn failed(count: &mut u64) -> Failed
    ensures counted { count.new ≡ next_count count.old }
    ensures kept { count.old ≤ count.new }
{
    *count = count.saturating_add(1);
    Failed
}

/// Copies of a name and of bytes.
fn pair_of(alloc: Global, name: &Word, bytes: &[u8]) -> Result<(Word, Bytes), AllocError>
    ensures { IfOk result (λ pair. (pair.0 ≡ name.now) × (pair.1 ≡ bytes.now)) }
{
    Ok((name.copy(alloc)?, Bytes::of(alloc, bytes)?))
}

/// Copies bytes from an offset on to the front of a buffer, as many as there is room for, and gives how many.
fn copy_from(bytes: &[u8], offset: u64, buf: &mut [u8]) -> usize
    ensures bound { result ≤ length buf.old }
    ensures piece { take result buf.new ≡ take (length buf.old) (drop offset bytes.now) }
{
    let start = bytes
        .len()
        .min(usize::try_from(offset).unwrap_or(usize::MAX));
    let left = &bytes[start..];
    let n = left.len().min(buf.len());
    buf[..n].copy_from_slice(&left[..n]);
    n
}
