ghost use Rattle.std.specs.Prelude.{◌≡◌, ◌∷◌, ◌++◌, [], OnErr, OnOk, Some, false, option_map};
ghost use Rattle.std.specs.List.{position};
ghost use Rattle.std.specs.Str.{bytes_eq};
ghost use Rattle.outside.specs.Files.{Replaced, file_of};
ghost use Rattle.outside.specs.Touched.{has_name};
ghost use Rattle.kept_files.specs.Kept.{PutsFile, is_kept, kept_files};

use outside::{Bytes, Word};
use std::alloc::{AllocError, Global};
use std::marker::Model;

/// What was read of files: the bytes of each that was there, and the names of which there was none.
#[derive(Drop)]
pub(crate) struct Shelf {
    alloc: Global,
    there: Vec<(Word, Bytes)>,
    missing: Vec<Word>,
}

impl Model for Shelf {
    ghost use Rattle.kept_files.specs.Kept.{Kept};

    ghost Value = { Kept };

    ghost view = { λ s. record { there = s.there.items; missing = s.missing.items } };
}

impl Shelf {
    /// Nothing was read.
    pub(crate) fn new(alloc: Global) -> Shelf
        ensures { result ≡ record { there = []; missing = [] } }
    {
        Shelf {
            alloc,
            there: Vec::new(alloc),
            missing: Vec::new(alloc),
        }
    }

    /// The bytes that were read of a file, if it was there.
    pub(crate) fn file(&self, name: &str) -> Option<&[u8]>
        ensures { option_map (λ bytes. bytes.now) result ≡ kept_files self.now name.now }
    {
        self.there
            .iter()
            .find(|pair| pair.0.as_slice() == name.as_bytes())
            .map(|pair| pair.1.as_slice())
    }

    /// Whether a file was found missing.
    pub(crate) fn lacks(&self, name: &str) -> bool
        ensures { result ≡ has_name name.now self.now.missing }
    {
        self.missing
            .iter()
            .any(|other| other.as_slice() == name.as_bytes())
    }

    /// Whether a file was read, or found missing.
    pub(crate) fn has(&self, name: &str) -> bool
        ensures { result ≡ is_kept name.now self.now }
    {
        self.file(name).is_some() || self.lacks(name)
    }

    #[tactic(auto, using(crate::proofs::Putting::puts_there, crate::proofs::Putting::puts_missing))]
    /// Keeps what was read of a file that isn't kept yet.
    pub(crate) fn put(&mut self, name: Word, found: Option<Vec<u8>>) -> Result<(), AllocError>
        requires { is_kept name self.old ≡ false }
        ensures ok { OnOk result (PutsFile name (option_map (λ bytes. bytes.items) found) self.old self.new) }
        ensures err { OnErr result (self.new ≡ self.old) }
    {
        match found {
            Some(bytes) => add_file(&mut self.there, name, bytes),
            None => add_name(&mut self.missing, name),
        }
    }

    /// The place of a file that was there.
    pub(crate) fn place_of(&self, name: &str) -> Option<usize>
        ensures { result ≡ position (λ p. bytes_eq p.0 name.now) self.now.there }
    {
        self.there
            .iter()
            .position(|pair| pair.0.as_slice() == name.as_bytes())
    }

    /// Puts other bytes in the place of those of a file that was there.
    pub(crate) fn set(&mut self, place: usize, pair: (Word, Bytes))
        requires { position (λ p. bytes_eq p.0 pair.0) self.old.there ≡ Some place }
        ensures { Replaced pair.0 pair.1 (kept_files self.old) (kept_files self.new) }
    {
        set_file(&mut self.there, place, pair);
    }
}

/// Adds a file.
fn add_file(files: &mut Vec<(Word, Bytes)>, name: Word, bytes: Vec<u8>) -> Result<(), AllocError>
    ensures ok { OnOk result (files.new.items ≡ files.old.items ++ (name, bytes.items) ∷ []) }
    ensures err { OnErr result (files.new.items ≡ files.old.items) }
{
    Ok(files.push((name, Bytes::from(bytes)))?)
}

/// Adds a name.
fn add_name(names: &mut Vec<Word>, name: Word) -> Result<(), AllocError>
    ensures ok { OnOk result (names.new.items ≡ names.old.items ++ name ∷ []) }
    ensures err { OnErr result (names.new.items ≡ names.old.items) }
{
    Ok(names.push(name)?)
}

/// Puts another pair of the same name in the place of the first that has it.
fn set_file(files: &mut Vec<(Word, Bytes)>, place: usize, pair: (Word, Bytes))
    requires { position (λ p. bytes_eq p.0 pair.0) files.old.items ≡ Some place }
    ensures { Replaced pair.0 pair.1 (file_of files.old.items) (file_of files.new.items) }
{
    files[place] = pair;
}
