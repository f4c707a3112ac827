ghost use Rattle.std.specs.Prelude.{◌≡◌, [], OnErr, OnOk};
ghost use Rattle.outside.specs.Touched.{HasRead, HasReplaced, has_name, with_name};

use crate::bytes::Word;
use std::alloc::{AllocError, Global};
use std::marker::Model;

/// The names of the files that were read, and of those that were replaced, each once, in the order of
/// the first time.
#[derive(Drop)]
pub struct FileNames {
    alloc: Global,
    read: Vec<Word>,
    replaced: Vec<Word>,
}

impl Model for FileNames {
    ghost use Rattle.outside.specs.Touched.{Touched};

    ghost Value = { Touched };

    ghost view = { λ f. record { read = f.read.items; replaced = f.replaced.items } };
}

impl FileNames {
    /// No file was read or replaced yet.
    pub fn none(alloc: Global) -> FileNames
        ensures { result ≡ record { read = []; replaced = [] } }
    {
        FileNames {
            alloc,
            read: Vec::new(alloc),
            replaced: Vec::new(alloc),
        }
    }

    /// Notes that a file is read.
    pub fn note_read(&mut self, name: &Word) -> Result<(), AllocError>
        ensures ok { OnOk result (HasRead name.now self.old self.new) }
        ensures err { OnErr result (self.new ≡ self.old) }
    {
        note(self.alloc, &mut self.read, name)
    }

    /// Notes that a file is replaced.
    pub fn note_replaced(&mut self, name: &Word) -> Result<(), AllocError>
        ensures ok { OnOk result (HasReplaced name.now self.old self.new) }
        ensures err { OnErr result (self.new ≡ self.old) }
    {
        note(self.alloc, &mut self.replaced, name)
    }
}

/// Adds a name, if it isn't there.
fn note(alloc: Global, names: &mut Vec<Word>, name: &Word) -> Result<(), AllocError>
    ensures ok { OnOk result (names.new.items ≡ with_name name.now names.old.items) }
    ensures err { OnErr result (names.new.items ≡ names.old.items) }
{
    if is_noted(names, name) {
        return Ok(());
    }
    Ok(names.push(name.copy(alloc)?)?)
}

/// Whether a name is among these.
fn is_noted(names: &[Word], name: &Word) -> bool
    ensures { result ≡ has_name name.now names.now }
{
    names
        .iter()
        .any(|other| other.as_slice() == name.as_slice())
}
