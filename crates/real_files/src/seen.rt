ghost use Rattle.std.specs.Prelude.{◌≡◌, None, OnErr, OnOk, Some, unwrap_or};

use std::alloc::Global;
use std::collections::BTreeMap;
use std::io;
use system_calls::Found;

/// How each file was found when it was first read from its front, and since then how it was left when it was
/// replaced. A later reading doesn't count, so that none can take a change for the file that was read.
#[derive(Drop)]
pub(crate) struct SeenFiles {
    files: BTreeMap<String, Found>,
}

impl SeenFiles {
    ghost use Rattle.std.specs.Prelude.{IsSome, List, ℕ};
    ghost use Rattle.real_files.specs.Findings.{KeepsFindings, SameOthers, found_at};

    /// No file was read.
    pub(crate) fn new(alloc: Global) -> SeenFiles
        ensures { (path : List ℕ) → found_at result path ≡ None }
    {
        SeenFiles {
            files: BTreeMap::new(alloc),
        }
    }

    /// How the file at a path was found or left, if it was read.
    pub(crate) fn of(&self, path: &str) -> Option<Found>
        ensures { result ≡ found_at self.now path.now }
    {
        self.files.get(path).copied()
    }

    /// Keeps how the file at a path was found, unless it was found before.
    pub(crate) fn note(&mut self, alloc: Global, path: &str, found: Found) -> io::Result<()>
        ensures first { OnOk result (found_at self.new path.now
            ≡ Some (unwrap_or (found_at self.old path.now) found)) }
        ensures kept { KeepsFindings self.old self.new }
    {
        match self.of(path) {
            Some(_) => Ok(()),
            None => self.put(alloc, path, found),
        }
    }

    /// Keeps how the file at a path was left, if it was found before. Where there isn't the memory it stays as
    /// it was found, so that it is never replaced again.
    pub(crate) fn leave(&mut self, alloc: Global, path: &str, left: Found)
        ensures known { IsSome (found_at self.old path.now) → IsSome (found_at self.new path.now) }
        ensures others { SameOthers path.now self.old self.new }
    {
        if self.of(path).is_some() {
            let _ = self.put(alloc, path, left);
        }
    }

    /// Puts how the file at a path was found.
    fn put(&mut self, alloc: Global, path: &str, found: Found) -> io::Result<()>
        ensures put { OnOk result (found_at self.new path.now ≡ Some found) }
        ensures err { OnErr result (found_at self.new path.now ≡ found_at self.old path.now) }
        ensures others { SameOthers path.now self.old self.new }
    {
        self.files.insert(String::from_str(alloc, path)?, found)?;
        Ok(())
    }
}
