//! The names of a session's open files.

ghost use Rattle.std.specs.Prelude.{◌≡◌, ◌≤◌, ◌==◌, ℕ, length, None, Some, if◌then◌else◌};
ghost use Rattle.session_asking.specs.Files.{name_in};

use request_catalogue::Label;

/// The most files that a session has open.
const FILES_MAX: usize = 8;

/// The names of a session's open files, by their handles from 1 to 8.
#[derive(Clone, Copy)]
pub struct OpenFiles {
    names: [Option<Label>; 8],
    ghost whole: { length names ≡ 8 },
}

impl OpenFiles {
    /// No file is open.
    pub fn none() -> OpenFiles
        ensures { (handle : ℕ) → name_in result.names handle ≡ None }
    {
        OpenFiles {
            names: [None; FILES_MAX],
        }
    }

    /// The name of the file that a handle is of, if it is open.
    pub fn name(&self, handle: u32) -> Option<Label>
        ensures { result ≡ name_in self.now.names handle }
    {
        if handle == 0 || FILES_MAX < handle as usize {
            return None;
        }
        self.names[handle as usize - 1]
    }

    /// The same files, but that a handle from 1 to 8 is of this one.
    pub fn opened(mut self, handle: u32, name: Label) -> OpenFiles
        requires low { 1 ≤ handle }
        requires high { handle ≤ 8 }
        ensures { (other : ℕ) → name_in result.names other ≡ (if handle == other then Some name
            else name_in self.names other) }
    {
        self.names[handle as usize - 1] = Some(name);
        self
    }

    /// The same files, but that a handle is of none.
    pub fn closed(mut self, handle: u32) -> OpenFiles
        ensures { (other : ℕ) → name_in result.names other ≡ (if handle == other then None
            else name_in self.names other) }
    {
        if handle != 0 && handle as usize <= FILES_MAX {
            self.names[handle as usize - 1] = None;
        }
        self
    }
}
