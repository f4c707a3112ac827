ghost use Rattle.std.specs.Prelude.{◌≡◌, ◌≤◌, [], IfOk, IfSome, IsSome, None, OnErr, OnOk, Some, length};
ghost use Rattle.outside.specs.Faults.{count_after};
ghost use Rattle.outside.specs.Told.{Goes};
ghost use Rattle.outside.specs.Touched.{HasRead, HasReplaced, MayHaveRead, MayHaveReplaced};
ghost use Rattle.real_files.specs.Findings.{KeepsFindings, SameOthers, found_at};

use crate::seen::SeenFiles;
use outside::{Failed, FileNames, Files, Word};
use std::alloc::Global;
use std::fs::File;
use std::io;
use std::rt::Files as FileSystem;
use system_calls::counted::counted;
use system_calls::{Found, Reading, found_by, reading_at, replace_file};

/// The machine's files. A name is a path.
///
/// A file is read as one: a reading from its front opens it, and those of the pieces after it are of
/// the same open file, also where another file is given its name in between. A file that was read is
/// replaced only as long as it is the one that was read first, or that replaced it since: reading it once more
/// changes nothing of that.
#[derive(Drop)]
pub struct RealFiles<R> {
    rt: R,
    alloc: Global,
    reading: Option<Reading>,
    seen: SeenFiles,
    touched: FileNames,
    last: LastCall,
    read_faults: u64,
    replace_faults: u64,
}

/// Which file the last call was about that failed, and why; or, where none failed, the last call.
#[derive(Drop)]
struct LastCall {
    path: Option<String>,
    error: Option<io::Error>,
}

impl LastCall {
    ghost use Rattle.std.specs.Prelude.{IsNone, IsSome};
    ghost use Rattle.std.specs.Option.{option_or};

    /// There was no call.
    fn none() -> LastCall {
        LastCall {
            path: None,
            error: None,
        }
    }

    /// A call at this path.
    fn at(alloc: Global, path: &str, error: Option<io::Error>) -> LastCall
        ensures { result.error ≡ error }
    {
        LastCall {
            path: String::from_str(alloc, path).ok(),
            error,
        }
    }

    /// Keeps a call at this path, unless it succeeded and one before it failed.
    fn note(&mut self, alloc: Global, path: &str, error: Option<io::Error>)
        ensures error { self.new.error ≡ option_or error self.old.error }
        ensures kept { IsSome self.old.error → IsNone error → self.new ≡ self.old }
    {
        if error.is_some() || self.error.is_none() {
            *self = LastCall::at(alloc, path, error);
        }
    }
}

impl<R> RealFiles<R> {
    ghost use Rattle.real_files.specs.RealFiles.{read_faults_of, replace_faults_of, touched_of};

    /// The files that this runtime reaches.
    pub fn new(rt: R, alloc: Global) -> RealFiles<R>
        ensures read_faultless { read_faults_of result ≡ 0 }
        ensures replace_faultless { replace_faults_of result ≡ 0 }
        ensures untouched { touched_of result ≡ Some (record { read = []; replaced = [] }) }
    {
        RealFiles {
            rt,
            alloc,
            reading: None,
            seen: SeenFiles::new(alloc),
            touched: FileNames::none(alloc),
            last: LastCall::none(),
            read_faults: 0,
            replace_faults: 0,
        }
    }

    /// The path of the file that couldn't be read or replaced last, or else of the one that was last.
    pub fn last_path(&self) -> Option<&str> {
        match &self.last.path {
            Some(path) => Some(path.as_str()),
            None => None,
        }
    }

    /// Why the last reading or replacing that failed did so, if one failed.
    pub fn last_error(&self) -> Option<io::Error> {
        self.last.error
    }
}

impl<R: FileSystem<File = File> + Drop> Files for RealFiles<R> {
    ghost use Rattle.real_files.specs.RealFiles.{read_faults_of, replace_faults_of, seen_of, touched_of};

    ghost contents = { λ _. None };

    ghost read_faults = { read_faults_of };

    ghost replace_faults = { replace_faults_of };

    ghost touched = { touched_of };

    /// Reads from the offset on until the buffer is full or the file ends.
    fn read(&mut self, name: &Word, offset: u64, buf: &mut [u8]) -> Result<Option<usize>, Failed>
        ensures bound { IfOk result (λ found. IfSome found (λ n. n ≤ length buf.old)) }
        ensures counts { read_faults_of self.new ≡ count_after result (read_faults_of self.old) }
        ensures kept { read_faults_of self.old ≤ read_faults_of self.new }
        ensures others { replace_faults_of self.new ≡ replace_faults_of self.old }
        ensures touched_ok { OnOk result (Goes (HasRead name.now) (touched_of self.old)
            (touched_of self.new)) }
        ensures touched_err { OnErr result (Goes (MayHaveRead name.now) (touched_of self.old)
            (touched_of self.new)) }
        ensures seen { KeepsFindings (seen_of self.old) (seen_of self.new) }
    {
        let noted = self.touched.note_read(name);
        let outcome = match noted {
            Ok(()) => self.read_piece(name.as_str(), offset, buf),
            Err(error) => Err(error.into()),
        };
        if offset == 0 || outcome.is_err() {
            self.last.note(self.alloc, name.as_str(), outcome.err());
        }
        counted(&mut self.read_faults, outcome)
    }

    /// Writes a new file beside the old one, with its permissions, owner and group, flushes it to the
    /// disk, and gives it the old one's name. So whoever reads the file sees what it held or the new
    /// bytes, and after a crash it holds one of these. A symbolic link is followed to its end. It is a
    /// fault where the file isn't the one any more that was read first, or that replaced it since.
    fn replace(&mut self, name: &Word, bytes: &[u8]) -> Result<(), Failed>
        ensures counts { replace_faults_of self.new
            ≡ count_after result (replace_faults_of self.old) }
        ensures kept { replace_faults_of self.old ≤ replace_faults_of self.new }
        ensures others { read_faults_of self.new ≡ read_faults_of self.old }
        ensures touched_ok { OnOk result (Goes (HasReplaced name.now) (touched_of self.old)
            (touched_of self.new)) }
        ensures touched_err { OnErr result (Goes (MayHaveReplaced name.now) (touched_of self.old)
            (touched_of self.new)) }
        ensures seen { OnErr result (seen_of self.new ≡ seen_of self.old) }
        ensures known { IsSome (found_at (seen_of self.old) name.now)
            → IsSome (found_at (seen_of self.new) name.now) }
        ensures seen_others { SameOthers name.now (seen_of self.old) (seen_of self.new) }
    {
        self.reading = None;
        let noted = self.touched.note_replaced(name);
        let outcome = match noted {
            Ok(()) => self.replace_known(name.as_str(), bytes),
            Err(error) => Err(error.into()),
        };
        counted(&mut self.replace_faults, outcome)
    }
}

impl<R: FileSystem<File = File>> RealFiles<R> {
    ghost use Rattle.real_files.specs.RealFiles.{read_faults_of, replace_faults_of, seen_of, touched_of};

    /// Reads a file from an offset on into the front of a buffer. `None`: there is no such file.
    fn read_piece(&mut self, path: &str, offset: u64, buf: &mut [u8]) -> io::Result<Option<usize>>
        ensures bound { IfOk result (λ found. IfSome found (λ n. n ≤ length buf.old)) }
        ensures read_faults { read_faults_of self.new ≡ read_faults_of self.old }
        ensures replace_faults { replace_faults_of self.new ≡ replace_faults_of self.old }
        ensures touched { touched_of self.new ≡ touched_of self.old }
        ensures seen { KeepsFindings (seen_of self.old) (seen_of self.new) }
    {
        let begun = self.reading.take();
        let opened = reading_at(&self.rt, self.alloc, begun, path, offset)?;
        if offset == 0 {
            self.seen.note(self.alloc, path, found_by(&opened))?;
        }
        self.read_on(opened, buf)
    }

    /// Reads on in a file, which is kept unless it has ended. `None`: there is no such file.
    fn read_on(&mut self, opened: Option<Reading>, buf: &mut [u8]) -> io::Result<Option<usize>>
        ensures bound { IfOk result (λ found. IfSome found (λ n. n ≤ length buf.old)) }
        ensures read_faults { read_faults_of self.new ≡ read_faults_of self.old }
        ensures replace_faults { replace_faults_of self.new ≡ replace_faults_of self.old }
        ensures touched { touched_of self.new ≡ touched_of self.old }
        ensures seen { seen_of self.new ≡ seen_of self.old }
    {
        let Some(mut reading) = opened else {
            return Ok(None);
        };
        let count = reading.fill(buf)?;
        if count > 0 {
            self.reading = Some(reading);
        }
        Ok(Some(count))
    }

    /// Replaces a file.
    fn replace_known(&mut self, path: &str, bytes: &[u8]) -> io::Result<()>
        ensures read_faults { read_faults_of self.new ≡ read_faults_of self.old }
        ensures replace_faults { replace_faults_of self.new ≡ replace_faults_of self.old }
        ensures touched { touched_of self.new ≡ touched_of self.old }
        ensures seen { OnErr result (seen_of self.new ≡ seen_of self.old) }
        ensures known { IsSome (found_at (seen_of self.old) path.now)
            → IsSome (found_at (seen_of self.new) path.now) }
        ensures seen_others { SameOthers path.now (seen_of self.old) (seen_of self.new) }
    {
        let outcome = replace_file(&self.rt, self.alloc, path, self.seen.of(path), bytes);
        self.last.note(self.alloc, path, outcome.err());
        let identity = outcome?;
        self.seen.leave(self.alloc, path, Found::File(identity));
        Ok(())
    }
}
