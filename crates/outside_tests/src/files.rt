use crate::real::temporary_path;
use outside::{Failed, Files, Word};
use real_files::RealFiles;
use std::fs;
use std::os::unix::fs::symlink;
use std::rt::Process;
use std::test::Fail as Fault;

/// Reads up to 4 bytes through the bound.
fn read<F: Files>(
    files: &mut F,
    name: &Word,
    offset: u64,
    buf: &mut [u8; 4],
) -> Result<Option<usize>, Failed> {
    files.read(name, offset, buf)
}

/// Replaces through the bound.
fn replace<F: Files>(files: &mut F, name: &Word, bytes: &[u8]) -> Result<(), Failed> {
    files.replace(name, bytes)
}

/// Whether a reading from a place on gives so many bytes, and the buffer of zeros holds these then.
fn reads<F: Files>(files: &mut F, name: &Word, offset: u64, want: (&[u8; 4], usize)) -> bool {
    let mut buf = [0; 4];
    read(files, name, offset, &mut buf) == Ok(Some(want.1)) && buf == *want.0
}

/// What is done with a file, and what comes of it.
enum Step {
    /// It isn't there.
    Missing,
    /// A reading from this place on leaves these bytes in the buffer, so many of which it read.
    Read(u64, &'static [u8; 4], usize),
    /// It is made, or replaced by these bytes.
    Replaced(&'static [u8]),
    /// It isn't replaced by these bytes: the call fails.
    Left(&'static [u8]),
    /// Another one makes it, or replaces it.
    ReplacedByOther(&'static [u8]),
    /// Another one reads it from its beginning on.
    ReadByOther(&'static [u8; 4], usize),
}

/// Whether a step with a file comes out so.
fn comes_out<F: Files>(files: &mut F, others: &mut F, file: &Word, step: &Step) -> bool {
    match step {
        Step::Missing => read(files, file, 0, &mut [0; 4]) == Ok(None),
        Step::Read(offset, bytes, n) => reads(files, file, *offset, (bytes, *n)),
        Step::Replaced(bytes) => replace(files, file, bytes) == Ok(()),
        Step::Left(bytes) => replace(files, file, bytes) == Err(Failed),
        Step::ReplacedByOther(bytes) => replace(others, file, bytes) == Ok(()),
        Step::ReadByOther(bytes, n) => reads(others, file, 0, (bytes, *n)),
    }
}

/// Whether all steps with a file come out so, one after the other.
fn come_out<F: Files>(files: &mut F, others: &mut F, file: &Word, steps: &[Step]) -> bool {
    for step in steps {
        if !comes_out(files, others, file, step) {
            return false;
        }
    }
    true
}

/// The same of the files of the machine.
fn come_out_there(rt: HostRuntime, file: &Word, steps: &[Step]) -> bool {
    come_out(
        &mut RealFiles::new(rt, rt.alloc()),
        &mut RealFiles::new(rt, rt.alloc()),
        file,
        steps,
    )
}

/// The same of a file in the temporary folder, which is removed then.
fn come_out_at(rt: HostRuntime, name: &str, steps: &[Step]) -> Result<bool, Fault> {
    let file = temporary_path(&rt, rt.process(), name)?;
    let come_out = come_out_there(rt, &file, steps);
    fs::remove_file(&rt, file.as_str())?;
    Ok(come_out)
}

/// A file of a name that isn't there is made, replaced, and read in pieces.
const REPLACED_AND_READ: &[Step] = &[
    Step::Missing,
    Step::Replaced(b"old contents"),
    Step::Replaced(b"abcdef"),
    Step::Read(0, b"abcd", 4),
    Step::Read(4, b"ef\0\0", 2),
    Step::Read(6, b"\0\0\0\0", 0),
    Step::Read(0, b"abcd", 4),
];

#[test]
fn a_file_is_replaced_and_read(rt: HostRuntime) -> Result<(), Fault> {
    assert!(rt; come_out_at(rt, "replaces", REPLACED_AND_READ)?);
    Ok(())
}

/// A file that was read and replaced is left alone once another one replaced it.
const GUARDED_ON: &[Step] = &[
    Step::Missing,
    Step::Replaced(b"abcdef"),
    Step::ReplacedByOther(b"xyz"),
    Step::Left(b"again"),
    Step::ReadByOther(b"xyz\0", 3),
];

#[test]
fn a_file_that_was_replaced_is_guarded_on(rt: HostRuntime) -> Result<(), Fault> {
    assert!(rt; come_out_at(rt, "guarded", GUARDED_ON)?);
    Ok(())
}

/// A file that was read is replaced, read and replaced again, where nobody else changes it.
const REPLACED_TWICE: &[Step] = &[
    Step::Replaced(b"abcdef"),
    Step::Read(0, b"abcd", 4),
    Step::Read(0, b"abcd", 4),
    Step::Replaced(b"xyz"),
    Step::Read(0, b"xyz\0", 3),
    Step::Replaced(b"again"),
    Step::Read(4, b"n\0\0\0", 1),
];

#[test]
fn a_file_of_its_own_is_replaced_twice(rt: HostRuntime) -> Result<(), Fault> {
    assert!(rt; come_out_at(rt, "twice", REPLACED_TWICE)?);
    Ok(())
}

/// A file that another one replaces after it was read is left alone, also once it was read again.
const LEFT_ALONE: &[Step] = &[
    Step::Replaced(b"abcdef"),
    Step::Read(0, b"abcd", 4),
    Step::ReplacedByOther(b"xyz"),
    Step::Left(b"again"),
    Step::Read(0, b"xyz\0", 3),
    Step::Left(b"again"),
    Step::ReadByOther(b"xyz\0", 3),
];

#[test]
fn a_file_that_was_changed_is_left_alone(rt: HostRuntime) -> Result<(), Fault> {
    assert!(rt; come_out_at(rt, "changes", LEFT_ALONE)?);
    Ok(())
}

/// A file that is made after it was looked for in vain is left alone.
const MADE_MEANWHILE: &[Step] = &[
    Step::Missing,
    Step::ReplacedByOther(b"xyz"),
    Step::Left(b"again"),
    Step::ReadByOther(b"xyz\0", 3),
];

#[test]
fn a_file_that_was_made_meanwhile_is_left_alone(rt: HostRuntime) -> Result<(), Fault> {
    assert!(rt; come_out_at(rt, "is-made", MADE_MEANWHILE)?);
    Ok(())
}

/// A file that is being read is read on as it was, where another call replaces it.
const READ_ON: &[Step] = &[
    Step::Replaced(b"abcdef"),
    Step::Read(0, b"abcd", 4),
    Step::ReplacedByOther(b"another"),
    Step::Read(4, b"ef\0\0", 2),
];

#[test]
fn a_file_that_is_read_stays_the_same(rt: HostRuntime) -> Result<(), Fault> {
    assert!(rt; come_out_at(rt, "same", READ_ON)?);
    Ok(())
}

/// Whether a link that leads nowhere at first is followed to this file once it is there.
fn is_followed<F: Files>(files: &mut F, link: &Word, file: &Word) -> bool {
    replace(files, link, b"nothing is there") == Err(Failed)
        && replace(files, file, b"old") == Ok(())
        && replace(files, link, b"abcdef") == Ok(())
        && reads(files, file, 0, (b"abcd", 4))
}

/// Whether the files of the machine follow a link to this file, and the link stays. Both are removed.
fn follow_link(rt: HostRuntime, link: &Word, file: &Word) -> Result<bool, Fault> {
    symlink(&rt, file.as_str(), link.as_str())?;
    let is_followed = is_followed(&mut RealFiles::new(rt, rt.alloc()), link, file);
    let stays = fs::symlink_metadata(&rt, link.as_str())?.is_symlink();
    fs::remove_file(&rt, link.as_str())?;
    fs::remove_file(&rt, file.as_str())?;
    Ok(is_followed && stays)
}

#[test]
fn a_link_is_followed_to_its_end(rt: HostRuntime) -> Result<(), Fault> {
    let file = temporary_path(&rt, rt.process(), "target")?;
    let link = temporary_path(&rt, rt.process(), "link")?;
    assert!(rt; follow_link(rt, &link, &file)?);
    Ok(())
}

/// Whether a folder is not read, and no file is made in one that isn't there.
fn refuse<F: Files>(files: &mut F, folder: &Word, nowhere: &Word) -> bool {
    read(files, folder, 0, &mut [0; 4]) == Err(Failed)
        && replace(files, nowhere, b"x") == Err(Failed)
}

/// Whether the files of the machine refuse both.
fn are_refused(rt: HostRuntime) -> Result<bool, Fault> {
    let folder = Word::of(rt.alloc(), b"/")?;
    let nowhere = Word::of(rt.alloc(), b"/no/such/folder/file")?;
    Ok(refuse(&mut RealFiles::new(rt, rt.alloc()), &folder, &nowhere))
}

#[test]
fn folders_and_places_that_are_not_there_are_refused(rt: HostRuntime) -> Result<(), Fault> {
    assert!(rt; are_refused(rt)?);
    Ok(())
}

/// Whether the files tell of a call that failed also after one that succeeded.
fn tell_of_failure(files: &mut RealFiles<HostRuntime>, folder: &Word, file: &Word) -> bool {
    read(files, folder, 0, &mut [0; 4]) == Err(Failed)
        && replace(files, file, b"abcdef") == Ok(())
        && files.last_path() == Some("/")
        && files.last_error().is_some()
}

/// The same of the files of the machine and a file in the temporary folder, which is removed then.
fn tell_of_folder(rt: HostRuntime, folder: &Word) -> Result<bool, Fault> {
    let file = temporary_path(&rt, rt.process(), "told")?;
    let are_told = tell_of_failure(&mut RealFiles::new(rt, rt.alloc()), folder, &file);
    fs::remove_file(&rt, file.as_str())?;
    Ok(are_told)
}

#[test]
fn a_call_that_failed_is_told_of_after_others(rt: HostRuntime) -> Result<(), Fault> {
    let folder = Word::of(rt.alloc(), b"/")?;
    assert!(rt; tell_of_folder(rt, &folder)?);
    Ok(())
}
