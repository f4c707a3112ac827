//! Logs over files in the system's temporary folder.

use durable_log::Disk;
use line_log::LineLog;
use outside::{Sink, Word};
use real_files::RealSink;
use real_log::*;
use std::io::Stderr;
use std::rt::{Env, Files, Process};
use std::test::Fail;
use std::{env, fs, io, process};

/// The image of no records.
const FRESH: [u8; 5] = *b"OTJ1\x00";

/// The path of this name in the system's temporary folder.
fn temporary_path<R: Env + AllocGlobal>(rt: &R, process: Process, name: &str) -> io::Result<Word> {
    let alloc = rt.alloc();
    let folder = env::temp_dir(rt)?;
    let folder = folder.as_str();
    let id = process::id(process);
    let path = format!(in alloc; "{folder}/real_log-{id}-{name}")?;
    Ok(Word::of(alloc, path.as_str().as_bytes())?)
}

/// A disk at this path.
fn disk_at(rt: HostRuntime, path: &Word) -> io::Result<FileDisk<HostRuntime>> {
    Ok(FileDisk::new(rt, path.copy(rt.alloc())?))
}

/// Appends through the bound.
fn appends<S: Sink>(log: &mut S, line: &[u8]) -> bool {
    log.append(line).is_ok()
}

/// Whether the file at this path has these bytes.
fn holds<R: Files + AllocGlobal>(rt: &R, path: &Word, wanted: &[u8]) -> io::Result<bool> {
    Ok(fs::read(rt, path.as_str())?.as_slice() == wanted)
}

#[test]
fn each_line_is_a_record_of_the_file(rt: HostRuntime) -> Result<(), Fail> {
    let path = temporary_path(&rt, rt.process(), "appends")?;
    fs::write(&rt, path.as_str(), FRESH.as_slice())?;
    let disk = disk_at(rt, &path)?;
    let mut log: RealLog<Stderr, HostRuntime> = RealLog::Durable {
        log: LineLog::new(disk),
        echo: RealSink::new(rt.stderr()),
    };
    assert!(rt; holds(&rt, &path, &FRESH)?);
    assert!(rt; appends(&mut log, b"1 w0 s1 open permit\n"));
    assert!(rt; holds(&rt, &path, b"OTJ1\x01\x14\x001 w0 s1 open permit\n\x00")?);
    assert!(rt; appends(&mut log, b"2 w0 s1 end child-ended permit\n"));
    assert!(rt;
        holds(
            &rt,
            &path,
            b"OTJ1\x01\x14\x001 w0 s1 open permit\n\x01\x1f\x002 w0 s1 end child-ended permit\n\x00"
        )?
    );
    fs::remove_file(&rt, path.as_str())?;
    Ok(())
}

/// Whether each of two appends to a log at this path fails.
fn refuses(rt: HostRuntime, path: &Word) -> io::Result<bool> {
    let disk = disk_at(rt, path)?;
    let mut log: RealLog<Stderr, HostRuntime> = RealLog::Durable {
        log: LineLog::new(disk),
        echo: RealSink::new(rt.stderr()),
    };
    let first = appends(&mut log, b"1 w0 s1 open permit\n");
    Ok(!first && !appends(&mut log, b"1 w0 s1 open permit\n"))
}

/// Whether a flush succeeds, through the bound.
fn syncs<D: Disk>(disk: &mut D) -> bool {
    disk.sync().is_ok()
}

#[test]
fn a_file_that_is_missing_is_not_made(rt: HostRuntime) -> Result<(), Fail> {
    let path = temporary_path(&rt, rt.process(), "is_missing")?;
    assert!(rt; refuses(rt, &path)?);
    let mut disk = disk_at(rt, &path)?;
    assert!(rt; !syncs(&mut disk));
    assert!(rt; !fs::exists(&rt, path.as_str())?);
    fs::write(&rt, path.as_str(), FRESH.as_slice())?;
    assert!(rt; !syncs(&mut disk));
    assert!(rt; syncs(&mut disk_at(rt, &path)?));
    fs::remove_file(&rt, path.as_str())?;
    Ok(())
}

#[test]
fn a_folder_is_no_log(rt: HostRuntime) -> Result<(), Fail> {
    let path = temporary_path(&rt, rt.process(), "is_a_folder")?;
    fs::create_dir(&rt, path.as_str())?;
    assert!(rt; refuses(rt, &path)?);
    fs::remove_dir(&rt, path.as_str())?;
    Ok(())
}

#[test]
fn a_file_is_one_disks_alone(rt: HostRuntime) -> Result<(), Fail> {
    let path = temporary_path(&rt, rt.process(), "is_locked")?;
    fs::write(&rt, path.as_str(), FRESH.as_slice())?;
    let mut first = disk_at(rt, &path)?;
    assert!(rt; syncs(&mut first));
    assert!(rt; disk_at(rt, &path)?.write_at(0, b"x").is_err());
    assert!(rt; holds(&rt, &path, &FRESH)?);
    drop(first);
    assert!(rt; disk_at(rt, &path)?.write_at(0, b"x").is_ok());
    assert!(rt; holds(&rt, &path, b"xTJ1\x00")?);
    fs::remove_file(&rt, path.as_str())?;
    Ok(())
}

/// Whether a flush fails once another file has the name of a disk's file, or none has.
fn notices(rt: HostRuntime, path: &Word, exchange: bool) -> io::Result<bool> {
    fs::write(&rt, path.as_str(), FRESH.as_slice())?;
    let mut disk = disk_at(rt, path)?;
    let before = syncs(&mut disk);
    fs::remove_file(&rt, path.as_str())?;
    if exchange {
        fs::write(&rt, path.as_str(), FRESH.as_slice())?;
    }
    Ok(before && !syncs(&mut disk) && !syncs(&mut disk))
}

#[test]
fn a_file_that_is_taken_away_is_noticed(rt: HostRuntime) -> Result<(), Fail> {
    let path = temporary_path(&rt, rt.process(), "is_taken")?;
    assert!(rt; notices(rt, &path, false)?);
    assert!(rt; notices(rt, &path, true)?);
    fs::remove_file(&rt, path.as_str())?;
    Ok(())
}

#[test]
fn a_log_may_be_standard_error(rt: HostRuntime) -> Result<(), Fail> {
    let mut log: RealLog<Stderr, HostRuntime> = RealLog::Stream(RealSink::new(rt.stderr()));
    assert!(rt; appends(&mut log, b"1 w0 s1 open permit\n"));
    Ok(())
}
