//! The program: it runs with the real outside by the words of its command line. It reads a pass
//! phrase from standard input, prints to standard output and logs to standard error, and before it to
//! the file of a durable log where the words name one. Where it didn't succeed it says on standard error
//! why, and after a run how often the outside failed, if it did.
#![tactic(auto)]

mod durable;
mod information;
mod keeping;
mod saying;
mod seed;

use durable::{RunLog, logs_of};
use file_front::FrontError;
use info_hooks::{Hook, Hooks};
use information::{chain_form, person_form, say_chain, say_person};
use keeping::keep_named;
use kept_files::KeptFiles;
use messages::{Complaint, RunCounts, RunFaults, complaint_text, say_lacks};
use monitor_server::{Answer, Detail, Ended, Sides, World, otplogd, run_alone};
use outside::{Stream, Word};
use outside_real::{ListenFailure, RealPost, RealSite};
use real_files::{RealEnds, RealFiles};
use saying::{notice_of, say_end};
use seed::{RANDOM, add_seed};
use std::alloc::{AllocError, Global};
use std::env::Args;
use std::fs::File;
use std::io::ErrorKind;
use std::process::ExitCode;
use std::rt::Env;
use std::{env, io};
use system_calls::fill_standard_streams;
use usage::{answer_help, mistake_text};

/// The words are no command.
const NO_COMMAND: u8 = 2;

/// The socket could not be listened at.
const NO_SOCKET: u8 = 6;

/// A line could not be written to the log.
const NO_LOG: u8 = 7;

/// Out of memory before the run began.
const NO_MEMORY: u8 = 9;

/// A worker could not wait for a connection.
const NO_WAIT: u8 = 10;

/// A standard stream was closed, and nothing can be opened in its place.
const NO_STREAM: u8 = 11;

/// The words of the command line, without the program's name.
fn words_of(alloc: Global, args: Args) -> Result<Vec<Word>, AllocError> {
    let mut words = Vec::new(alloc);
    for arg in args.skip(1) {
        words.push(Word::of(alloc, arg.as_str().as_bytes())?)?;
    }
    Ok(words)
}

/// The words of the command line, or the status where they can't be had.
fn words_given(rt: &HostRuntime) -> Result<Vec<Word>, u8> {
    match env::args(rt) {
        Ok(args) => words_of(rt.alloc(), args).map_err(|_| NO_MEMORY),
        Err(error) if error.kind() == ErrorKind::OutOfMemory => Err(NO_MEMORY),
        Err(_) => Err(NO_COMMAND),
    }
}

/// The words that are done: those of the command line, with a seed where they need one, or the status
/// where they can't be had.
fn words_done(rt: &HostRuntime) -> Result<Vec<Word>, u8> {
    let mut words = words_given(rt)?;
    match add_seed(rt, rt.alloc(), &mut words) {
        Ok(()) => Ok(words),
        Err(error) => Err(error.status()),
    }
}

/// Why there are no words: of the statuses, 3 is about the random bytes of a seed.
fn of_words(status: u8) -> Complaint<'static> {
    Complaint {
        path: match status {
            3 => Some(RANDOM),
            _ => None,
        },
        ..Complaint::plain(status)
    }
}

/// The words that are done, with all standard streams open, or why there are none.
fn words_at_start(rt: &HostRuntime) -> Result<Vec<Word>, Complaint<'static>> {
    if fill_standard_streams(rt).is_err() {
        return Err(Complaint::plain(NO_STREAM));
    }
    words_done(rt).map_err(of_words)
}

/// Says why there is no run, and gives the exit status.
fn complain(rt: &impl Eprint, complaint: Complaint<'_>) -> ExitCode {
    let _ = rt.eprintln(complaint);
    ExitCode::from(complaint.status)
}

/// The files of a run: those that its words name, as they were read before it.
type RunFiles = KeptFiles<RealFiles<HostRuntime>>;

/// A reading of a file failed.
const NO_READING: u8 = 3;

/// A file could not be replaced.
const NO_REPLACING: u8 = 8;

/// The files that the words name, read. What can't be read isn't kept, so that a run ends with its own status.
///
/// # Errors
///
/// There isn't the memory.
fn files_of(rt: HostRuntime, alloc: Global, words: &[Word]) -> Result<RunFiles, AllocError> {
    let mut files = KeptFiles::new(alloc, RealFiles::new(rt, alloc));
    match keep_named(alloc, &mut files, words) {
        Err(FrontError::OutOfMemory) => Err(AllocError),
        _ => Ok(files),
    }
}

/// The site of a run. Where the words name a setup, its vault and its launcher have to be there: the plain
/// one, by which nobody can log in, needs no vault. Where they name a durable log, the site says on standard
/// error that it listens, which is no log then.
fn site_of(
    rt: HostRuntime,
    alloc: Global,
    words: &[Word],
    files: &mut RunFiles,
) -> RealSite<HostRuntime> {
    let site = RealSite::new(rt, alloc);
    match words {
        [_] => site,
        [_, _] => site.that_looks(),
        [_, setup, ..] => match notice_of(rt, alloc, files, setup) {
            Some(notice) => site.that_looks().that_says(notice),
            None => site.that_looks(),
        },
        [] => site,
    }
}

/// What a run's status is about, as far as that can be told.
fn complaint_of<'a>(
    answer: Answer,
    posts: &[RealPost<HostRuntime>],
    words: &'a [Word],
    files: &'a RunFiles,
    site: &'a RealSite<HostRuntime>,
) -> Complaint<'a> {
    let plain = Complaint::of(answer);
    match (plain.status, words) {
        (NO_SOCKET, _) => of_listening(plain, site.failure()),
        (NO_LOG, [_, _, log]) => Complaint {
            path: Some(log.as_str()),
            ..plain
        },
        (NO_WAIT, _) => Complaint {
            cause: accept_error(posts),
            ..plain
        },
        (NO_LOG | NO_MEMORY, _) => plain,
        _ => of_kept(plain, files),
    }
}

/// Why a worker could not wait for a connection: what the system said to the first such one.
fn accept_error(posts: &[RealPost<HostRuntime>]) -> Option<io::Error> {
    for post in posts {
        if let Some(error) = post.accept_error() {
            return Some(error);
        }
    }
    None
}

/// A complaint about the kept file that was asked for last, or about the real one that a call failed of.
fn of_kept<'a>(plain: Complaint<'a>, files: &'a RunFiles) -> Complaint<'a> {
    match plain.status {
        NO_READING | NO_REPLACING => of_files(plain, files.under()),
        _ => Complaint {
            path: files.last_path(),
            ..plain
        },
    }
}

/// A complaint about the file that was read or replaced last.
fn of_files<'a>(plain: Complaint<'a>, files: &'a RealFiles<HostRuntime>) -> Complaint<'a> {
    Complaint {
        path: files.last_path(),
        cause: files.last_error(),
        ..plain
    }
}

/// A complaint about what a site could not listen with.
fn of_listening<'a>(plain: Complaint<'a>, failure: Option<&'a ListenFailure>) -> Complaint<'a> {
    match failure {
        Some(failure) => Complaint {
            path: Some(failure.path.as_str()),
            cause: Some(failure.error),
            ..plain
        },
        None => plain,
    }
}

/// How often the outside of a run failed, if somebody was served.
fn faults_of(posts: &[RealPost<HostRuntime>], log: &RunLog) -> Option<RunFaults> {
    if posts.is_empty() {
        return None;
    }
    Some(RunFaults::of(posts, log.dropped()))
}

/// Says what came of a call that is at its end, and gives the exit status.
fn conclude(
    rt: HostRuntime,
    words: &[Word],
    complaint: Complaint<'_>,
    faults: Option<RunFaults>,
    run: Option<RunCounts>,
) -> ExitCode {
    let (alloc, status) = (rt.alloc(), complaint.status);
    match faults {
        _ if status == NO_COMMAND => return refuse(&rt, alloc, words),
        Some(faults) => {
            let _ = say_end(rt, complaint, faults, run);
        }
        None if status != 0 => say(&rt, alloc, complaint),
        None => {}
    }
    ExitCode::from(status)
}

/// Says what is wrong with words that are no command, and gives the exit status.
fn refuse(rt: &HostRuntime, alloc: Global, words: &[Word]) -> ExitCode {
    match mistake_text(alloc, words) {
        Ok(text) => {
            let _ = rt.eprint(text.as_str());
        }
        Err(AllocError) => {
            let _ = rt.eprintln(Complaint::plain(NO_COMMAND));
        }
    }
    ExitCode::from(NO_COMMAND)
}

/// Says on standard error what a status means.
fn say(rt: &HostRuntime, alloc: Global, complaint: Complaint<'_>) {
    match complaint_text(rt, alloc, complaint) {
        Ok(text) => {
            let _ = rt.eprint(text.as_str());
        }
        Err(AllocError) => {
            let _ = rt.eprintln(complaint);
        }
    }
}

/// Says what came of words that served nobody: why the status isn't 0, or what is to be thought of.
fn conclude_alone(
    rt: &HostRuntime,
    alloc: Global,
    plain: Complaint<'_>,
    about: Complaint<'_>,
) -> ExitCode {
    match (plain.status, plain.detail) {
        (0, Detail::Nothing) => {}
        (NO_MEMORY | 11 | 12 | 15, _) => say(rt, alloc, plain),
        _ => say(rt, alloc, about),
    }
    ExitCode::from(plain.status)
}

/// Does what the words ask for over real files, where that is to read a log, which may have any length.
fn answer_of_log(
    rt: HostRuntime,
    alloc: Global,
    words: &[Word],
    information: &Hooks,
) -> Option<ExitCode> {
    match words {
        [mode, ..] if mode.as_str() == "audit" || mode.as_str() == "recover" => {}
        _ => return None,
    }
    let mut sides = Sides {
        files: RealFiles::new(rt, alloc),
        ends: RealEnds::new(rt.stdin(), rt.stdout()),
    };
    let answer = run_alone(alloc, words, &mut sides, information)?;
    if answer.status == NO_COMMAND {
        return Some(refuse(&rt, alloc, words));
    }
    let about = of_files(Complaint::of(answer), &sides.files);
    Some(conclude_alone(&rt, alloc, Complaint::of(answer), about))
}

/// Does what the words ask for, where that takes no threads and reads no log.
fn answer_alone<E: Stream>(
    rt: HostRuntime,
    alloc: Global,
    words: &[Word],
    sides: &mut Sides<RunFiles, E>,
    information: &Hooks,
) -> Option<ExitCode> {
    let answer = run_alone(alloc, words, sides, information)?;
    if answer.status == NO_COMMAND {
        return Some(refuse(&rt, alloc, words));
    }
    let about = of_kept(Complaint::of(answer), &sides.files);
    let status = conclude_alone(&rt, alloc, Complaint::of(answer), about);
    say_lacks(&rt, alloc, &mut sides.files, words, answer.status);
    Some(status)
}

/// The log, and the files that the words name.
struct Prepared {
    log: RunLog,
    /// The file of a log that a recovery or a renewal has to itself.
    lock: Option<File>,
    files: RunFiles,
}

/// Does what the words ask for, where that is to read a log: else what all other modes need.
fn prepare(
    rt: HostRuntime,
    alloc: Global,
    words: &[Word],
    information: &Hooks,
) -> Result<Prepared, ExitCode> {
    match logs_of(rt, alloc, words) {
        Ok((log, lock)) => match files_left(rt, alloc, words, information) {
            Ok(files) => Ok(Prepared { log, lock, files }),
            Err(status) => Err(status),
        },
        Err(error) => Err(complain(&rt, error.complaint(words))),
    }
}

/// Reads a log, if the words ask for that, or keeps the files that they name.
fn files_left(
    rt: HostRuntime,
    alloc: Global,
    words: &[Word],
    information: &Hooks,
) -> Result<RunFiles, ExitCode> {
    if let Some(status) = answer_of_log(rt, alloc, words, information) {
        return Err(status);
    }
    match files_of(rt, alloc, words) {
        Ok(files) => Ok(files),
        Err(AllocError) => Err(complain(&rt, Complaint::plain(NO_MEMORY))),
    }
}

fn main(rt: HostRuntime) -> ExitCode {
    let alloc = rt.alloc();
    let words = match words_at_start(&rt) {
        Ok(words) => words,
        Err(complaint) => return complain(&rt, complaint),
    };
    if let Some(status) = answer_help(&rt, alloc, &words) {
        return status;
    }
    let hooks = vec![in alloc;
        Hook::new(1, person_form(), say_person),
        Hook::new(2, chain_form(), say_chain),
    ];
    let Some(information) = hooks.ok().and_then(|list| Hooks::new(list).ok()) else {
        return complain(&rt, Complaint::plain(NO_MEMORY));
    };
    let Prepared {
        log,
        lock: _lock,
        files,
    } = match prepare(rt, alloc, &words, &information) {
        Ok(prepared) => prepared,
        Err(status) => return status,
    };
    let mut sides = Sides {
        files,
        ends: RealEnds::new(rt.stdin(), rt.stdout()),
    };
    if let Some(status) = answer_alone(rt, alloc, &words, &mut sides, &information) {
        return status;
    }
    let site = site_of(rt, alloc, &words, &mut sides.files);
    let world = World {
        files: sides.files,
        site,
        log,
        ends: sides.ends,
    };
    let Ended { said, world } = otplogd(&rt, alloc, &words, world, &information);
    let answer = Answer {
        status: said.status,
        detail: said.detail,
    };
    let posts = said.posts.as_slice();
    let complaint = complaint_of(answer, posts, &words, &world.files, &world.site);
    let run = match world.log.is_durable() {
        true => Some(RunCounts::of(said.journal.as_slice())),
        false => None,
    };
    conclude(rt, &words, complaint, faults_of(posts, &world.log), run)
}
