//! A whole login with a durable log on a disk that is stopped after each of its calls, recovered from
//! what may be left then.

ghost use Rattle.std.specs.Prelude.{◌≡◌, All, IfOk};
ghost use Rattle.outside_memory.specs.MemPost.{faults_of, scene_of};
ghost use Rattle.outside.specs.Scene.{IsFresh};

use super::{Came, recover_files};
use durable_log::MemDisk;
use fresh_log::fresh_image;
use info_hooks::Hooks;
use line_log::LineLog;
use outside::{Bytes, Word};
use outside_memory::{CallKind, Fail, MemFiles, MemPost, MemSite};
use policy_model::Event;
use recover_mode::Recovery;
use serve_mode::{ServeCommand, Served, run_serve};
use service_play::{ONE, Play, Session, chain_in, come, posts_of, setup_in};
use service_rows::{CLIENT, Login, log_in};
use std::alloc::{AllocError, Global};
use std::sync::Wait;
use std::test::Fail as Fault;
use std::thread::Threads;
use trouble::{LogFault, Trouble};

/// Bob's sequence and password before the login, and after the reply that it accepts (RFC 2289,
/// `This is a test.`, seed `test`, SHA-1, numbers 1 and 0).
const BEFORE: (u16, u64) = (1, 0x63D9_3663_9734_385B);

const BEHIND: (u16, u64) = (0, 0xBB9E_6AE1_979D_8FF4);

/// The line of the login's log that accepts the reply.
const REPLY: u32 = 7;

/// How many lines the login's log has.
const LINES: u32 = 21;

/// What a byte that isn't safe may be.
const FILLS: [u8; 3] = [0x00, 0x01, 0xff];

const SERVE: ServeCommand<'static> = ServeCommand::Named {
    setup: "setup",
    log: Some("log"),
};

/// A file of these bytes.
fn file(alloc: Global, name: &str, bytes: &[u8]) -> Result<(Word, Bytes), AllocError> {
    Ok((Word::of(alloc, name.as_bytes())?, Bytes::of(alloc, bytes)?))
}

/// Files of this setup, this word list, and a log with these bytes, if there is one.
fn files_of(
    alloc: Global,
    setup: &[u8],
    list: &[u8],
    log: Option<&[u8]>,
    fails: &[Fail],
) -> Result<MemFiles, AllocError> {
    let mut pairs = Vec::new(alloc);
    pairs.push(file(alloc, "setup", setup)?)?;
    pairs.push(file(alloc, "list", list)?)?;
    if let Some(bytes) = log {
        pairs.push(file(alloc, "log", bytes)?)?;
    }
    MemFiles::new(alloc, &pairs, fails)
}

/// The files of a login, with a fresh log.
fn fresh_files(alloc: Global, login: &Login) -> Result<MemFiles, AllocError> {
    files_of(alloc, &login.setup, &login.list, Some(fresh_image()), &[])
}

/// What a login is played with.
fn play<'a>(setup: &'a [u8], login: &'a Login, sessions: &'a [Session<'a>]) -> Play<'a>
    ensures { result.piece ≡ 4096 }
{
    Play {
        name: "setup",
        setup,
        list: &login.list,
        sessions,
        piece: 4_096,
        fails: &[],
    }
}

/// What the other sides of a login send.
fn session_of(login: &Login) -> Session<'_> {
    Session {
        client: CLIENT,
        pre: &login.said.pre,
        user: &login.said.user,
    }
}

/// The post of a login's one worker.
fn posts(alloc: Global, login: &Login) -> Result<Vec<MemPost>, Fault>
    ensures { IfOk result (λ posts. All (IsFresh scene_of faults_of) posts.items) }
{
    posts_of(alloc, &play(&login.setup, login, &[session_of(login)]), 1)
}

/// How a run with a durable log ended, of how many posts, and the disk of its log.
#[derive(Drop)]
struct Logged {
    end: Result<(), Trouble>,
    posts: usize,
    disk: MemDisk,
}

/// A log on a fresh disk.
fn new_log(alloc: Global) -> Result<LineLog<MemDisk>, AllocError> {
    Ok(LineLog::new(MemDisk::new(alloc, fresh_image(), &[])?))
}

/// What came of a run.
fn logged_of(served: Served<MemPost, LineLog<MemDisk>>) -> Logged {
    let Served {
        end,
        journal: _,
        log,
        posts,
    } = served;
    Logged {
        end,
        posts: posts.len(),
        disk: log.disk(),
    }
}

/// Serves at a site with this log, by these files.
fn serve_at<R: Threads + Wait + Sync>(
    rt: &R,
    alloc: Global,
    files: &mut MemFiles,
    site: &mut MemSite<MemPost>,
    log: LineLog<MemDisk>,
) -> Result<Logged, Fault> {
    let hooks = Hooks::new(Vec::new(alloc)).ok().ok_or("hooks")?;
    Ok(logged_of(run_serve(rt, alloc, &SERVE, files, site, log, &hooks)))
}

/// Serves a login with a durable log on a fresh disk, by these files.
fn serve_logged<R: Threads + Wait + Sync>(
    rt: &R,
    alloc: Global,
    login: &Login,
    files: &mut MemFiles,
) -> Result<Logged, Fault> {
    let mut site = MemSite::new(alloc, posts(alloc, login)?)?;
    serve_at(rt, alloc, files, &mut site, new_log(alloc)?)
}

/// What recovery came to, and the setup that it left.
#[derive(Drop)]
struct Left {
    came: Came,
    setup: Vec<u8>,
}

/// Recovers what these files hold.
fn recover_in(alloc: Global, files: MemFiles) -> Result<Left, Fault> {
    let mut came = recover_files(alloc, files)?;
    let setup = setup_in(alloc, &mut came.files)?;
    Ok(Left { came, setup })
}

/// Recovers a login's setup from a log with these bytes.
fn recover_from(alloc: Global, login: &Login, log: &[u8]) -> Result<Left, Fault> {
    let files = files_of(alloc, &login.setup, &login.list, Some(log), &[])?;
    recover_in(alloc, files)
}

/// How many lines an image has after so many calls, of which each line takes four: what was written, a
/// sync, the gate, a sync.
fn lines_after(call: u32, fill: u8) -> u32 {
    let is_opened = call % 4 == 3 && fill == 0x01;
    call / 4 + u32::from(is_opened)
}

/// Whether recovery came to so many lines.
fn comes_to(alloc: Global, left: &Left, lines: u32) -> Result<bool, Fault> {
    let is_accepted = lines >= REPLY;
    let accepted = u32::from(is_accepted);
    let chain = if is_accepted { BEHIND } else { BEFORE };
    let is_told = left.came.outcome == Ok(Recovery { lines, accepted });
    Ok(is_told && chain_in(alloc, &left.setup)? == chain)
}

/// Whether recovery from what may be left after so many calls comes to the lines that were answered.
fn is_recovered(
    alloc: Global,
    login: &Login,
    disk: &MemDisk,
    call: u32,
    fill: u8,
) -> Result<bool, Fault> {
    if !disk.tells() || call > disk.calls() {
        return Err(Fault::from("a disk that tells"));
    }
    let image = disk.image(alloc, call, fill)?;
    let left = recover_from(alloc, login, &image)?;
    comes_to(alloc, &left, lines_after(call, fill))
}

/// Whether recovery does so after each call of a login's disk, and before the first.
fn are_recovered(alloc: Global, login: &Login, disk: &MemDisk) -> Result<bool, Fault> {
    for call in 0..=4 * LINES {
        for fill in FILLS {
            if !is_recovered(alloc, login, disk, call, fill)? {
                return Ok(false);
            }
        }
    }
    Ok(true)
}

/// Whether a login was served by so many calls of its disk, and is recovered after each of them.
fn is_recovered_by(alloc: Global, login: &Login, logged: &Logged) -> Result<bool, Fault> {
    let is_served = logged.end == Ok(()) && logged.disk.calls() == 4 * LINES;
    Ok(is_served && are_recovered(alloc, login, &logged.disk)?)
}

/// Whether a login is served by so many calls of its disk, and recovered after each of them.
fn is_recovered_anywhere<R: Threads + Wait + Sync>(
    rt: &R,
    alloc: Global,
    login: &Login,
) -> Result<bool, Fault> {
    let mut files = fresh_files(alloc, login)?;
    is_recovered_by(alloc, login, &serve_logged(rt, alloc, login, &mut files)?)
}

/// The same of a new login.
fn is_one_recovered<R: Threads + Wait + Sync>(rt: &R, alloc: Global) -> Result<bool, Fault> {
    is_recovered_anywhere(rt, alloc, &log_in(rt, alloc, ONE, 4_096)?)
}

#[test]
fn a_login_that_stops_after_each_call(rt: HostRuntime) -> Result<(), Fault> {
    assert!(&rt; is_one_recovered(&rt, rt.alloc())?);
    Ok(())
}

/// What is left on a login's disk that is stopped after the accepted reply.
fn image_behind_reply(alloc: Global, disk: &MemDisk) -> Result<Vec<u8>, Fault> {
    if !disk.tells() || disk.calls() < 4 * REPLY {
        return Err(Fault::from("a disk that tells"));
    }
    Ok(disk.image(alloc, 4 * REPLY, 0xff)?)
}

/// The log of a login that was stopped after its accepted reply.
fn stopped_log<R: Threads + Wait + Sync>(
    rt: &R,
    alloc: Global,
    login: &Login,
) -> Result<Vec<u8>, Fault> {
    let mut files = fresh_files(alloc, login)?;
    image_behind_reply(alloc, &serve_logged(rt, alloc, login, &mut files)?.disk)
}

/// Whether this is what recovery told, and the setup's accounts are those after the reply.
fn tells(alloc: Global, left: &Left, line: &[u8]) -> Result<bool, Fault> {
    Ok(left.came.told.as_slice() == line && chain_in(alloc, &left.setup)? == BEHIND)
}

/// Whether a log that was recovered is a fresh one, which changes nothing.
fn is_fresh_then(alloc: Global, first: Left) -> Result<bool, Fault> {
    let Left { came, setup } = first;
    let anew = recover_in(alloc, came.files)?;
    Ok(tells(alloc, &anew, b"recovered lines 0 accepted 0\n")? && anew.setup == setup)
}

/// Whether the same log, with the setup that its recovery left, is recovered to the same: so it is where
/// a recovery was stopped between its two files.
fn is_there_already(alloc: Global, setup: &[u8], list: &[u8], log: &[u8]) -> Result<bool, Fault> {
    let second = recover_in(alloc, files_of(alloc, setup, list, Some(log), &[])?)?;
    Ok(tells(alloc, &second, WHOLE)? && second.setup.as_slice() == setup)
}

/// What is told of a log that was stopped after its accepted reply.
const WHOLE: &[u8] = b"recovered lines 7 accepted 1\n";

/// Whether a login's log that was stopped is recovered, and is a fresh one then.
fn is_recovered_and_fresh(alloc: Global, login: &Login, log: &[u8]) -> Result<bool, Fault> {
    let first = recover_from(alloc, login, log)?;
    let is_told = tells(alloc, &first, WHOLE)?;
    Ok(is_fresh_then(alloc, first)? && is_told)
}

/// The same of a login that is stopped after its accepted reply.
fn is_one_fresh_after<R: Threads + Wait + Sync>(
    rt: &R,
    alloc: Global,
    login: &Login,
) -> Result<bool, Fault> {
    let log = stopped_log(rt, alloc, login)?;
    is_recovered_and_fresh(alloc, login, &log)
}

/// The same of a new login.
fn is_one_fresh<R: Threads + Wait + Sync>(rt: &R, alloc: Global) -> Result<bool, Fault> {
    is_one_fresh_after(rt, alloc, &log_in(rt, alloc, ONE, 4_096)?)
}

#[test]
fn a_stopped_login_is_recovered_and_the_log_is_fresh(rt: HostRuntime) -> Result<(), Fault> {
    assert!(&rt; is_one_fresh(&rt, rt.alloc())?);
    Ok(())
}

/// Whether a login's log that was stopped is recovered, and once more by the setup that this left.
fn is_done_again(alloc: Global, login: &Login, log: &[u8]) -> Result<bool, Fault> {
    let first = recover_from(alloc, login, log)?;
    is_there_already(alloc, &first.setup, &login.list, log)
}

/// The same of a login that is stopped after its accepted reply.
fn is_one_done_again_after<R: Threads + Wait + Sync>(
    rt: &R,
    alloc: Global,
    login: &Login,
) -> Result<bool, Fault> {
    let log = stopped_log(rt, alloc, login)?;
    is_done_again(alloc, login, &log)
}

/// The same of a new login.
fn is_one_done_again<R: Threads + Wait + Sync>(rt: &R, alloc: Global) -> Result<bool, Fault> {
    is_one_done_again_after(rt, alloc, &log_in(rt, alloc, ONE, 4_096)?)
}

#[test]
fn a_stopped_recovery_is_done_again(rt: HostRuntime) -> Result<(), Fault> {
    assert!(&rt; is_one_done_again(&rt, rt.alloc())?);
    Ok(())
}

/// Whether a journal has a reply that was accepted.
fn has_login(journal: &[Event]) -> bool {
    journal.iter().any(|event| event.accepts())
}

/// Whether a client who says what a login's did is let in by this setup.
fn lets_in<R: Threads + Wait + Sync>(
    rt: &R,
    alloc: Global,
    login: &Login,
    setup: &[u8],
) -> Result<bool, Fault> {
    let sessions = [session_of(login)];
    Ok(has_login(&come(rt, alloc, &play(setup, login, &sessions), 1)?.journal))
}

/// Whether the same client is let in by the old setup, and not by the one that was recovered.
fn is_let_in_once<R: Threads + Wait + Sync>(
    rt: &R,
    alloc: Global,
    login: &Login,
    log: &[u8],
) -> Result<bool, Fault> {
    let recovered = recover_from(alloc, login, log)?;
    let is_let_in = lets_in(rt, alloc, login, &login.setup)?;
    Ok(is_let_in && !lets_in(rt, alloc, login, &recovered.setup)?)
}

/// The same of a login that is stopped after its accepted reply.
fn is_one_let_in_once_after<R: Threads + Wait + Sync>(
    rt: &R,
    alloc: Global,
    login: &Login,
) -> Result<bool, Fault> {
    let log = stopped_log(rt, alloc, login)?;
    is_let_in_once(rt, alloc, login, &log)
}

/// The same of a new login.
fn is_one_let_in_once<R: Threads + Wait + Sync>(rt: &R, alloc: Global) -> Result<bool, Fault> {
    is_one_let_in_once_after(rt, alloc, &log_in(rt, alloc, ONE, 4_096)?)
}

#[test]
fn no_password_is_taken_again_behind_a_stop(rt: HostRuntime) -> Result<(), Fault> {
    assert!(&rt; is_one_let_in_once(&rt, rt.alloc())?);
    Ok(())
}

/// What stands in the log's file, the reading that fails, if one does, and why nobody is served.
#[derive(Clone, Copy)]
struct Case {
    log: Option<&'static [u8]>,
    number: u32,
    trouble: Trouble,
}

/// A log that isn't there.
const MISSING: Case = Case {
    log: None,
    number: 0,
    trouble: Trouble::LogRefused(LogFault::NotFresh),
};

const UNFRESH: [Case; 5] = [
    MISSING,
    Case {
        log: Some(b""),
        ..MISSING
    },
    Case {
        log: Some(b"OTJ1\x00\x00"),
        ..MISSING
    },
    Case {
        log: Some(b"OTJ2\x00"),
        ..MISSING
    },
    // After two readings of the setup and four of the word list.
    Case {
        log: Some(b"OTJ1\x00"),
        number: 7,
        trouble: Trouble::ReadFailed,
    },
];

/// Whether a run served nobody for this reason, and made no call to the disk of its log.
fn is_refused(logged: &Logged, trouble: Trouble) -> bool {
    logged.end == Err(trouble) && logged.posts == 0 && logged.disk.calls() == 0
}

/// Whether nobody is served by a log of that kind, for that reason, and no call is made to its disk.
fn is_unserved<R: Threads + Wait + Sync>(
    rt: &R,
    alloc: Global,
    login: &Login,
    case: &Case,
) -> Result<bool, Fault> {
    let fail = Fail {
        call: CallKind::Read,
        number: case.number,
        sent: 0,
    };
    let mut files = files_of(alloc, &login.setup, &login.list, case.log, &[fail])?;
    Ok(is_refused(&serve_logged(rt, alloc, login, &mut files)?, case.trouble))
}

/// Whether nobody is served by any of these logs.
fn are_unserved<R: Threads + Wait + Sync>(
    rt: &R,
    alloc: Global,
    login: &Login,
) -> Result<bool, Fault> {
    for case in &UNFRESH {
        if !is_unserved(rt, alloc, login, case)? {
            return Ok(false);
        }
    }
    Ok(true)
}

/// The same of a new login.
fn are_all_unserved<R: Threads + Wait + Sync>(rt: &R, alloc: Global) -> Result<bool, Fault> {
    are_unserved(rt, alloc, &log_in(rt, alloc, ONE, 4_096)?)
}

#[test]
fn nobody_is_served_over_a_log_that_is_not_fresh(rt: HostRuntime) -> Result<(), Fault> {
    assert!(&rt; are_all_unserved(&rt, rt.alloc())?);
    Ok(())
}
