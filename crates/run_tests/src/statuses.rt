//! What the mode comes to: served or not, by what fails and by what its files say.

ghost use Rattle.std.specs.Prelude.{◌≤◌};

use super::beside::{FINISH, WRITE};
use outside::Receiving;
use outside_memory::{CallKind, Fail, MemFiles, MemPost};
use policy_model::{Decision, Event};
use service_play::{
    Came, ONE, Play, Session, chain_in, come, is_at, sent, setup_in, setup_with, told, word_list,
};
use std::alloc::{AllocError, Global};
use std::sync::Wait;
use std::test::Fail as Fault;
use std::thread::Threads;

/// A key of the setup whose line is another, how many lines the word list has, the name of the file,
/// a call that fails, and what comes of it: the status, how many posts served, and whether the setup's
/// file was written anew.
#[derive(Clone, Copy)]
struct Case {
    key: &'static str,
    line: &'static str,
    list: u16,
    name: &'static str,
    fail: (CallKind, u32),
    status: u8,
    posts: usize,
    is_written: bool,
}

/// A run with no fault: the call that fails is of a kind that isn't made.
const RIGHT: Case = Case {
    key: "connections",
    line: "connections = 1",
    list: 2_048,
    name: "setup",
    fail: (CallKind::VaultRead, 1),
    status: 0,
    posts: 1,
    is_written: true,
};

/// A case in which nobody is served.
const UNSERVED: Case = Case {
    posts: 0,
    is_written: false,
    ..RIGHT
};

const CASES: &[Case] = &[
    RIGHT,
    Case {
        name: "other",
        status: 4,
        ..UNSERVED
    },
    Case {
        key: "words",
        line: "words = \"none\"",
        status: 4,
        ..UNSERVED
    },
    Case {
        key: "socket",
        line: "socket",
        status: 5,
        ..UNSERVED
    },
    Case {
        key: "hold",
        line: "hold = 30000\ninfo = [1]",
        status: 5,
        ..UNSERVED
    },
    Case {
        list: 2_047,
        status: 5,
        ..UNSERVED
    },
    Case {
        fail: (CallKind::Read, 1),
        status: 3,
        ..UNSERVED
    },
    Case {
        fail: (CallKind::Read, 2),
        status: 3,
        ..UNSERVED
    },
    // The setup takes two readings and the list four, of which the last gives no bytes.
    Case {
        fail: (CallKind::Read, 6),
        status: 3,
        ..UNSERVED
    },
    // Nothing is read again: the seventh reading is the test's own.
    Case {
        fail: (CallKind::Read, 8),
        ..RIGHT
    },
    // One post for two workers.
    Case {
        key: "workers",
        line: "workers = 2",
        status: 6,
        ..UNSERVED
    },
    Case {
        fail: (CallKind::Append, 1),
        status: 7,
        ..RIGHT
    },
    Case {
        fail: (CallKind::Append, 4),
        status: 7,
        ..RIGHT
    },
    Case {
        fail: (CallKind::Replace, 1),
        status: 8,
        is_written: false,
        ..RIGHT
    },
    // The accounts are written once.
    Case {
        fail: (CallKind::Replace, 2),
        ..RIGHT
    },
    Case {
        fail: (CallKind::Accept, 1),
        status: 10,
        ..RIGHT
    },
    // A second connection never comes.
    Case {
        key: "connections",
        line: "connections = 2",
        ..RIGHT
    },
];

/// Bob's setup for one worker with another line at a key.
fn setup_but(alloc: Global, key: &str, line: &str) -> Result<Vec<u8>, AllocError> {
    let whole = setup_with(alloc, ONE)?;
    let mut setup = Vec::new(alloc);
    for text in str::from_utf8(&whole).unwrap_or("").lines() {
        let is_meant = text.trim_start().starts_with(key);
        let text = if is_meant { line } else { text };
        setup.extend_from_slice(text.as_bytes())?;
        setup.push(b'\n')?;
    }
    Ok(setup)
}

/// Whether a setup's file was written anew exactly where it should be, and bob's chain is as it was.
fn is_left(
    alloc: Global,
    old: &[u8],
    files: &mut MemFiles,
    is_written: bool,
) -> Result<bool, Fault> {
    let new = setup_in(alloc, files)?;
    if new.as_slice() == old {
        return Ok(!is_written);
    }
    Ok(is_written && chain_in(alloc, &new)? == (1, 0x63D9_3663_9734_385B))
}

/// WRITE and FINISH.
fn smallest(alloc: Global) -> Result<Vec<u8>, AllocError> {
    [WRITE, FINISH].concat(alloc)
}

/// A session whose first child sends these bytes, and nobody else any.
fn only(pre: &[u8]) -> Session<'_> {
    Session {
        client: b"",
        pre,
        user: b"",
    }
}

/// The run of a case with this setup.
fn run_of<R: Threads + Wait + Sync>(
    rt: &R,
    alloc: Global,
    case: &Case,
    setup: &[u8],
) -> Result<Came<MemPost>, Fault> {
    let list = word_list(alloc, case.list)?;
    let pre = smallest(alloc)?;
    let (call, number) = case.fail;
    let play = Play {
        name: case.name,
        setup,
        list: &list,
        sessions: &[only(&pre)],
        piece: 4_096,
        fails: &[Fail {
            call,
            number,
            sent: 0,
        }],
    };
    come(rt, alloc, &play, 1)
}

/// Whether a run with this setup came to what a case says.
fn is_as_said(
    alloc: Global,
    case: &Case,
    setup: &[u8],
    came: &mut Came<MemPost>,
) -> Result<bool, Fault> {
    let is_served = came.posts.len() == case.posts && came.listens == case.posts;
    let is_left = is_left(alloc, setup, &mut came.files, case.is_written)?;
    Ok(came.status == case.status && is_served && is_left)
}

/// Whether a run comes to what a case says.
fn comes_to<R: Threads + Wait + Sync>(rt: &R, alloc: Global, case: &Case) -> Result<bool, Fault> {
    let setup = setup_but(alloc, case.key, case.line)?;
    is_as_said(alloc, case, &setup, &mut run_of(rt, alloc, case, &setup)?)
}

#[test]
fn each_fault_has_its_status(rt: HostRuntime) -> Result<(), Fault> {
    for case in CASES {
        assert!(&rt; comes_to(&rt, rt.alloc(), case)?);
    }
    Ok(())
}

const PLAIN_LOG: &str = "1 w0 s1 open permit
2 w0 s1 write 0 0 2 permit
3 w0 s1 finish permit
4 w0 s1 end finished permit
";

/// The replies to both requests of session 1, done.
const BOTH_DONE: &[u8] = b"\x08\x01\0\0\x11\0\0\0\0\0\0\0\x01\0\0\0\0\
    \x0d\x01\0\0\x11\0\0\0\0\0\0\0\x01\0\0\0\0";

/// Whether a run by the plain setup served one connection.
fn is_plain(alloc: Global, came: &Came<MemPost>) -> Result<bool, Fault> {
    let is_home = is_at(&came.place, ["otplogd.sock", "otplogd", "vault"], 1);
    let is_answered = came.status == 0 && sent(&came.posts, 0) == BOTH_DONE;
    let is_logged = is_home && is_answered && came.log.held() == PLAIN_LOG.as_bytes();
    Ok(is_logged && told(alloc, &came.posts)?.as_slice() == b"hi".as_slice())
}

/// The run by the plain setup of one connection whose child sends pieces of this length, with calls that
/// fail.
fn plain_run<R: Threads + Wait + Sync>(
    rt: &R,
    alloc: Global,
    piece: usize,
    fails: &[Fail],
) -> Result<Came<MemPost>, Fault>
    requires { 1 ≤ piece }
{
    let pre = smallest(alloc)?;
    let play = Play {
        name: "",
        setup: b"",
        list: b"",
        sessions: &[only(&pre)],
        piece,
        fails,
    };
    come(rt, alloc, &play, 1)
}

/// Whether the plain setup serves one connection whose child sends pieces of this length.
fn is_plainly_served<R: Threads + Wait + Sync>(
    rt: &R,
    alloc: Global,
    piece: usize,
) -> Result<bool, Fault>
    requires { 1 ≤ piece }
{
    is_plain(alloc, &plain_run(rt, alloc, piece, &[])?)
}

#[test]
fn the_smallest_run_succeeds(rt: HostRuntime) -> Result<(), Fault> {
    assert!(&rt; is_plainly_served(&rt, rt.alloc(), 100)?);
    assert!(&rt; is_plainly_served(&rt, rt.alloc(), 15)?);
    assert!(&rt; is_plainly_served(&rt, rt.alloc(), 1)?);
    Ok(())
}

/// A receiving that was asked after so many bytes were taken and sent.
const fn after(taken: usize, sent: usize) -> Receiving {
    Receiving { taken, sent }
}

/// Whether these receivings were asked of the first child that was given back.
fn are_asked(posts: &[MemPost], want: &[Receiving]) -> bool {
    match posts.first().and_then(|post| post.talks().first()) {
        Some(talk) => match &talk.receivings {
            Some(receivings) => receivings.as_slice() == want,
            None => false,
        },
        None => false,
    }
}

/// Whether the smallest run asks its child for these receivings, by pieces of this length.
fn asks_for<R: Threads + Wait + Sync>(
    rt: &R,
    alloc: Global,
    piece: usize,
    want: &[Receiving],
) -> Result<bool, Fault>
    requires { 1 ≤ piece }
{
    Ok(are_asked(&plain_run(rt, alloc, piece, &[])?.posts, want))
}

#[test]
fn a_child_is_asked_for_bytes_only_once_it_is_answered(rt: HostRuntime) -> Result<(), Fault> {
    let cut = [after(0, 0), after(16, 0), after(32, 17)];
    assert!(&rt; asks_for(&rt, rt.alloc(), 16, &cut)?);
    assert!(&rt; asks_for(&rt, rt.alloc(), 30, &[after(0, 0), after(30, 17)])?);
    assert!(&rt; asks_for(&rt, rt.alloc(), 100, &[after(0, 0)])?);
    Ok(())
}

/// Two lines of the smallest run's log, and the front of the third.
const CUT_LOG: &str = "1 w0 s1 open permit
2 w0 s1 write 0 0 2 permit
3 w0 ";

/// How many decisions were lost.
fn lost(journal: &[Event]) -> usize {
    let is_lost = |event: &&Event| event.decision == Decision::Lost;
    journal.iter().filter(is_lost).count()
}

/// Whether a run went on without an answer after a line of the log that is cut short.
fn went_unanswered(came: &Came<MemPost>) -> bool {
    let is_cut = came.log.held() == CUT_LOG.as_bytes();
    let is_lost = came.journal.len() == 4 && lost(&came.journal) == 2;
    let is_answered_once = sent(&came.posts, 0) == WRITE_DONE;
    came.status == 7 && is_cut && is_lost && is_answered_once
}

/// Whether the smallest run does.
fn is_unanswered<R: Threads + Wait + Sync>(rt: &R, alloc: Global) -> Result<bool, Fault> {
    let fail = Fail {
        call: CallKind::Append,
        number: 3,
        sent: 5,
    };
    Ok(went_unanswered(&plain_run(rt, alloc, 4_096, &[fail])?))
}

/// The reply to WRITE in session 1, done.
const WRITE_DONE: &[u8] = b"\x08\x01\0\0\x11\0\0\0\0\0\0\0\x01\0\0\0\0";

#[test]
fn a_line_of_the_log_is_cut_short(rt: HostRuntime) -> Result<(), Fault> {
    assert!(&rt; is_unanswered(&rt, rt.alloc())?);
    Ok(())
}
