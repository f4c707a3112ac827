//! A whole login by the shipped children. The children and the monitor take turns: the service runs
//! once more with what the children say to all replies so far, until they say no more.

ghost use Rattle.std.specs.Prelude.{◌≡◌, ◌≤◌};

use crate::children::said_by_shipped;
use outside::Role;
use outside_memory::MemPost;
use request_catalogue::Name;
use service_play::{Came, Play, Session, come, sent, setup_with, word_list};
use std::alloc::Global;
use std::sync::Wait;
use std::test::Fail as Fault;
use std::thread::Threads;

/// What the client sends.
pub const CLIENT: &[u8] = b"user bob
resp bb9e 6ae1 979d 8ff4
get notes
put notes new
quit
";

/// The most requests and replies of a login.
const TURNS: u32 = 500;

/// What both children of a connection send.
#[derive(Drop)]
pub struct Said {
    pub pre: Vec<u8>,
    pub user: Vec<u8>,
}

/// A whole login: the setup's file and the word list's, what its children said to the end, and what
/// came of it.
#[derive(Drop)]
pub struct Login {
    pub setup: Vec<u8>,
    pub list: Vec<u8>,
    pub said: Said,
    pub came: Came<MemPost>,
}

/// What the children say to all that they were sent.
fn said_to(alloc: Global, posts: &[MemPost]) -> Result<Said, Fault> {
    let pre = Role::Pre { session: 1 };
    let bob = Role::User {
        session: 1,
        uid: 1_001,
        user: Name::of(b"bob").ok_or("a name")?,
    };
    Ok(Said {
        pre: said_by_shipped(alloc, &pre, sent(posts, 0))?,
        user: said_by_shipped(alloc, &bob, sent(posts, 1))?,
    })
}

/// What came of a run, and what the children say to all that they were sent then.
#[derive(Drop)]
struct Round {
    came: Came<MemPost>,
    next: Said,
}

/// What a login is played with, but for its connection.
fn play_of<'a>(setup: &'a [u8], list: &'a [u8], piece: usize) -> Play<'a>
    ensures { result.piece ≡ piece }
{
    Play {
        name: "setup",
        setup,
        list,
        sessions: &[],
        piece,
        fails: &[],
    }
}

/// Runs the service with what the children said so far.
fn play_round<R: Threads + Wait + Sync>(
    rt: &R,
    alloc: Global,
    play: &Play<'_>,
    said: &Said,
) -> Result<Round, Fault>
    requires { 1 ≤ play.now.piece }
{
    let session = Session {
        client: CLIENT,
        pre: &said.pre,
        user: &said.user,
    };
    let sessions = [session];
    let play = Play {
        sessions: &sessions,
        ..*play
    };
    let came = come(rt, alloc, &play, 1)?;
    let next = said_to(alloc, &came.posts)?;
    Ok(Round { came, next })
}

/// Whether the children say no more than they said.
fn are_done(next: &Said, said: &Said) -> bool {
    next.pre.len() == said.pre.len() && next.user.len() == said.user.len()
}

/// Runs the service until the children say no more: what they said, and what came of it.
fn play_all<R: Threads + Wait + Sync>(
    rt: &R,
    alloc: Global,
    play: &Play<'_>,
) -> Result<(Said, Came<MemPost>), Fault>
    requires { 1 ≤ play.now.piece }
{
    let mut said = said_to(alloc, &[])?;
    for _ in 0..TURNS {
        let Round { came, next } = play_round(rt, alloc, play, &said)?;
        if are_done(&next, &said) {
            return Ok((said, came));
        }
        said = next;
    }
    Err(Fault::from("a login without an end"))
}

/// Runs the service by a setup that begins with these lines until the children say no more. The other
/// sides send in pieces of at most so many bytes.
///
/// # Errors
///
/// There isn't the memory, or the login has no end.
pub fn log_in<R: Threads + Wait + Sync>(
    rt: &R,
    alloc: Global,
    lines: &str,
    piece: usize,
) -> Result<Login, Fault>
    requires { 1 ≤ piece }
{
    let setup = setup_with(alloc, lines)?;
    let list = word_list(alloc, 2_048)?;
    let (said, came) = play_all(rt, alloc, &play_of(&setup, &list, piece))?;
    Ok(Login {
        setup,
        list,
        said,
        came,
    })
}
