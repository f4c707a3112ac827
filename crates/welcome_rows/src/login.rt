//! A whole login by the shipped children. The children and the monitor take turns: the service runs once
//! more with what the children say to all replies so far, until they say no more.

ghost use Rattle.std.specs.Prelude.{◌≡◌, ◌≤◌, IfOk, length};
ghost use Rattle.welcome_rows.specs.Shown.{HasServed, service_by};

use crate::house::House;
use crate::serving::{Served, Visit, serve};
use outside::{Bytes, Role, Talk};
use outside_memory::{MemPost, Script};
use request_catalogue::Name;
use service_rows::said_by_shipped;
use std::alloc::{AllocError, Global};
use std::sync::Wait;
use std::test::Fail as Fault;
use std::thread::Threads;

/// The most requests and replies of a login.
const TURNS: u32 = 500;

/// The visit of a user of this number, whose children were sent nothing yet, and whose client says nothing
/// before its login and wants no files after it.
///
/// # Errors
///
/// There isn't the memory.
pub fn visit_of(
    alloc: Global,
    user: Name,
    uid: u32,
    response: &[u8],
    client: &[u8],
) -> Result<Visit, AllocError> {
    let child = Role::User {
        session: 1,
        uid,
        user,
    };
    Ok(Visit {
        user,
        mistyped: Bytes::of(alloc, b"")?,
        response: Bytes::of(alloc, response)?,
        wants_files: false,
        script: Script {
            client: Bytes::of(alloc, client)?,
            pre: Bytes::from(said_by_shipped(alloc, &Role::Pre { session: 1 }, b"")?),
            user: Bytes::from(said_by_shipped(alloc, &child, b"")?),
        },
    })
}

/// Puts other bytes in the place of these. Whether they are more or fewer.
fn replace(bytes: &mut Bytes, new: Bytes) -> bool {
    let differs = bytes.as_slice().len() != new.as_slice().len();
    *bytes = new;
    differs
}

/// Has a child say what the shipped one says to all that it was sent. Whether that is more than before.
fn say_more(alloc: Global, script: &mut Script, talk: &Talk) -> Result<bool, AllocError> {
    let said = Bytes::from(said_by_shipped(alloc, &talk.role, talk.sent.as_slice())?);
    Ok(match talk.role {
        Role::Pre { .. } => replace(&mut script.pre, said),
        Role::User { .. } => replace(&mut script.user, said),
    })
}

/// Has the children of a visit say so.
fn say_all(alloc: Global, script: &mut Script, talks: &[Talk]) -> Result<bool, AllocError> {
    let mut more = false;
    for talk in talks {
        more |= say_more(alloc, script, talk)?;
    }
    Ok(more)
}

/// Has the children of all visits say so.
fn say_on(alloc: Global, visits: &mut [Visit], posts: &[MemPost]) -> Result<bool, AllocError> {
    let mut more = false;
    for (worker, visit) in visits.iter_mut().enumerate() {
        if let Some(post) = posts.get(worker) {
            more |= say_all(alloc, &mut visit.script, post.talks())?;
        }
    }
    Ok(more)
}

/// Serves these visits until their children say no more, and then once more. The other sides send in pieces
/// of at most so many bytes.
///
/// # Errors
///
/// There isn't the memory, there are more or fewer visits than workers, or a login has no end.
pub fn log_in<R: Threads + Wait + Sync>(
    rt: &R,
    alloc: Global,
    house: &House,
    visits: &mut [Visit],
    piece: usize,
) -> Result<Served, Fault>
    requires { 1 ≤ piece }
    ensures { IfOk result (λ served. HasServed (service_by house.now.setup house.now.dictionary) visits.new
        served.journal.items served.posts.items) }
{
    for _ in 0..TURNS {
        let served = serve(rt, alloc, house, visits, piece)?;
        if !say_on(alloc, visits, &served.posts)? {
            return serve(rt, alloc, house, visits, piece);
        }
    }
    Err(Fault::from("a login without an end"))
}
