//! A run by posts in memory.

ghost use Rattle.std.specs.Prelude.{◌≡◌, ◌≤◌, IfOk, length};
ghost use Rattle.outside_memory.specs.MemPost.{scene_of};
ghost use Rattle.welcome_rows.specs.Shown.{AreNewPosts, HasServed, IsNewPost, service_by};

use crate::house::House;
use monitor_run::{Ran, prepare, run};
use outside::Bytes;
use outside_memory::{MemPost, MemSink, Script};
use policy_model::Event;
use request_catalogue::Name;
use std::alloc::{AllocError, Global};
use std::sync::Wait;
use std::test::Fail as Fault;
use std::thread::Threads;

/// The most acts that a post tells.
const ROOM: usize = 400;

/// A user who comes over a worker's one connection.
#[derive(Drop)]
pub struct Visit {
    pub user: Name,
    /// The response that the client says first, after a terminal, or nothing.
    pub mistyped: Bytes,
    /// The next password, in 16 digits.
    pub response: Bytes,
    /// Whether the client asks for files after its login.
    pub wants_files: bool,
    /// What the client and the children send.
    pub script: Script,
}

/// What a run came to.
#[derive(Drop)]
pub struct Served {
    pub journal: Vec<Event>,
    pub posts: Vec<MemPost>,
}

/// A second script of the same bytes.
fn copy(alloc: Global, script: &Script) -> Result<Script, AllocError>
    ensures { IfOk result (λ copy. copy ≡ script.now) }
{
    Ok(Script {
        client: Bytes::of(alloc, script.client.as_slice())?,
        pre: Bytes::of(alloc, script.pre.as_slice())?,
        user: Bytes::of(alloc, script.user.as_slice())?,
    })
}

/// A post to which one connection comes, of this script. The clock stands at 1,000.
fn post_of(alloc: Global, script: &Script, piece: usize) -> Result<MemPost, AllocError>
    requires { 1 ≤ piece }
    ensures { IfOk result (IsNewPost script.now) }
{
    let scripts = vec![in alloc; copy(alloc, script)?]?;
    MemPost::new(alloc, scripts, &[piece], &[1_000], ROOM, &[])
}

/// A post for each visit.
fn posts_of(alloc: Global, visits: &[Visit], piece: usize) -> Result<Vec<MemPost>, AllocError>
    requires { 1 ≤ piece }
    ensures { IfOk result (λ posts. AreNewPosts visits.now posts.items) }
{
    let mut posts = Vec::new(alloc);
    for visit in visits {
        posts.push(post_of(alloc, &visit.script, piece)?)?;
    }
    Ok(posts)
}

/// Serves one connection a worker, that of its visit. The other sides send in pieces of at most so many
/// bytes.
///
/// # Errors
///
/// There isn't the memory, or there are more or fewer visits than workers.
pub fn serve<R: Threads + Wait + Sync>(
    rt: &R,
    alloc: Global,
    house: &House,
    visits: &[Visit],
    piece: usize,
) -> Result<Served, Fault>
    requires { 1 ≤ piece }
    ensures { IfOk result (λ served. HasServed (service_by house.now.setup house.now.dictionary) visits.now
        served.journal.items served.posts.items) }
{
    let posts = posts_of(alloc, visits, piece)?;
    if posts.len() != house.setup.workers() as usize {
        return Err(Fault::from("a visit for each worker"));
    }
    let log = MemSink::new(alloc, &[])?;
    let Ok(prepared) = prepare(alloc, house, log) else {
        return Err(Fault::from("memory"));
    };
    let Ran {
        core: _,
        journal,
        log: _,
        posts,
        accept_failed: _,
    } = run(rt, prepared, posts);
    Ok(Served { journal, posts })
}
