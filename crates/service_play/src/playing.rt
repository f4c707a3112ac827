//! A run of the mode `serve` in memory: what it is made of, and what came of it.

ghost use Rattle.std.specs.Prelude.{◌≤◌, All, IfOk};
ghost use Rattle.outside_memory.specs.MemPost.{faults_of, scene_of};
ghost use Rattle.outside.specs.Scene.{IsFresh};

use info_hooks::Hooks;
use outside::{Bytes, Place, Post, Word};
use outside_memory::{Fail, MemFiles, MemPost, MemSink, MemSite, Script};
use policy_model::Event;
use request_catalogue::Label;
use serve_mode::{ServeCommand, Served, run_serve};
use std::alloc::{AllocError, Global};
use std::sync::Wait;
use std::test::Fail as Fault;
use std::thread::Threads;
use trouble::status_of;

/// What the other sides of one connection send.
#[derive(Clone, Copy)]
pub struct Session<'a> {
    pub client: &'a [u8],
    pub pre: &'a [u8],
    pub user: &'a [u8],
}

/// What a run is made of.
#[derive(Drop)]
pub struct Play<'a> {
    /// The name by which the setup's file is asked for; empty: the plain setup.
    pub name: &'a str,
    /// What stands in the file `setup`.
    pub setup: &'a [u8],
    /// What stands in the file `list`.
    pub list: &'a [u8],
    /// The connections that come to each worker.
    pub sessions: &'a [Session<'a>],
    /// In pieces of how many bytes the other sides send.
    pub piece: usize,
    /// The calls that fail.
    pub fails: &'a [Fail],
}

/// What came of a run.
#[derive(Drop)]
pub struct Came<P> {
    pub status: u8,
    /// How often the site listened.
    pub listens: usize,
    /// Where it listened, if it did so once.
    pub place: Option<Place>,
    pub journal: Vec<Event>,
    pub log: MemSink,
    pub posts: Vec<P>,
    pub files: MemFiles,
}

/// The name of bob's file.
///
/// # Errors
///
/// Never.
pub fn notes() -> Result<Label, Fault> {
    Ok(Label::of(b"notes").ok_or("a label")?)
}

/// What the other sides of a connection send.
fn script(alloc: Global, session: &Session<'_>) -> Result<Script, AllocError> {
    Ok(Script {
        client: Bytes::of(alloc, session.client)?,
        pre: Bytes::of(alloc, session.pre)?,
        user: Bytes::of(alloc, session.user)?,
    })
}

/// A post of a play's connections. Bob's file holds `old` and a newline, and the clock stands at 1,000.
fn post(alloc: Global, play: &Play<'_>) -> Result<MemPost, Fault>
    requires { 1 ≤ play.now.piece }
    ensures { IfOk result (IsFresh scene_of faults_of) }
{
    let mut scripts = Vec::new(alloc);
    for session in play.sessions {
        scripts.push(script(alloc, session)?)?;
    }
    let mut post = MemPost::new(alloc, scripts, &[play.piece], &[1_000], 400, play.fails)?;
    post.keep(1_001, &notes()?, b"old\n")?;
    Ok(post)
}

/// So many posts of a play's connections.
///
/// # Errors
///
/// There isn't the memory.
pub fn posts_of(alloc: Global, play: &Play<'_>, workers: u32) -> Result<Vec<MemPost>, Fault>
    requires { 1 ≤ play.now.piece }
    ensures { IfOk result (λ posts. All (IsFresh scene_of faults_of) posts.items) }
{
    let mut posts = Vec::new(alloc);
    for _ in 0..workers {
        posts.push(post(alloc, play)?)?;
    }
    Ok(posts)
}

/// A file of these bytes.
fn file(alloc: Global, name: &str, bytes: &[u8]) -> Result<(Word, Bytes), AllocError> {
    Ok((Word::of(alloc, name.as_bytes())?, Bytes::of(alloc, bytes)?))
}

/// The place where a site listened, if it listened once.
fn place_of(alloc: Global, places: &[Place]) -> Result<Option<Place>, AllocError> {
    match places {
        [place] => Ok(Some(place.copy(alloc)?)),
        _ => Ok(None),
    }
}

/// What a run is made over: its files, its log and its site.
#[derive(Drop)]
struct Sides<P: Post> {
    files: MemFiles,
    log: MemSink,
    site: MemSite<P>,
}

/// The files that a play reads.
fn files_of(alloc: Global, play: &Play<'_>) -> Result<MemFiles, AllocError> {
    let setup = file(alloc, "setup", play.setup)?;
    let pairs = vec![in alloc; setup, file(alloc, "list", play.list)?]?;
    MemFiles::new(alloc, pairs.as_slice(), play.fails)
}

/// What a play is run over, at this site.
fn sides_of<P: Post>(
    alloc: Global,
    play: &Play<'_>,
    site: MemSite<P>,
) -> Result<Sides<P>, AllocError> {
    let files = files_of(alloc, play)?;
    let log = MemSink::new(alloc, play.fails)?;
    Ok(Sides { files, log, site })
}

/// The command that asks for the setup of this name.
fn command_of<'a>(name: &'a str) -> ServeCommand<'a> {
    match name {
        "" => ServeCommand::Plain,
        name => ServeCommand::Named {
            setup: name,
            log: None,
        },
    }
}

/// What came of a run that listened at these places.
fn came_of<P: Post>(
    alloc: Global,
    served: Served<P, MemSink>,
    files: MemFiles,
    places: &[Place],
) -> Result<Came<P>, Fault> {
    let Served {
        end,
        journal,
        log,
        posts,
    } = served;
    let place = place_of(alloc, places)?;
    Ok(Came {
        status: status_of(&end),
        listens: places.len(),
        place,
        journal,
        log,
        posts,
        files,
    })
}

/// Serves over these sides, with this information.
fn serve_over<P: Post, R: Threads + Wait + Sync>(
    rt: &R,
    alloc: Global,
    play: &Play<'_>,
    sides: Sides<P>,
    hooks: &Hooks,
) -> Result<Came<P>, Fault> {
    let Sides {
        mut files,
        log,
        mut site,
    } = sides;
    let command = command_of(play.name);
    let served = run_serve(rt, alloc, &command, &mut files, &mut site, log, hooks);
    came_of(alloc, served, files, site.listens())
}

/// Serves at a site of these posts, with this information.
///
/// # Errors
///
/// There isn't the memory for the play itself.
pub fn serve<P: Post, R: Threads + Wait + Sync>(
    rt: &R,
    alloc: Global,
    play: &Play<'_>,
    posts: Vec<P>,
    hooks: &Hooks,
) -> Result<Came<P>, Fault>
    requires { All (IsFresh P.scene P.faults) posts.items }
{
    let site = MemSite::new(alloc, posts)?;
    let sides = sides_of(alloc, play, site)?;
    serve_over(rt, alloc, play, sides, hooks)
}

/// Serves all connections of so many workers in memory, with this information.
///
/// # Errors
///
/// There isn't the memory for the play itself.
pub fn come_with<R: Threads + Wait + Sync>(
    rt: &R,
    alloc: Global,
    play: &Play<'_>,
    workers: u32,
    hooks: &Hooks,
) -> Result<Came<MemPost>, Fault>
    requires { 1 ≤ play.now.piece }
{
    serve(rt, alloc, play, posts_of(alloc, play, workers)?, hooks)
}

/// Serves all connections of so many workers in memory, with no information.
///
/// # Errors
///
/// There isn't the memory for the play itself.
pub fn come<R: Threads + Wait + Sync>(
    rt: &R,
    alloc: Global,
    play: &Play<'_>,
    workers: u32,
) -> Result<Came<MemPost>, Fault>
    requires { 1 ≤ play.now.piece }
{
    let hooks = Hooks::new(Vec::new(alloc)).ok().ok_or("hooks")?;
    come_with(rt, alloc, play, workers, &hooks)
}
