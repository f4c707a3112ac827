//! The posts of a drill.

ghost use Rattle.std.specs.Prelude.{◌≡◌, ◌<◌, ◌≤◌, IfOk, IsTrue, length};
ghost use Rattle.std.specs.List.{list_all, list_any};
ghost use Rattle.outside_memory.specs.QuietPost.{scene_of};
ghost use Rattle.service_model.specs.Stories.{is_stop};
ghost use Rattle.drill_mode.specs.Posts.{AreNewPosts, IsNewPost, tells_whole};

use drill_plan::{WORKERS, drill_scripts};
use outside::{Accepted, Act};
use outside_memory::{Pieces, PostRoom, QuietPost};
use std::alloc::{AllocError, Global};

/// How many acts a worker has at most in the drill of 1: eight sessions, and a last accept.
const ACTS: usize = 96;

/// How many children it has: two of each session that logs in, and one of any other.
const CHILDREN: usize = 10;

/// How many buffers it fills: a session that logs in takes two for the name and the bytes of what it
/// writes, one for the write as it is told, and one for the read.
const BUFFERS: usize = 8;

/// The size of a buffer, in bytes: more than any child of a drill says or is told.
const BUFFER_LEN: usize = 192;

/// The moment at which a drill takes place, in milliseconds.
const MOMENT: u64 = 1_000;

/// The posts of the drill of `n`, one for each worker.
///
/// # Errors
///
/// There isn't the memory.
pub(crate) fn drill_posts(alloc: Global, n: u32) -> Result<Vec<QuietPost>, AllocError>
    requires low { 1 ≤ n }
    requires high { n ≤ 64 }
    ensures count { IfOk result (λ posts. length posts.items ≡ 4) }
    ensures each { IfOk result (λ posts. AreNewPosts n posts.items) }
{
    let mut posts = Vec::with_capacity(alloc, WORKERS as usize)?;
    for worker in 0..WORKERS {
        posts.push(drill_post(alloc, n, worker)?)?;
    }
    Ok(posts)
}

/// The post of a worker.
fn drill_post(alloc: Global, n: u32, worker: u32) -> Result<QuietPost, AllocError>
    requires low { 1 ≤ n }
    requires high { n ≤ 64 }
    requires below { worker < 4 }
    ensures { IfOk result (IsNewPost n worker) }
{
    let times = n as usize;
    let room = PostRoom {
        acts: ACTS * times,
        talks: CHILDREN * times,
        pieces: Pieces {
            count: BUFFERS * times,
            size: BUFFER_LEN,
        },
    };
    let scripts = drill_scripts(alloc, n, worker)?;
    QuietPost::new(alloc, scripts, &[BUFFER_LEN], &[MOMENT], room)
}

/// Whether all posts told what was asked of them to the end, and each had a connection whenever its
/// worker waited for one.
pub(crate) fn tell_whole(posts: &[QuietPost]) -> bool
    ensures { result ≡ list_all (λ post. tells_whole (scene_of post)) posts.now }
{
    posts.iter().all(tells_whole)
}

/// Whether a post did.
fn tells_whole(post: &QuietPost) -> bool
    ensures { result ≡ tells_whole (scene_of post.now) }
{
    post.tells() && !has_stop(post.acts())
}

/// Whether a worker waited for a connection, and none came.
fn has_stop(acts: &[Act]) -> bool
    ensures { result ≡ list_any is_stop acts.now }
{
    acts.iter().any(is_stop)
}

/// Whether an act is an accept by which no connection came.
fn is_stop(act: &Act) -> bool
    ensures { result ≡ is_stop act.now }
{
    matches!(
        act,
        Act::Accept {
            outcome: Accepted::NoneLeft | Accepted::Failed
        }
    )
}
