//! Workers made of what they have, and taken apart again.

ghost use Rattle.std.specs.Prelude.{◌≡◌, ◌+◌, ◌++◌, ◌∷◌, ◌<◌, ◌≤◌, [], length, map, reverse, vec_capacity};
ghost use Rattle.std.specs.List.{list_any};
ghost use Rattle.session_loop.specs.Stories.{is_accept_fault};

use crate::worker::Worker;
use session_asking::Texts;
use session_loop::{Desk, WorkerEnd};

/// A worker with the last post, pass and memory.
fn last_worker<'a, T: Texts, P: Drop, Q: Drop>(
    posts: &mut Vec<P>,
    passes: &mut Vec<Q>,
    desks: &mut Vec<Desk<'a, T>>,
) -> Worker<'a, T, P, Q>
    requires some { 0 < length posts.old.items }
    requires passes { length passes.old.items ≡ length posts.old.items }
    requires desks { length desks.old.items ≡ length posts.old.items }
    ensures posts { posts.old.items ≡ posts.new.items ++ result.post ∷ [] }
    ensures passes { passes.old.items ≡ passes.new.items ++ result.pass ∷ [] }
    ensures desks { desks.old.items ≡ desks.new.items ++ result.desk ∷ [] }
    ensures room { vec_capacity posts.new ≡ vec_capacity posts.old }
    ensures pass_room { vec_capacity passes.new ≡ vec_capacity passes.old }
{
    let Some(post) = posts.pop() else {
        unreachable!()
    };
    let Some(pass) = passes.pop() else {
        unreachable!()
    };
    let Some(desk) = desks.pop() else {
        unreachable!()
    };
    Worker {
        post,
        pass,
        desk,
        end: WorkerEnd::AllServed,
    }
}

/// Makes a worker of each post, with its pass and its memory, from the last to the first: the workers
/// stand in the reverse of the posts' order.
pub(crate) fn gather<'a, T: Texts, P: Drop, Q: Drop>(
    posts: &mut Vec<P>,
    passes: &mut Vec<Q>,
    desks: &mut Vec<Desk<'a, T>>,
    workers: &mut Vec<Worker<'a, T, P, Q>>,
)
    requires passes { length passes.old.items ≡ length posts.old.items }
    requires desks { length desks.old.items ≡ length posts.old.items }
    requires none { workers.old.items ≡ [] }
    requires room { length posts.old.items ≤ vec_capacity workers.old }
    ensures posts { (posts.new.items ≡ []) × (reverse (map (λ w. w.post) workers.new.items) ≡ posts.old.items) }
    ensures passes { (passes.new.items ≡ []) × (reverse (map (λ w. w.pass) workers.new.items) ≡ passes.old.items) }
    ensures desks { reverse (map (λ w. w.desk) workers.new.items) ≡ desks.old.items }
    ensures room { (vec_capacity posts.new ≡ vec_capacity posts.old)
        × (vec_capacity passes.new ≡ vec_capacity passes.old) }
{
    for _ in 0..posts.len() {
        workers.push_reserved(last_worker(posts, passes, desks));
    }
}

/// Takes the workers apart, from the last to the first: their posts and passes stand in the reverse of
/// the workers' order. Whether one of them ended because an accept failed.
pub(crate) fn part<'a, T: Texts, P: Drop, Q: Drop>(
    workers: Vec<Worker<'a, T, P, Q>>,
    posts: &mut Vec<P>,
    passes: &mut Vec<Q>,
) -> bool
    requires room { length posts.old.items + length workers.items ≤ vec_capacity posts.old }
    requires pass_room { length passes.old.items + length workers.items ≤ vec_capacity passes.old }
    ensures posts { posts.new.items ≡ posts.old.items ++ reverse (map (λ w. w.post) workers.entry.items) }
    ensures passes { passes.new.items ≡ passes.old.items ++ reverse (map (λ w. w.pass) workers.entry.items) }
    ensures failed { result ≡ list_any (λ w. is_accept_fault w.end) workers.entry.items }
{
    let mut workers = workers;
    let mut failed = false;
    for _ in 0..workers.len() {
        let Some(worker) = workers.pop() else {
            unreachable!()
        };
        let Worker {
            post,
            pass,
            end,
            ..
        } = worker;
        posts.push_reserved(post);
        passes.push_reserved(pass);
        failed |= end.is_accept_fault();
    }
    failed
}
